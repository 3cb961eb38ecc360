// Why words are not read as a command.
ghost use Rattle.std.specs.Prelude.{◌≡◌};
ghost use Rattle.rvs_words.specs.declared.unread.Unread.TheVariants.{NoMemory};

/// Why words are not read as a command.
#[derive(Drop)]
pub enum Unread {
    /// The words are no command.
    NoCommand,
    /// The allocator refused.
    NoMemory,
}

impl From<rvs_base::NoMemory> for Unread {
    ghost from_gives = { λ _ unread. unread ≡ NoMemory };

    fn from(_: rvs_base::NoMemory) -> Self {
        Unread::NoMemory
    }
}
