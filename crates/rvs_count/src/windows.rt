// Which addresses windows leave.
ghost use Rattle.std.specs.Prelude.{◌≡◌};
ghost use Rattle.std.specs.List.{list_any};
ghost use Rattle.rvs_index.specs.Counting.{is_in, within};

use rvs_base::Window;

fn has(window: &Window, pc: u32) -> bool
    ensures { result ≡ within pc window.now }
{
    window.lo <= pc && pc < window.hi
}

fn any_has(windows: &[Window], pc: u32) -> bool
    ensures { result ≡ list_any (within pc) windows.now }
{
    windows.iter().any(|window| has(window, pc))
}

/// Whether the windows leave an address; without windows all are left.
pub(crate) fn leaves(windows: &[Window], pc: u32) -> bool
    ensures { result ≡ is_in windows.now pc }
{
    windows.is_empty() || any_has(windows, pc)
}
