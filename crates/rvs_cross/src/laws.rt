// What reading means.
ghost use Rattle.rvs_cross.specs.Alone.{AloneIsRead};

/// Each mnemonic alone is read as a place that lists it.
pub fn one_mnemonic_is_read()
    ensures { AloneIsRead }
{}
