// Values that are let go.
ghost use Rattle.std.specs.Prelude.{◌≡◌, ◌∷◌, ◌++◌, [], Ok, IfOk};

use std::alloc::AllocError;

/// What was made, with the other value; where nothing was made, the other value is let go.
pub(crate) fn beside<T, U: Drop>(
    made: Result<T, AllocError>,
    other: U,
) -> Result<(T, U), AllocError>
    ensures { IfOk result (λ p. (made ≡ Ok p.0) × (p.1 ≡ other)) }
{
    match made {
        Ok(made) => Ok((made, other)),
        Err(cause) => Err(cause),
    }
}

/// These items and one more, with another value. Where memory is short, all are let go.
pub(crate) fn pushed<T: Drop, U: Drop>(
    mut items: Vec<T>,
    item: T,
    other: U,
) -> Result<(Vec<T>, U), AllocError>
    ensures items { IfOk result (λ p. p.0.items ≡ items.items ++ item ∷ []) }
    ensures other { IfOk result (λ p. p.1 ≡ other) }
{
    items.push(item)?;
    Ok((items, other))
}
