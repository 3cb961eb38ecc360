// Values that are let go.
ghost use Rattle.std.specs.Prelude.{◌≡◌, Ok, Err, IfOk, IfErr};

/// Lets a value go. A function that lets a value go itself is proved for each shape that the value
/// may have, at each of its exits; here the drop is one call.
#[inline]
pub fn release<T: Drop>(_value: T) {}

/// What was made, with the other value; where nothing was made, the other value is let go.
///
/// # Errors
///
/// That of `made`.
#[inline]
pub fn beside<T, E, U: Drop>(made: Result<T, E>, other: U) -> Result<(T, U), E>
    ensures both { IfOk result (λ p. (made ≡ Ok p.0) × (p.1 ≡ other)) }
    ensures none { IfErr result (λ e. made ≡ Err e) }
{
    match made {
        Ok(made) => Ok((made, other)),
        Err(cause) => Err(cause),
    }
}
