// Values in boxes.
ghost use Rattle.std.specs.Prelude.{◌≡◌, Ok, IfOk};

use rvs_base::beside;
use std::alloc::{AllocError, Global};

/// What was made, in a box.
#[inline]
pub(crate) fn boxed<T: Drop>(
    alloc: Global,
    made: Result<T, AllocError>,
) -> Result<Box<T>, AllocError>
    ensures { IfOk result (λ b. made ≡ Ok b.value) }
{
    Ok(Box::new(alloc, made?)?)
}

/// What was made, where both were.
#[inline]
pub(crate) fn both<T: Drop, U: Drop>(
    left: Result<T, AllocError>,
    right: Result<U, AllocError>,
) -> Result<(T, U), AllocError>
    ensures { IfOk result (λ p. (left ≡ Ok p.0) × (right ≡ Ok p.1)) }
{
    match left {
        Ok(left) => {
            let (right, left) = beside(right, left)?;
            Ok((left, right))
        }
        Err(cause) => Err(cause),
    }
}

/// What was made, each in a box, where both were.
#[inline]
pub(crate) fn boxes<T: Drop>(
    alloc: Global,
    left: Result<T, AllocError>,
    right: Result<T, AllocError>,
) -> Result<(Box<T>, Box<T>), AllocError>
    ensures { IfOk result (λ p. (left ≡ Ok p.0.value) × (right ≡ Ok p.1.value)) }
{
    both(boxed(alloc, left), boxed(alloc, right))
}
