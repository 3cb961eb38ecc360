// What a test claims.
ghost use Rattle.std.specs.Prelude.{◌≡◌};
ghost use Rattle.rvs_test_text.specs.Claims.{case_at, claims_after};

/// That a case hits a point.
#[derive(Clone, Copy)]
pub struct Claim {
    /// The number of the case, from 0.
    pub case: usize,
    /// The place of the point in the label.
    pub point: usize,
}

/// The case of a point, where the first of the claims that are left is of it.
pub fn case_at(claims: &[Claim], place: usize) -> Option<usize>
    ensures { result ≡ case_at claims.now place }
{
    let claim = claims.first()?;
    if claim.point == place {
        Some(claim.case)
    } else {
        None
    }
}

/// The claims that are left behind it.
pub fn claims_after(claims: &[Claim], place: usize) -> &[Claim]
    ensures { result.now ≡ claims_after claims.now place }
{
    match claims {
        [claim, after @ ..] if claim.point == place => after,
        _ => claims,
    }
}
