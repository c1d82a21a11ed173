//! What holds of the claims after every list of records heard.

ghost use Rattle.std.specs.Prelude.{ℕ, List};
ghost use Rattle.gw_claims.specs.Claims.{AreApart, claims_after};

/// After every list of records heard, a NAME holds at most one address, and an address is held by at
/// most one NAME. A law: it does nothing.
pub fn claims_are_apart()
    ensures { (heard : List (List ℕ)) → AreApart (claims_after heard) }
{}
