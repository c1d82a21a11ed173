//! Laws of accepted and of refused code.

ghost use Rattle.std.specs.Prelude.{◌≡◌, ℕ};
ghost use Rattle.gw_verify.specs.declared.cause.Cause.{Cause};
ghost use Rattle.gw_verify.specs.Flow.{Forms};
ghost use Rattle.gw_verify.specs.Accepted.{IsAccepted, IsRefusal};
ghost use Rattle.gw_verify.specs.Orderly.{IsOrderly};

/// Accepted code stays within itself and within the scratch words.
pub fn accepted_is_orderly()
    ensures { (forms : Forms) → IsAccepted forms → IsOrderly forms }
{}

/// Code has one refusal at most: one cause, with one place.
pub fn one_refusal()
    ensures { (forms : Forms) (cause other : Cause) (i j : ℕ) → IsRefusal forms cause i → IsRefusal forms other j
        → (cause ≡ other) × (i ≡ j) }
{}
