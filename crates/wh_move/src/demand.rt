//! What is left of a demand of which a part is done.

ghost use Rattle.std.specs.Prelude.{◌≡◌, pos, ◌≤ℤ◌, ◌+ℤ◌, ◌-ℤ◌};

/// The part that is done, and the part that is left over for a backorder, in units.
pub fn split(demand: i64, done: i64) -> (i64, i64)
    requires least { pos 0 ≤ℤ done }
    requires most { done ≤ℤ demand }
    ensures done { result.0 ≡ done }
    ensures left { result.1 ≡ demand -ℤ done }
    ensures whole { (result.0 +ℤ result.1) ≡ demand }
    ensures within { pos 0 ≤ℤ result.1 }
{
    (done, demand - done)
}
