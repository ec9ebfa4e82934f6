//! Equality of whole values: `==` says yes exactly where they are the same.
#![tactic(auto)]

ghost use Rattle.std.specs.Prelude.{◌≡◌, ◌↔◌, IsTrue};

/// A type whose `==` leaves nothing of a value out: values that it calls equal are the same.
pub trait Exact: Eq {
    ghost exact: { (one other : Self) → IsTrue (Self.eq one other) → one ≡ other };
}

/// Whether two values are the same.
pub fn same<T: Exact>(one: &T, other: &T) -> bool
    ensures { IsTrue result ↔ (one.now ≡ other.now) }
{
    one == other
}
