//! Values that are found by hashing: all but arrays.

ghost use Rattle.std.specs.Prelude.{◌≡◌, IfNone, IfSome};
ghost use Rattle.smt_values.specs.FlatKeys.{flat_value, IsFlat};
ghost use Rattle.smt_values.specs.Meaning.{meaning, IsHeld};
ghost use Rattle.smt_values.specs.Tables.{Table, as_value};

use crate::scalar::Scalar;
use crate::value::Value;

/// A value that is found by hashing. Two of one sort are equal exactly where they are the same value.
#[derive(Clone, Copy, PartialEq, Eq, Hash)]
pub enum FlatKey {
    /// A truth value, a whole number or a bit vector.
    Scalar(Scalar),
    /// The element with this number, from 0 on, of a declared sort.
    Element(u64),
}

/// A value as a key that is found by hashing, and None for an array. It takes no memory.
pub fn flat_key(value: &Value) -> Option<FlatKey>
    requires { IsHeld value.now }
    ensures value { IfSome result (λ k. flat_value k ≡ meaning value.now) }
    ensures held { IfSome result IsFlat }
    ensures array { IfNone result ((t : Table) × (meaning value.now ≡ as_value t)) }
{
    match value {
        Value::Scalar(scalar) => Some(FlatKey::Scalar(*scalar)),
        Value::Element(i) => Some(FlatKey::Element(*i)),
        Value::Array(_) => None,
    }
}
