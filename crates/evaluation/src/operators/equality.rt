//! The operators that take values of any one sort.

ghost use Rattle.std.specs.Prelude.{◌≡◌, ◌∷◌, ◌<◌, [], All, cond, length};
ghost use Rattle.std.specs.List.{list_any};
ghost use Rattle.smt_terms.specs.Operators.{first_value, second_value, third_value, all_distinct};
ghost use Rattle.smt_terms.specs.Values.{is_true};
ghost use Rattle.smt_terms.specs.Values as plain;
ghost use Rattle.smt_values.specs.Meaning.{meaning, IsHeld};
ghost use Rattle.smt_values.specs.SizeTable.{sizes_by};
ghost use Rattle.smt_values.specs.SortIds.{sort_at, IsSortId};
ghost use Rattle.smt_values.specs.Valid.{IsValue};
ghost use Rattle.models.specs.GraphRows.{meanings, AreValues};

use smt_terms::SortId;
use smt_values::{Scalar, Sizes, SortTable, Value, same};

/// Whether two values of a sort are equal.
pub(crate) fn are_equal(args: &[Value], sort: SortId, sorts: &SortTable, sizes: &Sizes) -> bool
    requires sort { IsSortId sorts.now sort }
    requires two { length args.now ≡ 2 }
    requires args { AreValues (sort_at sorts.now sort ∷ sort_at sorts.now sort ∷ []) (sizes_by sorts.now sizes.now) args.now }
    ensures { result ≡ plain.same (sort_at sorts.now sort) (sizes_by sorts.now sizes.now) (first_value (meanings args.now)) (second_value (meanings args.now)) }
{
    same(&args[0], &args[1], sort, sorts, sizes)
}

// Whether a value of a sort equals one of these others.
fn is_among(value: &Value, others: &[Value], sort: SortId, sorts: &SortTable, sizes: &Sizes) -> bool
    requires sort { IsSortId sorts.now sort }
    requires value { IsValue (sort_at sorts.now sort) (sizes_by sorts.now sizes.now) value.now }
    requires others { All (IsValue (sort_at sorts.now sort) (sizes_by sorts.now sizes.now)) others.now }
    ensures { result ≡ list_any (plain.same (sort_at sorts.now sort) (sizes_by sorts.now sizes.now) (meaning value.now)) (meanings others.now) }
{
    for other in others {
        if same(value, other, sort, sorts, sizes) {
            return true;
        }
    }
    false
}

/// Whether no two of these values of a sort are equal.
pub(crate) fn are_distinct(args: &[Value], sort: SortId, sorts: &SortTable, sizes: &Sizes) -> bool
    requires sort { IsSortId sorts.now sort }
    requires args { All (IsValue (sort_at sorts.now sort) (sizes_by sorts.now sizes.now)) args.now }
    ensures { result ≡ all_distinct (plain.same (sort_at sorts.now sort) (sizes_by sorts.now sizes.now)) (meanings args.now) }
{
    for (i, value) in args.iter().enumerate() {
        if is_among(value, &args[i + 1..], sort, sorts, sizes) {
            return false;
        }
    }
    true
}

/// The second value where the first is true, else the third.
pub(crate) fn chosen(args: Vec<Value>) -> Value
    requires three { length args.items ≡ 3 }
    requires held { All IsHeld args.items }
    ensures value { meaning result ≡ cond (is_true (first_value (meanings args.items))) (second_value (meanings args.items)) (third_value (meanings args.items)) }
    ensures held { IsHeld result }
{
    let mut args = args;
    let place = match args[0] {
        Value::Scalar(Scalar::Truth(true)) => 1,
        _ => 2,
    };
    args.swap_remove(place)
}
