//! The operators of arrays.

ghost use Rattle.std.specs.Prelude.{◌≡◌, ◌∷◌, [], true, length, All, IfOk};
ghost use Rattle.smt_terms.specs.Operators.{first_value, second_value, third_value, index_sort};
ghost use Rattle.smt_terms.specs.Rank.{is_array, element_sort};
ghost use Rattle.smt_terms.specs.Values as plain;
ghost use Rattle.smt_values.specs.Meaning.{meaning, IsHeld};
ghost use Rattle.smt_values.specs.SizeTable.{sizes_by};
ghost use Rattle.smt_values.specs.SortIds.{sort_at, IsSortId};
ghost use Rattle.smt_values.specs.Tables.{as_value};
ghost use Rattle.models.specs.GraphRows.{meanings, AreValues};

use smt_terms::SortId;
use smt_values::{ArrayValue, Sizes, SortTable, Value, copy_value, select, store};
use std::alloc::{AllocError, Global};

fn boxed(alloc: Global, array: ArrayValue) -> Result<Value, AllocError>
    ensures value { IfOk result (λ v. meaning v ≡ as_value array) }
    ensures held { IfOk result IsHeld }
{
    Ok(Value::Array(Box::new(alloc, array)?))
}

/// The array that has this one value everywhere.
pub(crate) fn filled(alloc: Global, args: Vec<Value>) -> Result<Value, AllocError>
    requires one { length args.items ≡ 1 }
    requires held { All IsHeld args.items }
    ensures value { IfOk result (λ v. meaning v ≡ plain.table (first_value (meanings args.items)) plain.no_pairs) }
    ensures held { IfOk result IsHeld }
{
    let mut args = args;
    boxed(alloc, ArrayValue::new(alloc, args.swap_remove(0)))
}

/// What an array of this sort has at an index.
pub(crate) fn read(
    alloc: Global,
    args: &[Value],
    sort: SortId,
    sorts: &SortTable,
    sizes: &Sizes,
) -> Result<Value, AllocError>
    requires sort { IsSortId sorts.now sort }
    requires array { is_array (sort_at sorts.now sort) ≡ true }
    requires two { length args.now ≡ 2 }
    requires args { AreValues (sort_at sorts.now sort ∷ index_sort (sort_at sorts.now sort) ∷ []) (sizes_by sorts.now sizes.now) args.now }
    ensures value { IfOk result (λ v. meaning v ≡ plain.select (index_sort (sort_at sorts.now sort)) (sizes_by sorts.now sizes.now) (first_value (meanings args.now)) (second_value (meanings args.now))) }
    ensures held { IfOk result IsHeld }
{
    let Some((index, _)) = sorts.parts(sort) else {
        unreachable!()
    };
    let Value::Array(array) = &args[0] else {
        unreachable!()
    };
    copy_value(alloc, select(array, &args[1], sorts, index, sizes))
}

/// An array of this sort with another value at an index.
pub(crate) fn written(
    alloc: Global,
    args: Vec<Value>,
    sort: SortId,
    sorts: &SortTable,
    sizes: &Sizes,
) -> Result<Value, AllocError>
    requires sort { IsSortId sorts.now sort }
    requires array { is_array (sort_at sorts.now sort) ≡ true }
    requires three { length args.items ≡ 3 }
    requires args { AreValues (sort_at sorts.now sort ∷ index_sort (sort_at sorts.now sort) ∷ element_sort (sort_at sorts.now sort) ∷ []) (sizes_by sorts.now sizes.now) args.items }
    ensures value { IfOk result (λ v. meaning v ≡ plain.store (index_sort (sort_at sorts.now sort)) (sizes_by sorts.now sizes.now) (first_value (meanings args.items)) (second_value (meanings args.items)) (third_value (meanings args.items))) }
    ensures held { IfOk result IsHeld }
{
    let Some((index, _)) = sorts.parts(sort) else {
        unreachable!()
    };
    let mut args = args;
    let value = args.swap_remove(2);
    let key = args.swap_remove(1);
    let Value::Array(array) = args.swap_remove(0) else {
        unreachable!()
    };
    let array = store(
        alloc,
        Box::into_inner(array),
        key,
        value,
        sorts,
        index,
        sizes,
    )?;
    boxed(alloc, array)
}
