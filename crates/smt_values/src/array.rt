//! Equality of values, and reading and writing arrays.

ghost use Rattle.std.specs.Prelude.{◌≡◌, ℕ, ◌<◌, ◌≤◌, length, IfOk, IfSome, IsTrue};
ghost use Rattle.smt_terms.specs.Values as plain;
ghost use Rattle.smt_values.specs.Meaning.{meaning, pairs_of, IsHeld, AreHeld};
ghost use Rattle.smt_values.specs.Places.{place_from};
ghost use Rattle.smt_values.specs.SizeTable.{sizes_by};
ghost use Rattle.smt_values.specs.SortIds.{sort_at, IsSortId};
ghost use Rattle.smt_values.specs.Tables.{as_value, count};
ghost use Rattle.smt_values.specs.Valid.{IsValue, HasKeys, agree_at, cover_at, has_number};
ghost use Rattle.smt_values.specs.Numbered.{numbered, numbered_at, last_number, IsNumberAt};
ghost use Rattle.smt_terms.specs.Sorts.{Name, array, free_sort};
ghost use Rattle.smt_terms.specs.Values.{is_value, is_key};

use crate::flat_keys::flat_key;
use crate::scalar::Scalar;
use crate::sizes::Sizes;
use crate::sort_table::SortTable;
use crate::value::{ArrayValue, Pair, Value};
use smt_terms::SortId;
use std::alloc::{AllocError, Global};

/// Whether two values of a sort are equal. Arrays are equal where they agree at every key of either, and their default
/// values agree unless these keys are all values of the index sort. It takes no memory.
#[cycle(sameness)]
pub fn same(a: &Value, b: &Value, sort: SortId, sorts: &SortTable, sizes: &Sizes) -> bool
    requires sort { IsSortId sorts.now sort }
    requires a { IsValue (sort_at sorts.now sort) (sizes_by sorts.now sizes.now) a.now }
    requires b { IsValue (sort_at sorts.now sort) (sizes_by sorts.now sizes.now) b.now }
    ensures { result ≡ plain.same (sort_at sorts.now sort) (sizes_by sorts.now sizes.now) (meaning a.now) (meaning b.now) }
{
    match (a, b) {
        (Value::Scalar(a), Value::Scalar(b)) => a == b,
        (Value::Element(a), Value::Element(b)) => a == b,
        (Value::Array(a), Value::Array(b)) => same_arrays(a, b, sort, sorts, sizes),
        _ => false,
    }
}

#[cycle(sameness)]
fn same_arrays(
    a: &ArrayValue,
    b: &ArrayValue,
    sort: SortId,
    sorts: &SortTable,
    sizes: &Sizes,
) -> bool
    requires sort { IsSortId sorts.now sort }
    requires a { IsTrue (is_value (sort_at sorts.now sort) (sizes_by sorts.now sizes.now) (as_value a.now)) }
    requires b { IsTrue (is_value (sort_at sorts.now sort) (sizes_by sorts.now sizes.now) (as_value b.now)) }
    ensures { result ≡ plain.same (sort_at sorts.now sort) (sizes_by sorts.now sizes.now) (as_value a.now) (as_value b.now) }
{
    let Some((index, element)) = sorts.parts(sort) else {
        return false;
    };
    if !agree(a.pairs(), a, b, index, element, sorts, sizes) {
        return false;
    }
    if !agree(b.pairs(), a, b, index, element, sorts, sizes) {
        return false;
    }
    if same(a.fallback(), b.fallback(), element, sorts, sizes) {
        return true;
    }
    cover(a, b, index, sorts, sizes)
}

// Whether two arrays have the same values at the keys of these pairs.
#[cycle(sameness)]
fn agree(
    pairs: &[Pair],
    a: &ArrayValue,
    b: &ArrayValue,
    index: SortId,
    element: SortId,
    sorts: &SortTable,
    sizes: &Sizes,
) -> bool
    requires index { IsSortId sorts.now index }
    requires element { IsSortId sorts.now element }
    requires held { AreHeld pairs.now }
    requires keys { HasKeys (sort_at sorts.now index) (sizes_by sorts.now sizes.now) (pairs_of pairs.now) }
    requires a { IsTrue (is_value (array (sort_at sorts.now index) (sort_at sorts.now element)) (sizes_by sorts.now sizes.now) (as_value a.now)) }
    requires b { IsTrue (is_value (array (sort_at sorts.now index) (sort_at sorts.now element)) (sizes_by sorts.now sizes.now) (as_value b.now)) }
    ensures { result ≡ agree_at (sort_at sorts.now index) (sort_at sorts.now element) (sizes_by sorts.now sizes.now) (pairs_of pairs.now) a.now b.now }
{
    for pair in pairs {
        let left = select(a, &pair.key, sorts, index, sizes);
        let right = select(b, &pair.key, sorts, index, sizes);
        if !same(left, right, element, sorts, sizes) {
            return false;
        }
    }
    true
}

// Whether the keys of two arrays are all values of the index sort: the first value that is no key ends the search, so
// that there are at most as many turns as keys and one more.
#[cycle(sameness)]
fn cover(a: &ArrayValue, b: &ArrayValue, index: SortId, sorts: &SortTable, sizes: &Sizes) -> bool
    requires index { IsSortId sorts.now index }
    requires a { HasKeys (sort_at sorts.now index) (sizes_by sorts.now sizes.now) a.now.pairs }
    requires b { HasKeys (sort_at sorts.now index) (sizes_by sorts.now sizes.now) b.now.pairs }
    ensures { result ≡ cover_at (sort_at sorts.now index) (sizes_by sorts.now sizes.now) a.now b.now }
{
    let Some(last) = last_of(index, sorts, sizes) else {
        return false;
    };
    let mut number: u128 = 0;
    while has_number(a, b, index, number, sorts, sizes) {
        if number == last {
            return true;
        }
        number += 1;
    }
    false
}

// Whether the value of this number is a key of either array.
#[cycle(sameness)]
fn has_number(
    a: &ArrayValue,
    b: &ArrayValue,
    index: SortId,
    number: u128,
    sorts: &SortTable,
    sizes: &Sizes,
) -> bool
    requires index { IsSortId sorts.now index }
    requires number { IsNumberAt index.0 number }
    requires valid { IsTrue (is_value (sort_at sorts.now index) (sizes_by sorts.now sizes.now) (numbered (sort_at sorts.now index) number)) }
    requires same { numbered_at index.0 number ≡ numbered (sort_at sorts.now index) number }
    requires a { HasKeys (sort_at sorts.now index) (sizes_by sorts.now sizes.now) a.now.pairs }
    requires b { HasKeys (sort_at sorts.now index) (sizes_by sorts.now sizes.now) b.now.pairs }
    ensures { result ≡ has_number (sort_at sorts.now index) (sizes_by sorts.now sizes.now) a.now b.now number }
{
    let key = value_of(index, number);
    has_key(a, &key, index, sorts, sizes) || has_key(b, &key, index, sorts, sizes)
}

#[cycle(sameness)]
fn has_key(array: &ArrayValue, key: &Value, index: SortId, sorts: &SortTable, sizes: &Sizes) -> bool
    requires index { IsSortId sorts.now index }
    requires key { IsValue (sort_at sorts.now index) (sizes_by sorts.now sizes.now) key.now }
    requires keys { HasKeys (sort_at sorts.now index) (sizes_by sorts.now sizes.now) array.now.pairs }
    ensures { result ≡ is_key (plain.same (sort_at sorts.now index) (sizes_by sorts.now sizes.now)) (meaning key.now) array.now.pairs }
{
    find(array, key, index, sorts, sizes).is_some()
}

fn last_of(sort: SortId, sorts: &SortTable, sizes: &Sizes) -> Option<u128>
    requires { IsSortId sorts.now sort }
    ensures last { result ≡ last_number (sort_at sorts.now sort) (sizes_by sorts.now sizes.now) }
    ensures numbers { IfSome result (λ last. (n : ℕ) → n ≤ last → IsNumberAt sort.0 n) }
    ensures values { IfSome result (λ last. (n : ℕ) → n ≤ last → IsTrue (is_value (sort_at sorts.now sort) (sizes_by sorts.now sizes.now) (numbered (sort_at sorts.now sort) n))) }
    ensures some { IfSome result (λ _. (name : Name) → sort_at sorts.now sort ≡ free_sort name → 0 < sizes_by sorts.now sizes.now name) }
    ensures same { IfSome result (λ last. (n : ℕ) → numbered_at sort.0 n ≡ numbered (sort_at sorts.now sort) n) }
{
    match sort.0 {
        0 => Some(1),
        1 => None,
        2..=129 => Some(u128::MAX >> (129 - sort.0)),
        _ => {
            sorts.name(sort)?;
            Some(sizes.of(sort) as u128 - 1)
        }
    }
}

// The value of this number of a finite sort.
fn value_of(sort: SortId, number: u128) -> Value
    requires { IsNumberAt sort.0 number }
    ensures held { IsHeld result }
    ensures value { meaning result ≡ numbered_at sort.0 number }
{
    match sort.0 {
        0 => Value::Scalar(Scalar::Truth(number == 1)),
        1..=129 => Value::Scalar(Scalar::Bits {
            width: sort.0 as u32 - 1,
            bits: number,
        }),
        _ => Value::Element(number as u64),
    }
}

// The place of a key.
#[cycle(sameness)]
fn find(
    array: &ArrayValue,
    key: &Value,
    index: SortId,
    sorts: &SortTable,
    sizes: &Sizes,
) -> Option<usize>
    requires index { IsSortId sorts.now index }
    requires key { IsValue (sort_at sorts.now index) (sizes_by sorts.now sizes.now) key.now }
    requires keys { HasKeys (sort_at sorts.now index) (sizes_by sorts.now sizes.now) array.now.pairs }
    ensures within { IfSome result (λ i. i < count array.now.pairs) }
    ensures place { result ≡ place_from 0 (plain.same (sort_at sorts.now index) (sizes_by sorts.now sizes.now)) (meaning key.now) array.now.pairs }
{
    match (array.places(), flat_key(key)) {
        (Some(places), Some(flat)) => places.get_index_of(&flat),
        _ => find_among(array.pairs(), key, index, sorts, sizes),
    }
}

// The place of a key among pairs that are searched one by one.
#[cycle(sameness)]
fn find_among(
    pairs: &[Pair],
    key: &Value,
    index: SortId,
    sorts: &SortTable,
    sizes: &Sizes,
) -> Option<usize>
    requires index { IsSortId sorts.now index }
    requires key { IsValue (sort_at sorts.now index) (sizes_by sorts.now sizes.now) key.now }
    requires keys { HasKeys (sort_at sorts.now index) (sizes_by sorts.now sizes.now) (pairs_of pairs.now) }
    requires held { AreHeld pairs.now }
    ensures within { IfSome result (λ i. i < length pairs.now) }
    ensures place { result ≡ place_from 0 (plain.same (sort_at sorts.now index) (sizes_by sorts.now sizes.now)) (meaning key.now) (pairs_of pairs.now) }
{
    for (i, pair) in pairs.iter().enumerate() {
        if same(&pair.key, key, index, sorts, sizes) {
            return Some(i);
        }
    }
    None
}

/// What the array has at a key: the value of the pair with this key, or the default value. It takes no memory.
#[cycle(sameness)]
pub fn select<'a>(
    array: &'a ArrayValue,
    key: &Value,
    sorts: &SortTable,
    index: SortId,
    sizes: &Sizes,
) -> &'a Value
    requires index { IsSortId sorts.now index }
    requires key { IsValue (sort_at sorts.now index) (sizes_by sorts.now sizes.now) key.now }
    requires keys { HasKeys (sort_at sorts.now index) (sizes_by sorts.now sizes.now) array.now.pairs }
    ensures value { meaning result.now ≡ plain.select (sort_at sorts.now index) (sizes_by sorts.now sizes.now) (as_value array.now) (meaning key.now) }
    ensures held { IsHeld result.now }
{
    match find(array, key, index, sorts, sizes) {
        Some(i) => array.pair(i).1,
        None => array.fallback(),
    }
}

/// The array with a value at a key: a key that is there keeps its place, and a new one goes last. A refusal gives the
/// array up.
pub fn store(
    _alloc: Global,
    array: ArrayValue,
    key: Value,
    value: Value,
    sorts: &SortTable,
    index: SortId,
    sizes: &Sizes,
) -> Result<ArrayValue, AllocError>
    requires index { IsSortId sorts.now index }
    requires key { IsValue (sort_at sorts.now index) (sizes_by sorts.now sizes.now) key }
    requires keys { HasKeys (sort_at sorts.now index) (sizes_by sorts.now sizes.now) array.pairs }
    requires value { IsHeld value }
    ensures { IfOk result (λ a. as_value a ≡ plain.store (sort_at sorts.now index) (sizes_by sorts.now sizes.now) (as_value array) (meaning key) (meaning value)) }
{
    let mut array = array;
    match find(&array, &key, index, sorts, sizes) {
        Some(i) => {
            array.set_value(i, value);
            Ok(array)
        }
        None => {
            array.push(key, value)?;
            Ok(array)
        }
    }
}

/// The default value of a sort: false, 0, zero bits, element 0, or the array that has its element's default everywhere.
pub fn default_value(alloc: Global, sorts: &SortTable, sort: SortId) -> Result<Value, AllocError>
    requires { IsSortId sorts.now sort }
    ensures value { IfOk result (λ v. meaning v ≡ plain.default_value (sort_at sorts.now sort)) }
    ensures held { IfOk result IsHeld }
{
    match sort.0 {
        0 => Ok(Value::Scalar(Scalar::Truth(false))),
        1 => Ok(Value::Scalar(Scalar::Whole(0))),
        2..=129 => Ok(Value::Scalar(Scalar::Bits {
            width: sort.0 as u32 - 1,
            bits: 0,
        })),
        _ => match sorts.parts(sort) {
            Some((_, element)) => {
                let value = default_value(alloc, sorts, element)?;
                let array = Box::new(alloc, ArrayValue::new(alloc, value))?;
                Ok(Value::Array(array))
            }
            None => Ok(Value::Element(0)),
        },
    }
}

/// An equal value, with the pairs of arrays in the same order.
#[cycle(copying)]
pub fn copy_value(alloc: Global, value: &Value) -> Result<Value, AllocError>
    requires { IsHeld value.now }
    ensures value { IfOk result (λ v. meaning v ≡ meaning value.now) }
    ensures held { IfOk result IsHeld }
{
    match value {
        Value::Scalar(scalar) => Ok(Value::Scalar(*scalar)),
        Value::Element(i) => Ok(Value::Element(*i)),
        Value::Array(array) => {
            let copy = copy_array(alloc, array)?;
            Ok(Value::Array(Box::new(alloc, copy)?))
        }
    }
}

#[cycle(copying)]
fn copy_array(alloc: Global, array: &ArrayValue) -> Result<ArrayValue, AllocError>
    ensures { IfOk result (λ a. a ≡ array.now) }
{
    let fallback = copy_value(alloc, array.fallback())?;
    let mut copy = ArrayValue::new(alloc, fallback);
    let pairs = array.pairs();
    for pair in pairs {
        let key = copy_value(alloc, &pair.key)?;
        let value = copy_value(alloc, &pair.value)?;
        copy.push(key, value)?;
    }
    Ok(copy)
}
