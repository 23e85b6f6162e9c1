//! Two arrays that are equal although their default values differ, since their keys are all values of the index sort; and
//! an array of so many keys that they are found by hashing.

ghost use Rattle.std.specs.Prelude.{◌≡◌, ◌+◌, ◌<◌, IfOk, IsTrue, pos};
ghost use Rattle.smt_terms.specs.Sorts.{array, int};
ghost use Rattle.smt_terms.specs.Values as plain;
ghost use Rattle.smt_terms.specs.Values.{is_value};
ghost use Rattle.smt_values.specs.Meaning.{meaning, IsHeld};
ghost use Rattle.smt_values.specs.SizeTable.{sizes_by};
ghost use Rattle.smt_values.specs.Tables.{as_value};

use smt_terms::SortId;
use smt_values::{ArrayValue, Scalar, Sizes, SortTable, Value, same, select, store};
use std::alloc::{AllocError, Global};
use std::test::Fail;

#[test]
fn stored_everywhere(rt: HostRuntime) -> Result<(), Fail> {
    let alloc = rt.alloc();
    let mut sorts = SortTable::new(alloc);
    let sort = sorts.array(SortId::BOOL, SortId::INT)?;
    let sizes = Sizes::new(alloc);
    let ones = ArrayValue::new(alloc, Value::Scalar(Scalar::Whole(1)));
    let zeros = ArrayValue::new(alloc, Value::Scalar(Scalar::Whole(0)));
    let half = store(
        alloc,
        zeros,
        Value::Scalar(Scalar::Truth(true)),
        Value::Scalar(Scalar::Whole(1)),
        &sorts,
        SortId::BOOL,
        &sizes,
    )?;
    let key = Value::Scalar(Scalar::Truth(false));
    let before = select(&half, &key, &sorts, SortId::BOOL, &sizes);
    assert!(rt; matches!(before, Value::Scalar(Scalar::Whole(0))));
    let full = store(
        alloc,
        half,
        Value::Scalar(Scalar::Truth(false)),
        Value::Scalar(Scalar::Whole(1)),
        &sorts,
        SortId::BOOL,
        &sizes,
    )?;
    let ones = Value::Array(Box::new(alloc, ones)?);
    let full = Value::Array(Box::new(alloc, full)?);
    assert!(rt; same(&ones, &full, sort, &sorts, &sizes));
    Ok(())
}

fn whole(number: u8) -> Value
    ensures value { meaning result ≡ plain.whole (pos number) }
    ensures held { IsHeld result }
{
    Value::Scalar(Scalar::Whole(i128::from(number)))
}

// Stores at each of these keys the number that is so much above it.
fn filled(
    alloc: Global,
    numbers: ArrayValue,
    keys: (u8, u8),
    above: u8,
    sorts: &SortTable,
    sizes: &Sizes,
) -> Result<ArrayValue, AllocError>
    requires numbers { IsTrue (is_value (array int int) (sizes_by sorts.now sizes.now) (as_value numbers)) }
    requires fits { keys.1 + above < 256 }
    ensures { IfOk result (λ a. IsTrue (is_value (array int int) (sizes_by sorts.now sizes.now) (as_value a))) }
{
    let mut numbers = numbers;
    for key in keys.0..keys.1 {
        let value = whole(key + above);
        numbers = store(alloc, numbers, whole(key), value, sorts, SortId::INT, sizes)?;
    }
    Ok(numbers)
}

// Whether the array has at each of these keys the number that is so much above it.
fn reads(numbers: &ArrayValue, keys: (u8, u8), above: u8, sorts: &SortTable, sizes: &Sizes) -> bool
    requires numbers { IsTrue (is_value (array int int) (sizes_by sorts.now sizes.now) (as_value numbers.now)) }
    requires fits { keys.1 + above < 256 }
{
    for key in keys.0..keys.1 {
        match select(numbers, &whole(key), sorts, SortId::INT, sizes) {
            Value::Scalar(Scalar::Whole(n)) if *n == i128::from(key + above) => (),
            _ => return false,
        }
    }
    true
}

#[test]
fn many_keys(rt: HostRuntime) -> Result<(), Fail> {
    let alloc = rt.alloc();
    let sorts = SortTable::new(alloc);
    let sizes = Sizes::new(alloc);
    let numbers = ArrayValue::new(alloc, whole(240));
    let numbers = filled(alloc, numbers, (0, 40), 0, &sorts, &sizes)?;
    let numbers = filled(alloc, numbers, (10, 20), 100, &sorts, &sizes)?;
    assert!(rt; numbers.len() == 40);
    assert!(rt; reads(&numbers, (0, 10), 0, &sorts, &sizes));
    assert!(rt; reads(&numbers, (10, 20), 100, &sorts, &sizes));
    assert!(rt; reads(&numbers, (20, 40), 0, &sorts, &sizes));
    assert!(rt; reads(&numbers, (40, 41), 200, &sorts, &sizes));
    Ok(())
}
