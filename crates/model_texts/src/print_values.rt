//! The texts of values.

ghost use Rattle.std.specs.Prelude.{◌≡◌, ◌++◌, IfOk, OnOk};
ghost use Rattle.smt_lex.specs.FormText.{form_text};
ghost use Rattle.smt_lex.specs.Names.{IsName};
ghost use Rattle.smt_terms.specs.Numeral.{numeral};
ghost use Rattle.smt_values.specs.Meaning.{meaning};
ghost use Rattle.smt_values.specs.SortIds.{sort_at, IsSortId};
ghost use Rattle.smt_values.specs.Tables.{as_value};
ghost use Rattle.model_texts.specs.ModelLines.{element_name, element_form, value_form};
ghost use Rattle.model_texts.specs.Printing.{repeated, IsOfSort, IsArrayOf};

use itoa::Buffer;
use smt_lex::symbol_text;
use smt_values::{ArrayValue, SortId, Value};
use std::alloc::{AllocError, Global};
use term_table::{Table, scalar_text, sort_text};

// Appends a number in decimal digits.
pub(crate) fn push_number(n: u64, out: &mut Vec<u8>) -> Result<(), AllocError>
    ensures { OnOk result (out.new.items ≡ out.old.items ++ numeral n) }
{
    let mut buffer = Buffer::new();
    out.extend_from_slice(buffer.format(n).as_bytes())?;
    Ok(())
}

// Appends a part so many times.
pub(crate) fn push_repeated(part: &[u8], times: usize, out: &mut Vec<u8>) -> Result<(), AllocError>
    ensures { OnOk result (out.new.items ≡ out.old.items ++ repeated times part.now) }
{
    for _ in 0..times {
        out.extend_from_slice(part)?;
    }
    Ok(())
}

// The name of an element: `@`, the sort's name, `_` and the number.
fn element_name(alloc: Global, sort: &[u8], number: u64) -> Result<Vec<u8>, AllocError>
    ensures { IfOk result (λ name. name.items ≡ element_name sort.now number) }
{
    let mut name = Vec::new(alloc);
    name.push(b'@')?;
    name.extend_from_slice(sort)?;
    name.push(b'_')?;
    push_number(number, &mut name)?;
    Ok(name)
}

// Appends an element of the sort of this name, as `(as @S_0 S)`.
pub(crate) fn push_element(
    alloc: Global,
    sort: &[u8],
    number: u64,
    out: &mut Vec<u8>,
) -> Result<(), AllocError>
    requires { IsName sort.now }
    ensures { OnOk result (out.new.items ≡ out.old.items ++ form_text (element_form sort.now number)) }
{
    let name = element_name(alloc, sort, number)?;
    out.extend_from_slice(b"(as ")?;
    symbol_text(alloc, &name, out)?;
    out.push(b' ')?;
    symbol_text(alloc, sort, out)?;
    out.push(b')')?;
    Ok(())
}

// Appends a value of this sort.
#[cycle(values)]
pub(crate) fn push_value(
    alloc: Global,
    table: &Table,
    sort: SortId,
    value: &Value,
    out: &mut Vec<u8>,
) -> Result<(), AllocError>
    requires sort { IsSortId table.now.sorts sort }
    requires value { IsOfSort (sort_at table.now.sorts sort) value.now }
    ensures { OnOk result (out.new.items ≡ out.old.items ++ form_text (value_form (sort_at table.now.sorts sort) (meaning value.now))) }
{
    match value {
        Value::Scalar(scalar) => scalar_text(alloc, *scalar, out),
        Value::Element(number) => {
            let Some(name) = table.sorts().name(sort) else {
                unreachable!()
            };
            push_element(alloc, name, *number, out)
        }
        Value::Array(array) => push_array(alloc, table, sort, array, out),
    }
}

// Appends an array of this sort: a `store` for each pair around the array that has the default everywhere.
#[cycle(values)]
fn push_array(
    alloc: Global,
    table: &Table,
    sort: SortId,
    array: &ArrayValue,
    out: &mut Vec<u8>,
) -> Result<(), AllocError>
    requires sort { IsSortId table.now.sorts sort }
    requires value { IsArrayOf (sort_at table.now.sorts sort) array.now }
    ensures { OnOk result (out.new.items ≡ out.old.items ++ form_text (value_form (sort_at table.now.sorts sort) (as_value array.now))) }
{
    let Some((index, element)) = table.sorts().parts(sort) else {
        unreachable!()
    };
    push_repeated(b"(store ", array.len(), out)?;
    out.extend_from_slice(b"((as const ")?;
    sort_text(alloc, table, sort, out)?;
    out.extend_from_slice(b") ")?;
    push_value(alloc, table, element, array.fallback(), out)?;
    out.push(b')')?;
    for place in 0..array.len() {
        let (key, value) = array.pair(place);
        out.push(b' ')?;
        push_value(alloc, table, index, key, out)?;
        out.push(b' ')?;
        push_value(alloc, table, element, value, out)?;
        out.push(b')')?;
    }
    Ok(())
}
