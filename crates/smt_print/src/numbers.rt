//! Numbers and the indices of operators.

ghost use Rattle.std.specs.Prelude.{◌≡◌, ◌==◌, ◌++◌, ◌∷◌, [], if◌then◌else◌, OnOk};
ghost use Rattle.smt_lex.specs.FormText.{form_text};
ghost use Rattle.smt_lex.specs.Lexicon.{space};
ghost use Rattle.smt_terms.specs.Numeral.{numeral};
ghost use Rattle.term_table.specs.WrittenForms.{indexed_form};

use crate::page::Page;
use itoa::Buffer;
use std::alloc::AllocError;

// Appends a number in decimal digits.
pub(crate) fn push_number(n: u64, out: &mut Page) -> Result<(), AllocError>
    ensures { OnOk result (out.new ≡ out.old ++ numeral n) }
{
    if n < 10 {
        out.push(b'0' + n as u8)?;
        return Ok(());
    }
    if n < 100 {
        out.push_short(&[b'0' + (n / 10) as u8, b'0' + (n % 10) as u8])?;
        return Ok(());
    }
    let mut buffer = Buffer::new();
    out.extend_from_slice(buffer.format(n).as_bytes())?;
    Ok(())
}

// Appends what stands in front of the part of a list at this place.
pub(crate) fn push_separator(place: usize, out: &mut Page) -> Result<(), AllocError>
    ensures { OnOk result (out.new ≡ out.old ++ (if place == 0 then [] else space ∷ [])) }
{
    if place == 0 {
        return Ok(());
    }
    out.push(b' ')?;
    Ok(())
}

// Appends `(_ name index ..)`.
pub(crate) fn push_indexed(name: &[u8], indices: &[u32], out: &mut Page) -> Result<(), AllocError>
    ensures { OnOk result (out.new ≡ out.old ++ form_text (indexed_form name.now indices.now)) }
{
    out.push_short(b"(_ ")?;
    out.extend_from_slice(name)?;
    for index in indices {
        out.push(b' ')?;
        push_number(u64::from(*index), out)?;
    }
    out.push(b')')?;
    Ok(())
}
