//! A text cut at a byte.

ghost use Rattle.std.specs.Prelude.{◌≡◌, ◌∷◌, ◌+◌, ◌≤◌, length, IfSome, ◌==◌};
ghost use Rattle.std.specs.List.{slice_split};
ghost use Rattle.std.specs.Str.Lines.{strip_carriage_return};
ghost use Rattle.dimacs_link.specs.Readings.{parts_behind};

use memchr::memchr;

// The bytes before the first of these, and those behind it where there is one.
pub(crate) fn cut(text: &[u8], at: u8) -> (&[u8], Option<&[u8]>)
    ensures parts { slice_split (λ c. c == at) text.now ≡ result.0.now ∷ parts_behind at result.1 }
    ensures front { length result.0.now ≤ length text.now }
    ensures len { IfSome result.1 (λ rest. length result.0.now + 1 + length rest.now ≡ length text.now) }
{
    match memchr(at, text) {
        Some(end) => (&text[..end], Some(&text[end + 1..])),
        None => (text, None),
    }
}

// A line without the CR at its end.
pub(crate) fn without_return(line: &[u8]) -> &[u8]
    ensures text { result.now ≡ strip_carriage_return line.now }
    ensures len { length result.now ≤ length line.now }
{
    match line.split_last() {
        Some((b'\r', text)) => text,
        _ => line,
    }
}
