//! What the program says on its error stream: one line at each status but `Done`.

ghost use Rattle.std.specs.Prelude.{◌≡◌, ◌++◌, ◌+◌, ◌≤◌, ◌⊎◌, length, map, codes, string_bytes, OnOk, OnErr};
ghost use Rattle.arrayvec.specs.ArrayString.{array_string_len};
ghost use Rattle.smt_io.specs.Counts.{Rose};
ghost use Rattle.smt_io.specs.Told.{with_bytes};
ghost use Rattle.smt_terms.specs.Numeral.{numeral};
ghost use Rattle.smtrw_answers.specs.Answers.{cause_name, cause_text, err_line, place_text, program_line, usage_text, word_at, word_text};
ghost use Rattle.smtrw_answers.specs.Said.{GotPrefix};

use crate::status::{Status, Usage, Why};
use arrayvec::ArrayString;
use itoa::Buffer;
use script_read::Refusal;
use smt_io::{Failed, Sink, send_all};

/// Room for the longest line without the name of a file.
const ROOM: usize = 160;

/// Says on the error stream what went wrong, in one line, and nothing at `Done`. A fault of that stream changes nothing; then
/// a prefix of the line was sent. `words` are the program's, of which a failed read names one. It takes no memory.
pub fn complain<E: Sink>(err: &mut E, status: &Status, words: &[String])
    ensures silent { status.now ≡ Status.Done → E.sent err.new ≡ E.sent err.old }
    ensures prefix { GotPrefix (E.sent err.old) (E.sent err.new)
        (err_line status.now (map string_bytes words.now)) }
    ensures whole { Rose (E.faults err.old) (E.faults err.new)
        ⊎ (E.sent err.new ≡ with_bytes (E.sent err.old) (err_line status.now (map string_bytes words.now))) }
{
    match status {
        Status::Done => {}
        Status::ReadFailed { word } => say_unread(err, name_of(words, *word)),
        Status::WriteFailed => say(err, "smtrw: writing failed\n"),
        Status::OutOfMemory => say(err, "smtrw: out of memory\n"),
        Status::Refused(refusal) => say(err, refusal_line(refusal).as_str()),
        Status::Usage(usage) => say(err, usage_line(usage).as_str()),
        Status::ModelRefused { code, line, byte } => {
            say(err, model_line(*code, *line, *byte).as_str());
        }
        Status::Beyond128 { assertion } => say(err, beyond_line(*assertion).as_str()),
        Status::PassRefused { code, assertion } => {
            say(err, pass_line(*code, *assertion).as_str());
        }
    }
}

fn say<E: Sink>(err: &mut E, line: &str)
    ensures prefix { GotPrefix (E.sent err.old) (E.sent err.new) line.now }
    ensures whole { Rose (E.faults err.old) (E.faults err.new)
        ⊎ (E.sent err.new ≡ with_bytes (E.sent err.old) line.now) }
{
    let _ = send_all(err, line.as_bytes());
}

/// The word of a number, counted from 1.
fn name_of(words: &[String], number: u32) -> &str
    ensures { result.now ≡ word_at (map string_bytes words.now) number }
{
    match words.get(number.saturating_sub(1) as usize) {
        Some(word) => word.as_str(),
        None => "",
    }
}

/// Says that a file wasn't read. Its name may be of any length.
fn say_unread<E: Sink>(err: &mut E, name: &str)
    ensures prefix { GotPrefix (E.sent err.old) (E.sent err.new)
        (program_line (codes "reading " ++ name.now ++ codes " failed")) }
    ensures whole { Rose (E.faults err.old) (E.faults err.new)
        ⊎ (E.sent err.new ≡ with_bytes (E.sent err.old) (program_line (codes "reading " ++ name.now ++ codes " failed"))) }
{
    let _ = send_unread(err, name);
}

fn send_unread<E: Sink>(err: &mut E, name: &str) -> Result<(), Failed>
    ensures ok { OnOk result (E.sent err.new ≡ with_bytes (E.sent err.old)
        (program_line (codes "reading " ++ name.now ++ codes " failed"))) }
    ensures prefix { OnErr result (GotPrefix (E.sent err.old) (E.sent err.new)
        (program_line (codes "reading " ++ name.now ++ codes " failed"))) }
    ensures cause { OnErr result (Rose (E.faults err.old) (E.faults err.new)) }
{
    send_all(err, b"smtrw: reading ")?;
    send_all(err, name.as_bytes())?;
    send_all(err, b" failed\n")?;
    Ok(())
}

/// The line of a refused script.
fn refusal_line(refusal: &Refusal) -> ArrayString<ROOM>
    ensures { result.bytes ≡ program_line (codes "script refused: " ++ cause_text refusal.now.code
        ++ codes " at command " ++ numeral refusal.now.command
        ++ codes ", " ++ place_text refusal.now.line refusal.now.byte) }
{
    let mut line = begun("smtrw: script refused: ");
    push_cause(&mut line, refusal.code);
    line.push_str(" at command ");
    push_number(&mut line, refusal.command);
    line.push_str(", ");
    push_place(&mut line, refusal.line, refusal.byte);
    line.push_str("\n");
    line
}

/// The line of a refused model.
fn model_line(code: u16, number: u64, byte: u64) -> ArrayString<ROOM>
    ensures { result.bytes ≡ program_line (codes "model refused: " ++ cause_text code
        ++ codes " at " ++ place_text number byte) }
{
    let mut line = begun("smtrw: model refused: ");
    push_cause(&mut line, code);
    line.push_str(" at ");
    push_place(&mut line, number, byte);
    line.push_str("\n");
    line
}

/// The line of a value that isn't in range.
fn beyond_line(assertion: u64) -> ArrayString<ROOM>
    ensures { result.bytes ≡ program_line (codes "value beyond 128 bits in assertion " ++ numeral assertion) }
{
    let mut line = begun("smtrw: value beyond 128 bits in assertion ");
    push_number(&mut line, assertion);
    line.push_str("\n");
    line
}

/// The line of a pass that refuses an assertion.
fn pass_line(code: u16, assertion: u64) -> ArrayString<ROOM>
    ensures { result.bytes ≡ program_line (codes "pass refused: " ++ cause_text code
        ++ codes " in assertion " ++ numeral assertion) }
{
    let mut line = begun("smtrw: pass refused: ");
    push_cause(&mut line, code);
    line.push_str(" in assertion ");
    push_number(&mut line, assertion);
    line.push_str("\n");
    line
}

/// The line of a fault of the words.
fn usage_line(usage: &Usage) -> ArrayString<ROOM>
    ensures { result.bytes ≡ program_line (usage_text usage.now.word usage.now.why) }
{
    match usage.why {
        Why::Missing => word_line(usage.word, "Missing"),
        Why::UnknownCommand => word_line(usage.word, "UnknownCommand"),
        Why::BadOption => word_line(usage.word, "BadOption"),
        Why::Repeated => word_line(usage.word, "Repeated"),
        Why::BadValue => word_line(usage.word, "BadValue"),
        Why::BadPass => word_line(usage.word, "BadPass"),
        Why::AfterRules => word_line(usage.word, "AfterRules"),
        Why::Extra => word_line(usage.word, "Extra"),
        Why::TwoInputs => word_line(usage.word, "TwoInputs"),
        Why::NoSuchCheck { check, checks } => check_line(check, checks),
    }
}

fn word_line(word: u32, fault: &str) -> ArrayString<ROOM>
    requires { length fault.now ≤ 20 }
    ensures { result.bytes ≡ program_line (word_text word fault.now) }
{
    let mut line = begun("smtrw: usage: word ");
    push_number(&mut line, u64::from(word));
    line.push_str(": ");
    line.push_str(fault);
    line.push_str("\n");
    line
}

fn check_line(check: u64, checks: u64) -> ArrayString<ROOM>
    ensures { result.bytes ≡ program_line (codes "usage: check " ++ numeral check ++ codes " of " ++ numeral checks) }
{
    let mut line = begun("smtrw: usage: check ");
    push_number(&mut line, check);
    line.push_str(" of ");
    push_number(&mut line, checks);
    line.push_str("\n");
    line
}

fn begun(text: &str) -> ArrayString<ROOM>
    requires { length text.now ≤ 50 }
    ensures { result.bytes ≡ text.now }
{
    let mut line = ArrayString::new();
    line.push_str(text);
    line
}

/// Appends the number of a cause and its name.
fn push_cause(line: &mut ArrayString<ROOM>, code: u16)
    requires { array_string_len line.old + 40 ≤ 160 }
    ensures bytes { line.new.bytes ≡ line.old.bytes ++ cause_text code }
    ensures within { array_string_len line.new ≤ array_string_len line.old + 40 }
{
    push_number(line, u64::from(code));
    line.push_str(" ");
    line.push_str(cause_name_of(code));
}

/// Appends a place.
fn push_place(line: &mut ArrayString<ROOM>, number: u64, byte: u64)
    requires { array_string_len line.old + 52 ≤ 160 }
    ensures bytes { line.new.bytes ≡ line.old.bytes ++ place_text number byte }
    ensures within { array_string_len line.new ≤ array_string_len line.old + 52 }
{
    line.push_str("line ");
    push_number(line, number);
    line.push_str(", byte ");
    push_number(line, byte);
}

/// Appends a number in decimals.
fn push_number(line: &mut ArrayString<ROOM>, number: u64)
    requires { array_string_len line.old + 20 ≤ 160 }
    ensures bytes { line.new.bytes ≡ line.old.bytes ++ numeral number }
    ensures within { array_string_len line.new ≤ array_string_len line.old + 20 }
{
    let mut digits = Buffer::new();
    line.push_str(digits.format(number));
}

/// The name of a cause.
#[tactic(auto, unfolding(crate::specs::Answers::cause_name))]
fn cause_name_of(code: u16) -> &'static str
    ensures name { result.now ≡ cause_name code }
    ensures short { length result.now ≤ 18 }
{
    match code {
        2 => "TooLong",
        10 => "BadByte",
        11 => "BadToken",
        12 => "OpenText",
        13 => "Unbalanced",
        20 => "WrongArity",
        21 => "WrongSort",
        22 => "WidthLimit",
        23 => "BadIndex",
        30 => "UnknownCommand",
        31 => "UnsupportedCommand",
        32 => "BadForm",
        33 => "UnknownName",
        34 => "Redeclared",
        35 => "ReservedName",
        36 => "PopTooFar",
        37 => "NumberLimit",
        38 => "RealSort",
        39 => "QuantifiedSort",
        40 => "IndexSort",
        41 => "SortArity",
        42 => "UnsupportedOption",
        50 => "QuantifiedUse",
        60 => "ModelForm",
        61 => "ModelSort",
        62 => "NotATable",
        63 => "ModelNumber",
        64 => "ModelTwice",
        71 => "EvalWidth",
        90 => "NotBits",
        95 => "DimacsForm",
        96 => "NotClauses",
        _ => "",
    }
}
