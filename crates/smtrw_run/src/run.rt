//! What the program does, from its words to its status.

ghost use Rattle.std.specs.Prelude.{◌≡◌, ◌≤◌, ◌⊎◌, map, string_bytes, vec_len, Ok, IfErr, IfOk};
ghost use Rattle.smt_io.specs.Counts.{Rose};
ghost use Rattle.smt_io.specs.Told.{longest_text, with_bytes};
ghost use Rattle.smtrw_answers.specs.Answers.{err_line};
ghost use Rattle.smtrw_answers.specs.Asked.{IsInRange, asked_seen};
ghost use Rattle.smtrw_answers.specs.Said.{GotPrefix};
ghost use Rattle.smtrw_answers.specs.Words.{asked, source_of};
ghost use Rattle.smtrw_run.specs.Prepared.{Delivers, EndsBefore, IsMadeFor, IsPrepared, texts_beside};
ghost use Rattle.smtrw_run.specs.Run.{IsComplete, MayEnd, OutFits, Promised, Quiet, ReadFits, TextsFit, WhereAsked, WordsFit, WriteFits, texts_of};

use crate::blasting::{blasted, unblasted};
use crate::carrying::{extended, translated};
use crate::counting::counted;
use crate::demo::{demo_script, demonstrated};
use crate::linking::{answered, linked};
use crate::rewriting::rewritten;
use rule_book::{Named, RuleBook};
use smt_io::{Inputs, Pieces, ReadFault, Sink, read_all, send_pieces};
use smt_lex::{Until, scan};
use smtrw_answers::{
    Asked, Source, Status, TOO_LONG, WordsFault, complain, demo_scripts_are_accepted, parse_words,
};
use std::alloc::Global;

/// Does all that the program does: reads the script that the words name, or makes that of a demonstration, reads the model's
/// text where they name one, writes to `out` what they ask for, and says on `err` what went wrong. Stored rules are asked by the pass `rules`. The whole text is
/// made before its first byte is sent.
pub fn run<I: Inputs, O: Sink, E: Sink>(
    alloc: Global,
    words: &[String],
    inputs: &mut I,
    out: &mut O,
    err: &mut E,
    book: &RuleBook,
) -> Status
    ensures words { WordsFit (asked (map string_bytes words.now)) result }
    ensures ends { WhereAsked (asked (map string_bytes words.now)) (λ a. MayEnd a result) }
    ensures read { WhereAsked (asked (map string_bytes words.now)) (ReadFits (I.faults inputs.old) (I.faults inputs.new) result) }
    ensures write { WriteFits (O.faults out.old) (O.faults out.new) result }
    ensures texts { WhereAsked (asked (map string_bytes words.now)) (λ a. TextsFit (texts_of (I.text inputs.old) a) result a) }
    ensures out { WhereAsked (asked (map string_bytes words.now)) (λ a. OutFits (⟦<RuleBook as Named>⟧.names book.now) (texts_of (I.text inputs.old) a) (O.sent out.old) (O.sent out.new) (O.flushed out.new) result a) }
    ensures quiet { Quiet (O.sent out.old) (O.sent out.new) result }
    ensures promise { WhereAsked (asked (map string_bytes words.now)) (λ a. Promised (texts_of (I.text inputs.old) a) (O.sent out.old) (O.sent out.new) result a) }
    ensures complete { WhereAsked (asked (map string_bytes words.now)) (λ a. IsComplete (texts_of (I.text inputs.old) a) (I.faults inputs.old) (I.faults inputs.new) (O.faults out.old) (O.faults out.new) result a) }
    ensures silent { result ≡ Status.Done → E.sent err.new ≡ E.sent err.old }
    ensures prefix { GotPrefix (E.sent err.old) (E.sent err.new) (err_line result (map string_bytes words.now)) }
    ensures whole { Rose (E.faults err.old) (E.faults err.new) ⊎ (E.sent err.new ≡ with_bytes (E.sent err.old) (err_line result (map string_bytes words.now))) }
{
    let status = answer(alloc, words, inputs, out, book);
    complain(err, &status, words);
    status
}

/// All but what is said on the error stream.
fn answer<I: Inputs, O: Sink>(
    alloc: Global,
    words: &[String],
    inputs: &mut I,
    out: &mut O,
    book: &RuleBook,
) -> Status
    ensures words { WordsFit (asked (map string_bytes words.now)) result }
    ensures ends { WhereAsked (asked (map string_bytes words.now)) (λ a. MayEnd a result) }
    ensures read { WhereAsked (asked (map string_bytes words.now)) (ReadFits (I.faults inputs.old) (I.faults inputs.new) result) }
    ensures write { WriteFits (O.faults out.old) (O.faults out.new) result }
    ensures texts { WhereAsked (asked (map string_bytes words.now)) (λ a. TextsFit (texts_of (I.text inputs.old) a) result a) }
    ensures out { WhereAsked (asked (map string_bytes words.now)) (λ a. OutFits (⟦<RuleBook as Named>⟧.names book.now) (texts_of (I.text inputs.old) a) (O.sent out.old) (O.sent out.new) (O.flushed out.new) result a) }
    ensures quiet { Quiet (O.sent out.old) (O.sent out.new) result }
    ensures promise { WhereAsked (asked (map string_bytes words.now)) (λ a. Promised (texts_of (I.text inputs.old) a) (O.sent out.old) (O.sent out.new) result a) }
    ensures complete { WhereAsked (asked (map string_bytes words.now)) (λ a. IsComplete (texts_of (I.text inputs.old) a) (I.faults inputs.old) (I.faults inputs.new) (O.faults out.old) (O.faults out.new) result a) }
{
    match parse_words(alloc, words) {
        Ok(asked) => carry_out(alloc, &asked, inputs, out, book),
        Err(WordsFault::Usage(usage)) => Status::Usage(usage),
        Err(WordsFault::Memory) => Status::OutOfMemory,
    }
}

/// Does what the words ask for.
fn carry_out<I: Inputs, O: Sink>(
    alloc: Global,
    asked: &Asked,
    inputs: &mut I,
    out: &mut O,
    book: &RuleBook,
) -> Status
    requires range { IsInRange (asked_seen asked.now) }
    ensures words { WordsFit (Ok (asked_seen asked.now)) result }
    ensures ends { MayEnd (asked_seen asked.now) result }
    ensures read { ReadFits (I.faults inputs.old) (I.faults inputs.new) result (asked_seen asked.now) }
    ensures write { WriteFits (O.faults out.old) (O.faults out.new) result }
    ensures texts { TextsFit (texts_of (I.text inputs.old) (asked_seen asked.now)) result (asked_seen asked.now) }
    ensures out { OutFits (⟦<RuleBook as Named>⟧.names book.now) (texts_of (I.text inputs.old) (asked_seen asked.now)) (O.sent out.old) (O.sent out.new) (O.flushed out.new) result (asked_seen asked.now) }
    ensures quiet { Quiet (O.sent out.old) (O.sent out.new) result }
    ensures promise { Promised (texts_of (I.text inputs.old) (asked_seen asked.now)) (O.sent out.old) (O.sent out.new) result (asked_seen asked.now) }
    ensures complete { IsComplete (texts_of (I.text inputs.old) (asked_seen asked.now)) (I.faults inputs.old) (I.faults inputs.new) (O.faults out.old) (O.faults out.new) result (asked_seen asked.now) }
{
    match prepare(alloc, asked, inputs, book) {
        Ok(text) => deliver(out, &text),
        Err(status) => status,
    }
}

/// The whole text that is to be sent, or the status that comes before one.
fn prepare<I: Inputs>(
    alloc: Global,
    asked: &Asked,
    inputs: &mut I,
    book: &RuleBook,
) -> Result<Pieces, Status>
    requires range { IsInRange (asked_seen asked.now) }
    ensures before { IfErr result (EndsBefore (texts_of (I.text inputs.old) (asked_seen asked.now)) (I.faults inputs.old) (I.faults inputs.new) (asked_seen asked.now)) }
    ensures text { IfOk result (IsPrepared (⟦<RuleBook as Named>⟧.names book.now) (texts_of (I.text inputs.old) (asked_seen asked.now)) (asked_seen asked.now)) }
{
    let file = match asked.source() {
        Source::File(file) => file,
        Source::Drawn { seed, size } => {
            demo_scripts_are_accepted();
            let bytes = demo_script(alloc, seed, size)?;
            return written(alloc, asked, bytes, inputs, book);
        }
    };
    match read_all(alloc, inputs, file.name) {
        Ok(bytes) => written(alloc, asked, bytes, inputs, book),
        Err(ReadFault::Failed) => Err(Status::ReadFailed { word: file.word }),
        Err(ReadFault::TooLong) => Err(Status::Refused(TOO_LONG)),
        Err(ReadFault::Memory) => Err(Status::OutOfMemory),
    }
}

/// What is written of a script, and of the model's text that is read where the command carries one. The bytes are no more than
/// may be read, and those that `demo` makes where it is asked for.
fn written<I: Inputs>(
    alloc: Global,
    asked: &Asked,
    bytes: Vec<u8>,
    inputs: &mut I,
    book: &RuleBook,
) -> Result<Pieces, Status>
    requires short { vec_len bytes ≤ longest_text }
    requires made { IsMadeFor (source_of (asked_seen asked.now)) bytes.items }
    requires range { IsInRange (asked_seen asked.now) }
    ensures before { IfErr result (EndsBefore (texts_beside bytes.items (I.text inputs.old) (asked_seen asked.now)) (I.faults inputs.old) (I.faults inputs.new) (asked_seen asked.now)) }
    ensures text { IfOk result (IsPrepared (⟦<RuleBook as Named>⟧.names book.now) (texts_beside bytes.items (I.text inputs.old) (asked_seen asked.now)) (asked_seen asked.now)) }
{
    demo_scripts_are_accepted();
    let forest = scan(alloc, bytes, Until::Exit)?;
    match asked {
        Asked::Rewrite { passes, layout, .. } => {
            let rewriting = rewritten(alloc, forest, passes, *layout, book)?;
            Ok(rewriting.text)
        }
        Asked::Translate(carried) => translated(alloc, &forest, carried, inputs, book),
        Asked::Extend(carried) => extended(alloc, &forest, carried, inputs, book),
        Asked::Blast(checked) => blasted(alloc, &forest, &checked.passes, checked.check, book),
        Asked::Unblast(carried) => unblasted(alloc, &forest, carried, inputs, book),
        Asked::Dimacs(checked) => linked(alloc, &forest, &checked.passes, checked.check, book),
        Asked::Answer(carried) => answered(alloc, &forest, carried, inputs, book),
        Asked::Stats { .. } => counted(alloc, &forest),
        Asked::Demo { seed, size } => demonstrated(alloc, forest, *seed, *size, book),
    }
}

/// Sends the text.
fn deliver<O: Sink>(out: &mut O, text: &Pieces) -> Status
    ensures write { WriteFits (O.faults out.old) (O.faults out.new) result }
    ensures out { Delivers (O.sent out.old) (O.sent out.new) (O.flushed out.new) text.now result }
{
    match send_pieces(out, text) {
        Ok(()) => Status::Done,
        Err(_) => Status::WriteFailed,
    }
}
