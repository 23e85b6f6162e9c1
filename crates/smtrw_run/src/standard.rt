//! The program with its own book of stored rules.

ghost use Rattle.std.specs.Prelude.{◌≡◌, ◌∷◌, [], ◌++◌, map, string_bytes, OnOk, OnErr, IfOk};
ghost use Rattle.rule_book.specs.EightRules.{eight_names};
ghost use Rattle.smtrw_answers.specs.Words.{asked};
ghost use Rattle.smtrw_run.specs.WholeRun.{IsRun, IsUnbegun};

use crate::run::run;
use rule_book::eight_rules::{
    absorb_and, absorb_or, ite_not, mul_pow2, sub_neg, udiv_pow2, urem_pow2, xor_not,
};
use rule_book::{AddFault, Named, Rule, RuleBook};
use smt_io::{Inputs, Sink};
use smtrw_answers::{Status, WordsFault, complain, parse_words};
use std::alloc::{AllocFailed, Global};

/// Does all that the program does, as `run`, with a book of the eight rules. Where there is no memory for the book, nothing is
/// read and nothing sent.
pub fn run_with_eight<I: Inputs, O: Sink, E: Sink>(
    alloc: Global,
    words: &[String],
    inputs: &mut I,
    out: &mut O,
    err: &mut E,
) -> Status
    ensures { IsRun eight_names (map string_bytes words.now) (I.text inputs.old) (I.faults inputs.old) (I.faults inputs.new)
        (record { sent = O.sent out.old; flushed = O.flushed out.old; faults = O.faults out.old })
        (record { sent = O.sent out.new; flushed = O.flushed out.new; faults = O.faults out.new })
        (record { sent = E.sent err.old; flushed = E.flushed err.old; faults = E.faults err.old })
        (record { sent = E.sent err.new; flushed = E.flushed err.new; faults = E.faults err.new })
        result }
{
    match run_by_book(alloc, words, inputs, out, err) {
        Ok(status) => status,
        Err(NoMemory) => {
            let status = unbegun(alloc, words);
            complain(err, &status, words);
            status
        }
    }
}

// There is no memory for a book.
struct NoMemory;

impl<T: Drop> From<AllocFailed<T>> for NoMemory {
    fn from(_: AllocFailed<T>) -> NoMemory {
        NoMemory
    }
}

impl From<AddFault> for NoMemory {
    fn from(_: AddFault) -> NoMemory {
        NoMemory
    }
}

// Makes the book, and runs with it.
fn run_by_book<I: Inputs, O: Sink, E: Sink>(
    alloc: Global,
    words: &[String],
    inputs: &mut I,
    out: &mut O,
    err: &mut E,
) -> Result<Status, NoMemory>
    ensures run { IfOk result (λ status. IsRun eight_names (map string_bytes words.now) (I.text inputs.old) (I.faults inputs.old) (I.faults inputs.new)
        (record { sent = O.sent out.old; flushed = O.flushed out.old; faults = O.faults out.old })
        (record { sent = O.sent out.new; flushed = O.flushed out.new; faults = O.faults out.new })
        (record { sent = E.sent err.old; flushed = E.flushed err.old; faults = E.faults err.old })
        (record { sent = E.sent err.new; flushed = E.flushed err.new; faults = E.faults err.new })
        status) }
    ensures unread { OnErr result (inputs.new ≡ inputs.old) }
    ensures unsent { OnErr result (out.new ≡ out.old) }
    ensures unsaid { OnErr result (err.new ≡ err.old) }
{
    let mut book = RuleBook::new(alloc);
    book.add(Rule::new("mul-pow2", Box::new(alloc, mul_pow2)?))?;
    book.add(Rule::new("udiv-pow2", Box::new(alloc, udiv_pow2)?))?;
    book.add(Rule::new("urem-pow2", Box::new(alloc, urem_pow2)?))?;
    book.add(Rule::new("absorb-and", Box::new(alloc, absorb_and)?))?;
    book.add(Rule::new("absorb-or", Box::new(alloc, absorb_or)?))?;
    book.add(Rule::new("sub-neg", Box::new(alloc, sub_neg)?))?;
    book.add(Rule::new("ite-not", Box::new(alloc, ite_not)?))?;
    book.add(Rule::new("xor-not", Box::new(alloc, xor_not)?))?;
    Ok(run(alloc, words, inputs, out, err, &book))
}

// How the run ends where there is no memory to begin: a fault of the words still counts first.
fn unbegun(alloc: Global, words: &[String]) -> Status
    ensures { IsUnbegun (asked (map string_bytes words.now)) result }
{
    match parse_words(alloc, words) {
        Ok(_) => Status::OutOfMemory,
        Err(WordsFault::Usage(usage)) => Status::Usage(usage),
        Err(WordsFault::Memory) => Status::OutOfMemory,
    }
}
