//! What the program's words ask for.
//!
//! The words are read from the left, and the first fault counts (`grammar`). What has no fault is taken apart by `clap`
//! (`matches`), whose values are then those that the words give.

ghost use Rattle.std.specs.Prelude.{◌≡◌, map, option_map, string_bytes, Ok};
ghost use Rattle.smtrw_answers.specs.Words.{asked as asked_for};
ghost use Rattle.smtrw_answers.specs.Asking.{AsksBy, EndFits, check_in, command_of, layout_in, number_of, passes_in};
ghost use Rattle.smtrw_answers.specs.Asked.{Answers, CarriesFiles, ChecksFile, GivesCarried, GivesChecked};
ghost use Rattle.smtrw_answers.specs.declared.grammar.Plan.TheVariants as a_plan;

use crate::grammar::{
    Name, Plan, check_of_word, layout_of_word, list_for, number_of_word, plan_of,
};
use crate::matches::{blast_matches, carry_matches, demo_matches, rewrite_matches, stats_matches};
use crate::status::Usage;
use pass_laws::ListFault;
use passes::Passes;
use smt_print::Layout;
use std::alloc::Global;
use thiserror::Error;

/// A file that a word names: its path, or `-` for standard input.
#[derive(Clone, Copy, Debug)]
pub struct File<'a> {
    /// The number of the word, counted from 1.
    pub word: u32,
    pub name: &'a str,
}

/// A check of a script behind passes, counted from 1.
#[derive(Drop)]
pub struct Checked<'a> {
    pub passes: Passes,
    pub check: u64,
    pub script: File<'a>,
}

/// A check of a script behind passes, counted from 1, and the file of what is carried: a model, or a solver's answer.
#[derive(Drop)]
pub struct Carried<'a> {
    pub passes: Passes,
    pub check: u64,
    pub script: File<'a>,
    pub model: File<'a>,
}

/// What the words ask for.
#[derive(Drop)]
pub enum Asked<'a> {
    /// `rewrite`: the script behind the passes, printed in a layout. Without the options there are no passes, and terms are
    /// printed as trees.
    Rewrite {
        passes: Passes,
        layout: Layout,
        file: File<'a>,
    },
    /// `translate`: the model of a check of the script behind the passes, as one of the script. Without the options there are
    /// no passes, and the check is the first.
    Translate(Carried<'a>),
    /// `extend`: the model of a check of the script, as one of the script behind the passes. Without the options there are no
    /// passes, and the check is the first.
    Extend(Carried<'a>),
    /// `blast`: a check of the script behind the passes as a script of its own, over truth values alone. Without the options
    /// there are no passes, and the check is the first. Stored rules may not stand among the passes.
    Blast(Checked<'a>),
    /// `unblast`: the model of what `blast` makes of a check of the script, as one of the script. Without the options there are
    /// no passes, and the check is the first. Stored rules may not stand among the passes.
    Unblast(Carried<'a>),
    /// `dimacs`: the clauses of a check of the script behind the passes, as DIMACS text. Without the options there are no
    /// passes, and the check is the first. Stored rules may not stand among the passes.
    Dimacs(Checked<'a>),
    /// `answer`: a solver's answer to what `dimacs` makes of a check of the script, as a model of the script. Without the
    /// options there are no passes, and the check is the first. Stored rules may not stand among the passes.
    Answer(Carried<'a>),
    /// `stats`: the numbers of a script.
    Stats {
        file: File<'a>,
    },
    /// `demo`: a script of so many steps, at least 1 and at most 10,000, that are drawn from a seed.
    Demo {
        seed: u64,
        size: u64,
    },
}

/// Where the script comes from.
#[derive(Clone, Copy, Debug)]
pub enum Source<'a> {
    /// It stands in a file.
    File(File<'a>),
    /// It is made in so many steps that are drawn from a seed.
    Drawn { seed: u64, size: u64 },
}

impl<'a> Asked<'a> {
    ghost use Rattle.smtrw_answers.specs.Asked.{asked_seen, source_seen};
    ghost use Rattle.smtrw_answers.specs.Words.{source_of};

    /// Where the script comes from.
    pub fn source(&self) -> Source<'a>
        ensures { source_seen result ≡ source_of (asked_seen self.now) }
    {
        match self {
            Asked::Rewrite { file, .. } => Source::File(*file),
            Asked::Translate(carried) => Source::File(carried.script),
            Asked::Extend(carried) => Source::File(carried.script),
            Asked::Blast(checked) => Source::File(checked.script),
            Asked::Unblast(carried) => Source::File(carried.script),
            Asked::Dimacs(checked) => Source::File(checked.script),
            Asked::Answer(carried) => Source::File(carried.script),
            Asked::Stats { file } => Source::File(*file),
            Asked::Demo { seed, size } => Source::Drawn {
                seed: *seed,
                size: *size,
            },
        }
    }
}

/// Why the words ask for nothing.
#[derive(Clone, Copy, Debug, PartialEq, Eq, Error)]
pub enum WordsFault {
    /// The first fault of the words.
    #[error(transparent)]
    Usage(Usage),
    /// There was no memory to take the words apart.
    #[error("want of memory")]
    Memory,
}

/// What the words ask for, the command's name first, or their first fault. Want of memory may come at any words without a
/// fault.
pub fn parse_words<'a>(alloc: Global, words: &'a [String]) -> Result<Asked<'a>, WordsFault>
    ensures { Answers (asked_for (map string_bytes words.entry.now)) result }
{
    match plan_of(words) {
        Err(fault) => Err(WordsFault::Usage(fault)),
        Ok(Plan::Rewrite { file }) => rewrite(alloc, words, file),
        Ok(Plan::Translate { script, model }) => translate(alloc, words, script, model),
        Ok(Plan::Extend { script, model }) => extend(alloc, words, script, model),
        Ok(Plan::Blast { script }) => blast(alloc, words, script),
        Ok(Plan::Unblast { script, model }) => unblast(alloc, words, script, model),
        Ok(Plan::Dimacs { script }) => dimacs(alloc, words, script),
        Ok(
            Plan::Answer {
                script,
                answer: word,
            },
        ) => answer(alloc, words, script, word),
        Ok(Plan::Stats { file }) => stats(alloc, words, file),
        Ok(Plan::Demo) => demo(alloc, words),
    }
}

fn rewrite<'a>(alloc: Global, words: &'a [String], word: u32) -> Result<Asked<'a>, WordsFault>
    requires { EndFits (Ok (a_plan.Rewrite word)) (asked_for (map string_bytes words.now)) }
    ensures { Answers (asked_for (map string_bytes words.entry.now)) result }
{
    let Ok(matches) = rewrite_matches(alloc, words) else {
        return Err(WordsFault::Memory);
    };
    let Ok(passes) = passes_of(Name::Rewrite, matches.get_str("passes")) else {
        unreachable!()
    };
    let Some(layout) = layout_of(matches.get_str("layout")) else {
        unreachable!()
    };
    let Some(name) = matches.get_str("file") else {
        unreachable!()
    };
    Ok(Asked::Rewrite {
        passes,
        layout,
        file: File { word, name },
    })
}

fn translate<'a>(
    alloc: Global,
    words: &'a [String],
    script: u32,
    model: u32,
) -> Result<Asked<'a>, WordsFault>
    requires { EndFits (Ok (a_plan.Translate script model)) (asked_for (map string_bytes words.now)) }
    ensures { Answers (asked_for (map string_bytes words.entry.now)) result }
{
    let carried = carry_values(alloc, Name::Translate, words, script, model)?;
    Ok(Asked::Translate(carried))
}

fn extend<'a>(
    alloc: Global,
    words: &'a [String],
    script: u32,
    model: u32,
) -> Result<Asked<'a>, WordsFault>
    requires { EndFits (Ok (a_plan.Extend script model)) (asked_for (map string_bytes words.now)) }
    ensures { Answers (asked_for (map string_bytes words.entry.now)) result }
{
    let carried = carry_values(alloc, Name::Extend, words, script, model)?;
    Ok(Asked::Extend(carried))
}

fn unblast<'a>(
    alloc: Global,
    words: &'a [String],
    script: u32,
    model: u32,
) -> Result<Asked<'a>, WordsFault>
    requires { EndFits (Ok (a_plan.Unblast script model)) (asked_for (map string_bytes words.now)) }
    ensures { Answers (asked_for (map string_bytes words.entry.now)) result }
{
    let carried = carry_values(alloc, Name::Unblast, words, script, model)?;
    Ok(Asked::Unblast(carried))
}

fn answer<'a>(
    alloc: Global,
    words: &'a [String],
    script: u32,
    answer: u32,
) -> Result<Asked<'a>, WordsFault>
    requires { EndFits (Ok (a_plan.Answer script answer)) (asked_for (map string_bytes words.now)) }
    ensures { Answers (asked_for (map string_bytes words.entry.now)) result }
{
    let carried = carry_values(alloc, Name::Answer, words, script, answer)?;
    Ok(Asked::Answer(carried))
}

/// The values of the words of `translate`, `extend`, `unblast` or `answer`, whose script and model are the words of these numbers.
fn carry_values<'a>(
    alloc: Global,
    command: Name,
    words: &'a [String],
    script: u32,
    model: u32,
) -> Result<Carried<'a>, WordsFault>
    requires files { CarriesFiles script model (asked_for (map string_bytes words.now)) }
    requires named { AsksBy (command_of command) (asked_for (map string_bytes words.now)) }
    ensures { GivesCarried (asked_for (map string_bytes words.entry.now)) result }
{
    let Ok(matches) = carry_matches(alloc, command.word(), words) else {
        return Err(WordsFault::Memory);
    };
    let Ok(passes) = passes_of(command, matches.get_str("passes")) else {
        unreachable!()
    };
    let Some(check) = check_of(matches.get_str("check")) else {
        unreachable!()
    };
    let Some(script_name) = matches.get_str("script") else {
        unreachable!()
    };
    let Some(model_name) = matches.get_str("model") else {
        unreachable!()
    };
    Ok(Carried {
        passes,
        check,
        script: File {
            word: script,
            name: script_name,
        },
        model: File {
            word: model,
            name: model_name,
        },
    })
}

fn blast<'a>(alloc: Global, words: &'a [String], script: u32) -> Result<Asked<'a>, WordsFault>
    requires { EndFits (Ok (a_plan.Blast script)) (asked_for (map string_bytes words.now)) }
    ensures { Answers (asked_for (map string_bytes words.entry.now)) result }
{
    let checked = check_values(alloc, Name::Blast, words, script)?;
    Ok(Asked::Blast(checked))
}

fn dimacs<'a>(alloc: Global, words: &'a [String], script: u32) -> Result<Asked<'a>, WordsFault>
    requires { EndFits (Ok (a_plan.Dimacs script)) (asked_for (map string_bytes words.now)) }
    ensures { Answers (asked_for (map string_bytes words.entry.now)) result }
{
    let checked = check_values(alloc, Name::Dimacs, words, script)?;
    Ok(Asked::Dimacs(checked))
}

/// The values of the words of `blast` or `dimacs`, whose script is the word of this number.
fn check_values<'a>(
    alloc: Global,
    command: Name,
    words: &'a [String],
    word: u32,
) -> Result<Checked<'a>, WordsFault>
    requires file { ChecksFile word (asked_for (map string_bytes words.now)) }
    requires named { AsksBy (command_of command) (asked_for (map string_bytes words.now)) }
    ensures { GivesChecked (asked_for (map string_bytes words.entry.now)) result }
{
    let Ok(matches) = blast_matches(alloc, command.word(), words) else {
        return Err(WordsFault::Memory);
    };
    let Ok(passes) = passes_of(command, matches.get_str("passes")) else {
        unreachable!()
    };
    let Some(check) = check_of(matches.get_str("check")) else {
        unreachable!()
    };
    let Some(name) = matches.get_str("script") else {
        unreachable!()
    };
    Ok(Checked {
        passes,
        check,
        script: File { word, name },
    })
}

fn stats<'a>(alloc: Global, words: &'a [String], word: u32) -> Result<Asked<'a>, WordsFault>
    requires { EndFits (Ok (a_plan.Stats word)) (asked_for (map string_bytes words.now)) }
    ensures { Answers (asked_for (map string_bytes words.entry.now)) result }
{
    let Ok(matches) = stats_matches(alloc, words) else {
        return Err(WordsFault::Memory);
    };
    let Some(name) = matches.get_str("file") else {
        unreachable!()
    };
    Ok(Asked::Stats {
        file: File { word, name },
    })
}

fn demo<'a>(alloc: Global, words: &'a [String]) -> Result<Asked<'a>, WordsFault>
    requires { EndFits (Ok a_plan.Demo) (asked_for (map string_bytes words.now)) }
    ensures { Answers (asked_for (map string_bytes words.entry.now)) result }
{
    let Ok(matches) = demo_matches(alloc, words) else {
        return Err(WordsFault::Memory);
    };
    let Some(seed) = number_of(matches.get_str("seed")) else {
        unreachable!()
    };
    let Some(size) = number_of(matches.get_str("size")) else {
        unreachable!()
    };
    Ok(Asked::Demo { seed, size })
}

/// The passes of an option's value, by those that the command takes; none where it isn't given.
fn passes_of(command: Name, value: Option<&str>) -> Result<Passes, ListFault>
    ensures { result ≡ passes_in (command_of command) (option_map (λ t. t.now) value.entry) }
{
    match value {
        None => Ok(Passes::new()),
        Some(list) => list_for(command, list),
    }
}

/// The layout of an option's value; trees where it isn't given.
fn layout_of(value: Option<&str>) -> Option<Layout>
    ensures { result ≡ layout_in (option_map (λ t. t.now) value.entry) }
{
    match value {
        None => Some(Layout::Tree),
        Some(name) => layout_of_word(name),
    }
}

/// The check of an option's value; the first one where it isn't given.
fn check_of(value: Option<&str>) -> Option<u64>
    ensures { result ≡ check_in (option_map (λ t. t.now) value.entry) }
{
    match value {
        None => Some(1),
        Some(number) => check_of_word(number),
    }
}

/// The number of a word that is there.
fn number_of(value: Option<&str>) -> Option<u64>
    ensures { result ≡ number_of (option_map (λ t. t.now) value.entry) }
{
    match value {
        None => None,
        Some(number) => number_of_word(number),
    }
}
