//! Words without a fault, taken apart by `clap`: one command of arguments for each name.

ghost use Rattle.std.specs.Prelude.{◌≡◌, map, string_bytes, IfOk, IfErr};
ghost use Rattle.clap.specs.Words.{found_of, kind_of};
ghost use Rattle.smtrw_answers.specs.Words.{asked};
ghost use Rattle.smtrw_answers.specs.Asking.{IsRewriting, IsCarrying, IsBlasting, IsCounting, IsDemonstrating, GivesRewriting, GivesCarrying, GivesBlasting, GivesCounting, GivesDemonstrating};

use clap::error::ErrorKind;
use clap::{Arg, ArgMatches, Command, Error};
use std::alloc::Global;

/// The values of the words of `rewrite`.
pub(crate) fn rewrite_matches<'a>(
    alloc: Global,
    words: &'a [String],
) -> Result<ArgMatches<'a>, Error>
    requires { IsRewriting (asked (map string_bytes words.now)) }
    ensures values { IfOk result (λ m. GivesRewriting (asked (map string_bytes words.entry.now)) (found_of m)) }
    ensures memory { IfErr result (λ e. kind_of e ≡ ErrorKind.OutOfMemory) }
{
    let passes = Arg::new(alloc, "passes").long("passes");
    let layout = Arg::new(alloc, "layout").long("layout");
    let file = Arg::new(alloc, "file");
    let command = Command::new(alloc, "rewrite")
        .disable_help_flag(true)
        .arg(passes)?
        .arg(layout)?
        .arg(file)?;
    command.try_get_matches_from(words)
}

/// The values of the words of `translate`, `extend`, `unblast` or `answer`, whose answer is called the model here.
pub(crate) fn carry_matches<'a>(
    alloc: Global,
    name: &'a str,
    words: &'a [String],
) -> Result<ArgMatches<'a>, Error>
    requires { IsCarrying (asked (map string_bytes words.now)) }
    ensures values { IfOk result (λ m. GivesCarrying (asked (map string_bytes words.entry.now)) (found_of m)) }
    ensures memory { IfErr result (λ e. kind_of e ≡ ErrorKind.OutOfMemory) }
{
    let passes = Arg::new(alloc, "passes").long("passes");
    let check = Arg::new(alloc, "check").long("check");
    let script = Arg::new(alloc, "script");
    let model = Arg::new(alloc, "model");
    let command = Command::new(alloc, name)
        .disable_help_flag(true)
        .arg(passes)?
        .arg(check)?
        .arg(script)?
        .arg(model)?;
    command.try_get_matches_from(words)
}

/// The values of the words of `blast` or `dimacs`.
pub(crate) fn blast_matches<'a>(
    alloc: Global,
    name: &'a str,
    words: &'a [String],
) -> Result<ArgMatches<'a>, Error>
    requires { IsBlasting (asked (map string_bytes words.now)) }
    ensures values { IfOk result (λ m. GivesBlasting (asked (map string_bytes words.entry.now)) (found_of m)) }
    ensures memory { IfErr result (λ e. kind_of e ≡ ErrorKind.OutOfMemory) }
{
    let passes = Arg::new(alloc, "passes").long("passes");
    let check = Arg::new(alloc, "check").long("check");
    let script = Arg::new(alloc, "script");
    let command = Command::new(alloc, name)
        .disable_help_flag(true)
        .arg(passes)?
        .arg(check)?
        .arg(script)?;
    command.try_get_matches_from(words)
}

/// The values of the words of `stats`.
pub(crate) fn stats_matches<'a>(alloc: Global, words: &'a [String]) -> Result<ArgMatches<'a>, Error>
    requires { IsCounting (asked (map string_bytes words.now)) }
    ensures values { IfOk result (λ m. GivesCounting (asked (map string_bytes words.entry.now)) (found_of m)) }
    ensures memory { IfErr result (λ e. kind_of e ≡ ErrorKind.OutOfMemory) }
{
    let file = Arg::new(alloc, "file");
    let command = Command::new(alloc, "stats")
        .disable_help_flag(true)
        .arg(file)?;
    command.try_get_matches_from(words)
}

/// The values of the words of `demo`.
pub(crate) fn demo_matches<'a>(alloc: Global, words: &'a [String]) -> Result<ArgMatches<'a>, Error>
    requires { IsDemonstrating (asked (map string_bytes words.now)) }
    ensures values { IfOk result (λ m. GivesDemonstrating (asked (map string_bytes words.entry.now)) (found_of m)) }
    ensures memory { IfErr result (λ e. kind_of e ≡ ErrorKind.OutOfMemory) }
{
    let seed = Arg::new(alloc, "seed");
    let size = Arg::new(alloc, "size");
    let command = Command::new(alloc, "demo")
        .disable_help_flag(true)
        .arg(seed)?
        .arg(size)?;
    command.try_get_matches_from(words)
}
