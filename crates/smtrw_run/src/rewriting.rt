//! `rewrite`: the script behind the passes, printed again.

ghost use Rattle.std.specs.Prelude.{◌≡◌, ◌≤◌, false, length, count_by, IfOk};
ghost use Rattle.script_terms.specs.Places.{IsRead};
ghost use Rattle.smt_io.specs.Told.{longest_text};
ghost use Rattle.pass_laws.specs.Lists.{groups_after_rules};
ghost use Rattle.smtrw_answers.specs.Endings.{rewrite_end};
ghost use Rattle.smtrw_answers.specs.Headline.{IsRewriting};
ghost use Rattle.smtrw_run.specs.Counted.{is_assertion};
ghost use Rattle.smtrw_run.specs.Rewriting.{EndsFor, IsMadeBy};

use passes::{Passes, run_passes};
use rule_book::{Named, RuleBook};
use script_read::{Command, names_left_are_new, read_script, reading_gives_a_printable_script};
use smt_io::Pieces;
use smt_lex::Forest;
use smt_print::{Layout, script_into};
use smtrw_answers::{Status, rewriting_keeps_its_promise};
use std::alloc::Global;
use std::mem::ManuallyDrop;
use term_table::Table;

/// A script behind passes.
#[derive(Drop)]
pub struct Rewriting {
    /// Its text.
    pub text: Pieces,
    /// How many assertions it has.
    pub assertions: u64,
}

/// A script behind the passes, in a layout. Stored rules are asked by the pass `rules`.
pub fn rewritten(
    alloc: Global,
    forest: Forest,
    passes: &Passes,
    layout: Layout,
    book: &RuleBook,
) -> Result<Rewriting, Status>
    requires read { IsRead forest }
    requires short { length forest.bytes ≤ longest_text }
    ensures ends { EndsFor (rewrite_end forest.bytes passes.now) result }
    ensures made { IfOk result (λ r. IsMadeBy forest.bytes passes.now (⟦<RuleBook as Named>⟧.names book.now) layout r) }
    ensures promise { IfOk result (λ r. IsRewriting forest.bytes passes.now r.text) }
{
    rewriting_keeps_its_promise();
    reading_gives_a_printable_script();
    names_left_are_new();
    know_passes(passes);
    let mut table = Table::new(alloc);
    let (script, mut fresh) = read_script(alloc, &mut table, &forest)?;
    // The script stands by itself. Of what it was read from the memory of the text is written over again.
    let bytes = forest.into_bytes();
    let (script, _) = run_passes(alloc, &mut table, script, passes, book, &mut fresh)?;
    // Left to the end of the program, which gives back all memory at once: to free each node first takes a walk through them.
    let table = ManuallyDrop::new(table);
    let mut text = Pieces::over(alloc, bytes);
    script_into(alloc, &table, &script, layout, &mut text)?;
    let assertions = assertions(script.commands.as_slice());
    Ok(Rewriting { text, assertions })
}

/// No pass of a list that makes groups stands behind `rules`.
pub fn know_passes(passes: &Passes)
    ensures { groups_after_rules passes.now ≡ false }
{
    passes.len();
}

/// How many of the commands are assertions.
fn assertions(commands: &[Command]) -> u64
    ensures { result ≡ count_by is_assertion commands.now }
{
    commands.iter().filter(|c| is_assertion(c)).count() as u64
}

fn is_assertion(command: &Command) -> bool
    ensures { result ≡ is_assertion command.now }
{
    matches!(command, Command::Assert { .. })
}
