//! Commands one at a time: `read_command f s`, what the command f makes of what is known.

ghost use Rattle.std.specs.Prelude.{◌+◌, ◌<◌, ◌≤◌, ◌^◌, IfOk, IfSome, option_to_list};
ghost use Rattle.smt_lex.specs.FormText.{form_text};
ghost use Rattle.smt_lex.specs.Forest.{token_at};
ghost use Rattle.term_subst.specs.Substituting.{IsLater};
ghost use Rattle.term_walk.specs.Walking.{GrowsTo};
ghost use Rattle.script_read.specs.Script.{Standing, step, read_command};
ghost use Rattle.script_read.specs.CommandLists.{IsCommandOf};
ghost use Rattle.script_terms.specs.Places.{IsRead, IsForm, SparesText, form_from};
ghost use Rattle.script_read.specs.ShapeClauses.{outline_seen, IsOutline};
ghost use Rattle.script_read.specs.Steps.{StandsAt, StepsTo};

use crate::form_texts::form_text;
use crate::scripts::Command;
use crate::session::Session;
use crate::session::assertions::assert_term;
use crate::session::definitions::define_symbol;
use crate::session::levels::{pop, push};
use crate::session::literals::assume;
use crate::session::options::{check, reset, reset_assertions, set_globals};
use crate::session::sort_names::{declare_sort, define_sort};
use crate::session::symbols::declare_symbol;
use crate::shapes::{Outline, outline_of};
use script_terms::faults::ReadFault;
use script_terms::terms::term_reader::TermReader;
use smt_lex::Forest;
use term_table::Table;

/// Reads the command that begins at token `i`, and answers it; None where it is a definition, which leaves no command.
pub fn read_command<'a>(
    reader: &mut TermReader<'a>,
    table: &mut Table,
    forest: &'a Forest,
    i: usize,
    session: &mut Session<'a>,
) -> Result<Option<Command>, ReadFault>
    requires read { IsRead forest.now }
    requires form { IsForm forest.now.tokens i }
    requires text { SparesText forest.now.tokens session.old.sofar.fresh }
    requires known { (s : Standing) × StandsAt table.old session.old s }
    requires count { session.old.asserted + 1 < 2 ^ 64 }
    ensures step { (s : Standing) → StandsAt table.old session.old s → StepsTo option_to_list table.new session.new (read_command (form_from forest.now.tokens i) s) result }
    ensures command { IfOk result (λ c. IfSome c (IsCommandOf table.new)) }
    ensures later { IsLater session.old.sofar.fresh session.new.sofar.fresh }
    ensures asserted { session.new.asserted ≤ session.old.asserted + 1 }
    ensures grows { GrowsTo table.old table.new }
{
    let outline = outline_of(forest, i)?;
    let command = take_outline(reader, table, forest, i, outline, session)?;
    Ok(command)
}

// The command of this outline, which begins at token `i`.
fn take_outline<'a>(
    reader: &mut TermReader<'a>,
    table: &mut Table,
    forest: &'a Forest,
    i: usize,
    outline: Outline,
    session: &mut Session<'a>,
) -> Result<Option<Command>, ReadFault>
    requires read { IsRead forest.now }
    requires form { IsForm forest.now.tokens i }
    requires outline { IsOutline forest.now.tokens outline }
    requires text { SparesText forest.now.tokens session.old.sofar.fresh }
    requires known { (s : Standing) × StandsAt table.old session.old s }
    requires count { session.old.asserted + 1 < 2 ^ 64 }
    ensures step { (s : Standing) → StandsAt table.old session.old s → StepsTo option_to_list table.new session.new (step (token_at forest.now.tokens i).start (form_text (form_from forest.now.tokens i)) s (outline_seen forest.now.tokens outline)) result }
    ensures command { IfOk result (λ c. IfSome c (IsCommandOf table.new)) }
    ensures later { IsLater session.old.sofar.fresh session.new.sofar.fresh }
    ensures asserted { session.new.asserted ≤ session.old.asserted + 1 }
    ensures grows { GrowsTo table.old table.new }
{
    let alloc = reader.alloc;
    match outline {
        Outline::Passing => Ok(Some(Command::Passed(form_text(alloc, forest, i)?))),
        Outline::GlobalOption(value) => Ok(Some(set_globals(forest, i, value, session)?)),
        Outline::SortDeclaration { name, arity } => {
            let command = declare_sort(table, forest, name, arity, session)?;
            Ok(Some(command))
        }
        Outline::SortDefinition {
            name,
            parameters,
            sort,
        } => {
            define_sort(alloc, table, forest, name, parameters, sort, session)?;
            Ok(None)
        }
        Outline::SymbolDeclaration {
            name,
            arguments,
            sort,
        } => {
            let command = declare_symbol(alloc, table, forest, name, arguments, sort, session)?;
            Ok(Some(command))
        }
        Outline::SymbolDefinition {
            name,
            parameters,
            sort,
            body,
        } => {
            define_symbol(reader, table, forest, name, parameters, sort, body, session)?;
            Ok(None)
        }
        Outline::Assertion(term) => Ok(Some(assert_term(reader, table, forest, term, session)?)),
        Outline::Checking => Ok(Some(check(session))),
        Outline::Assuming(literals) => Ok(Some(assume(alloc, table, forest, literals, session)?)),
        Outline::Pushing(levels) => Ok(Some(push(forest, i, levels, session)?)),
        Outline::Popping(levels) => Ok(Some(pop(forest, i, levels, session)?)),
        Outline::Resetting => Ok(Some(reset(session))),
        Outline::ResettingAssertions => Ok(Some(reset_assertions(session))),
        Outline::Ending => Ok(Some(Command::Exit)),
    }
}
