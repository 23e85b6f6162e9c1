//! `:global-declarations`, `check-sat`, `reset` and `reset-assertions` (SMT-LIB 2.6, sections 4.1.7, 4.2.5, 4.2.1 and 4.2.2).

ghost use Rattle.std.specs.Prelude.{◌≡◌, option_map};
ghost use Rattle.smt_lex.specs.Forest.{token_at};
ghost use Rattle.term_table.specs.Formulas.{Formulas};
ghost use Rattle.script_read.specs.Script.{Standing, live_of, begun_with, truth_in, sets_globals, after_reset, after_emptying};
ghost use Rattle.script_terms.specs.Places.{IsForm, form_from};
ghost use Rattle.script_read.specs.ShapeClauses.{IfGiven};
ghost use Rattle.script_read.specs.Steps.{StandsAt, StepsTo, one};

use crate::scripts::Command;
use crate::session::Session;
use script_terms::causes::Cause;
use script_terms::faults::ReadFault;
use script_terms::places::{fault, is_symbol};
use smt_lex::Forest;

/// Sets `:global-declarations` to this value, by the command that begins at token `i`.
pub fn set_globals(
    forest: &Forest,
    i: usize,
    value: Option<usize>,
    session: &mut Session,
) -> Result<Command, ReadFault>
    requires form { IsForm forest.now.tokens i }
    requires value { IfGiven (IsForm forest.now.tokens) value }
    ensures step { (t : Formulas) (s : Standing) → StandsAt t session.old s → StepsTo one t session.new (sets_globals (token_at forest.now.tokens i).start (truth_in (option_map (form_from forest.now.tokens) value)) s) result }
    ensures fresh { session.new.sofar.fresh ≡ session.old.sofar.fresh }
    ensures asserted { session.new.asserted ≡ session.old.asserted }
{
    match truth_at(forest, value) {
        Some(global) if !session.begun => {
            session.global = global;
            Ok(Command::Globals(global))
        }
        _ => Err(fault(forest, i, Cause::UnsupportedOption).into()),
    }
}

// The truth value that a form is; None where it is another form, or where there is none.
fn truth_at(forest: &Forest, value: Option<usize>) -> Option<bool>
    requires { IfGiven (IsForm forest.now.tokens) value }
    ensures { result ≡ truth_in (option_map (form_from forest.now.tokens) value) }
{
    let i = value?;
    if !is_symbol(forest, i) {
        return None;
    }
    match forest.name(i) {
        b"true" => Some(true),
        b"false" => Some(false),
        _ => None,
    }
}

/// `check-sat`, behind which the options stay as they are.
pub fn check(session: &mut Session) -> Command
    ensures command { result ≡ Command.Check }
    ensures stands { (t : Formulas) (s : Standing) → StandsAt t session.old s → StandsAt t session.new (begun_with s (live_of s)) }
    ensures fresh { session.new.sofar.fresh ≡ session.old.sofar.fresh }
    ensures asserted { session.new.asserted ≡ session.old.asserted }
{
    session.begun = true;
    Command::Check
}

/// `reset`: forgets all but the names that are left and the number of assertions.
pub fn reset(session: &mut Session) -> Command
    ensures command { result ≡ Command.Reset }
    ensures stands { (t : Formulas) (s : Standing) → StandsAt t session.old s → StandsAt t session.new (after_reset s) }
    ensures fresh { session.new.sofar.fresh ≡ session.old.sofar.fresh }
    ensures asserted { session.new.asserted ≡ session.old.asserted }
{
    session.sofar.scope.clear();
    session.global = false;
    session.begun = false;
    Command::Reset
}

/// `reset-assertions`: closes all levels. Where declarations are global, they stay.
pub fn reset_assertions(session: &mut Session) -> Command
    ensures command { result ≡ Command.ResetAssertions }
    ensures stands { (t : Formulas) (s : Standing) → StandsAt t session.old s → StandsAt t session.new (after_emptying s) }
    ensures fresh { session.new.sofar.fresh ≡ session.old.sofar.fresh }
    ensures asserted { session.new.asserted ≡ session.old.asserted }
{
    session.sofar.scope.empty(session.global);
    Command::ResetAssertions
}
