//! `push` and `pop` (SMT-LIB 2.6, sections 4.1.4 and 4.2.2).

ghost use Rattle.std.specs.Prelude.{◌≡◌, option_map};
ghost use Rattle.term_table.specs.Formulas.{Formulas};
ghost use Rattle.smt_lex.specs.Forest.{token_at};
ghost use Rattle.script_read.specs.Outlines.{levels_written};
ghost use Rattle.script_read.specs.Script.{Standing, place_or, pushes, pops};
ghost use Rattle.script_terms.specs.Places.{IsForm, capped};
ghost use Rattle.script_read.specs.ShapeClauses.{IsNumeralAt, IfGiven, counted_at};
ghost use Rattle.script_read.specs.Steps.{StandsAt, StepsTo, one};

use crate::scripts::Command;
use crate::session::Session;
use crate::session::numerals::numeral;
use script_terms::causes::Cause;
use script_terms::faults::ReadFault;
use script_terms::places::fault;
use smt_lex::Forest;

/// The most levels that may be open.
const MOST_LEVELS: u128 = 1_000_000;

/// `(push levels)` or `(push)`, which begins at token `i`.
pub fn push(
    forest: &Forest,
    i: usize,
    levels: Option<usize>,
    session: &mut Session,
) -> Result<Command, ReadFault>
    requires form { IsForm forest.now.tokens i }
    requires levels { IfGiven (IsNumeralAt forest.now.tokens) levels }
    ensures step { (t : Formulas) (s : Standing) → StandsAt t session.old s → StepsTo one t session.new (pushes (place_or (option_map (counted_at forest.now.tokens) levels) (token_at forest.now.tokens i).start) (levels_written (option_map (counted_at forest.now.tokens) levels)) s) result }
    ensures fresh { session.new.sofar.fresh ≡ session.old.sofar.fresh }
    ensures asserted { session.new.asserted ≡ session.old.asserted }
{
    let n = levels_written(forest, levels);
    let open = session.sofar.scope.levels() as u128;
    if open + n > MOST_LEVELS {
        return Err(fault(forest, levels.unwrap_or(i), Cause::NumberLimit).into());
    }
    let n = n as u32;
    session.sofar.scope.push(n)?;
    session.begun = true;
    Ok(Command::Push(n))
}

/// `(pop levels)` or `(pop)`, which begins at token `i`.
pub fn pop(
    forest: &Forest,
    i: usize,
    levels: Option<usize>,
    session: &mut Session,
) -> Result<Command, ReadFault>
    requires form { IsForm forest.now.tokens i }
    requires levels { IfGiven (IsNumeralAt forest.now.tokens) levels }
    ensures step { (t : Formulas) (s : Standing) → StandsAt t session.old s → StepsTo one t session.new (pops (token_at forest.now.tokens i).start (place_or (option_map (counted_at forest.now.tokens) levels) (token_at forest.now.tokens i).start) (levels_written (option_map (counted_at forest.now.tokens) levels)) s) result }
    ensures fresh { session.new.sofar.fresh ≡ session.old.sofar.fresh }
    ensures asserted { session.new.asserted ≡ session.old.asserted }
{
    let n = levels_written(forest, levels);
    if n > MOST_LEVELS {
        return Err(fault(forest, levels.unwrap_or(i), Cause::NumberLimit).into());
    }
    let n = n as u32;
    if n as usize > session.sofar.scope.levels() {
        return Err(fault(forest, i, Cause::PopTooFar).into());
    }
    session.sofar.scope.pop(n, session.global);
    session.begun = true;
    Ok(Command::Pop(n))
}

// How many levels: one, where no number is written.
fn levels_written(forest: &Forest, levels: Option<usize>) -> u128
    requires { IfGiven (IsNumeralAt forest.now.tokens) levels }
    ensures { result ≡ capped (levels_written (option_map (counted_at forest.now.tokens) levels)) }
{
    match levels {
        Some(i) => numeral(forest, i),
        None => 1,
    }
}
