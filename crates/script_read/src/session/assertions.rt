//! `assert` (SMT-LIB 2.6, section 4.2.4).

ghost use Rattle.std.specs.Prelude.{◌+◌, ◌<◌, ◌≤◌, ◌^◌, IfOk};
ghost use Rattle.term_subst.specs.Substituting.{IsLater};
ghost use Rattle.term_walk.specs.Walking.{GrowsTo};
ghost use Rattle.script_read.specs.Script.{Standing, asserts};
ghost use Rattle.script_read.specs.CommandLists.{IsCommandOf};
ghost use Rattle.script_terms.specs.Places.{IsRead, IsForm, SparesText, form_from};
ghost use Rattle.script_read.specs.Steps.{StandsAt, StepsTo, one};

use crate::scripts::Command;
use crate::session::Session;
use script_terms::causes::Cause;
use script_terms::faults::ReadFault;
use script_terms::locals::Locals;
use script_terms::node_sorts::has_sort;
use script_terms::places::fault;
use script_terms::terms::read_term;
use script_terms::terms::term_reader::TermReader;
use smt_lex::Forest;
use smt_terms::SortId;
use term_table::Table;

/// `(assert term)`, whose term begins at token `i`.
pub fn assert_term<'a>(
    reader: &mut TermReader<'a>,
    table: &mut Table,
    forest: &'a Forest,
    i: usize,
    session: &mut Session<'a>,
) -> Result<Command, ReadFault>
    requires read { IsRead forest.now }
    requires form { IsForm forest.now.tokens i }
    requires text { SparesText forest.now.tokens session.old.sofar.fresh }
    requires known { (s : Standing) × StandsAt table.old session.old s }
    requires count { session.old.asserted + 1 < 2 ^ 64 }
    ensures step { (s : Standing) → StandsAt table.old session.old s → StepsTo one table.new session.new (asserts (form_from forest.now.tokens i) s) result }
    ensures command { IfOk result (IsCommandOf table.new) }
    ensures later { IsLater session.old.sofar.fresh session.new.sofar.fresh }
    ensures asserted { session.new.asserted ≤ session.old.asserted + 1 }
    ensures grows { GrowsTo table.old table.new }
{
    let locals = Locals::new(reader.alloc);
    let id = read_term(reader, table, forest, i, &mut session.sofar, locals, None)?;
    if !has_sort(table, id, SortId::BOOL) {
        return Err(fault(forest, i, Cause::WrongSort).into());
    }
    session.begun = true;
    session.asserted += 1;
    let number = session.asserted;
    Ok(Command::Assert { id, number })
}
