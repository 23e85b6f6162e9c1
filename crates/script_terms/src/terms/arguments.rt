//! Arguments of definitions.

ghost use Rattle.std.specs.Prelude.{All};
ghost use Rattle.term_table.specs.Formulas.{AreNodes, IsSymbol};
ghost use Rattle.script_terms.specs.ApplicationClauses.{arguments_rank, MeetsFault};

use crate::causes::Cause;
use crate::node_sorts::has_sort;
use smt_terms::NodeId;
use term_table::{Syms, Table};

/// What is wrong with these arguments for these parameters: their number, or the sort of one.
pub fn arguments_fault(table: &Table, params: &Syms, arguments: &[NodeId]) -> Option<Cause>
    requires params { All (IsSymbol table.now) params.now }
    requires arguments { AreNodes table.now arguments.now }
    ensures { MeetsFault (arguments_rank table.now params.now arguments.now) result }
{
    if arguments.len() != params.len() {
        return Some(Cause::WrongArity);
    }
    for (i, argument) in arguments.iter().enumerate() {
        let (_, sort) = table.symbol_rank(params.get(i));
        if !has_sort(table, *argument, sort) {
            return Some(Cause::WrongSort);
        }
    }
    None
}
