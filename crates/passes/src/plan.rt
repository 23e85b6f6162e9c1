//! What is kept of the passes that a script went through, so that models can be carried over them.

ghost use Rattle.std.specs.Prelude.{◌≡◌, option_to_list, IfSome};
ghost use Rattle.term_table.specs.Formulas.{symbol_at, IsSymbol};
ghost use Rattle.script_read.specs.CommandLists.{IsCommandOf};
ghost use Rattle.pass_laws.specs.Carry.{has_arguments};
ghost use Rattle.passes.specs.Plans.{steps_of, told_by, IsStepOf};

use indexmap::IndexMap;
use script_read::Command;
use smt_terms::{NodeId, SymId};
use term_subst::SymPairs;
use term_table::Table;

/// How models are carried over the passes that a script went through: what the passes drew, and where it is live.
#[derive(Drop)]
pub struct Plan {
    /// One for each pass that makes groups, in order.
    pub(crate) stages: Vec<Stage>,
    /// How many checks the script has.
    pub(crate) checks: u64,
}

/// What a pass drew, and the commands that tell where it is live.
#[derive(Drop)]
pub(crate) struct Stage {
    pub(crate) steps: Vec<Step>,
    /// Where the pass removes applications, the one that each new constant stands for.
    pub(crate) uses: Option<IndexMap<SymId, Use>>,
}

/// An application: its function, and what took the places of its operands.
#[derive(Drop)]
pub(crate) struct Use {
    pub(crate) function: SymId,
    pub(crate) operands: Vec<NodeId>,
}

/// A command of the script before the pass.
#[derive(Drop)]
pub(crate) enum Step {
    /// A declaration of a function with arguments.
    Declare(SymId),
    /// An assertion of this number, with the new symbols that its group has and the terms that they stand for.
    Group { number: u64, symbols: SymPairs },
    Check,
    Push(u32),
    Pop(u32),
    Reset,
    ResetAssertions,
    Globals(bool),
}

impl Step {
    /// The step of a command that asserts nothing; None where it tells nothing of what is live.
    pub(crate) fn of(table: &Table, command: &Command) -> Option<Step>
        requires { IsCommandOf table.now command.now }
        ensures steps { steps_of table.now (option_to_list result) ≡ told_by table.now command.now }
        ensures numbers { IfSome result (IsStepOf table.now) }
    {
        match command {
            Command::Declare(symbol) if has_arguments(table, *symbol) => Some(Step::Declare(
                *symbol,
            )),
            Command::Check | Command::CheckAssuming(_) => Some(Step::Check),
            Command::Push(levels) => Some(Step::Push(*levels)),
            Command::Pop(levels) => Some(Step::Pop(*levels)),
            Command::Reset => Some(Step::Reset),
            Command::ResetAssertions => Some(Step::ResetAssertions),
            Command::Globals(value) => Some(Step::Globals(*value)),
            _ => None,
        }
    }
}

/// Whether a symbol is a function with arguments.
pub(crate) fn has_arguments(table: &Table, symbol: SymId) -> bool
    requires { IsSymbol table.now symbol }
    ensures { result ≡ has_arguments (symbol_at table.now symbol) }
{
    let (arguments, _) = table.symbol_rank(symbol);
    !arguments.is_empty()
}
