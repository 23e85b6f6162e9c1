//! The roots of a check, which are its live assertions and its literals, and the flags that are declared at it, which are Boolean
//! constants.

ghost use Rattle.std.specs.Prelude.{◌≡◌, ◌≤◌, map, count_by, All, IsTrue, IfOk};
ghost use Rattle.script_read.specs.CommandLists as lists;
ghost use Rattle.script_read.specs.CommandLists.{commands_of, AreCommandsOf};
ghost use Rattle.script_read.specs.Printable.{printable};
ghost use Rattle.term_table.specs.Formulas.{symbol_at, IsSymbol};
ghost use Rattle.models.specs.LiveRoots.{is_flag, flags};

use crate::signature::signature_at;
use script_read::Script;
use smt_terms::{NodeId, SortId, SymId};
use std::alloc::{AllocError, Global};
use term_table::Table;

/// The roots of a check: the nodes of what `live` gives, in order, without their numbers.
pub fn roots_of(alloc: Global, lives: &[(NodeId, u64)]) -> Result<Vec<NodeId>, AllocError>
    ensures { IfOk result (λ roots. roots.items ≡ map (λ l. l.0) lives.now) }
{
    lives.iter().map(|live| live.0).collect(alloc)
}

/// Whether a symbol is a flag: of sort Bool, and without arguments. It takes no memory.
pub fn is_flag(table: &Table, symbol: SymId) -> bool
    requires { IsSymbol table.now symbol }
    ensures { result ≡ is_flag (symbol_at table.now symbol) }
{
    let (args, sort) = table.symbol_rank(symbol);
    args.is_empty() && sort == SortId::BOOL
}

/// The flags that are declared at the check of this number, counted from 1, in order of declaration. It takes as long as the
/// commands before the check and the symbols that are live there are many.
pub fn flags_at(
    alloc: Global,
    table: &Table,
    script: &Script,
    check: u64,
) -> Result<Vec<SymId>, AllocError>
    requires numbers { AreCommandsOf table.now script.now.commands }
    requires printable { IsTrue (printable (commands_of table.now script.now.commands)) }
    requires first { 1 ≤ check }
    requires last { check ≤ count_by lists.is_check script.now.commands }
    ensures flags { IfOk result (λ fs. map (symbol_at table.now) fs.items ≡ flags (commands_of table.now script.now.commands) check) }
    ensures symbols { IfOk result (λ fs. All (IsSymbol table.now) fs.items) }
{
    let signature = signature_at(alloc, table, script, check)?;
    let mut found = Vec::new(alloc);
    for symbol in signature.symbols() {
        if is_flag(table, *symbol) {
            found.push(*symbol)?;
        }
    }
    Ok(found)
}
