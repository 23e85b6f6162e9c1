//! The check of a script as clauses.

ghost use Rattle.std.specs.Prelude.{◌≡◌, ◌≤◌, count_by, None, IsTrue, IfOk, IfErr, OnOk};
ghost use Rattle.models.specs.LiveRoots.{flags};
ghost use Rattle.script_read.specs.CommandLists as lists;
ghost use Rattle.script_read.specs.CommandLists.{commands_of, AreCommandsOf};
ghost use Rattle.script_read.specs.Commands.{signature};
ghost use Rattle.script_read.specs.Printable.{printable};
ghost use Rattle.dimacs_link.specs.AnswerModels.{AreFlags};
ghost use Rattle.dimacs_link.specs.CheckFaults.{fault_at, IsPlaceIn, IsLinkCheckFault};
ghost use Rattle.dimacs_link.specs.Checks.{unlinked_root, linked_text};
ghost use Rattle.dimacs_link.specs.Constants.{constants_at, AreConstants};

use crate::clauses::{LinkFault, check_clauses, dimacs_text};
use models::{flags_at, live, roots_of};
use script_read::Script;
use smt_terms::{NodeId, SymId};
use std::alloc::{AllocError, Global};
use term_table::Table;
use thiserror::Error;

/// Why the check of a script isn't written as clauses.
#[derive(Clone, Copy, Debug, PartialEq, Eq, Error)]
pub enum LinkCheckFault {
    /// The assertion of this number isn't a clause. It is the first such one that is live at the check; a literal of the check has
    /// the number 0.
    #[error("assertion {assertion} isn't a clause")]
    NotClauses { assertion: u64 },
    /// There is no memory.
    #[error("want of memory")]
    Memory,
}

impl From<AllocError> for LinkCheckFault {
    ghost use Rattle.std.specs.Prelude.{◌≡◌};
    ghost use Rattle.dimacs_link.specs.declared.checks.LinkCheckFault.TheVariants.{Memory};

    ghost from_gives = { λ _ made. made ≡ Memory };

    fn from(_error: AllocError) -> LinkCheckFault {
        LinkCheckFault::Memory
    }
}

/// The constants of the clauses of the check of this number, counted from 1: the truth values without arguments that are declared at
/// the check, in order of declaration.
///
/// It takes time in proportion to the commands before the check, the constants and the operands of the clauses.
///
/// # Errors
///
/// `NotClauses` exactly where a live assertion or a literal of the check isn't a clause over these constants, with the number of the
/// first one; and `Memory`.
pub fn clause_constants(
    alloc: Global,
    table: &Table,
    script: &Script,
    check: u64,
) -> Result<Vec<SymId>, LinkCheckFault>
    requires numbers { AreCommandsOf table.now script.now.commands }
    requires printable { IsTrue (printable (commands_of table.now script.now.commands)) }
    requires first { 1 ≤ check }
    requires last { check ≤ count_by lists.is_check script.now.commands }
    ensures constants { IfOk result (λ fs. constants_at table.now fs.items ≡ flags (commands_of table.now script.now.commands) check) }
    ensures numbers { IfOk result (λ fs. AreConstants table.now fs.items) }
    ensures flags { IfOk result (λ fs. AreFlags (signature (commands_of table.now script.now.commands) check).symbols (constants_at table.now fs.items)) }
    ensures clauses { OnOk result (unlinked_root (commands_of table.now script.now.commands) check ≡ None) }
    ensures fault { IfErr result (IsLinkCheckFault (commands_of table.now script.now.commands) check) }
{
    let constants = flags_at(alloc, table, script, check)?;
    let lives = live(alloc, table, script, check)?;
    let roots = roots_of(alloc, lives.as_slice())?;
    match check_clauses(alloc, table, roots.as_slice(), constants.as_slice()) {
        Ok(()) => Ok(constants),
        Err(fault) => Err(fault_among(lives.as_slice(), fault)),
    }
}

/// The DIMACS text of the check of this number, counted from 1: a line for each live assertion and each literal of the check, as
/// `dimacs_text` writes them, over the constants that `clause_constants` gives. What it means: `laws::checks_are_linked`.
///
/// It takes time in proportion to the commands before the check, the constants and the operands of the clauses.
///
/// # Errors
///
/// As `clause_constants`.
pub fn link_check(
    alloc: Global,
    table: &Table,
    script: &Script,
    check: u64,
) -> Result<Vec<u8>, LinkCheckFault>
    requires numbers { AreCommandsOf table.now script.now.commands }
    requires printable { IsTrue (printable (commands_of table.now script.now.commands)) }
    requires first { 1 ≤ check }
    requires last { check ≤ count_by lists.is_check script.now.commands }
    ensures text { IfOk result (λ text. text.items ≡ linked_text (commands_of table.now script.now.commands) check) }
    ensures clauses { OnOk result (unlinked_root (commands_of table.now script.now.commands) check ≡ None) }
    ensures fault { IfErr result (IsLinkCheckFault (commands_of table.now script.now.commands) check) }
{
    let constants = flags_at(alloc, table, script, check)?;
    let lives = live(alloc, table, script, check)?;
    let roots = roots_of(alloc, lives.as_slice())?;
    match dimacs_text(alloc, table, roots.as_slice(), constants.as_slice()) {
        Ok(text) => Ok(text),
        Err(fault) => Err(fault_among(lives.as_slice(), fault)),
    }
}

// The fault that one of the nodes of these is, by its number.
fn fault_among(lives: &[(NodeId, u64)], fault: LinkFault) -> LinkCheckFault
    requires { IsPlaceIn lives.now fault }
    ensures { result ≡ fault_at lives.now fault }
{
    match fault {
        LinkFault::NotClauses { root } => {
            let (_, assertion) = lives[root as usize];
            LinkCheckFault::NotClauses { assertion }
        }
        LinkFault::Memory => LinkCheckFault::Memory,
    }
}
