//! Operands that are like those of an operator over two.

ghost use Rattle.std.specs.Prelude.{◌≡◌, Some, None, IsTrue, IfErr, OnOk, MatchResult};
ghost use Rattle.smt_terms.specs.Rank.{shape};
ghost use Rattle.smt_values.specs.SortIds.{sort_at, IsSortId};
ghost use Rattle.term_table.specs.Faults.{fault_seen, IsFaultOver};
ghost use Rattle.term_table.specs.Formulas.{AreNodes};
ghost use Rattle.term_table.specs.ShapeRank.{kid_sorts};
ghost use Rattle.sort_check.specs.Forms.{is_pair};
ghost use Rattle.sort_check.specs.Operands.{unlike, alike_fault, TakesEach};

use smt_terms::{NodeId, Op, SortId};
use term_table::{RankFault, Table};

/// Whether there are two operands or more that all have the sort of those of which the operator takes two; the first
/// fault where it isn't so.
pub fn alike(table: &Table, op: Op, kids: &[NodeId]) -> Result<(), RankFault>
    requires kids { AreNodes table.now kids.now }
    requires pair { IsTrue (is_pair (shape op)) }
    ensures fault { MatchResult result (λ _. alike_fault (shape op) (kid_sorts table.now kids.now) ≡ None) (λ e. alike_fault (shape op) (kid_sorts table.now kids.now) ≡ Some (fault_seen table.now.sorts e)) }
    ensures takes { OnOk result (TakesEach table.now op kids.now) }
    ensures sorts { IfErr result (IsFaultOver table.now.sorts) }
{
    if kids.len() < 2 {
        return Err(RankFault::WrongArity);
    }
    let want = table.sort_of(kids[0]);
    table.rank(op, &kids[..2])?;
    unlike_behind(table, &kids[2..], want)
}

// The first fault of operands behind two others that all have to have this sort.
fn unlike_behind(table: &Table, rest: &[NodeId], want: SortId) -> Result<(), RankFault>
    requires kids { AreNodes table.now rest.now }
    requires want { IsSortId table.now.sorts want }
    ensures fault { MatchResult result (λ _. unlike (sort_at table.now.sorts want) 2 (kid_sorts table.now rest.now) ≡ None) (λ e. unlike (sort_at table.now.sorts want) 2 (kid_sorts table.now rest.now) ≡ Some (fault_seen table.now.sorts e)) }
    ensures sorts { IfErr result (IsFaultOver table.now.sorts) }
{
    for (k, kid) in rest.iter().enumerate() {
        let have = table.sort_of(*kid);
        if have.0 != want.0 {
            return Err(RankFault::WrongSort {
                arg: k as u64 + 2,
                have,
                want,
            });
        }
    }
    Ok(())
}
