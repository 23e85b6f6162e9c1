//! The laws of clauses, as the contract of a function that does nothing.

ghost use Rattle.term_groups.specs.Grouping.{MakesGroups};
ghost use Rattle.cnf_polarity.specs.Cnf.{cnf};
ghost use Rattle.cnf_polarity.specs.Laws.{CnfGivesClauses};

use term_groups::laws::constants_are_new;

/// What takes the place of a formula is a group for it: where all of its clauses hold, the formula holds, and where the
/// formula holds, they all hold as soon as each name has the value of the formula that it stands for. All of them are clauses.
pub fn cnf_makes_groups()
    ensures groups { MakesGroups cnf }
    ensures clauses { CnfGivesClauses }
{
    constants_are_new();
}
