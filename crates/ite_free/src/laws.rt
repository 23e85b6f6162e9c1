//! The laws of the removal, as the contract of a function that does nothing.

ghost use Rattle.term_groups.specs.Grouping.{MakesGroups};
ghost use Rattle.ite_free.specs.Ite.{ite};
ghost use Rattle.ite_free.specs.Laws.{IteLeavesNone};

use term_groups::laws::constants_are_new;

/// What takes the place of a formula is a group for it: where all of its assertions hold, the formula holds, and where the
/// formula holds, they all hold as soon as each new constant has the value of the `ite` that it stands for. None of them has
/// an `ite` over terms outside quantifiers.
pub fn ite_makes_groups()
    ensures groups { MakesGroups ite }
    ensures none { IteLeavesNone }
{
    constants_are_new();
}
