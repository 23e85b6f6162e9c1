//! The laws of the definitions, each the contract of a function that does nothing.

ghost use Rattle.smt_terms.specs.Equal.{name_eq, sort_eq, symbol_eq, variable_eq, op_eq, head_eq, term_eq};
ghost use Rattle.smt_terms.specs.Laws.{TellsEqual, RankIsRelation, SameIsReflexive, SameIsSymmetric, SameIsTransitive, SameAtEveryKey, BindersHaveRank, SortsAreWellFormed, ValueHasSort, FreeSymbolsDecide};
ghost use Rattle.smt_terms.specs.FreshLaws.{NumbersNameApart, NextIsFree, NextIsLeast, NextIsLater, DrawnIsGone, GoneStaysGone};
ghost use Rattle.smt_terms.specs.KeepsLaws.{HeadsKeep, QuantifiersKeep};
ghost use Rattle.smt_terms.specs.NodeLaws.{HeadsHaveSorts, BindersHaveSorts};
ghost use Rattle.smt_terms.specs.SubstLaws.{SubstKeepsMeaning, SubstGivesLater, SubstSparesNames, SubstLeavesFree, SubstHidesNothing, SubstKeepsClear};

/// Each test of equality says yes exactly at equal arguments.
pub fn tests_tell_equality()
    ensures names { TellsEqual name_eq }
    ensures sorts { TellsEqual sort_eq }
    ensures symbols { TellsEqual symbol_eq }
    ensures variables { TellsEqual variable_eq }
    ensures operators { TellsEqual op_eq }
    ensures heads { TellsEqual head_eq }
    ensures terms { TellsEqual term_eq }
{}

/// The rank of an operator answers a sort exactly where the operator takes the operands' sorts.
pub fn rank_is_a_relation()
    ensures { RankIsRelation }
{}

/// A quantifier's node has a rank exactly where its operands are constants that it may bind and a truth value.
pub fn binders_have_a_rank()
    ensures { BindersHaveRank }
{}

/// A term that is made of well-sorted operands which its head takes, or its quantifier may bind, is well sorted.
pub fn made_terms_are_well_sorted()
    ensures heads { HeadsHaveSorts }
    ensures quantifiers { BindersHaveSorts }
{}

/// The sort of a well-sorted term is a sort of this profile: widths from 1 to 128, and no array sort as an index sort.
pub fn sorts_are_well_formed()
    ensures { SortsAreWellFormed }
{}

/// Sameness of values is an equivalence at every sort, and arrays are the same only where they have the same values at
/// every key.
pub fn same_values_are_alike()
    ensures reflexive { SameIsReflexive }
    ensures symmetric { SameIsSymmetric }
    ensures transitive { SameIsTransitive }
    ensures at_every_key { SameAtEveryKey }
{}

/// The value of a term in a model is a value of the term's sort.
pub fn value_has_the_sort()
    ensures { ValueHasSort }
{}

/// The value of a term depends on the values of its free symbols alone.
pub fn free_symbols_decide()
    ensures { FreeSymbolsDecide }
{}

/// What keeps its value may be put in place of what it was made of, below every head and below every quantifier.
pub fn values_are_kept_in_context()
    ensures heads { HeadsKeep }
    ensures quantifiers { QuantifiersKeep }
{}

/// The next fresh name is that of the least number whose name isn't taken, and a name that was drawn isn't drawn again.
pub fn fresh_names_are_new()
    ensures apart { NumbersNameApart }
    ensures free { NextIsFree }
    ensures least { NextIsLeast }
    ensures later { NextIsLater }
    ensures gone { DrawnIsGone }
    ensures stays { GoneStaysGone }
{}

/// Substitution gives a term of the same sort, with the value that the term has where each replaced constant has the value
/// of its image; what is left of the supply gives no name that the supply didn't give, and none of the result. A symbol
/// that is free afterwards was free and isn't replaced, or is free in the image of one that was. Where no quantifier of the
/// term or of an image hides a symbol by binding its name, none of the result does; and the result is clear where the term
/// and the images are, if the symbols that can be left free have different names.
pub fn substitution_keeps_meaning()
    ensures meaning { SubstKeepsMeaning }
    ensures later { SubstGivesLater }
    ensures names { SubstSparesNames }
    ensures free { SubstLeavesFree }
    ensures bound { SubstHidesNothing }
    ensures clear { SubstKeepsClear }
{}
