//! The laws of blasted formulas, as the contract of a function that does nothing.

ghost use Rattle.bit_blast.specs.Laws.{BlastKeepsValues, BlastGivesFlagFormulas, BlastLifts, BlastLowers};

/// Each formula that is made is true in a model where its root is in one that reads the same bits; it is over truth values alone,
/// and its symbols are those of the roots and new ones. A model of truth values gives one of bit vectors that reads the same
/// bits, and a model of bit vectors one of truth values.
pub fn blasted_formulas_keep_values()
    ensures values { BlastKeepsValues }
    ensures formulas { BlastGivesFlagFormulas }
    ensures lifted { BlastLifts }
    ensures lowered { BlastLowers }
{}
