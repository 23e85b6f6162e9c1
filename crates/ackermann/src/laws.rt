//! The laws of the removal, as the contract of a function that does nothing.

ghost use Rattle.ackermann.specs.Laws.{TablesAreModels, TablesFit, ValuesAreModels, RemovalsMade};
ghost use Rattle.ackermann.specs.LevelsAt.{LiveStays, LevelsCount};

use term_groups::laws::constants_are_new;

/// What takes the places of assertions is made from them, without applications. Where all of it holds in a model, the assertions
/// hold as soon as each function has the rows of its applications, which are valid; and where the assertions hold, all of it
/// holds as soon as each new constant has the value of its application.
pub fn removals_keep_models()
    ensures tables { TablesAreModels }
    ensures fit { TablesFit }
    ensures values { ValuesAreModels }
    ensures made { RemovalsMade }
{
    constants_are_new();
}

/// What is live stays so as a table gains: it has the same levels. Levels are one more than those that were opened.
pub fn live_stays()
    ensures stays { LiveStays }
    ensures count { LevelsCount }
{}
