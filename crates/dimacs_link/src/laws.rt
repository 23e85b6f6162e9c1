//! The laws of clauses and of checks, each as the contract of a function that does nothing.

ghost use Rattle.dimacs_link.specs.Checks.{ChecksAreLinked};
ghost use Rattle.dimacs_link.specs.Laws.{AnswersAreModels, ModelsAreAnswers};

/// The model that truth values of the constants stand for makes all roots true exactly where the truth values make their clauses
/// true. It is a model of what is declared.
pub fn answers_are_models()
    ensures { AnswersAreModels }
{}

/// A model makes all roots true exactly where the truth values of the constants in it make their clauses true.
pub fn models_are_answers()
    ensures { ModelsAreAnswers }
{}

/// Where the live assertions and the literals of a check are clauses, truth values make the clauses true exactly where the model that
/// they stand for satisfies the check; and a model satisfies it exactly where the truth values of the constants in it make them true.
pub fn checks_are_linked()
    ensures { ChecksAreLinked }
{
    answers_are_models();
    models_are_answers();
}
