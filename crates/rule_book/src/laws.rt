//! The laws of the definitions, each the contract of a function that does nothing.

ghost use Rattle.rule_book.specs.Rewriting.{RewritingKeepsValues, EightRewriteSo};

/// What stored rules make of a well-sorted term is well sorted, and has its sort, and its value in every model.
pub fn rewriting_keeps_values()
    ensures { RewritingKeepsValues }
{}

/// Rules of the eight names make the one term that the eight give.
pub fn eight_rewrite_so()
    ensures { EightRewriteSo }
{}
