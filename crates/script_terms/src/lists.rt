//! Lists of few forms, by the numbers of their first tokens.

ghost use Rattle.std.specs.Prelude.{◌≤◌, length};
ghost use Rattle.script_terms.specs.Places.{forms_from};
ghost use Rattle.script_terms.specs.ListClauses.{AreFew};

use crate::places::begins;
use smt_lex::Forest;

/// The forms of a list, or of what is left of it, by the numbers of their first tokens.
#[derive(Clone, Copy, Debug, PartialEq, Eq)]
pub enum Few {
    Empty,
    One(usize),
    Two(usize, usize),
    Three(usize, usize, usize),
    Four(usize, usize, usize, usize),
    /// Five or more.
    More,
}

/// The forms from token `i` to the end of the list that they stand in.
pub fn few_from(forest: &Forest, i: usize) -> Few
    requires { i ≤ length forest.now.tokens }
    ensures { AreFew forest.now.tokens (forms_from forest.now.tokens i) result }
{
    if !begins(forest, i) {
        return Few::Empty;
    }
    let second = forest.after(i);
    if !begins(forest, second) {
        return Few::One(i);
    }
    let third = forest.after(second);
    if !begins(forest, third) {
        return Few::Two(i, second);
    }
    let fourth = forest.after(third);
    if !begins(forest, fourth) {
        return Few::Three(i, second, third);
    }
    if begins(forest, forest.after(fourth)) {
        return Few::More;
    }
    Few::Four(i, second, third, fourth)
}
