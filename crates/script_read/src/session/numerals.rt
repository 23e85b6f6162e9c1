//! Numerals of commands.

ghost use Rattle.std.specs.Prelude.{◌≡◌};
ghost use Rattle.script_terms.specs.Places.{capped};
ghost use Rattle.script_read.specs.ShapeClauses.{IsNumeralAt, counted_at};

use script_terms::places::numeral_at;
use smt_lex::Forest;

/// The numeral that token `i` is, or 2^127 where it is greater.
pub fn numeral(forest: &Forest, i: usize) -> u128
    requires { IsNumeralAt forest.now.tokens i }
    ensures { result ≡ capped (counted_at forest.now.tokens i).it }
{
    numeral_at(forest, i).unwrap()
}
