//! How many commands a text has.

ghost use Rattle.std.specs.Prelude.{◌≡◌, length};
ghost use Rattle.smt_lex.specs.Forms.{forms_of, list};

use script_terms::places::begins;
use smt_lex::Forest;

/// The number of commands of a text, those that define names among them. It takes no memory.
pub fn count_commands(forest: &Forest) -> u64
    ensures { result ≡ length (list (forms_of forest.now.tokens)) }
{
    let mut count = 0;
    let mut at = 0;
    while begins(forest, at) {
        at = forest.after(at);
        count += 1;
    }
    count
}
