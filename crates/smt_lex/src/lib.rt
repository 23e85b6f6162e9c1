//! Cuts a text into the tokens of SMT-LIB 2.6, section 3.1, and checks that its parentheses match. What comes
//! of it is one flat list of tokens, in which each token knows where the form that begins there ends. Beside
//! it stands how a symbol is printed, with bars where it needs them, and which words are reserved.
#![tactic(auto)]

mod builders;
mod classes;
mod entries;
mod faults;
mod forests;
mod fronts;
mod items;
mod runs;
mod symbols;

pub use faults::{LexFault, line_of};
pub use forests::{Forest, scan};
pub use items::{Item, Span, Until};
pub use runs::{are_digits, is_numeral};
pub use symbols::{is_among, is_command_word, is_reserved, symbol_text};
