//! What the program `smtrw` answers: which words it takes and what they ask for, how it ends, and what it says on its error
//! stream; and, as definitions, what it writes at each end, and the sentence that its rewriting keeps.

#![tactic(auto)]

mod endings;
mod grammar;
mod laws;
mod lines;
mod matches;
mod status;
mod words;

pub use endings::{TOO_LONG, model_unread};
pub use laws::{
    answered_texts_read_back, blasting_keeps_its_promise, carried_texts_read_back,
    demo_scripts_are_accepted, eight_write_one_text, linking_keeps_its_promise,
    rewriting_keeps_its_promise, unblasted_texts_read_back, without_rules_one_list,
    without_rules_one_text,
};
pub use lines::complain;
pub use status::{Status, Usage, Why};
pub use words::{Asked, Carried, Checked, File, Source, WordsFault, parse_words};
