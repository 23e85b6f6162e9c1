//! Reads scripts of SMT-LIB 2.6: commands with their terms, in which `let`, definitions and names of terms are
//! replaced, or the first refusal with its cause and place.

#![tactic(auto)]

mod counting;
mod form_texts;
mod laws;
mod reader;
mod scripts;
mod session;
mod shapes;
mod text_names;

pub use counting::count_commands;
pub use laws::{
    names_left_are_new, read_terms_are_clear, reading_answers, reading_binds_names,
    reading_gives_a_printable_script, reading_keeps_meaning, terms_and_forms_agree,
    written_operators_keep_meaning, written_tokens_are_read,
};
pub use reader::read_script;
pub use script_terms::causes::Cause;
pub use script_terms::faults::{Refusal, ScriptFault};
pub use scripts::{Command, Commands, Script, checks};
