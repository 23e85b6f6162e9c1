//! Texts of models, as solvers write them (SMT-LIB 2.6, section 4.2.6), over a script's signature: read into models, and models
//! printed as such texts. What is printed reads back as the model.

#![tactic(auto)]

mod conditions;
mod elements;
mod entries;
mod faults;
pub mod laws;
mod literals;
mod names;
mod parameters;
mod places;
mod print;
mod print_tables;
mod print_values;
mod reader;
mod shapes;
mod sorts;
mod tables;
mod values;

pub use faults::ModelFault;
pub use print::model_text;
pub use reader::read_model;
