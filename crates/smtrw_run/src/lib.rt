//! All that the program `smtrw` does, over sources and sinks of bytes: a script of SMT-LIB 2.6 is read, its assertions are
//! rewritten by named passes, and it is printed again (`rewrite`), a model of a check is carried over the passes (`translate`,
//! `extend`), a check over bit vectors becomes one over truth values, and a model of that one becomes one of the script (`blast`,
//! `unblast`), a check is taken for clauses, and a solver's answer to these for a model of the script (`dimacs`, `answer`), what
//! stands in the script is counted (`stats`), or it is shown what becomes of a script that is made up (`demo`). `run` is all of it;
//! its contract has the sentence that the program is for, that a script which was rewritten means what it meant before.

#![tactic(auto)]

mod blasting;
mod carrying;
mod counting;
mod demo;
mod linking;
mod rewriting;
pub mod run;
mod standard;

pub use standard::run_with_eight;
