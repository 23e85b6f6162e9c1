//! Sessions: what is known between two commands of a script, and what the next one makes of it (SMT-LIB 2.6, sections 3.9,
//! 4.1 and 4.2).

ghost use Rattle.std.specs.Prelude.{◌≡◌, false};
ghost use Rattle.script_terms.specs.Known.{nothing_known};

mod assertions;
mod definitions;
mod levels;
mod literals;
mod new_names;
mod numerals;
mod options;
mod sort_names;
mod symbols;
mod turns;

use script_terms::scopes::Scope;
use script_terms::sofar::Sofar;
use std::alloc::Global;
use term_subst::Fresh;
pub use turns::read_command;

/// What is known between two commands.
#[derive(Drop)]
pub struct Session<'a> {
    /// The live bindings, and the names that are left to draw.
    pub sofar: Sofar<'a>,
    /// Whether declarations outlive their level.
    pub global: bool,
    /// Whether a command came that declares, defines, asserts, checks, pushes or pops, since the start or the last `reset`.
    pub begun: bool,
    /// The number of assertions that were read.
    pub asserted: u64,
}

impl<'a> Session<'a> {
    /// Nothing is live, and these names are left. It takes no memory.
    pub fn new(alloc: Global, fresh: Fresh) -> Session<'a>
        ensures { result ≡ record { sofar = record { scope = nothing_known; fresh = fresh }; global = false; begun = false; asserted = 0 } }
    {
        let sofar = Sofar {
            scope: Scope::new(alloc),
            fresh,
        };
        Session {
            sofar,
            global: false,
            begun: false,
            asserted: 0,
        }
    }

    /// The names that are left to draw.
    pub fn into_names(self) -> Fresh
        ensures { result ≡ self.entry.sofar.fresh }
    {
        let Sofar { fresh, .. } = self.sofar;
        fresh
    }
}
