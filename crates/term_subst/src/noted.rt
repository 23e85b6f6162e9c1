//! Names that are known in proofs alone.

ghost use Rattle.std.specs.Prelude.{◌≡◌, List};
ghost use Rattle.smt_terms.specs.Sorts.{Name};
ghost use Rattle.smt_values.specs.Codes.{coded_name};
ghost use Rattle.std.specs.Coded.{coded_list};

use crate::NameSet;
use std::marker::Model;

/// A list of names that takes no memory: only contracts see the names.
#[derive(Drop)]
pub struct NotedNames {
    pub ghost names: { List Name } by { coded_list coded_name },
}

impl Model for NotedNames {
    ghost use Rattle.std.specs.Borrow.{ftrue};

    ghost also_owns = { λ _. ftrue };
}

impl NotedNames {
    /// The names of a set.
    pub fn of(_names: &NameSet) -> NotedNames
        ensures { result.names ≡ _names.now }
    {
        NotedNames {}
    }

    // The same names again.
    pub(crate) fn copy(&self) -> NotedNames
        ensures { result.names ≡ self.now.names }
    {
        NotedNames {}
    }
}
