//! Constants with their numbers in a list.

ghost use Rattle.std.specs.Prelude.{◌≡◌, [], IfOk, OnOk};
ghost use Rattle.dimacs_link.specs.Constants.{constants_at, number_in, with_number, AreConstants, AreNumbersOf};

use indexmap::IndexMap;
use smt_terms::SymId;
use std::alloc::{AllocError, Global};
use std::marker::Model;
use term_table::{Table, know_table};

/// The numbers of constants. They are found in constant time.
#[derive(Drop)]
pub(crate) struct Numbers {
    numbers: IndexMap<SymId, u64>,
}

impl Model for Numbers {
    ghost use Rattle.std.specs.Prelude.{ℕ, List};
    ghost use Rattle.smt_terms.specs.declared.ids.SymId.{SymId};

    ghost Value = { List (SymId × ℕ) };

    ghost view = { λ n. n.numbers.entries };
}

impl Numbers {
    fn new(alloc: Global) -> Numbers
        ensures { result ≡ [] }
    {
        Numbers {
            numbers: IndexMap::new(alloc),
        }
    }

    // Gives a symbol this number, in the place of an earlier one.
    fn set(&mut self, symbol: SymId, number: u64) -> Result<(), AllocError>
        ensures { OnOk result (self.new ≡ with_number self.old symbol number) }
    {
        self.numbers.insert(symbol, number)?;
        Ok(())
    }

    // The number of a symbol.
    pub(crate) fn get(&self, symbol: SymId) -> Option<u64>
        ensures { result ≡ number_in self.now symbol }
    {
        self.numbers.get(&symbol).copied()
    }

    // Those of these constants, counted from 1.
    pub(crate) fn of(
        alloc: Global,
        table: &Table,
        constants: &[SymId],
    ) -> Result<Numbers, AllocError>
        requires { AreConstants table.now constants.now }
        ensures { IfOk result (AreNumbersOf table.now (constants_at table.now constants.now)) }
    {
        know_table(table);
        let mut numbers = Numbers::new(alloc);
        for (place, constant) in constants.iter().enumerate() {
            numbers.set(*constant, place as u64 + 1)?;
        }
        Ok(numbers)
    }
}
