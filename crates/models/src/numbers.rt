//! The results of `div` and `mod` by zero, as rows.

ghost use Rattle.std.specs.Prelude.{◌≡◌, ◌<◌, length, slice_get, Some, IsTrue, OnOk, OnErr};
ghost use Rattle.smt_terms.specs.Models.{number_value, distinct_number_rows};
ghost use Rattle.models.specs.NumberRows.{IsWithin, constant_numbers, number_row_added};

use indexmap::IndexMap;
use std::alloc::{AllocError, Global};
use std::marker::Model;

/// A function of whole numbers: rows of a number with a result, no two for one number, and the result for all other numbers. All of
/// them have a magnitude of at most 2^127 - 1.
#[derive(Drop)]
pub struct NumberGraph {
    rows: IndexMap<i128, i128>,
    otherwise: i128,
}

impl Model for NumberGraph {
    ghost use Rattle.smt_terms.specs.Models as models;
    ghost use Rattle.models.specs.ModelCodes.{coded_number_graph};
    ghost use Rattle.models.specs.NumberRows.{number_rows_of, AreWithin, IsWithin};

    ghost Value = { models.NumberGraph };

    ghost coded = { coded_number_graph };

    ghost view = { λ g. record { rows = number_rows_of g.rows.entries; otherwise = g.otherwise } };

    ghost invariant = { λ g. AreWithin g.rows.entries × IsWithin g.otherwise };
}

impl NumberGraph {
    /// The function that has this value everywhere. It takes no memory.
    pub fn new(alloc: Global, otherwise: i128) -> NumberGraph
        requires { IsWithin otherwise }
        ensures { result ≡ constant_numbers otherwise }
    {
        NumberGraph {
            rows: IndexMap::new(alloc),
            otherwise,
        }
    }

    /// The number of rows. It takes no memory.
    pub fn len(&self) -> usize
        ensures { result ≡ length self.now.rows }
    {
        self.rows.len()
    }

    /// The number and the result of a row. It takes no memory.
    pub fn row(&self, i: usize) -> (i128, i128)
        requires { i < length self.now.rows }
        ensures row { slice_get self.now.rows i ≡ Some (record { key = result.0; result = result.1 }) }
        ensures key { IsWithin result.0 }
        ensures value { IsWithin result.1 }
    {
        let Some((key, value)) = self.rows.get_index(i) else {
            unreachable!()
        };
        (*key, *value)
    }

    /// The result for all numbers that no row has. It takes no memory.
    pub fn otherwise(&self) -> i128
        ensures value { result ≡ self.now.otherwise }
        ensures within { IsWithin result }
    {
        self.otherwise
    }

    /// The result for a number. It takes no memory.
    pub fn value_at(&self, n: i128) -> i128
        ensures value { result ≡ number_value self.now n }
        ensures within { IsWithin result }
    {
        match self.rows.get(&n) {
            Some(value) => *value,
            None => self.otherwise,
        }
    }

    /// Puts a row last, unless there is one for this number. Where it is refused, all is as before.
    pub fn add_row(&mut self, key: i128, value: i128) -> Result<(), AllocError>
        requires key { IsWithin key }
        requires value { IsWithin value }
        ensures ok { OnOk result (self.new ≡ number_row_added key value self.old) }
        ensures err { OnErr result (self.new ≡ self.old) }
    {
        if !self.rows.contains_key(&key) {
            self.rows.insert(key, value)?;
        }
        Ok(())
    }

    /// No two rows are for one number.
    pub fn rows_are_distinct(&self)
        ensures { IsTrue (distinct_number_rows self.now.rows) }
    {
        let _ = self.rows.len();
    }
}
