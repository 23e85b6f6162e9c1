//! Names that stand nowhere yet.

ghost use Rattle.std.specs.Prelude.{◌≡◌, [], ℕ, reverse, OnOk, OnErr, IfOk};
ghost use Rattle.smt_terms.specs.Fresh.{Supply, numbered_name, next_number, after_draw, fresh_constant};
ghost use Rattle.smt_values.specs.SortIds.{IsSortId, sort_at};
ghost use Rattle.term_table.specs.Formulas.{IsSymbol, symbol_at, Adds, GrowsByOne};
ghost use Rattle.term_subst.specs.Counters.{digits_of, one_more};
ghost use Rattle.term_subst.specs.Names.{AgreeOnNumbered, begins_as_drawn};

use crate::{NameSet, NotedNames};
use smt_terms::SymId;
use smt_values::SortId;
use std::alloc::{AllocError, Global};
use std::marker::Model;
use term_table::Table;

/// The names `FV0`, `FV1`, .. that aren't taken and weren't drawn.
#[derive(Drop)]
pub struct Fresh {
    alloc: Global,
    // the names that are taken, and a set that has those of them which could be drawn
    noted: NotedNames,
    taken: NameSet,
    // the next number, its lowest digit first
    digits: Vec<u8>,
}

impl Model for Fresh {
    ghost use Rattle.smt_terms.specs.Fresh.{Supply};
    ghost use Rattle.term_subst.specs.Names.{coded_supply, AgreeOnNumbered};
    ghost use Rattle.term_subst.specs.Counters.{value, AreDigits};

    ghost Value = { Supply };

    ghost coded = { coded_supply };

    ghost view = { λ f. record { taken = f.noted.names; number = value f.digits.items } };

    ghost invariant = { λ f. AreDigits f.digits.items × AgreeOnNumbered f.taken f.noted.names };
}

impl Fresh {
    /// The names that aren't these, from `FV0` on. It takes no memory.
    pub fn new(alloc: Global, names: NameSet) -> Fresh
        ensures { result ≡ record { taken = names; number = 0 } }
    {
        let noted = NotedNames::of(&names);
        Fresh::beside(alloc, noted, names)
    }

    /// The names that aren't noted, from `FV0` on. The set has those of the noted names which could be drawn, and takes the
    /// only memory.
    pub fn beside(alloc: Global, noted: NotedNames, taken: NameSet) -> Fresh
        requires { AgreeOnNumbered taken noted.names }
        ensures { result ≡ record { taken = noted.names; number = 0 } }
    {
        Fresh {
            alloc,
            noted,
            taken,
            digits: Vec::new(alloc),
        }
    }

    /// Draws the next name, as a constant of this sort. Where it is refused, the names are as before.
    pub fn next(&mut self, table: &mut Table, sort: SortId) -> Result<SymId, AllocError>
        requires { IsSortId table.old.sorts sort }
        ensures within { IfOk result (λ f. IsSymbol table.new f) }
        ensures symbol { IfOk result (λ f. symbol_at table.new f ≡ fresh_constant (sort_at table.old.sorts sort) self.old) }
        ensures left { OnOk result (self.new ≡ after_draw self.old) }
        ensures added { OnOk result (Adds table.old.symbols table.new.symbols (fresh_constant (sort_at table.old.sorts sort) self.old)) }
        ensures grows { GrowsByOne table.old.symbols table.new.symbols }
        ensures sorts { table.new.sorts ≡ table.old.sorts }
        ensures trees { table.new.trees ≡ table.old.trees }
        ensures spare { table.new.spare ≡ table.old.spare }
        ensures err { OnErr result (table.new ≡ table.old) }
        ensures kept { OnErr result (self.new ≡ self.old) }
    {
        let mut digits = self.untaken()?;
        let name = numbered(self.alloc, &digits)?;
        count(&mut digits)?;
        let symbol = table.symbol(&name, &[], sort)?;
        self.digits = digits;
        Ok(symbol)
    }

    /// A second value with the same names.
    pub fn copy(&self) -> Result<Fresh, AllocError>
        ensures { IfOk result (λ f. f ≡ self.now) }
    {
        Ok(Fresh {
            alloc: self.alloc,
            noted: self.noted.copy(),
            taken: self.taken.copy()?,
            digits: Vec::from_slice(self.alloc, &self.digits)?,
        })
    }

    fn untaken(&self) -> Result<Vec<u8>, AllocError>
        ensures { IfOk result (λ ds. ds.items ≡ digits_of (next_number self.now)) }
    {
        let mut digits = Vec::from_slice(self.alloc, &self.digits)?;
        let mut name = numbered(self.alloc, &digits)?;
        while self.taken.has(&name) {
            count(&mut digits)?;
            name = numbered(self.alloc, &digits)?;
        }
        Ok(digits)
    }
}

/// Whether a name begins as each one does that is drawn.
pub fn begins_as_drawn(name: &[u8]) -> bool
    ensures { result ≡ begins_as_drawn name.now }
{
    name.starts_with(b"FV")
}

fn numbered(alloc: Global, digits: &[u8]) -> Result<Vec<u8>, AllocError>
    ensures { IfOk result (λ name. (n : ℕ) → digits.now ≡ digits_of n → name.items ≡ numbered_name n) }
{
    if digits.is_empty() {
        let name = Vec::from_slice(alloc, b"FV0")?;
        return Ok(name);
    }
    let mut name = Vec::from_slice(alloc, digits)?;
    name.extend_from_slice(b"VF")?;
    name.reverse();
    Ok(name)
}

fn count(digits: &mut Vec<u8>) -> Result<(), AllocError>
    ensures { OnOk result (digits.new.items ≡ one_more digits.old.items) }
{
    for i in 0..digits.len() {
        if digits[i] < b'9' {
            digits[i] += 1;
            return Ok(());
        }
        digits[i] = b'0';
    }
    digits.push(b'1')?;
    Ok(())
}
