//! Values: scalars, elements of declared sorts, and arrays.

ghost use Rattle.std.specs.Prelude.{◌≡◌, ◌<◌, OnOk, Some, IfOk, IfSome};
ghost use Rattle.smt_terms.specs.Values as plain;
ghost use Rattle.smt_terms.specs.Values.{no_pairs, Pairs};
ghost use Rattle.smt_values.specs.FlatKeys.{AreKeysOf};
ghost use Rattle.smt_values.specs.Meaning.{meaning, pairs_of, IsHeld, AreHeld};
ghost use Rattle.smt_values.specs.Tables.{count, pair_at, with_value_at, with_pair};

use crate::flat_keys::{FlatKey, flat_key};
use crate::scalar::Scalar;
use indexmap::IndexSet;
use std::alloc::{AllocError, Global};
use std::marker::Model;

/// So many pairs are searched one by one: with one more, their keys are found by hashing.
const FEW_PAIRS: usize = 15;

/// An array: a default value, and pairs of a key and the value there, in an order that is kept.
#[cycle(values)]
#[derive(Drop)]
pub struct ArrayValue {
    pub(crate) fallback: Value,
    pub(crate) pairs: Vec<Pair>,
    // The keys of all pairs, each at the place of its pair: only where there are many pairs, and no key is an array.
    places: Option<IndexSet<FlatKey>>,
}

/// A value of a sort: a scalar, the element of a declared sort by its number, or an array.
#[cycle(values)]
#[derive(Drop)]
pub enum Value {
    /// A truth value, a whole number or a bit vector.
    Scalar(Scalar),
    /// The element with this number, from 0 on, of a declared sort.
    Element(u64),
    /// An array: a value for all keys but those of its pairs.
    Array(Box<ArrayValue>),
}

#[cycle(values)]
#[derive(Drop)]
pub(crate) struct Pair {
    pub(crate) key: Value,
    pub(crate) value: Value,
}

impl Model for ArrayValue {
    ghost use Rattle.smt_values.specs.Tables.{Table, depth};
    ghost use Rattle.smt_values.specs.Codes.{coded_table};

    ghost Value = { Table };

    ghost coded = { coded_table };

    ghost use Rattle.std.specs.Prelude.{IfSome};
    ghost use Rattle.smt_values.specs.FlatKeys.{AreKeysOf};
    ghost use Rattle.smt_values.specs.Meaning.{meaning, pairs_of, IsHeld, AreHeld};

    ghost view = { λ a. record { fallback = meaning a.fallback; pairs = pairs_of a.pairs.items } };

    ghost invariant = { λ a. IsHeld a.fallback × AreHeld a.pairs.items × IfSome a.places (λ s. AreKeysOf (pairs_of a.pairs.items) s.keys) };

    ghost size = { depth };

    ghost use Rattle.smt_values.specs.Deep.{deep_array};

    ghost size_decreases = { λ a h. deep_array a.fallback a.pairs.items };
}

impl ArrayValue {
    /// The array that has this value everywhere. It takes no memory.
    pub fn new(alloc: Global, value: Value) -> ArrayValue
        requires { IsHeld value }
        ensures { result ≡ record { fallback = meaning value; pairs = no_pairs } }
    {
        ArrayValue {
            fallback: value,
            pairs: Vec::new(alloc),
            places: None,
        }
    }

    /// The default value.
    pub fn fallback(&self) -> &Value
        ensures value { meaning result.now ≡ self.now.fallback }
        ensures held { IsHeld result.now }
    {
        &self.fallback
    }

    /// The number of pairs.
    pub fn len(&self) -> usize
        ensures { result ≡ count self.now.pairs }
    {
        self.pairs.len()
    }

    /// The key and the value of a pair.
    pub fn pair(&self, i: usize) -> (&Value, &Value)
        requires { i < count self.now.pairs }
        ensures pair { pair_at self.now.pairs i ≡ Some (meaning result.0.now, meaning result.1.now) }
        ensures key { IsHeld result.0.now }
        ensures value { IsHeld result.1.now }
    {
        let pair = &self.pairs[i];
        (&pair.key, &pair.value)
    }

    pub(crate) fn pairs(&self) -> &[Pair]
        ensures pairs { pairs_of result.now ≡ self.now.pairs }
        ensures held { AreHeld result.now }
    {
        self.pairs.as_slice()
    }

    // The keys of all pairs, each at the place of its pair, where they are found by hashing.
    pub(crate) fn places(&self) -> Option<&IndexSet<FlatKey>>
        ensures { IfSome result (λ s. AreKeysOf self.now.pairs s.now.keys) }
    {
        self.places.as_ref()
    }

    // Puts another value at the key of a pair.
    pub(crate) fn set_value(&mut self, i: usize, value: Value)
        requires within { i < count self.old.pairs }
        requires held { IsHeld value }
        ensures { self.new ≡ record self.old { pairs = with_value_at self.old.pairs i (meaning value) } }
    {
        self.pairs[i].value = value;
    }

    // Puts a pair behind the others.
    pub(crate) fn push(&mut self, key: Value, value: Value) -> Result<(), AllocError>
        requires key { IsHeld key }
        requires value { IsHeld value }
        ensures { OnOk result (self.new ≡ record self.old { pairs = with_pair self.old.pairs (meaning key) (meaning value) }) }
    {
        let places = self.take_places()?;
        let places = with_key(places, &key)?;
        self.pairs.push(Pair { key, value })?;
        self.places = places;
        Ok(())
    }

    // Takes out the keys of all pairs, or makes them where the next pair is the first of many.
    fn take_places(&mut self) -> Result<Option<IndexSet<FlatKey>>, AllocError>
        ensures places { IfOk result (λ places. IfSome places (λ s. AreKeysOf self.old.pairs s.keys)) }
        ensures same { self.new ≡ self.old }
    {
        if self.pairs.len() == FEW_PAIRS {
            return keys_of(*self.pairs.allocator(), self.pairs.as_slice());
        }
        Ok(self.places.take())
    }
}

// The keys of all these pairs, and None where one is an array or stands there twice.
fn keys_of(alloc: Global, pairs: &[Pair]) -> Result<Option<IndexSet<FlatKey>>, AllocError>
    requires { AreHeld pairs.now }
    ensures { IfOk result (λ places. IfSome places (λ s. AreKeysOf (pairs_of pairs.now) s.keys)) }
{
    let mut places = Some(IndexSet::new(alloc));
    for pair in pairs {
        places = with_key(places, &pair.key)?;
    }
    Ok(places)
}

// The keys with one more behind them, and None where this one is an array or is there already.
fn with_key(
    places: Option<IndexSet<FlatKey>>,
    key: &Value,
) -> Result<Option<IndexSet<FlatKey>>, AllocError>
    requires { IsHeld key.now }
    ensures { IfOk result (λ all. IfSome all (λ s. (ps : Pairs) (v : plain.Value) → IfSome places (λ t. AreKeysOf ps t.keys) → AreKeysOf (with_pair ps (meaning key.now) v) s.keys)) }
{
    let (Some(mut places), Some(key)) = (places, flat_key(key)) else {
        return Ok(None);
    };
    if places.insert(key)? {
        Ok(Some(places))
    } else {
        Ok(None)
    }
}
