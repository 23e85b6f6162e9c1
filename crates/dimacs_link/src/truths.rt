//! Lists of truth values, as public enums hold them.

ghost use Rattle.std.specs.Prelude.{◌≡◌, ◌<◌, ◌++◌, ◌∷◌, [], false, true, length, replicate, Some, slice_get, slice_set, IfOk, OnOk, OnErr};

use std::alloc::{AllocError, Global};
use std::marker::Model;

/// A list of truth values.
#[derive(Drop)]
pub struct Truths {
    items: Vec<bool>,
}

impl Model for Truths {
    ghost use Rattle.std.specs.Prelude.{Bool, List};

    ghost Value = { List Bool };

    ghost view = { λ t. t.items.items };
}

impl Truths {
    /// The empty list. It takes no memory.
    pub fn new(alloc: Global) -> Truths
        ensures { result ≡ [] }
    {
        Truths {
            items: Vec::new(alloc),
        }
    }

    // So many times `false`.
    pub(crate) fn all_false(alloc: Global, len: usize) -> Result<Truths, AllocError>
        ensures { IfOk result (λ t. t ≡ replicate len false) }
    {
        Ok(Truths {
            items: vec![in alloc; false; len]?,
        })
    }

    /// Puts a truth value last. Where it is refused, the list is as before.
    pub fn push(&mut self, value: bool) -> Result<(), AllocError>
        ensures ok { OnOk result (self.new ≡ self.old ++ value ∷ []) }
        ensures err { OnErr result (self.new ≡ self.old) }
    {
        self.items.push(value)?;
        Ok(())
    }

    /// The number of truth values.
    pub fn len(&self) -> usize
        ensures { result ≡ length self.now }
    {
        self.items.len()
    }

    /// The truth value at a place.
    pub fn get(&self, i: usize) -> bool
        requires { i < length self.now }
        ensures { slice_get self.now i ≡ Some result }
    {
        self.items[i]
    }

    // Makes the truth value at a place `true`.
    pub(crate) fn set(&mut self, i: usize)
        requires { i < length self.old }
        ensures { self.new ≡ slice_set self.old i true }
    {
        self.items[i] = true;
    }
}
