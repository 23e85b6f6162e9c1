//! The keys of rows as they are found by hashing: lists of values that are no arrays.

ghost use Rattle.std.specs.Prelude.{[], ◌∷◌, List, ◌++◌, All, IfOk, IfSome, OnOk, OnErr};
ghost use Rattle.smt_terms.specs.Values as plain;
ghost use Rattle.smt_values.specs.Meaning.{IsHeld};
ghost use Rattle.models.specs.GraphRows.{meanings};
ghost use Rattle.models.specs.RowKeys.{AreKeys, ArePlacesOf};

use indexmap::IndexSet;
use smallvec::SmallVec;
use smt_values::{FlatKey, Value, flat_key};
use std::alloc::{AllocError, Global};

/// A key of a row, as it is found by hashing.
#[derive(Clone, Copy, PartialEq, Eq, Hash)]
pub(crate) struct RowKey(FlatKey);

// What stands where a short list has no key.
impl Default for RowKey {
    fn default() -> RowKey {
        RowKey(FlatKey::Element(0))
    }
}

/// The keys of a row, in order. At most two take no memory.
pub(crate) type RowKeys = SmallVec<RowKey, 2>;

/// The keys of rows, each at the place of its row.
pub(crate) type RowPlaces = IndexSet<RowKeys>;

/// The keys of a row as they are found by hashing, and None where one is an array.
pub(crate) fn row_keys(alloc: Global, keys: &[Value]) -> Result<Option<RowKeys>, AllocError>
    requires { All IsHeld keys.now }
    ensures { IfOk result (λ flat. IfSome flat (AreKeys (meanings keys.now))) }
{
    let mut flat = SmallVec::with_capacity(alloc, keys.len())?;
    for key in keys {
        let Some(key) = flat_key(key) else {
            return Ok(None);
        };
        flat.push(RowKey(key))?;
    }
    Ok(Some(flat))
}

/// Enters the keys of a row behind the others, and gives all up where one is an array or they stand there already. Where memory
/// is refused, all is as before.
pub(crate) fn enter(
    alloc: Global,
    places: &mut Option<RowPlaces>,
    keys: &[Value],
) -> Result<(), AllocError>
    requires { All IsHeld keys.now }
    ensures ok { OnOk result ((rows : List (List plain.Value)) → ArePlacesOf rows places.old → ArePlacesOf (rows ++ meanings keys.now ∷ []) places.new) }
    ensures err { OnErr result ((rows : List (List plain.Value)) → ArePlacesOf rows places.old → ArePlacesOf rows places.new) }
{
    let Some(set) = places else {
        return Ok(());
    };
    let entered = match row_keys(alloc, keys)? {
        Some(flat) => set.insert(flat)?,
        None => false,
    };
    if !entered {
        *places = None;
    }
    Ok(())
}
