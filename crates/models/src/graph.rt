//! The functions of symbols, as rows.

ghost use Rattle.std.specs.Prelude.{◌≡◌, ◌<◌, [], ◌∷◌, ◌++◌, length, map, slice_get, Some, All, IfSome, IfOk, OnOk, OnErr};
ghost use Rattle.smt_terms.specs.Models.{graph_value};
ghost use Rattle.smt_terms.specs.Values as plain;
ghost use Rattle.smt_values.specs.Meaning.{meaning, IsHeld};
ghost use Rattle.smt_values.specs.SizeTable.{sizes_by};
ghost use Rattle.smt_values.specs.SortIds.{sort_at, IsSortId};
ghost use Rattle.models.specs.GraphRows.{meanings, rows_of, constant_graph, has_row, with_row, IsHeldRow, AreValues, HaveKeys};
ghost use Rattle.models.specs.RowKeys.{keys_of, row_place, ArePlacesOf};

use crate::row_keys::{RowPlaces, enter, row_keys};
use indexmap::IndexSet;
use smt_terms::SortId;
use smt_values::{Sizes, SortTable, Value, same};
use std::alloc::{AllocError, Global};
use std::marker::Model;

/// So many rows are found by hashing: fewer are searched one by one.
const MANY_ROWS: usize = 16;

/// The result at arguments.
#[derive(Drop)]
struct Row {
    keys: Vec<Value>,
    value: Value,
}

/// The function of a symbol: rows of arguments with a result, no two for the same arguments, and the value at all other
/// arguments.
#[derive(Drop)]
pub struct Graph {
    rows: Vec<Row>,
    otherwise: Value,
    // The keys of all rows, each at the place of its row: only where there are many rows, and no key is an array.
    places: Option<RowPlaces>,
}

impl Model for Graph {
    ghost use Rattle.std.specs.Prelude.{All};
    ghost use Rattle.smt_terms.specs.Models as models;
    ghost use Rattle.smt_values.specs.Meaning.{meaning, IsHeld};
    ghost use Rattle.models.specs.ModelCodes.{coded_graph};
    ghost use Rattle.models.specs.GraphRows.{rows_of, IsHeldRow};
    ghost use Rattle.models.specs.RowKeys.{keys_of, ArePlacesOf};

    ghost Value = { models.Graph };

    ghost coded = { coded_graph };

    ghost view = { λ g. record { rows = rows_of g.rows.items; otherwise = meaning g.otherwise } };

    ghost invariant = { λ g. All IsHeldRow g.rows.items × IsHeld g.otherwise × ArePlacesOf (keys_of (rows_of g.rows.items)) g.places };
}

impl Graph {
    /// The function that has this value everywhere. It takes no memory.
    pub(crate) fn new(alloc: Global, otherwise: Value) -> Graph
        requires { IsHeld otherwise }
        ensures { result ≡ constant_graph (meaning otherwise) }
    {
        Graph {
            rows: Vec::new(alloc),
            otherwise,
            places: None,
        }
    }

    /// The number of rows. It takes no memory.
    pub fn len(&self) -> usize
        ensures { result ≡ length self.now.rows }
    {
        self.rows.len()
    }

    /// The keys and the result of a row. It takes no memory.
    pub fn row(&self, i: usize) -> (&[Value], &Value)
        requires { i < length self.now.rows }
        ensures row { slice_get self.now.rows i ≡ Some (record { keys = meanings result.0.now; result = meaning result.1.now }) }
        ensures keys { All IsHeld result.0.now }
        ensures value { IsHeld result.1.now }
    {
        let row = &self.rows[i];
        (row.keys.as_slice(), &row.value)
    }

    /// The value at arguments that no row has. It takes no memory.
    pub fn otherwise(&self) -> &Value
        ensures value { meaning result.now ≡ self.now.otherwise }
        ensures held { IsHeld result.now }
    {
        &self.otherwise
    }

    /// Whether there is a row with keys that are the same as these. It needs no memory.
    pub(crate) fn has_row(
        &self,
        keys: &[Value],
        args: &[SortId],
        sorts: &SortTable,
        sizes: &Sizes,
    ) -> bool
        requires args { All (IsSortId sorts.now) args.now }
        requires keys { AreValues (map (sort_at sorts.now) args.now) (sizes_by sorts.now sizes.now) keys.now }
        requires rows { HaveKeys (map (sort_at sorts.now) args.now) (sizes_by sorts.now sizes.now) self.now.rows }
        ensures { result ≡ has_row (map (sort_at sorts.now) args.now) (sizes_by sorts.now sizes.now) (meanings keys.now) self.now.rows }
    {
        self.find(keys, args, sorts, sizes).is_some()
    }

    /// The value at these arguments: the result of the first row whose keys are the same, or the value of all others. It needs
    /// no memory.
    pub(crate) fn value_at(
        &self,
        keys: &[Value],
        args: &[SortId],
        sorts: &SortTable,
        sizes: &Sizes,
    ) -> &Value
        requires args { All (IsSortId sorts.now) args.now }
        requires keys { AreValues (map (sort_at sorts.now) args.now) (sizes_by sorts.now sizes.now) keys.now }
        requires rows { HaveKeys (map (sort_at sorts.now) args.now) (sizes_by sorts.now sizes.now) self.now.rows }
        ensures value { meaning result.now ≡ graph_value (map (sort_at sorts.now) args.now) (sizes_by sorts.now sizes.now) self.now (meanings keys.now) }
        ensures held { IsHeld result.now }
    {
        match self.find(keys, args, sorts, sizes) {
            Some(i) => &self.rows[i].value,
            None => &self.otherwise,
        }
    }

    // The place of the first row whose keys are the same as these. Where it can't be found by hashing, for want of memory too, the
    // rows are searched one by one.
    fn find(
        &self,
        keys: &[Value],
        args: &[SortId],
        sorts: &SortTable,
        sizes: &Sizes,
    ) -> Option<usize>
        requires args { All (IsSortId sorts.now) args.now }
        requires keys { AreValues (map (sort_at sorts.now) args.now) (sizes_by sorts.now sizes.now) keys.now }
        requires rows { HaveKeys (map (sort_at sorts.now) args.now) (sizes_by sorts.now sizes.now) self.now.rows }
        ensures within { IfSome result (λ i. i < length self.now.rows) }
        ensures place { result ≡ row_place (map (sort_at sorts.now) args.now) (sizes_by sorts.now sizes.now) (meanings keys.now) self.now.rows }
    {
        if let Some(places) = &self.places {
            if let Ok(Some(flat)) = row_keys(*self.rows.allocator(), keys) {
                return places.get_index_of(&flat);
            }
        }
        find_among(self.rows.as_slice(), keys, args, sorts, sizes)
    }

    /// Puts a row last. Where it is refused, all is as before.
    pub(crate) fn push(&mut self, keys: Vec<Value>, value: Value) -> Result<(), AllocError>
        requires keys { All IsHeld keys.items }
        requires value { IsHeld value }
        ensures ok { OnOk result (self.new ≡ with_row (meanings keys.items) (meaning value) self.old) }
        ensures err { OnErr result (self.new ≡ self.old) }
    {
        self.rows.reserve(1)?;
        let alloc = *self.rows.allocator();
        enter_behind(
            alloc,
            &mut self.places,
            self.rows.as_slice(),
            keys.as_slice(),
        )?;
        self.rows.push_reserved(Row { keys, value });
        Ok(())
    }
}

// Enters the keys of a row that goes behind these rows, and theirs too where it is the first of many. Where memory is refused,
// the keys stay those of these rows.
fn enter_behind(
    alloc: Global,
    places: &mut Option<RowPlaces>,
    rows: &[Row],
    keys: &[Value],
) -> Result<(), AllocError>
    requires held { All IsHeldRow rows.now }
    requires keys { All IsHeld keys.now }
    requires places { ArePlacesOf (keys_of (rows_of rows.now)) places.old }
    ensures ok { OnOk result (ArePlacesOf (keys_of (rows_of rows.now) ++ meanings keys.now ∷ []) places.new) }
    ensures err { OnErr result (ArePlacesOf (keys_of (rows_of rows.now)) places.new) }
{
    if rows.len() == MANY_ROWS - 1 {
        *places = places_of(alloc, rows)?;
    }
    enter(alloc, places, keys)
}

// The keys of all these rows, and None where one is an array or two rows have the same.
fn places_of(alloc: Global, rows: &[Row]) -> Result<Option<RowPlaces>, AllocError>
    requires { All IsHeldRow rows.now }
    ensures { IfOk result (ArePlacesOf (keys_of (rows_of rows.now))) }
{
    let mut places = Some(IndexSet::new(alloc));
    for row in rows {
        enter(alloc, &mut places, row.keys.as_slice())?;
    }
    Ok(places)
}

// The place of a row among rows that are searched one by one.
fn find_among(
    rows: &[Row],
    keys: &[Value],
    args: &[SortId],
    sorts: &SortTable,
    sizes: &Sizes,
) -> Option<usize>
    requires held { All IsHeldRow rows.now }
    requires args { All (IsSortId sorts.now) args.now }
    requires keys { AreValues (map (sort_at sorts.now) args.now) (sizes_by sorts.now sizes.now) keys.now }
    requires rows { HaveKeys (map (sort_at sorts.now) args.now) (sizes_by sorts.now sizes.now) (rows_of rows.now) }
    ensures within { IfSome result (λ i. i < length rows.now) }
    ensures place { result ≡ row_place (map (sort_at sorts.now) args.now) (sizes_by sorts.now sizes.now) (meanings keys.now) (rows_of rows.now) }
{
    for (i, row) in rows.iter().enumerate() {
        if all_same(row.keys.as_slice(), keys, args, sorts, sizes) {
            return Some(i);
        }
    }
    None
}

// Whether two lists of values of these sorts are the same, one by one.
fn all_same(a: &[Value], b: &[Value], args: &[SortId], sorts: &SortTable, sizes: &Sizes) -> bool
    requires args { All (IsSortId sorts.now) args.now }
    requires a { AreValues (map (sort_at sorts.now) args.now) (sizes_by sorts.now sizes.now) a.now }
    requires b { AreValues (map (sort_at sorts.now) args.now) (sizes_by sorts.now sizes.now) b.now }
    ensures { result ≡ plain.all_same (map (sort_at sorts.now) args.now) (sizes_by sorts.now sizes.now) (meanings a.now) (meanings b.now) }
{
    for place in 0..args.len() {
        if !same(&a[place], &b[place], args[place], sorts, sizes) {
            return false;
        }
    }
    true
}
