//! Maps that are cut down to some symbols.

ghost use Rattle.std.specs.Prelude.{◌≡◌, ◌++◌, ◌∷◌, [], All, IfOk, OnOk};
ghost use Rattle.smt_terms.specs.Subst.{cut_to};
ghost use Rattle.smt_terms.specs.declared.ids.SymId.{SymId};
ghost use Rattle.term_table.specs.Formulas.{Formulas, symbol_at, IsSymbol};
ghost use Rattle.term_walk.specs.FreeLists.{named};
ghost use Rattle.term_subst.specs.Maps.{map_at, image_in};
ghost use Rattle.term_subst.specs.Substituting.{IsMap};

use crate::SymMap;
use smt_terms::{NodeId, SymId};
use std::alloc::{AllocError, Global};
use term_table::{Table, know_table};

// Puts a symbol with its image last, where it has one.
fn take_along(
    table: &Table,
    map: &SymMap,
    symbol: SymId,
    cut: &mut Vec<(SymId, NodeId)>,
) -> Result<(), AllocError>
    requires symbol { IsSymbol table.now symbol }
    requires map { IsMap table.now map.now }
    requires cut { IsMap table.now cut.old.items }
    ensures map { OnOk result (map_at table.now cut.new.items ≡ map_at table.now cut.old.items ++ cut_to (symbol_at table.now symbol ∷ []) (map_at table.now map.now)) }
    ensures within { OnOk result (IsMap table.now cut.new.items) }
{
    know_table(table);
    match map.get(symbol) {
        Some(image) => {
            cut.push((symbol, image))?;
            Ok(())
        }
        None => Ok(()),
    }
}

// The map cut down to these symbols, in their order.
pub(crate) fn cut_down(
    alloc: Global,
    table: &Table,
    map: &SymMap,
    symbols: &[SymId],
) -> Result<Vec<(SymId, NodeId)>, AllocError>
    requires symbols { All (IsSymbol table.now) symbols.now }
    requires map { IsMap table.now map.now }
    ensures map { IfOk result (λ c. map_at table.now c.items ≡ cut_to (named table.now symbols.now) (map_at table.now map.now)) }
    ensures within { IfOk result (λ c. IsMap table.now c.items) }
{
    let mut cut = Vec::new(alloc);
    for symbol in symbols {
        take_along(table, map, *symbol, &mut cut)?;
    }
    Ok(cut)
}

// The map with these pairs. Of a symbol that stands there twice the first image counts.
pub(crate) fn as_map(alloc: Global, pairs: &[(SymId, NodeId)]) -> Result<SymMap, AllocError>
    ensures images { IfOk result (λ m. (f : SymId) → image_in m f ≡ image_in pairs.now f) }
    ensures within { (t : Formulas) → IsMap t pairs.now → IfOk result (λ m. IsMap t m) }
{
    let mut map = SymMap::new(alloc);
    for place in (0..pairs.len()).rev() {
        let (symbol, image) = pairs[place];
        map.set(symbol, image)?;
    }
    Ok(map)
}
