//! Images in the places of constants.

ghost use Rattle.std.specs.Prelude.{◌≡◌, ◌<◌, Bool, true, false, Some, IfOk, OnOk, ◌||◌, is_some};
ghost use Rattle.smt_terms.specs.declared.ids.NodeId.{NodeId};
ghost use Rattle.term_table.specs.Formulas.{tree, IsNode};
ghost use Rattle.term_walk.specs.Walking.{GrowsTo};
ghost use Rattle.normal_forms.specs.Shape.{variables_of};
ghost use Rattle.term_walk.specs.Binders.{is_quantified};
ghost use Rattle.quantifier_forms.specs.Memos.{result_in};
ghost use Rattle.quantifier_forms.specs.Orders.{IsOrdered};
ghost use Rattle.boolean_quantifiers.specs.Replacing.{Pairs, image_of, images_at, binds_image, AreImages, IsPut, ArePut, Spares, AreReady, is_known, Extends};

use normal_forms::binding::{bind, is_universal};
use quantifier_forms::listing::{Choice, list};
use quantifier_forms::memo::Memo;
use quantifier_forms::rebuilding::{body_below, rebuilt};
use smt_terms::NodeId;
use std::alloc::{AllocError, Global};
use term_table::{Table, know_table};
use term_walk::is_binder;

// What takes the place of which constants, and which nodes are known to have none of these.
pub(crate) trait Images {
    ghost images: { Self → Pairs };

    ghost spares: { Self → NodeId → Bool };

    fn image(&self, id: NodeId) -> Option<NodeId>
        ensures { result ≡ image_of (images self.now) id };

    fn spares(&self, id: NodeId) -> bool
        ensures { result ≡ spares self.now id };
}

// The nodes that have a result or are spared.
#[derive(Drop)]
struct Known<'a, I> {
    images: &'a I,
    memo: &'a Memo,
    version: usize,
}

impl<'a, I: Images> Choice for Known<'a, I> {
    ghost use Rattle.boolean_quantifiers.specs.Replacing.{is_known};

    ghost skips = { λ s. is_known s.memo.now s.version (I.spares s.images.now) };

    ghost opens = { λ _ _ _. true };

    fn skips(&self, id: NodeId) -> bool {
        self.memo.get(self.version, id).is_some() || self.images.spares(id)
    }

    fn opens(&self, _table: &Table, _id: NodeId) -> bool {
        true
    }
}

// The nodes that need a result, each behind its operands.
fn unknown<I: Images>(
    alloc: Global,
    table: &Table,
    images: &I,
    memo: &Memo,
    version: usize,
    root: NodeId,
) -> Result<Vec<NodeId>, AllocError>
    requires { IsNode table.now root }
    ensures { IfOk result (λ ks. IsOrdered table.now (is_known memo.now version (I.spares images.now)) root ks.items) }
{
    know_table(table);
    let known = Known {
        images,
        memo,
        version,
    };
    let order = list(alloc, table, &known, root)?;
    Ok(order)
}

// Whether a quantified node binds a constant that has an image.
fn binds<I: Images>(table: &Table, images: &I, id: NodeId) -> bool
    requires node { IsNode table.now id }
    requires quantified { is_quantified (tree table.now id) ≡ true }
    requires images { AreImages table.now (I.images images.now) }
    ensures { result ≡ binds_image (images_at table.now (I.images images.now)) (variables_of (tree table.now id)) }
{
    let kids = table.kids(id);
    for kid in &kids[..kids.len() - 1] {
        if images.image(*kid).is_some() {
            return true;
        }
    }
    false
}

// The result of a quantified node, whose body has one.
fn put_quantified<I: Images>(
    alloc: Global,
    table: &mut Table,
    images: &I,
    memo: &Memo,
    version: usize,
    id: NodeId,
) -> Result<NodeId, AllocError>
    requires node { IsNode table.old id }
    requires quantified { is_quantified (tree table.old id) ≡ true }
    requires images { AreImages table.old (I.images images.now) }
    requires ready { AreReady table.old (I.images images.now) memo.now version id }
    ensures put { IfOk result (IsPut table.new (I.images images.now) id) }
    ensures grows { GrowsTo table.old table.new }
    ensures symbols { table.new.symbols ≡ table.old.symbols }
{
    know_table(table);
    if binds(table, images, id) {
        return Ok(id);
    }
    let body = memo.known(version, body_below(table, id));
    let universal = is_universal(table, id);
    let result = bind(alloc, table, id, universal, body)?;
    Ok(result)
}

// The result of a node that isn't quantified, whose operands have results.
fn put_applied<I: Images>(
    alloc: Global,
    table: &mut Table,
    images: &I,
    memo: &Memo,
    version: usize,
    id: NodeId,
) -> Result<NodeId, AllocError>
    requires node { IsNode table.old id }
    requires applied { is_quantified (tree table.old id) ≡ false }
    requires images { AreImages table.old (I.images images.now) }
    requires ready { AreReady table.old (I.images images.now) memo.now version id }
    ensures put { IfOk result (IsPut table.new (I.images images.now) id) }
    ensures grows { GrowsTo table.old table.new }
    ensures symbols { table.new.symbols ≡ table.old.symbols }
{
    know_table(table);
    if let Some(image) = images.image(id) {
        return Ok(image);
    }
    let kids = memo.known_all(alloc, version, table.kids(id))?;
    let result = rebuilt(table, id, &kids)?;
    Ok(result)
}

fn put_node<I: Images>(
    alloc: Global,
    table: &mut Table,
    images: &I,
    memo: &Memo,
    version: usize,
    id: NodeId,
) -> Result<NodeId, AllocError>
    requires node { IsNode table.old id }
    requires images { AreImages table.old (I.images images.now) }
    requires ready { AreReady table.old (I.images images.now) memo.now version id }
    ensures put { IfOk result (IsPut table.new (I.images images.now) id) }
    ensures grows { GrowsTo table.old table.new }
    ensures symbols { table.new.symbols ≡ table.old.symbols }
{
    if is_binder(table, id) {
        return put_quantified(alloc, table, images, memo, version, id);
    }
    put_applied(alloc, table, images, memo, version, id)
}

// Keeps the result of a node whose operands have results.
fn settle<I: Images>(
    alloc: Global,
    table: &mut Table,
    images: &I,
    memo: &mut Memo,
    version: usize,
    id: NodeId,
) -> Result<(), AllocError>
    requires node { IsNode table.old id }
    requires images { AreImages table.old (I.images images.now) }
    requires ready { AreReady table.old (I.images images.now) memo.old version id }
    requires put { ArePut table.old (I.images images.now) memo.old version }
    ensures put { OnOk result (ArePut table.new (I.images images.now) memo.new version) }
    ensures extends { OnOk result (Extends memo.old memo.new version) }
    ensures done { OnOk result (is_some (result_in memo.new version id) ≡ true) }
    ensures grows { GrowsTo table.old table.new }
    ensures symbols { table.new.symbols ≡ table.old.symbols }
{
    let result = put_node(alloc, table, images, memo, version, id)?;
    memo.set(version, id, result)?;
    Ok(())
}

// The node with images in the places of constants. Each node below it gets at most one result in this version.
pub(crate) fn replace<I: Images>(
    alloc: Global,
    table: &mut Table,
    images: &I,
    memo: &mut Memo,
    version: usize,
    root: NodeId,
) -> Result<NodeId, AllocError>
    requires root { IsNode table.old root }
    requires images { AreImages table.old (I.images images.now) }
    requires spares { Spares table.old (I.images images.now) (I.spares images.now) }
    requires put { ArePut table.old (I.images images.now) memo.old version }
    ensures result { IfOk result (IsPut table.new (I.images images.now) root) }
    ensures put { OnOk result (ArePut table.new (I.images images.now) memo.new version) }
    ensures extends { OnOk result (Extends memo.old memo.new version) }
    ensures grows { GrowsTo table.old table.new }
    ensures symbols { table.new.symbols ≡ table.old.symbols }
{
    let order = unknown(alloc, table, images, memo, version, root)?;
    for id in &order {
        settle(alloc, table, images, memo, version, *id)?;
    }
    Ok(memo.known(version, root))
}
