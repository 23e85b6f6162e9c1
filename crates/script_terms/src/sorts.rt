//! Sorts as they are written (SMT-LIB 2.6, section 3.5).

ghost use Rattle.std.specs.Prelude.{◌≡◌, ◌+◌, ◌*◌, ◌<◌, ◌≤◌, ◌∷◌, [], ℕ, List, length, map, All, IfOk, OnOk, OnErr, MatchOption, Ok, Some};
ghost use Rattle.smt_terms.specs.Sorts.{Sort};
ghost use Rattle.smt_values.specs.SortIds.{sort_at, IsSortId};
ghost use Rattle.term_table.specs.Formulas.{Formulas};
ghost use Rattle.term_walk.specs.Walking.{GrowsTo};
ghost use Rattle.smt_lex.specs.Forms.{node};
ghost use Rattle.script_terms.specs.Parts.{place_of, symbol_in};
ghost use Rattle.script_terms.specs.Refusals.{at};
ghost use Rattle.script_terms.specs.SortForms.{Sorts, sort_in, parts_in, sorts_in, sort_of_name, sort_of_symbol, indexed_sort, applied_sort, array_sort, vectors_of};
ghost use Rattle.script_terms.specs.SortSteps.{IsFrame, AreFrames, IsPartOf, IsPartAt, Leads, all_filled, without_parameters, form_size, forms_size, frames_size};
ghost use Rattle.script_terms.specs.Known.{AreScopedSorts, sorts_known};
ghost use Rattle.script_terms.specs.Places.{IsRead, IsForm, form_from, forms_from};
ghost use Rattle.script_terms.specs.Replies.{Follows, Agrees};

use crate::causes::Cause;
use crate::faults::{Fault, ReadFault};
use crate::lists::{Few, few_from};
use crate::names::is_theory_sort;
use crate::places::{begins, fault, inside, is_symbol, is_word, numeral_at, place_of};
use crate::scopes::Scope;
use smt_lex::Forest;
use smt_terms::{MOST_BITS, SortId};
use std::alloc::{AllocError, Global};
use std::marker::Model;
use term_table::Table;

// What a form is as a sort.
#[derive(Clone, Copy)]
enum Part {
    // A sort without sorts inside it.
    Whole(SortId),
    // An array sort, by the tokens of its index sort and its element sort.
    Array { index: usize, element: usize },
}

// An array sort that waits for one of its sorts.
#[derive(Clone, Copy)]
enum Frame {
    // For its index sort, the form of this token, behind which comes the element sort.
    Index { index: usize, element: usize },
    // For its element sort; the index sort is known.
    Element(SortId),
}

// Array sorts that wait for one another, of which contracts see the innermost first.
#[derive(Drop)]
struct Waiting {
    frames: Vec<Frame>,
}

impl Model for Waiting {
    ghost use Rattle.std.specs.Prelude.{List, reverse};
    ghost use Rattle.script_terms.specs.declared.sorts.Frame.{Frame};

    ghost Value = { List Frame };

    ghost view = { λ s. reverse s.frames.items };
}

impl Waiting {
    fn new(alloc: Global) -> Waiting
        ensures { result ≡ [] }
    {
        Waiting {
            frames: Vec::new(alloc),
        }
    }

    fn push(&mut self, frame: Frame) -> Result<(), AllocError>
        ensures ok { OnOk result (self.new ≡ frame ∷ self.old) }
        ensures err { OnErr result (self.new ≡ self.old) }
    {
        self.frames.push(frame)?;
        Ok(())
    }

    fn pop(&mut self) -> Option<Frame>
        ensures { MatchOption result ((self.old ≡ []) × (self.new ≡ [])) (λ f. self.old ≡ f ∷ self.new) }
    {
        self.frames.pop()
    }
}

// The sort of a name alone.
fn named_sort(name: &[u8], place: u32, scope: &Scope) -> Result<SortId, Fault>
    ensures sort { (t : Formulas) → Agrees (sort_of_name (sorts_known t scope.now) place name.now) (sort_at t.sorts) result }
    ensures within { (t : Formulas) → AreScopedSorts t.sorts scope.now.sorts → IfOk result (IsSortId t.sorts) }
{
    if name == b"Bool".as_slice() {
        return Ok(SortId::BOOL);
    }
    if name == b"Int".as_slice() {
        return Ok(SortId::INT);
    }
    if name == b"Real".as_slice() {
        return Err(Fault {
            cause: Cause::RealSort,
            place,
        });
    }
    if is_theory_sort(name) {
        return Err(Fault {
            cause: Cause::BadForm,
            place,
        });
    }
    match scope.find_sort(name) {
        Some(sort) => Ok(sort),
        None => Err(Fault {
            cause: Cause::UnknownName,
            place,
        }),
    }
}

// The sort that the token `i` is alone.
fn token_sort(forest: &Forest, i: usize, scope: &Scope) -> Result<SortId, Fault>
    requires { IsForm forest.now.tokens i }
    ensures sort { (t : Formulas) → Agrees (sort_of_symbol (sorts_known t scope.now) (place_of (form_from forest.now.tokens i)) (symbol_in (form_from forest.now.tokens i))) (sort_at t.sorts) result }
    ensures within { (t : Formulas) → AreScopedSorts t.sorts scope.now.sorts → IfOk result (IsSortId t.sorts) }
{
    let place = place_of(forest, i);
    if !is_symbol(forest, i) {
        return Err(Fault {
            cause: Cause::BadForm,
            place,
        });
    }
    named_sort(forest.name(i), place, scope)
}

// The sort of the bit vectors of this width.
fn vector_sort(place: u32, width: Option<u128>) -> Result<SortId, Fault>
    ensures sort { (ss : List Sort) → Agrees (vectors_of place width) (sort_at ss) result }
    ensures within { (ss : List Sort) → IfOk result (IsSortId ss) }
{
    let cause = match width {
        None => Cause::BadForm,
        Some(0) => Cause::BadIndex,
        Some(width) if width > MOST_BITS as u128 => Cause::WidthLimit,
        Some(width) => return Ok(SortId::of_width(width as u32)),
    };
    Err(Fault { cause, place })
}

// The sort `(_ BitVec n)` of a list at this place, from the forms behind the `_`, which begin at token `i`.
fn indexed_sort(forest: &Forest, i: usize, place: u32) -> Result<SortId, Fault>
    requires { i ≤ length forest.now.tokens }
    ensures sort { (ss : List Sort) → Agrees (indexed_sort place (forms_from forest.now.tokens i)) (sort_at ss) result }
    ensures within { (ss : List Sort) → IfOk result (IsSortId ss) }
{
    if let Few::Two(name, width) = few_from(forest, i)
        && is_symbol(forest, name)
        && forest.name(name) == b"BitVec".as_slice()
    {
        return vector_sort(place, numeral_at(forest, width));
    }
    Err(Fault {
        cause: Cause::BadForm,
        place,
    })
}

// The array sort of a list at this place, from the forms behind `Array`, which begin at token `i`.
fn array_part(forest: &Forest, i: usize, place: u32) -> Result<Part, Fault>
    requires { i ≤ length forest.now.tokens }
    ensures { (live : Sorts) (ss : List Sort) → IsPartOf live forest.now.tokens ss (array_sort place (parts_in live (forms_from forest.now.tokens i))) (forms_size (forms_from forest.now.tokens i) + 2) result }
{
    match few_from(forest, i) {
        Few::Two(index, element) => Ok(Part::Array { index, element }),
        _ => Err(Fault {
            cause: Cause::BadForm,
            place,
        }),
    }
}

// Why a name that isn't `Array` has no parameters.
fn applied_cause(table: &Table, name: &[u8], scope: &Scope) -> Cause
    requires { AreScopedSorts table.now.sorts scope.now.sorts }
    ensures { (place : ℕ) → without_parameters (sorts_known table.now scope.now) place name.now ≡ at result place }
{
    if is_theory_sort(name) {
        return Cause::BadForm;
    }
    match scope.find_sort(name) {
        None => Cause::UnknownName,
        Some(sort) if table.sorts().name(sort) == Some(name) => Cause::SortArity,
        Some(_) => Cause::BadForm,
    }
}

// What a name is as a sort in a list at this place, from the forms behind it, which begin at token `i`.
fn applied_part(
    table: &Table,
    forest: &Forest,
    name: &[u8],
    i: usize,
    place: u32,
    scope: &Scope,
) -> Result<Part, Fault>
    requires within { i ≤ length forest.now.tokens }
    requires scope { AreScopedSorts table.now.sorts scope.now.sorts }
    ensures { IsPartOf (sorts_known table.now scope.now) forest.now.tokens table.now.sorts (applied_sort (sorts_known table.now scope.now) place (parts_in (sorts_known table.now scope.now) (forms_from forest.now.tokens i)) (Some name.now)) (forms_size (forms_from forest.now.tokens i) + 2) result }
{
    if name == b"Array".as_slice() {
        return array_part(forest, i, place);
    }
    Err(Fault {
        cause: applied_cause(table, name, scope),
        place,
    })
}

// What the list at this place is as a sort, whose forms begin at token `i`.
fn list_part(
    table: &Table,
    forest: &Forest,
    i: usize,
    place: u32,
    scope: &Scope,
) -> Result<Part, Fault>
    requires within { i ≤ length forest.now.tokens }
    requires scope { AreScopedSorts table.now.sorts scope.now.sorts }
    ensures { IsPartAt (sorts_known table.now scope.now) forest.now.tokens table.now.sorts (node place (forms_from forest.now.tokens i)) result }
{
    if begins(forest, i) {
        let behind = forest.after(i);
        if is_word(forest, i, b"_") {
            let sort = indexed_sort(forest, behind, place)?;
            return Ok(Part::Whole(sort));
        }
        if is_symbol(forest, i) {
            return applied_part(table, forest, forest.name(i), behind, place, scope);
        }
    }
    Err(Fault {
        cause: Cause::BadForm,
        place,
    })
}

// What the form of token `i` is as a sort.
fn part_at(table: &Table, forest: &Forest, i: usize, scope: &Scope) -> Result<Part, Fault>
    requires form { IsForm forest.now.tokens i }
    requires scope { AreScopedSorts table.now.sorts scope.now.sorts }
    ensures { IsPartAt (sorts_known table.now scope.now) forest.now.tokens table.now.sorts (form_from forest.now.tokens i) result }
{
    match inside(forest, i) {
        Some(first) => list_part(table, forest, first, place_of(forest, i), scope),
        None => {
            let sort = token_sort(forest, i, scope)?;
            Ok(Part::Whole(sort))
        }
    }
}

// The first sort without sorts inside it that the form of token `i` needs; the array sorts around it wait.
fn first_sort(
    table: &Table,
    forest: &Forest,
    mut i: usize,
    scope: &Scope,
    waiting: &mut Waiting,
) -> Result<SortId, ReadFault>
    requires form { IsForm forest.now.tokens i }
    requires scope { AreScopedSorts table.now.sorts scope.now.sorts }
    requires frames { AreFrames forest.now.tokens table.now.sorts waiting.old }
    ensures leads { Leads (sorts_known table.now scope.now) forest.now.tokens table.now.sorts waiting.new (all_filled (sorts_known table.now scope.now) forest.now.tokens table.now.sorts waiting.old (sort_in (sorts_known table.now scope.now) (form_from forest.now.tokens i))) result }
    ensures within { IfOk result (IsSortId table.now.sorts) }
    ensures frames { OnOk result (AreFrames forest.now.tokens table.now.sorts waiting.new) }
    ensures size { OnOk result (frames_size forest.now.tokens waiting.new ≤ frames_size forest.now.tokens waiting.old + 2 * form_size (form_from forest.now.tokens i)) }
{
    loop {
        match part_at(table, forest, i, scope)? {
            Part::Whole(sort) => return Ok(sort),
            Part::Array { index, element } => {
                waiting.push(Frame::Index { index, element })?;
                i = index;
            }
        }
    }
}

// Gives an array sort the sort that it waits for, and takes up the next sort.
fn next_sort(
    table: &mut Table,
    forest: &Forest,
    scope: &Scope,
    waiting: &mut Waiting,
    frame: Frame,
    sort: SortId,
) -> Result<SortId, ReadFault>
    requires scope { AreScopedSorts table.old.sorts scope.now.sorts }
    requires frames { AreFrames forest.now.tokens table.old.sorts waiting.old }
    requires frame { IsFrame forest.now.tokens table.old.sorts frame }
    requires sort { IsSortId table.old.sorts sort }
    ensures leads { Leads (sorts_known table.old scope.now) forest.now.tokens table.new.sorts waiting.new (all_filled (sorts_known table.old scope.now) forest.now.tokens table.old.sorts (frame ∷ waiting.old) (Ok (sort_at table.old.sorts sort))) result }
    ensures within { IfOk result (IsSortId table.new.sorts) }
    ensures frames { OnOk result (AreFrames forest.now.tokens table.new.sorts waiting.new) }
    ensures size { OnOk result (frames_size forest.now.tokens waiting.new < frames_size forest.now.tokens (frame ∷ waiting.old)) }
    ensures grows { GrowsTo table.old table.new }
    ensures symbols { table.new.symbols ≡ table.old.symbols }
    ensures trees { table.new.trees ≡ table.old.trees }
{
    match frame {
        Frame::Index { index, element } => {
            if table.sorts().parts(sort).is_some() {
                return Err(ReadFault::Refused(fault(forest, index, Cause::IndexSort)));
            }
            waiting.push(Frame::Element(sort))?;
            first_sort(table, forest, element, scope, waiting)
        }
        Frame::Element(index) => {
            let array = table.array_sort(index, sort)?;
            Ok(array)
        }
    }
}

/// The sort that the form of token `i` is. Depth takes no stack.
pub fn read_sort(
    alloc: Global,
    table: &mut Table,
    forest: &Forest,
    i: usize,
    scope: &Scope,
) -> Result<SortId, ReadFault>
    requires read { IsRead forest.now }
    requires form { IsForm forest.now.tokens i }
    requires scope { AreScopedSorts table.old.sorts scope.now.sorts }
    ensures sort { Follows (sort_in (sorts_known table.old scope.now) (form_from forest.now.tokens i)) (sort_at table.new.sorts) result }
    ensures within { IfOk result (IsSortId table.new.sorts) }
    ensures grows { GrowsTo table.old table.new }
    ensures symbols { table.new.symbols ≡ table.old.symbols }
    ensures trees { table.new.trees ≡ table.old.trees }
{
    let mut waiting = Waiting::new(alloc);
    let mut sort = first_sort(table, forest, i, scope, &mut waiting)?;
    while let Some(frame) = waiting.pop() {
        sort = next_sort(table, forest, scope, &mut waiting, frame, sort)?;
    }
    Ok(sort)
}

/// The sorts that the forms from token `i` to the end of their list are.
pub fn read_sorts(
    alloc: Global,
    table: &mut Table,
    forest: &Forest,
    i: usize,
    scope: &Scope,
) -> Result<Vec<SortId>, ReadFault>
    requires read { IsRead forest.now }
    requires within { i ≤ length forest.now.tokens }
    requires scope { AreScopedSorts table.old.sorts scope.now.sorts }
    ensures sorts { Follows (sorts_in (sorts_known table.old scope.now) (forms_from forest.now.tokens i)) (λ ks. map (sort_at table.new.sorts) ks.items) result }
    ensures within { IfOk result (λ ks. All (IsSortId table.new.sorts) ks.items) }
    ensures grows { GrowsTo table.old table.new }
    ensures symbols { table.new.symbols ≡ table.old.symbols }
    ensures trees { table.new.trees ≡ table.old.trees }
{
    let mut sorts = Vec::new(alloc);
    let mut next = i;
    while begins(forest, next) {
        sorts.push(read_sort(alloc, table, forest, next, scope)?)?;
        next = forest.after(next);
    }
    Ok(sorts)
}
