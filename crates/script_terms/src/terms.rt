//! Terms as they are read: `read f`, the term of a form in which `let`, definitions and names of terms are replaced by their
//! terms, or its first refusal (SMT-LIB 2.6, section 3.6).

ghost use Rattle.std.specs.Prelude.{◌≡◌, ◌<◌, length, List, IfSome};
ghost use Rattle.term_subst.specs.Substituting.{IsLater};
ghost use Rattle.term_walk.specs.Walking.{GrowsTo};
ghost use Rattle.script_terms.specs.Read.{Context, read};
ghost use Rattle.script_terms.specs.Reading.{ReadBinding};
ghost use Rattle.script_terms.specs.Bound.{ShowsLocals};
ghost use Rattle.script_terms.specs.Known.{Shows, ReadsTerm};
ghost use Rattle.script_terms.specs.TermClauses.{defined_name};
ghost use Rattle.script_terms.specs.Places.{IsRead, IsForm, SparesText, form_from};

pub mod annotations;
pub mod applications;
pub mod arguments;
pub mod atoms;
pub mod attributes;
pub mod callees;
pub mod calls;
pub mod frames;
pub mod heads;
pub mod indices;
pub mod let_names;
pub mod lets;
pub mod openings;
pub mod quantifiers;
pub mod shapes;
pub mod term_names;
pub mod term_reader;
pub mod theory_constants;
pub mod vectors;

use crate::faults::ReadFault;
use crate::locals::Locals;
use crate::sofar::Sofar;
use crate::terms::term_reader::TermReader;
use smt_lex::Forest;
use smt_terms::NodeId;
use term_table::Table;

/// Reads the term that the form of token `i` is, below these local bindings; names that it gives to terms become live. What
/// the reader had under way is given up. `defines` is the token of the name that the command defines. Depth takes no stack.
pub fn read_term<'a>(
    reader: &mut TermReader<'a>,
    table: &mut Table,
    forest: &'a Forest,
    i: usize,
    sofar: &mut Sofar<'a>,
    locals: Locals<'a>,
    defines: Option<usize>,
) -> Result<NodeId, ReadFault>
    requires read { IsRead forest.now }
    requires form { IsForm forest.now.tokens i }
    requires text { SparesText forest.now.tokens sofar.old.fresh }
    requires defined { IfSome defines (λ j. j < length forest.now.tokens) }
    requires known { (live : List ReadBinding) × Shows table.old sofar.old.fresh sofar.old.scope live }
    requires locals { (c : Context) × ShowsLocals table.old sofar.old.fresh locals c.locals × (c.defines ≡ defined_name forest.now.tokens defines) }
    ensures term { (c : Context) (live : List ReadBinding) → Shows table.old sofar.old.fresh sofar.old.scope live → ShowsLocals table.old sofar.old.fresh locals.entry c.locals → c.defines ≡ defined_name forest.now.tokens defines → ReadsTerm table.new sofar.new.scope sofar.new.fresh (read (form_from forest.now.tokens i) c (record { live = live; supply = sofar.old.fresh })) result }
    ensures definitions { sofar.new.scope.definitions ≡ sofar.old.scope.definitions }
    ensures later { IsLater sofar.old.fresh sofar.new.fresh }
    ensures grows { GrowsTo table.old table.new }
{
    reader.begin(locals, defines);
    reader.run(table, forest, sofar, i)
}
