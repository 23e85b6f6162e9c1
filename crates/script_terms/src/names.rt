//! The names of the theories, and the names that are reserved.

ghost use Rattle.std.specs.Prelude.{◌≡◌};
ghost use Rattle.smt_lex.specs.Names.{is_among, is_theory_name, is_bit_vector_constant, is_theory_sort, is_internal, is_reserved_for_declaring, is_reserved_for_sorts};
ghost use Rattle.script_terms.specs.Heads.{real_names, takes_no_index};

use smt_lex::{are_digits, is_among};
use sort_check::form_named;

// The sorts of the theories.
const THEORY_SORTS: [&[u8]; 5] = [b"Bool", b"Int", b"Real", b"Array", b"BitVec"];

// Functions of the theory of reals.
const REAL_NAMES: [&[u8]; 4] = [b"/", b"to_real", b"to_int", b"is_int"];

// Names of the theories that take no index and no operands.
const NAMES_WITHOUT_INDEX: [&[u8]; 3] = [b"true", b"false", b"const"];

/// Whether the name is `bv` and one or more digits.
pub fn is_bit_vector_constant(name: &[u8]) -> bool
    ensures { result ≡ is_bit_vector_constant name.now }
{
    match name {
        [b'b', b'v', digits @ ..] => are_digits(digits),
        _ => false,
    }
}

/// Whether the name belongs to a theory: it is that of an operator, or one of a few others.
pub fn is_theory_name(name: &[u8]) -> bool
    ensures { result ≡ is_theory_name name.now }
{
    if form_named(name).is_some() {
        return true;
    }
    if takes_no_index(name) {
        return true;
    }
    is_real_name(name) || is_bit_vector_constant(name)
}

/// Whether the name is that of a function of the theory of reals.
pub fn is_real_name(name: &[u8]) -> bool
    ensures { result ≡ is_among real_names name.now }
{
    is_among(&REAL_NAMES, name)
}

/// Whether the name is `true`, `false` or `const`.
pub fn takes_no_index(name: &[u8]) -> bool
    ensures { result ≡ takes_no_index name.now }
{
    is_among(&NAMES_WITHOUT_INDEX, name)
}

/// Whether the name is that of a sort of the theories.
pub fn is_theory_sort(name: &[u8]) -> bool
    ensures { result ≡ is_theory_sort name.now }
{
    is_among(&THEORY_SORTS, name)
}

// Whether the name begins with `@` or `.`.
fn is_internal(name: &[u8]) -> bool
    ensures { result ≡ is_internal name.now }
{
    match name {
        [first, ..] => *first == b'@' || *first == b'.',
        _ => false,
    }
}

/// Whether no function, variable, parameter or term is given this name. A `let` binds no name that `is_theory_name`.
#[tactic(auto, unfolding(smt_lex::specs::Names::is_reserved_for_declaring))]
pub fn is_reserved_for_declaring(name: &[u8]) -> bool
    ensures { result ≡ is_reserved_for_declaring name.now }
{
    is_internal(name) || is_theory_name(name)
}

/// Whether no sort is given this name.
#[tactic(auto, unfolding(smt_lex::specs::Names::is_reserved_for_sorts))]
pub fn is_reserved_for_sorts(name: &[u8]) -> bool
    ensures { result ≡ is_reserved_for_sorts name.now }
{
    is_internal(name) || is_theory_sort(name)
}
