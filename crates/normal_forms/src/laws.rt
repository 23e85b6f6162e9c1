//! The laws of the normal forms, each the contract of a function that does nothing. Each form of a well-sorted term is well
//! sorted, has the term's sort and value in every model and no other free symbols, and is clear where the term is; a supply
//! that gives no name of the term gives none of the form, whether names were drawn from it or not.

ghost use Rattle.std.specs.Prelude.{IsTrue};
ghost use Rattle.smt_terms.specs.Term.{Term};
ghost use Rattle.smt_terms.specs.Fresh.{Supply};
ghost use Rattle.smt_terms.specs.Shapes.{is_nnf, is_aig, is_prenex, no_bool_quantifier};
ghost use Rattle.normal_forms.specs.Laws.{RewritesAs, RewritesWith};
ghost use Rattle.normal_forms.specs.Nnf.{nnf};
ghost use Rattle.normal_forms.specs.Aig.{aig};
ghost use Rattle.normal_forms.specs.Prenex.{prenex};
ghost use Rattle.normal_forms.specs.Quantifiers.{shannon, selfsub};

/// Negation normal form keeps the values of terms, and leaves no connectives but `and`, `or` and `not` over atoms.
pub fn nnf_keeps_values()
    ensures values { RewritesAs nnf }
    ensures shape { (t : Term) → IsTrue (is_nnf (nnf t)) }
{}

/// And-inverter form keeps the values of terms, and leaves no connectives but `and` and `not`, and no `not` over a
/// `not`.
pub fn aig_keeps_values()
    ensures values { RewritesAs aig }
    ensures shape { (t : Term) → IsTrue (is_aig (aig t)) }
{}

/// Prenex form keeps the values of terms, and leaves no quantified formula that is reached from the matrix's root through
/// `and` and `or` alone.
pub fn prenex_keeps_values()
    ensures values { RewritesWith prenex }
    ensures shape { (t : Term) (s : Supply) → IsTrue (is_prenex (prenex t s).0) }
{}

/// Shannon's expansion keeps the values of terms, and leaves no quantifier over truth values.
pub fn shannon_keeps_values()
    ensures values { RewritesAs shannon }
    ensures shape { (t : Term) → IsTrue (no_bool_quantifier (shannon t)) }
{}

/// Self-substitution keeps the values of terms, and leaves no quantifier over truth values.
pub fn selfsub_keeps_values()
    ensures values { RewritesWith selfsub }
    ensures shape { (t : Term) (s : Supply) → IsTrue (no_bool_quantifier (selfsub t s).0) }
{}
