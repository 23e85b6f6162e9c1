//! What a formula is, as far as normal forms and clauses go by it.

/// A connective over truth values (SMT-LIB 2.6, theory Core).
#[derive(Clone, Copy)]
pub enum Connective {
    Not,
    And,
    Or,
    Xor,
    Implies,
    Equal,
    Distinct,
    Ite,
}

/// A truth value, a connective, a quantifier, or an atom.
#[derive(Clone, Copy)]
pub enum Shape {
    Truth(bool),
    Connected(Connective),
    Quantified,
    Atom,
}
