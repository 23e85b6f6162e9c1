//! How terms are laid out.

/// The layout of printed assertions.
#[derive(Clone, Copy, Debug, PartialEq, Eq)]
pub enum Layout {
    /// Each term as it is, with its subterms wherever they occur.
    Tree,
    /// Each distinct subterm that has operands once, bound to a name `.def_k` by a `let`; the body of a quantifier has names
    /// of its own, from `.def_0` on.
    Dag,
}
