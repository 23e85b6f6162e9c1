//! What waits for a term: the forms that are read, from the innermost out.

use crate::locals::Constant;
use crate::terms::let_names::LetNames;
use smt_terms::NodeId;
use std::mem::size_of;

/// The two quantifiers.
#[derive(Clone, Copy, Debug, PartialEq, Eq)]
pub enum Quantifier {
    Universal,
    Existential,
}

/// An application, whose operands begin at number `first` of those under way. Here and below `list` is the first token of the form.
#[derive(Clone, Copy, Debug, PartialEq, Eq)]
pub struct Call {
    pub list: usize,
    pub first: usize,
}

/// A `let`, at the binding of token `part`, with the names before it.
#[derive(Drop)]
pub struct Lets<'a> {
    pub list: usize,
    pub part: usize,
    pub body: usize,
    pub names: Box<LetNames<'a>>,
}

/// The body of a `let` of so many names.
#[derive(Clone, Copy, Debug, PartialEq, Eq)]
pub struct LetBody {
    pub list: usize,
    pub names: usize,
}

/// The body of a quantifier, over these constants.
#[derive(Drop)]
pub struct Scoped {
    pub list: usize,
    pub quantifier: Quantifier,
    pub constants: Vec<Constant>,
}

/// The term of an annotation, whose attributes begin at token `attributes`.
#[derive(Clone, Copy, Debug, PartialEq, Eq)]
pub struct Annotation {
    pub list: usize,
    pub attributes: usize,
}

/// A form that is read.
#[derive(Drop)]
pub enum Frame<'a> {
    Operands(Call),
    Binding(Lets<'a>),
    Body(LetBody),
    Quantified(Scoped),
    Annotated(Annotation),
}

// Each push and each pop copies a frame.
const _: () = prove!(size_of::<Frame>() <= 48);

/// What is to be done next.
#[derive(Clone, Copy, Debug, PartialEq, Eq)]
pub enum Next {
    /// The form that begins at this token is read.
    Form(usize),
    /// A form was read as this term; `behind` is the token behind it.
    Term { node: NodeId, behind: usize },
}
