//! Values of operators, and arrays.

mod arrays;
mod operators;
