//! Answers as models.

ghost use Rattle.std.specs.Prelude.{◌≡◌, length, IfOk};
ghost use Rattle.smt_terms.specs.Models.{IsModelOver};
ghost use Rattle.models.specs.LiveNumbers.{signature_of, AreLiveNumbersOf};
ghost use Rattle.models.specs.ModelView.{model_at, IsModelOf};
ghost use Rattle.dimacs_link.specs.AnswerModels.{answered, AreFlags};
ghost use Rattle.dimacs_link.specs.Constants.{constants_at, AreConstants};

use crate::truths::Truths;
use models::{Model, Signature};
use smt_terms::SymId;
use smt_values::{Scalar, Value};
use std::alloc::{AllocError, Global};
use term_table::Table;

/// The model over a signature that truth values of different Boolean constants of the signature stand for, each value that of the
/// constant at its place. Every other symbol is its sort's default everywhere, each declared sort has one element, and division by
/// zero gives 0, and so does its remainder. What it means: `laws::answers_are_models`.
///
/// # Errors
///
/// Only memory may be wanting.
pub fn answer_model(
    alloc: Global,
    table: &Table,
    signature: &Signature,
    constants: &[SymId],
    values: &Truths,
) -> Result<Model, AllocError>
    requires signature { AreLiveNumbersOf table.now signature.now }
    requires constants { AreConstants table.now constants.now }
    requires flags { AreFlags (signature_of table.now signature.now).symbols (constants_at table.now constants.now) }
    requires lengths { length values.now ≡ length constants.now }
    ensures model { IfOk result (λ m. model_at table.now m ≡ answered (signature_of table.now signature.now) (constants_at table.now constants.now) values.now) }
    ensures over { IfOk result (λ m. IsModelOver (signature_of table.now signature.now).sorts (signature_of table.now signature.now).symbols (model_at table.now m)) }
    ensures numbers { IfOk result (IsModelOf table.now) }
{
    let mut model = Model::new(alloc, table, signature)?;
    for (place, constant) in constants.iter().enumerate() {
        let value = Value::Scalar(Scalar::Truth(values.get(place)));
        model.define(table, *constant, value)?;
    }
    Ok(model)
}
