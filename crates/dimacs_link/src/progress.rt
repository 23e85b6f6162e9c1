//! How far the reading of an answer has come.

ghost use Rattle.std.specs.Prelude.{◌≡◌, length};

use crate::items::Ending;
use crate::truths::Truths;

/// What the lines and words so far say: how the search ended, whether there was a line of values, whether the values have ended, and
/// which constants were named as true and as false.
#[derive(Drop)]
pub(crate) struct Progress {
    pub(crate) constants: u64,
    pub(crate) ending: Option<Ending>,
    pub(crate) has_values: bool,
    pub(crate) is_ended: bool,
    pub(crate) positive: Truths,
    pub(crate) negative: Truths,
    ghost as_true: { length positive ≡ constants },
    ghost as_false: { length negative ≡ constants },
}
