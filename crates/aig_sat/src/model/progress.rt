//! How far the text of a model was read.
ghost use Rattle.std.specs.Prelude.{◌≡◌, ◌≤◌, length};

use crate::model::assignment::Assignment;
use crate::model::reader::Phase;

/// The values of so many variables that were read, and how far the text was read.
#[derive(Drop)]
pub(crate) struct Reader {
    pub(crate) values: Assignment,
    pub(crate) variables: u32,
    pub(crate) phase: Phase,
    ghost count: { length values ≡ variables },
    ghost small: { variables ≤ 2147483648 },
}
