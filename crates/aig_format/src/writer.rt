//! Writing both formats.

pub(crate) mod ascii;
pub(crate) mod binary;
mod block;
mod delta;
mod header;
mod section;
