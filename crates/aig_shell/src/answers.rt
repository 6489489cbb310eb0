//! What is answered to a question.

pub(crate) mod check;
pub(crate) mod diff;
pub(crate) mod explain;
pub(crate) mod gate;
pub(crate) mod help;
pub(crate) mod names;
pub(crate) mod show;
