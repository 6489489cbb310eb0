//! What a line asks for.

pub(crate) mod command;
pub(crate) mod topic;
