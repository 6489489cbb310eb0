//! `shell`: a prompt with names over the workbench. It knows no file name, argument or standard stream: lines come from
//! a reader, and files are written by what the caller gives.
#![tactic(auto)]

mod answers;
mod files;
mod pieces;
mod refusal;
mod request;
mod session;
mod shell;
mod talk;

pub use files::keeper::{FileText, Keep, Reason, Unkept};
pub use shell::{Opening, run_shell};
