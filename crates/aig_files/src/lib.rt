//! What the program has of the system: the files that its arguments name, opened, read, created and replaced; what its
//! user sees on a terminal; and what ends a run early.
#![tactic(auto)]

mod escape;
mod exit;
mod files;
mod kept;
mod known;
mod output_file;
mod part;
mod reserved;
mod shown;
mod source;
mod stack;
mod standard_output;
mod terminal;
mod unwritten;

pub use escape::escaped;
pub use exit::Exit;
pub use files::{open, output, read_whole};
pub use kept::KeptFileNames;
pub use known::KnownReader;
pub use output_file::{OutputFile, open_direct};
pub use part::Part;
pub use reserved::{Reserved, reserve};
pub use shown::Shown;
pub use source::{FileSource, Opened, Whole, metadata_of};
pub use standard_output::StandardOutput;
pub use terminal::Terminals;
pub use unwritten::{OUTPUT, Unwritten};
