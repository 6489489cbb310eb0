//! `why`: which inputs and latches make a signal what it is, in lines each of which is right by itself. It knows no
//! file name, argument or standard stream.
#![tactic(auto)]

mod command;
mod lines;
mod question;
mod run;

pub use command::{Asked, Span, why};
pub use lines::text_of;
pub use question::Question;
pub use run::{ExplainedFrames, ExplainedRun};
