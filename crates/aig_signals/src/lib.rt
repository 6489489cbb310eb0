//! Signals and properties of a circuit: what people call them, which of them a name means, and values as text. It knows
//! no run.
#![tactic(auto)]

mod bits;
mod called;
mod form;
mod hash;
mod json;
mod lookup;
mod names;
mod naming;
mod property;
mod run;
mod section;
mod signal;
mod text;
mod value;

pub use called::{SignalNames, look_up};
pub use form::Form;
pub use json::write_name;
pub use lookup::entry_named;
pub use names::{push_first_name, push_readable};
pub use naming::SectionNaming;
pub use property::fault::{NamesFault, PropertyFault};
pub use property::lookup::position_of;
pub use property::naming::named;
pub use property::number::{decimal_of, number_of};
pub use property::wanted::PropertyNames;
pub use run::{Run, runs_of};
pub use section::{SECTIONS, count_of, literal_at};
pub use signal::{Signal, signals_of};
pub use text::{Naming, Origin, push_asked_head, push_latches_head, push_origin};
pub use value::{push_table_value, push_value};
