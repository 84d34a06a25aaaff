//! What every crate of itpg speaks of: names, labels, codes, the plain graph, and the outside.
//!
//! It stands on no other crate of the project. Its definitions (`specs/`) say what a span, a graph and a device are;
//! its code has the small values that are copied everywhere, and where bytes come from and go. No call takes memory.
#![tactic(auto)]

mod label_set;
mod leading;
mod limits;
mod mem_sink;
mod mem_source;
mod name;
mod object_number;
mod outside;
mod repeat_source;
mod rule_code;
mod short_name;
mod std_streams;
mod tally_sink;
mod text_code;
mod touch;

pub use label_set::{LabelSet, MAX_LABELS};
pub use leading::count_leading;
pub use limits::{Limits, MAX_MOMENT, MAX_OBJECTS, MAX_PROPERTIES, MAX_ROWS, MAX_SPANS};
pub use mem_sink::MemSink;
pub use mem_source::{MemSource, SureSource};
pub use name::{MAX_NAME, Name};
pub use object_number::ObjNo;
pub use outside::{Failed, Sink, Source};
pub use repeat_source::RepeatSource;
pub use rule_code::RuleCode;
pub use short_name::{MAX_SHORT, ShortName};
pub use std_streams::{StdSink, StdSource};
pub use tally_sink::TallySink;
pub use text_code::TextCode;
pub use touch::Touch;
