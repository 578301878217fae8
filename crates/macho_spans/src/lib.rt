#![tactic(auto)]
//! Ranges of places: which places a span holds, which spans share one, and lists of spans that are
//! sorted and searched. Nothing here knows of Mach-O.

pub mod overlap;
mod room;
pub mod span;
pub mod span_order;
pub mod spans;

pub use overlap::{SpanList, SpansByStart};
pub use span::{Span, table_end};
pub use span_order::{Sharing, SpanOrder};
pub use spans::{Insert, Spans};
