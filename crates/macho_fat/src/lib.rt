#![tactic(auto)]
//! Universal files: the header, the table of its entries, and the slices that the entries name.

mod check;
pub mod fault;
mod rules;
mod sharing;
pub mod slice;
mod survey;
mod table;

pub use fault::FatFault;
pub use rules::is_unread_image;
pub use slice::{FileSlices, Slice, SliceList, slice_at, slice_list, slices};
