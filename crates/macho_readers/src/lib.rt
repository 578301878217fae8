#![tactic(auto)]
//! The unambiguous rules, one by one, and models of the readers that they are about. These readers choose slices,
//! segments, sections, load commands and entry points in different ways.

pub mod commands;
pub mod entry;
pub mod files;
pub mod fixups;
pub mod names;
pub mod once;
pub mod order;
pub mod pages;
pub mod section_alone;
pub mod sections;
pub mod segments;
pub mod slice_pages;
