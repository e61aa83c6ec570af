//! The sections of an ELF file of 64 bits whose numbers have their lowest byte first, and the texts in its tables of
//! strings. Any bytes are read: what lies outside of the file is empty.
//!
//! The names are those of the ELF-64 Object File Format, version 1.5.
#![tactic(auto)]

mod parts;
mod section;
mod table;

pub use parts::{MOST_NAME, part, text_at};
pub use section::{SECTION_HEADER_SIZE, Section};
pub use table::Sections;
