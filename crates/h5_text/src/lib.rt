//! The texts of the program: answers, lists and rows of cells.
#![tactic(auto)]

mod dump_lines;
mod listing;
mod rows;
mod shown;
mod streams;
mod texts;

pub use crate::dump_lines::{push_attribute_head, push_dump_line};
pub use crate::listing::{ArrayText, PathText, push_array_line, push_group_line, push_soft_line};
pub use crate::rows::{Rows, push_rows};
pub use crate::shown::write_shown;
pub use crate::streams::{MOST_HELD, PrintFault, flush, write_full, write_text};
pub use crate::texts::{
    push_accepted, push_escaped, push_opened, push_refused, push_sizes, push_spaced_value,
    push_stored_values, push_text, push_type, push_values, push_view_fault,
};
