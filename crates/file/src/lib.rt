// The order file (document 01, "Order file"): loaded on a book, all or nothing, and the refused line as a part of the file. What holds of every load
// is the theorem of the crate `file_model`.
#![tactic(auto)]

mod financing;
mod loading;
mod reading;

pub use crate::loading::{load, load_in_place, part_bounds, refused_part};
pub use file_model::{LoadFault, LoadRefusal, line_named};
