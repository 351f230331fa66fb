// The lines of an order file (document 01, "Order file"): where they begin and end, and the reader that moves over them.
#![tactic(auto)]

mod position;
mod reading;

ghost use Rattle.lines.specs.LineParts.{LineParts};

pub use crate::position::{Bounds, line_bounds, line_part};
pub use crate::reading::Reader;

// That the parts by number are the lines. It does nothing.
#[tactic(auto, using(crate::proofs::LineParts::parts))]
pub fn theorems()
    ensures { LineParts }
{}
