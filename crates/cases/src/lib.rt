// What the programs that run test vectors share: numbers and bytes read from their input, digests, and a filled buffer. What their mains have alike, a
// buffer, a reader and a `for` over its cases, would be no plainer as a function over a closure.
#![tactic(auto)]

mod digests;
mod filling;
mod reading;

pub use crate::digests::{digest, mixed};
pub use crate::filling::fill;
pub use crate::reading::Cases;
