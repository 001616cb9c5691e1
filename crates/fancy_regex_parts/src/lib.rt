//! Parts: the bodies of look-arounds and of atomic groups, as states of their own among those of a pattern. A state is asked at a byte
//! offset of the text; the answer is where its first way ends, in the order of preference, or that it has none. A part may ask other
//! parts. What the questions find out is kept in a `PartMemory`, failures and successes, so that no marked state is tried twice at one
//! place, over all questions: the number of looks at the text is bounded by a weight of the parts times the length of the text plus
//! one, and by what is due for the first state for each question. An answer fails for want of memory alone.
#![tactic(auto)]

mod frame;
mod groups;
mod memory;
mod question;
mod recall;
mod starts;
mod step;
mod table;
mod writes;

pub use groups::{WalkMemory, walk};
pub use memory::PartMemory;
pub use question::{ask, ask_each};
pub use starts::find;
pub use step::{EndRange, PartContext};
pub use table::PartTable;
