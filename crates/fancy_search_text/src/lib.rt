//! What the program `fancy_search` prints, over a regex or a set and a text: a line for each match, piece or member, the replaced
//! text, and the line of a printed pattern. Each is the text that the definitions of the patterns' matches give.
#![tactic(auto)]

mod lines;
mod members;
mod pieces;
mod printed;
mod replaced;

pub use lines::{group_lines, span_lines};
pub use members::member_lines;
pub use pieces::piece_lines;
pub use printed::printed_line;
pub use replaced::replaced_text;
