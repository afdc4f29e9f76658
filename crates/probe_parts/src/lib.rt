//! What the words of the program probe share, which answers each line of its input by calls of the
//! libraries. It has no rules of its own; what stands in two of the libraries of words belongs here.
//!
//! Rooms: `told` (the answer to a line while it is told, what stands against it, and how values
//! are written), `program` (the loop over the lines, and what the words are to it), `words` (texts
//! as lines write them), `items` (parts of words), `parts` (parts of JSON), `definitions` (models
//! from a line).
#![tactic(auto)]

pub mod definitions;
pub mod items;
pub mod parts;
pub mod program;
pub mod told;
pub mod words;
