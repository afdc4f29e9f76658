//! The syntax of expressions: text to tree. Its contract: `parse` reads exactly the texts of
//! the language, names the token of the first fault in any other, and a text spells one tree.
//!
//! Rooms: `sign` and `lexeme` cut a text into tokens, `parser` reads a tree (of ob_base) over
//! the open parts that `stack` keeps, each a `frame` that makes a `node` of its last operand. A
//! new form of the language goes through all of them.
#![tactic(auto)]

mod frame;
mod lexeme;
mod node;
mod parser;
mod sign;
mod stack;

pub use parser::{one_tree, parse};
