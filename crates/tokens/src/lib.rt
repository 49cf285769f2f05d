//! From bytes to fields: a text's lines, the words of a line, what kind of token a word is, and what
//! a token says as a field of a record. Nothing is copied; every token borrows the text's bytes.
#![tactic(auto)]

mod cut;
pub mod fault;
pub mod field;
mod marks;
mod number;
pub mod text_line;
pub mod token;
