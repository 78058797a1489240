//! What the programs share that are handed rows: the fields of a line, the text that a row gives,
//! and how such a program ends.
//!
//! A space parts two fields. In a field `\x2e` is the octet 46, with two hexadecimal digits, `\\`
//! is a backslash, and any other character stands for itself; `""` is a field without octets.
#![tactic(auto)]

mod fault;
mod field;
mod output;
mod program;

pub use fault::Fault;
pub use field::{
    count, first_line, number16, number32, number64, octets, only_line, split_word, text,
};
pub use output::Output;
pub use program::print_row;
