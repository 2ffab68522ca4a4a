//! JSON over bytes: which value a text is, found without a copy of the text. RFC 8259.
#![tactic(auto)]

mod arrays;
mod marks;
mod members;
mod numbers;
mod pieces;
mod plain;
mod strings;
mod values;

pub use arrays::bytes_in;
pub use marks::{is_space, past_mark, past_space};
pub use members::{Member, named, whole_members};
pub use numbers::{PlainNumber, count_digits, plain_digits, read_number, scaled_number};
pub use strings::{StringBytes, read_string, string_in};
pub use values::{DEEPEST, ReadValue, member, read_value, value_end, whole_triple, whole_value};
