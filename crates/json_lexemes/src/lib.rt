//! The lexemes of a JSON text by their places, and the values that they spell.
//!
//! A text says a tree by its lexemes: brackets, commas, colons, and one for each leaf and each name. Here
//! a text is passed over by byte places, a lexeme or a value at a time, with no recursion, no memory and
//! no check that it is JSON, but for one call. Each contract says which lexemes are left at the place that
//! it answers, and that no lexeme and no character is cut there.
//!
//! [`value_end`] passes over a value by counting brackets, [`first_named`], [`next_named`] and [`numbered`]
//! find one in an object or an array, and [`is_name`] compares a name with its escapes read. [`is_json_within`] is the one
//! check: that a whole text is JSON and nests no deeper than so many levels. [`leaves_signposts`] is the same check, and
//! leaves what the others need so as not to pass over the long values before a place.
#![tactic(auto)]

mod grammar;
mod leaves;
mod lexemes;
mod masks;
mod names;
mod scan;
mod signposts;
mod span;
mod stops;
#[cfg(test)]
mod tests;
mod values;

pub use grammar::{is_json_within, leaves_signposts};
pub use lexemes::{
    after, byte_at, is_deeper, is_operator, is_whitespace, last_end, string_end, value_end,
    whitespace_end, word_end,
};
pub use names::is_name;
pub use signposts::{Places, Signposts, Step};
pub use span::{Next, Span};
pub use values::{array_end, first_named, next_named, numbered, value_from};
