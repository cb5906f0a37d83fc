//! Lists of words as texts: a word is a number in decimal, or `n` for none, and between two words stands
//! one space.
//!
//! [`words_of`] takes exactly the texts that [`words_text`] makes of one word or more, with numbers from
//! -2^64 to 2^64 ([`words_come_back`]): it reads leniently, and compares the text of what it read. Both
//! take time and memory linear in the text.
#![tactic(auto)]

mod laws;
mod read;
mod write;

pub use laws::words_come_back;
pub use read::{is_number, words_of};
pub use write::{put_more, put_word, words_text};
