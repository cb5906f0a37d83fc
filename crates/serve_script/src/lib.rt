//! Answers the lines of a script, each as soon as its end is read.
//!
//! A machine answers a line by a reply and goes on to its next state; an [`Answerer`] stands for a
//! machine in a state, before each line and after it, and replies as it does. [`answer_script`]
//! reads the script in blocks, cuts it into lines wherever the blocks end, and writes each reply
//! before it reads on, so that an editor that waits for a reply before it sends the next line is
//! answered. What is written is a stated function of what is read (`specs/Replies.antt`), whatever
//! pieces it comes and goes in, and for each way to stop short a clause says what was written.
//!
//! A line of more than 65,536 bytes gets the machine's reply to a long line, and is skipped to its end.
//!
//! Each byte of the script is looked at once, and one line and its reply are kept at a time; of a line
//! that is too long nothing is kept.
#![tactic(auto)]

mod answer;
mod outcome;
mod pending;
mod read;
mod write;

pub use answer::Answerer;
pub use outcome::Stop;
pub use read::answer_script;
pub use write::write_all;
