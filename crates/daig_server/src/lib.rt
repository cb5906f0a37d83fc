//! The server: from words, a file and a script to bytes and a status.
//!
//! [`serve`] is the top call. What it writes and answers is `output` of `serve_output`, a
//! function of the words, the files and the script; for each status a clause says when it comes and
//! what was written. Each line that is answered by a state is answered soundly, and so is each report.
//!
//! A program is served by a session (`daig_session`), which keeps what it computed from line to line; by what the lines
//! show it is the machine that holds the present program alone, is changed by accepted edits alone, and interprets the
//! program from scratch at each question (`server` of `serve_answers`), by the domain that the words name.
//! Sources, the listing and the report of `batch`, and certificates need no session: they are `serve_output`'.
#![tactic(auto)]

mod generated;
mod run;
mod server;
mod serving;
mod work;

pub use serve_answers::texts_are_read;
pub use serving::serve;
