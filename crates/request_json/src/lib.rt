//! The requests of a script, read from lines of JSON, and the lines that reply to them.
//!
//! A line is one JSON object, whose member `do` names the request and whose other members are its
//! fields; members that no request has are passed over. [`read_request`] gives the request of a line,
//! or the first of its faults: no JSON, a member that is missing or not as it should be, a name of no
//! request, a call string of more than two statements. `request_of` of `specs/Requests.antt` is the
//! definition, over what `read` of `serde_json` makes of a line.
//!
//! [`reply_line`] gives the line of a reply: compact JSON with its keys in order, and LF. `reply_text`
//! of `specs/Replies.antt` is the definition: the text that `serde_json`'s data have, an object of the
//! reply's keys and values. A [`Reply`] implements serde's `Serialize`. Refusals are replies too; they are numbered from 1.
//! What is found of checks, how runs end, and why a query has no answer come in the words of `imp_words`.
//!
//! What is read of members and written of values serves other lines too: [`json_of`], [`text_at`], [`number_at`],
//! [`ids_at`]; [`put_number`], [`put_quoted`], [`put_ids`] write what no value of serde's is, as bytes that nothing says are
//! UTF-8.
//!
//! Reading and writing take time linear in the line.
#![tactic(auto)]

mod error;
mod escapes;
mod fields;
mod ids;
mod line;
mod names;
mod numbers;
mod places;
mod reading;
mod reply;
mod request;
mod sending;
mod writing;

pub use error::ReadError;
pub use escapes::{put_number, put_quoted};
pub use fields::{ids_at, number_at, text_at};
pub use ids::put_ids;
pub use line::json_of;
pub use reading::read_request;
pub use reply::{ProgramFault, Refusal, Reply};
pub use request::{Query, Request, Task};
pub use writing::reply_line;
