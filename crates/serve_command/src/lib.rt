//! The words of the command line.
//!
//! ```text
//! daig serve [--domain interval] [--widening plain|thresholds] [--delay D] [--budget N] [--memo N] FILE
//! daig batch [--domain interval] [--widening plain|thresholds] [--delay D] [--budget N] FILE
//! daig faults [--domain interval] [--widening plain|thresholds] [--delay D] [--budget N] FILE
//! daig gen --seed N --size N [--domain interval]
//! daig cert [--domain interval] [--widening plain|thresholds] [--delay D] [--budget N] FILE
//! daig verify [--domain interval] FILE CERT
//! ```
//!
//! Where an option in brackets is left out, the domain is `interval`, the widening `thresholds`, the delay 0, the
//! budget 100, the memo 1,024. The delay is 0 to 100, the budget 1 to 10,000, the memo 1 to 65,536, the seed 0 to
//! 2^63 - 1, the size 1 to 1,000; numbers are decimal digits without a sign or a leading zero. `cert` and `verify` take
//! the domains that are no product: `interval`, `octagon`, `listseg`.
//!
//! `clap` takes the words apart: `specs/Line.antt` has the command, as `clap` defines commands, and
//! `job_of` of `specs/Jobs.antt` is the job of the words that this command takes. So an option stands
//! once at most, as `--budget 5` or `--budget=5`, before or after the file, and after `--` a file may
//! begin with a dash. There is no `--help`.
#![tactic(auto)]

mod error;
mod job;
mod line;
mod reading;
mod values;

pub use error::WordsError;
pub use job::{AnalysisOptions, DomainName, FileName, Job, SingleDomain, Task};
pub use reading::read_words;
