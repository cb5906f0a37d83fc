//! What the jobs that the words name write, and those of them that need no session.
//!
//! `specs/Output.antt` gives what is written and the status, as a function of the words, the files and the script
//! (`output`), and `specs/Ends.antt` what each end says of what was written. A domain's name means what
//! `specs/Domains.antt` says, a source is the program of `specs/Sources.antt`, and `specs/Sound.antt` says what lines claim
//! of an accepted program.
//!
//! [`load_table`] gives the program that a file is, [`read_table`] that of a source. [`batch`], [`faults`], [`certificate`] and
//! [`verified`] give what the tasks of these names write, by batch interpretation, `cert_write` and `cert_check`; or why
//! nothing is given ([`JobError`]). [`write_given`] writes either, and tells the [`Status`].
//!
//! [`Named`] is a domain that the words name, and all of these are sound ([`named_domains_are_sound`],
//! [`each_yes_is_sound`]). From a stated budget on none answers an over ([`named_domains_converge`],
//! `specs/Settles.antt`), and what `cert` wrote `verify` accepts ([`written_certificates_are_accepted`],
//! `specs/Kept.antt`).
#![tactic(auto)]

mod batches;
mod certificates;
mod domains;
mod error;
mod fault_reports;
mod files;
mod refusing;
mod source;
mod status;
mod writing;

pub use batches::batch;
pub use certificates::{
    certificate, each_yes_is_sound, verified, written_certificates_are_accepted,
};
pub use domains::{Named, NamedWithLists, named_domains_are_sound, named_domains_converge};
pub use error::JobError;
pub use fault_reports::faults;
pub use files::load_table;
pub use source::read_table;
pub use status::Status;
pub use writing::write_given;
