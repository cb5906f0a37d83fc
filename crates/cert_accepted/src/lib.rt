//! That the certificate which is written of a program is found to hold when it is checked.
//!
//! The functions do nothing when they run: each carries a theorem as its clause, in the words of the clauses by which
//! certificates are written (`certificate_text`) and checked (`verify`). The proof reads the lines back: each is the
//! object that was written, of a loop of the program under a chain to its procedure, and its state is taken as it was
//! put; no loop and chain come twice, since statement numbers do not. So what is read is what batch interpretation has
//! at the heads of the loops that are followed, and that holds ([`cert_complete::certificates_hold`]).
#![tactic(auto)]

mod laws;

pub use laws::{
    certificates_are_accepted, checked_programs_have_lines, interval_certificates_are_accepted,
    octagon_certificates_are_accepted, segment_certificates_are_accepted,
};
