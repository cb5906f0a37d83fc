//! What a session has.
use crate::book::Book;
use daig_query::Engine;
use domain_laws::Domain;

/// An engine and a book. A call may change one and then the other, so between its steps they need not fit.
#[derive(Drop)]
pub(crate) struct Parts<D: Domain> {
    pub(crate) engine: Engine<D>,
    pub(crate) book: Book,
}
