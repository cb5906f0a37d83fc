//! How far tickets have come.

use base_values::Items;
use daig_query::Walk;
use imp_flow::Target;
use imp_syntax::Location;

/// How far a question at one place has come: its targets in the present program, and the walk along them.
#[derive(Drop)]
pub(crate) struct Going {
    pub(crate) targets: Items<Target>,
    pub(crate) walk: Walk,
}

/// Which places a report asks.
#[derive(Clone, Copy)]
pub(crate) enum Kind {
    /// Before the statements that have checks.
    Checks,
    /// Where the statements evaluate that have fault points.
    Faults,
}

/// How far a report has come: nothing is missing any more at the first so many of its places, and so far has the next one
/// come, if it is begun.
#[derive(Drop)]
pub(crate) struct Tour {
    pub(crate) kind: Kind,
    pub(crate) places: Items<Location>,
    pub(crate) full: usize,
    pub(crate) going: Option<Going>,
}

/// How far a ticket has come: at its one place, or along the places of a report.
#[derive(Drop)]
pub(crate) enum Course {
    Place(Going),
    Along(Tour),
}
