//! Targets: what a query at a location demands.
use base_short::Short;
use cell_names::Point;
use imp_syntax::StmtId;
use std::alloc::Global;
use std::default::MadeWith;

/// A step on the way from the start of main to a location.
#[derive(Clone, Copy, Debug, PartialEq, Eq, Drop)]
pub enum TargetStep {
    /// Into the last round of a loop, that of its fixed point's index.
    Take(StmtId),
    /// Into the procedure that a statement calls.
    Go(StmtId),
}

/// What stands at the places of a short list that are free.
impl MadeWith<Global> for TargetStep {
    #[inline]
    fn made_with(_alloc: Global) -> TargetStep {
        TargetStep::Go(StmtId::new(0))
    }
}

/// The way to a location under a chain of calls: the steps from the start of main, in order, and the point there.
#[derive(Debug, Drop)]
pub struct Target {
    pub steps: Short<TargetStep>,
    pub last: Point,
}
