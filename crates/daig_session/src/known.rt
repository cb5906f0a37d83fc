//! What is known at a location, for reports.
ghost use Rattle.std.specs.Prelude.{◌≡◌, ◌≤◌, [], IfOk, OnOk};
ghost use Rattle.daig_session.specs.Sessions.{IsWithinBound};
ghost use Rattle.daig_session.specs.Places.{only, KeepsAll, KeepsPart, TellsAt};
ghost use Rattle.daig_session.specs.Places.{TicksForAll, TicksForPart};
ghost use Rattle.daig_session.specs.Engines.{KeepsSetup};

use crate::error::QueryError;
use crate::session::Session;
use base_values::Memory;
use batch_meaning::QueryRefusal;
use daig_graph::Value;
use domain_laws::{Domain, Steps};
use imp_syntax::Location;
use std::alloc::Global;
use std::sync::ledger::Ledger;

impl<D: Domain> Session<D> {
    /// Fills what is missing at a location, and gives what is known there under all chains, or why nothing is.
    pub(crate) fn known_at<L: Ledger>(
        &mut self,
        alloc: Global,
        at: &Location,
        steps: &mut Steps<L>,
    ) -> Result<Result<Value<D::State>, QueryRefusal>, Memory>
        ensures bounded { IsWithinBound self.new }
        ensures setup { KeepsSetup self.old.engine self.new.engine }
        ensures program { self.new.book.history.now ≡ self.old.book.history.now }
        ensures keeps_part { KeepsPart D.operations self.old self.new (only at.now) }
        ensures keeps_all { OnOk result (KeepsAll D.operations self.old self.new (only at.now)) }
        ensures tells { IfOk result (TellsAt D.operations self.old self.new at.now) }
        ensures least { steps.old ≤ steps.new }
        ensures ticked { OnOk result (TicksForAll D.operations self.old self.new D.counted
            (only at.now) steps.old steps.new) }
        ensures ticked_filled { TicksForPart D.operations self.old self.new D.counted
            (only at.now) steps.old steps.new }
    {
        self.ready();
        match self.query(alloc, at, &[], steps) {
            Ok(value) => Ok(Ok(value)),
            Err(QueryError::Refused(why)) => Ok(Err(why)),
            Err(QueryError::Memory) => Err(Memory),
        }
    }
}
