//! Undo and redo.
ghost use Rattle.std.specs.Prelude.{◌≡◌, IfOk, IfErr, OnErr, OnOk};
ghost use Rattle.daig_session.specs.Sessions.{IsReadyBy, KeepsNextTicket, IsWithinBound};
ghost use Rattle.daig_session.specs.Sides.{programs_of, IsMovingAlong, GoesAlong};
ghost use Rattle.daig_session.specs.Turns.{IsStopped};
ghost use Rattle.daig_session.specs.Engines.{HasFewStale, KeepsSetup};

use crate::book::Side;
use crate::error::UndoError;
use crate::moving::{Moving, leave, planned_move};
use crate::parts::Parts;
use crate::session::Session;
use domain_laws::Domain;
use std::alloc::Global;

impl<D: Domain> Parts<D> {
    /// The move to the nearest program of a side, if there is one.
    fn nearest_move(&self, alloc: Global, side: Side) -> Result<Moving, UndoError>
        requires ready { IsReadyBy D.operations self.now }
        ensures moving { IfOk result (IsMovingAlong side self.now) }
        ensures stopped { IfErr result (IsStopped (programs_of side self.now.book)) }
    {
        let Some(change) = self.book.nearest(side) else {
            return Err(UndoError::Nothing);
        };
        let table = self.book.history.table();
        let moving = planned_move(alloc, &self.engine, table, change, &self.book.setting)?;
        Ok(moving)
    }

    /// Goes to the nearest program of a side, and gives the next number of a statement.
    fn go(&mut self, alloc: Global, side: Side) -> Result<u32, UndoError>
        requires ready { IsReadyBy D.operations self.old }
        ensures ready { IsReadyBy D.operations self.new }
        ensures setup { KeepsSetup self.old.engine self.new.engine }
        ensures bounded { OnOk result (IsWithinBound self.new) }
        ensures stale { OnOk result (HasFewStale self.old.engine self.new.engine) }
        ensures unmoved { OnErr result (self.new.engine.store ≡ self.old.engine.store) }
        ensures next_ticket { KeepsNextTicket self.old self.new }
        ensures goes { GoesAlong side D.operations self.old self.new result }
    {
        let Moving {
            setting,
            plan,
            renaming,
        } = self.nearest_move(alloc, side)?;
        leave(&mut self.engine, plan, renaming);
        self.book.turn(side, setting);
        Ok(self.book.next)
    }
}

impl<D: Domain> Session<D> {
    /// Goes back to the program before the last edit, and gives the next number of a statement, which stays. The kept cells
    /// change as by an edit that leads there. All memory is taken before anything changes.
    ///
    /// # Errors
    ///
    /// [`UndoError::Nothing`] exactly where no program is before the present one, and [`UndoError::Memory`] when memory runs
    /// out. The session is then as it was.
    pub fn undo(&mut self, alloc: Global) -> Result<u32, UndoError>
        ensures setup { KeepsSetup self.old.engine self.new.engine }
        ensures bounded { OnOk result (IsWithinBound self.new) }
        ensures stale { OnOk result (HasFewStale self.old.engine self.new.engine) }
        ensures unmoved { OnErr result (self.new.engine.store ≡ self.old.engine.store) }
        ensures next_ticket { KeepsNextTicket self.old self.new }
        ensures goes { GoesAlong Side.Behind D.operations self.old self.new result }
    {
        self.parts.go(alloc, Side::Behind)
    }

    /// Goes on to the program that the last undo left, as [`Session::undo`] goes back.
    ///
    /// # Errors
    ///
    /// [`UndoError::Nothing`] exactly where no program is after the present one, and [`UndoError::Memory`] when memory runs
    /// out. The session is then as it was.
    pub fn redo(&mut self, alloc: Global) -> Result<u32, UndoError>
        ensures setup { KeepsSetup self.old.engine self.new.engine }
        ensures bounded { OnOk result (IsWithinBound self.new) }
        ensures stale { OnOk result (HasFewStale self.old.engine self.new.engine) }
        ensures unmoved { OnErr result (self.new.engine.store ≡ self.old.engine.store) }
        ensures next_ticket { KeepsNextTicket self.old self.new }
        ensures goes { GoesAlong Side.Ahead D.operations self.old self.new result }
    {
        self.parts.go(alloc, Side::Ahead)
    }
}
