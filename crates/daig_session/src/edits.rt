//! An edit in two steps, for `accepted` and `refused` of `prepare` and `committed` of `commit`.
ghost use Rattle.std.specs.Prelude.{◌≡◌, IfOk, IfErr};
ghost use Rattle.std.specs.Borrow.{sem, RestsIfErr};
ghost use Rattle.imp_syntax.specs.declared.edit.Edit.{Edit as AnyEdit};
ghost use Rattle.imp_edit.specs.Edited.{next_after, Continues};
ghost use Rattle.daig_session.specs.contracts.session.Session.{the_row};
ghost use Rattle.daig_session.specs.Books.{IsSame};
ghost use Rattle.daig_session.specs.Sessions.{IsReadyBy, StandsFor, OfEachMachine, KeepsNextTicket};
ghost use Rattle.daig_session.specs.Sessions.{IsWithinBound};
ghost use Rattle.daig_session.specs.Moves.{IsPlannedFor, IsAccepted, IsRefusedFor, Commits};
ghost use Rattle.daig_session.specs.Moves.{IsStill};
ghost use Rattle.daig_session.specs.Engines.{HasFewStale, KeepsSetup, TakesNames};

use crate::moving::{Moving, leave, planned_move};
use crate::parts::Parts;
use crate::session::Session;
use domain_laws::Domain;
use imp_edit::{EditError, Edited, apply};
use imp_syntax::Edit;
use std::alloc::Global;

/// All that an accepted edit needs.
#[derive(Drop)]
pub struct Planned {
    pub(crate) edited: Edited,
    pub(crate) moving: Moving,
}

impl<D: Domain> Parts<D> {
    /// Works out an edit beside what stands: nothing is changed except which places the table has.
    fn planned(&mut self, alloc: Global, edit: &Edit) -> Result<Planned, EditError>
        requires ready { IsReadyBy D.operations self.old }
        requires continues { Continues edit.now self.old.book.next }
        ensures engine { self.new.engine ≡ self.old.engine }
        ensures same { IsSame self.old.book self.new.book }
        ensures planned { IfOk result (IsPlannedFor self.new edit.now) }
        ensures accepted { IfOk result (λ _. IsAccepted self.old.book edit.now) }
        ensures refused { IfErr result (IsRefusedFor self.old.book edit.now) }
    {
        let edited = apply(alloc, self.book.history.table(), edit, self.book.next)?;
        self.book.history.make_room(alloc, &edited.change)?;
        let moving = planned_move(
            alloc,
            &self.engine,
            self.book.history.table(),
            &edited.change,
            &self.book.setting,
        )?;
        Ok(Planned { edited, moving })
    }

    /// Makes a planned edit.
    fn make(&mut self, planned: Planned)
        requires ready { IsReadyBy D.operations self.old }
        requires planned { (e : AnyEdit) × IsPlannedFor self.old e planned }
        ensures ready { IsReadyBy D.operations self.new }
        ensures setup { KeepsSetup self.old.engine self.new.engine }
        ensures bounded { IsWithinBound self.new }
        ensures next_ticket { KeepsNextTicket self.old self.new }
        ensures committed { Commits D.operations self.old self.new planned }
        ensures names { TakesNames self.old.engine self.new.engine planned.moving.renaming }
        ensures stale { HasFewStale self.old.engine self.new.engine }
    {
        let Planned { edited, moving } = planned;
        let Edited { change, next } = edited;
        let Moving {
            setting,
            plan,
            renaming,
        } = moving;
        leave(&mut self.engine, plan, renaming);
        self.book.remember(change, next, setting);
    }
}

/// An edit that is accepted and worked out, with the session that it is for.
#[derive(Drop)]
pub struct Prepared<'a, D: Domain, P = Planned> {
    session: &'a mut Session<D>,
    planned: P,
}

impl<D: Domain> Session<D> {
    /// Works out an edit beside what stands, and lends the session out with it. Its statements carry the numbers from the
    /// next one on, in the order of the text. Nothing is changed until [`Prepared::commit`]; where it is dropped, nothing
    /// is changed at all.
    ///
    /// It takes the time of [`apply`], which for conditions and for statements without calls does not grow with the program,
    /// and time in proportion to the cells of the statements that the edit changes, to the cells that it empties with their
    /// inputs, where other numbers come than go to the different numbers of the procedure, and where a loop comes or goes, or
    /// a number that is a threshold, to the loops of the procedure.
    ///
    /// # Errors
    ///
    /// The first refusal of the edit: where it goes, then whether the numbers suffice, then the first fault of the new
    /// program; or [`EditError::Memory`] when memory runs out. The session is then as it was.
    pub fn prepare(&mut self, alloc: Global, edit: &Edit) -> Result<Prepared<'_, D>, EditError>
        requires continues { Continues edit.now self.old.book.next }
        ensures* rests { sem 𝓛 (RestsIfErr (the_row D.row D.State.row D.Domain D.State.PartialEq
            (record { hash_input = D.State.Hash.hash_input })) self.entry
            (λ p. p.session.ghost_name) result (IsStill self.old)) }
        ensures same_reference { IfOk result (λ p. p.session.ghost_name ≡ self.entry.ghost_name) }
        ensures planned { IfOk result (λ p. IsPlannedFor p.session.now edit.now p.planned) }
        ensures holds { OfEachMachine D.operations self.old
            (λ m. IfOk result (λ p. StandsFor D.operations p.session.now m)) }
        ensures setup { IfOk result (λ p. KeepsSetup self.old.engine p.session.now.engine) }
        ensures unmoved { IfOk result (λ p. p.session.now.engine.store ≡ self.old.engine.store) }
        ensures next_ticket { IfOk result (λ p. KeepsNextTicket self.old p.session.now) }
        ensures accepted { IfOk result (λ _. IsAccepted self.old.book edit.now) }
        ensures refused { IfErr result (IsRefusedFor self.old.book edit.now) }
    {
        let planned = self.parts.planned(alloc, edit)?;
        Ok(Prepared {
            session: self,
            planned,
        })
    }
}

impl<D: Domain> Prepared<'_, D, Planned> {
    /// The number of the next new statement once the edit is made.
    pub fn next(&self) -> u32
        ensures is { (e : AnyEdit) → IsPlannedFor self.now.session.now e self.now.planned →
            result ≡ next_after e self.now.session.now.book.next }
    {
        self.planned.edited.next
    }

    /// Makes the edit: of the kept cells those are kept that it leaves, and all tickets begin anew. It cannot fail, and takes
    /// no memory: the names that are kept then are those that stood, or those that were planned.
    pub fn commit(self)
        requires planned { (e : AnyEdit) × IsPlannedFor self.session.now e self.planned }
        ensures setup { KeepsSetup self.entry.session.now.engine self.exit.0.now.engine }
        ensures bounded { IsWithinBound self.exit.0.now }
        ensures next_ticket { KeepsNextTicket self.entry.session.now self.exit.0.now }
        ensures committed { Commits D.operations self.entry.session.now self.exit.0.now
            self.entry.planned }
        ensures names { TakesNames self.entry.session.now.engine self.exit.0.now.engine
            self.entry.planned.moving.renaming }
        ensures stale { HasFewStale self.entry.session.now.engine self.exit.0.now.engine }
    {
        let Prepared { session, planned } = self;
        session.parts.make(planned);
    }
}
