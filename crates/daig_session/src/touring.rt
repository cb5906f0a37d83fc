//! Filling what is missing along the places of a report, one after another.
ghost use Rattle.std.specs.Prelude.{◌≡◌, ◌≤◌, ◌++◌, map, None, IfErr, IfOk, IsTrue, OnOk};
ghost use Rattle.imp_check.specs.Slots.{routines_of};
ghost use Rattle.fault_verdicts.specs.Statements.{place_of};
ghost use Rattle.daig_query.specs.Swept.{FillsFew};
ghost use Rattle.daig_session.specs.Going.{kind_places};
ghost use Rattle.daig_session.specs.Sessions.{IsReadyBy, StaysBounded, IsWithinBound, TicksAtMost};
ghost use Rattle.daig_session.specs.Sessions.{TicksForFilled};
ghost use Rattle.daig_session.specs.Places.{only, KeepsPart};
ghost use Rattle.daig_session.specs.Reports.{checks_among, checks_at};
ghost use Rattle.daig_session.specs.Tours.{IsBegun, places_in, IsNext, IsNextOf, RefusesNone};
ghost use Rattle.daig_session.specs.Tours.{IsFullIn, HaveReached, HasTour, IsTourFull, StaysKept};
ghost use Rattle.daig_session.specs.Tours.{FillsSome, ReachesSome};
ghost use Rattle.daig_session.specs.Engines.{HasComeFor, IsRightFor, RefusesAsked, KeepsSetup};

use crate::asking::begun;
use crate::checks::{all_statements, is_checked};
use crate::course::{Course, Going, Kind, Tour};
use crate::error::QueryError;
use crate::parts::Parts;
use crate::pointed::all_pointed;
use crate::stepping::fill_some;
use base_values::{Items, Memory};
use daig_machine::{Question, questions_keep_cells};
use daig_query::{Engine, Progress};
use domain_laws::{Domain, Steps};
use fault_verdicts::Evaluated;
use imp_flow::Flow;
use imp_syntax::{Location, StmtId};
use imp_table::View;
use std::alloc::Global;
use std::sync::ledger::Ledger;

/// Adds where a statement is asked for, if it has a check.
fn add_check(view: &View<'_>, id: StmtId, places: &mut Items<Location>) -> Result<(), Memory>
    ensures added { OnOk result (places.new ≡ places.old ++ checks_at view.now id) }
{
    if is_checked(view, id) {
        places.push(Location::Before(id))
    } else {
        Ok(())
    }
}

/// Where those of some statements that have a check are asked for.
fn checks_among(alloc: Global, view: &View<'_>, stmts: &[StmtId]) -> Result<Items<Location>, Memory>
    ensures are { IfOk result (λ ls. ls ≡ checks_among view.now stmts.now) }
{
    let mut places = Items::new(alloc);
    for stmt in stmts {
        add_check(view, *stmt, &mut places)?;
    }
    Ok(places)
}

/// Where statements evaluate.
fn places_of(alloc: Global, xs: &[Evaluated]) -> Result<Items<Location>, Memory>
    ensures are { IfOk result (λ ls. ls ≡ map place_of xs.now) }
{
    let mut places = Items::new(alloc);
    for x in xs {
        places.push(x.place())?;
    }
    Ok(places)
}

/// The places of a report. It takes time linear in the program.
fn report_places(alloc: Global, view: &View<'_>, kind: Kind) -> Result<Items<Location>, Memory>
    ensures are { IfOk result (λ ls. ls ≡ kind_places kind (routines_of view.now)) }
{
    view.procs();
    match kind {
        Kind::Checks => {
            let stmts = all_statements(alloc, view)?;
            checks_among(alloc, view, stmts.as_slice())
        }
        Kind::Faults => {
            let xs = all_pointed(alloc, view)?;
            places_of(alloc, xs.as_slice())
        }
    }
}

/// A report that is to begin.
fn begun_tour(alloc: Global, view: &View<'_>, kind: Kind) -> Result<Tour, Memory>
    ensures begun { IfOk result (IsBegun kind (routines_of view.now)) }
{
    let places = report_places(alloc, view, kind)?;
    Ok(Tour {
        kind,
        places,
        full: 0,
        going: None,
    })
}

/// A ticket's question that is to begin, or why the program refuses it.
pub(crate) fn begun_course<D: Domain>(
    alloc: Global,
    engine: &Engine<D>,
    flow: &Flow<'_>,
    question: &Question,
) -> Result<Course, QueryError>
    requires right { IsRightFor D.operations engine.now flow.now }
    ensures course { IfOk result (HasComeFor D.operations engine.now flow.now question.now) }
    ensures refused { IfErr result (RefusesAsked D.operations engine.now flow.now question.now) }
{
    match question {
        Question::State { at, string } => {
            let going = begun(alloc, engine, flow, at, string.as_slice())?;
            Ok(Course::Place(going))
        }
        Question::Why { at, string } => {
            let going = begun(alloc, engine, flow, at, string.as_slice())?;
            Ok(Course::Place(going))
        }
        Question::Report => {
            let tour = begun_tour(alloc, flow.program(), Kind::Checks)?;
            Ok(Course::Along(tour))
        }
        Question::Faults { only: _ } => {
            let tour = begun_tour(alloc, flow.program(), Kind::Faults)?;
            Ok(Course::Along(tour))
        }
    }
}

/// How many of some places have nothing missing any more, how many cells were filled for them, and whether nothing is
/// missing at any of them.
#[derive(Clone, Copy)]
pub(crate) struct Reached {
    pub(crate) full: usize,
    pub(crate) filled: usize,
    pub(crate) done: bool,
}

impl<D: Domain> Parts<D> {
    /// Takes how far a place has come, or begins it; there is nothing where no chain comes to it.
    fn next_going(
        &self,
        alloc: Global,
        at: &Location,
        next: &mut Option<Going>,
    ) -> Result<Option<Going>, Memory>
        requires ready { IsReadyBy D.operations self.now }
        requires next { IsNext D.operations self.now at.now next.old }
        ensures taken { next.new ≡ None }
        ensures going { IfOk result (IsNext D.operations self.now at.now) }
        ensures none { IfOk result (RefusesNone D.operations self.now at.now) }
    {
        if let Some(going) = next.take() {
            return Ok(Some(going));
        }
        let flow = self.book.flow();
        match begun(alloc, &self.engine, &flow, at, &[]) {
            Ok(going) => Ok(Some(going)),
            Err(QueryError::Refused(_why)) => Ok(None),
            Err(QueryError::Memory) => Err(Memory),
        }
    }

    /// Fills the first so many of what is missing at a place, under all chains to it, with no sweep before it.
    fn fill_there<L: Ledger>(
        &mut self,
        alloc: Global,
        at: &Location,
        next: &mut Option<Going>,
        most: usize,
        steps: &mut Steps<L>,
    ) -> Result<Progress, Memory>
        requires ready { IsReadyBy D.operations self.old }
        requires next { IsNext D.operations self.old at.now next.old }
        ensures ready { IsReadyBy D.operations self.new }
        ensures setup { KeepsSetup self.old.engine self.new.engine }
        ensures book { self.new.book ≡ self.old.book }
        ensures adds_few { FillsFew self.old.engine.store self.new.engine.store }
        ensures stays_kept { StaysKept self.old self.new }
        ensures next { IfOk result (λ _. IsNext D.operations self.new at.now next.new) }
        ensures keeps_part { KeepsPart D.operations self.old self.new (only at.now) }
        ensures fills { FillsSome D.operations self.old self.new (only at.now) most result }
        ensures full { IfOk result (λ p. IsTrue p.done → IsFullIn D.operations self.new at.now) }
        ensures ended { IfOk result (λ p. IsTrue p.done → next.new ≡ None) }
        ensures least { steps.old ≤ steps.new }
        ensures ticked { IfOk result
            (λ p. TicksAtMost D.counted self.old steps.old steps.new p.filled) }
        ensures ticked_filled { TicksForFilled D.counted self.old self.new steps.old steps.new }
    {
        questions_keep_cells::<D>();
        let Some(mut going) = self.next_going(alloc, at, next)? else {
            return Ok(Progress {
                filled: 0,
                done: true,
            });
        };
        let progress = fill_some(alloc, &mut self.engine, &self.book, &mut going, most, steps)?;
        if progress.done {
            return Ok(progress);
        }
        *next = Some(going);
        Ok(progress)
    }

    /// The same, after a sweep.
    fn fill_place<L: Ledger>(
        &mut self,
        alloc: Global,
        at: &Location,
        next: &mut Option<Going>,
        most: usize,
        steps: &mut Steps<L>,
    ) -> Result<Progress, Memory>
        requires ready { IsReadyBy D.operations self.old }
        requires next { IsNext D.operations self.old at.now next.old }
        ensures ready { IsReadyBy D.operations self.new }
        ensures setup { KeepsSetup self.old.engine self.new.engine }
        ensures book { self.new.book ≡ self.old.book }
        ensures bounded { IsWithinBound self.new }
        ensures stays_kept { StaysKept self.old self.new }
        ensures next { IfOk result (λ _. IsNext D.operations self.new at.now next.new) }
        ensures keeps_part { KeepsPart D.operations self.old self.new (only at.now) }
        ensures fills { FillsSome D.operations self.old self.new (only at.now) most result }
        ensures full { IfOk result (λ p. IsTrue p.done → IsFullIn D.operations self.new at.now) }
        ensures ended { IfOk result (λ p. IsTrue p.done → next.new ≡ None) }
        ensures least { steps.old ≤ steps.new }
        ensures ticked { IfOk result
            (λ p. TicksAtMost D.counted self.old steps.old steps.new p.filled) }
        ensures ticked_filled { TicksForFilled D.counted self.old self.new steps.old steps.new }
    {
        self.engine.sweep();
        self.fill_there(alloc, at, next, most, steps)
    }

    /// Fills the first so many of what is missing at places, one after another. So far has the first of them come, if it is
    /// begun.
    fn fill_places<L: Ledger>(
        &mut self,
        alloc: Global,
        places: &[Location],
        next: &mut Option<Going>,
        most: usize,
        steps: &mut Steps<L>,
    ) -> Result<Reached, Memory>
        requires ready { IsReadyBy D.operations self.old }
        requires next { IsNextOf D.operations self.old places.now 0 next.old }
        ensures ready { IsReadyBy D.operations self.new }
        ensures setup { KeepsSetup self.old.engine self.new.engine }
        ensures book { self.new.book ≡ self.old.book }
        ensures stays_bounded { StaysBounded self.old self.new }
        ensures stays_kept { StaysKept self.old self.new }
        ensures reached { IfOk result (HaveReached D.operations self.new places.now next.new) }
        ensures keeps_part { KeepsPart D.operations self.old self.new (λ _. places.now) }
        ensures fills { ReachesSome D.operations self.old self.new places.now most result }
        ensures least { steps.old ≤ steps.new }
        ensures ticked { IfOk result
            (λ r. TicksAtMost D.counted self.old steps.old steps.new r.filled) }
        ensures ticked_filled { TicksForFilled D.counted self.old self.new steps.old steps.new }
    {
        let mut full = 0usize;
        let mut filled = 0usize;
        for at in places {
            let progress = self.fill_place(alloc, at, next, most - filled, steps)?;
            filled += progress.filled;
            if !progress.done {
                return Ok(Reached {
                    full,
                    filled,
                    done: false,
                });
            }
            full += 1;
        }
        Ok(Reached {
            full,
            filled,
            done: true,
        })
    }

    /// Fills the first so many of what is missing for a report.
    pub(crate) fn fill_tour<L: Ledger>(
        &mut self,
        alloc: Global,
        tour: &mut Tour,
        most: usize,
        steps: &mut Steps<L>,
    ) -> Result<Progress, Memory>
        requires ready { IsReadyBy D.operations self.old }
        requires tour { HasTour D.operations self.old tour.old }
        ensures ready { IsReadyBy D.operations self.new }
        ensures setup { KeepsSetup self.old.engine self.new.engine }
        ensures book { self.new.book ≡ self.old.book }
        ensures stays_bounded { StaysBounded self.old self.new }
        ensures kind { tour.new.kind ≡ tour.old.kind }
        ensures tour { IfOk result (λ _. HasTour D.operations self.new tour.new) }
        ensures full { IfOk result
            (λ p. IsTrue p.done → IsTourFull D.operations self.new tour.old.kind) }
        ensures keeps_part { KeepsPart D.operations self.old self.new (places_in tour.old.kind) }
        ensures fills { FillsSome D.operations self.old self.new (places_in tour.old.kind)
            most result }
        ensures least { steps.old ≤ steps.new }
        ensures ticked { IfOk result
            (λ p. TicksAtMost D.counted self.old steps.old steps.new p.filled) }
        ensures ticked_filled { TicksForFilled D.counted self.old self.new steps.old steps.new }
    {
        let Tour {
            kind: _,
            places,
            full,
            going,
        } = tour;
        let start = *full;
        let rest = &places.as_slice()[start..];
        let reached = self.fill_places(alloc, rest, going, most, steps)?;
        *full = start + reached.full;
        Ok(Progress {
            filled: reached.filled,
            done: reached.done,
        })
    }
}
