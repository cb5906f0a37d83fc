//! Steps of tickets.
ghost use Rattle.std.specs.Prelude.{◌≡◌, ◌*◌, ◌<◌, ◌≤◌, ◌↔◌, length, min, IfOk, IsTrue};
ghost use Rattle.daig_query.specs.Swept.{FillsFew};
ghost use Rattle.daig_session.specs.Books.{IsWithout};
ghost use Rattle.daig_session.specs.Holds.{IsAtPlace};
ghost use Rattle.daig_session.specs.Sessions.{IsReadyBy, KeepsNextTicket, IsWithinBound};
ghost use Rattle.daig_session.specs.Sessions.{HasAsMany, StaysBounded, TicksForFilled};
ghost use Rattle.daig_session.specs.Sessions.{BoundsSwept};
ghost use Rattle.daig_session.specs.Tours.{IsTourFull};
ghost use Rattle.daig_session.specs.Turns.{ReportsDone};
ghost use Rattle.daig_session.specs.Questions.{StepsFrom, IsSoundStep, TicksForStep, StepsThere};
ghost use Rattle.daig_session.specs.Questions.{IsSoundThere, TicksForThere, TicksForSomeThere};
ghost use Rattle.daig_session.specs.Questions.{TicksForSomeStep, SteppedThere, TicksUntilThere};
ghost use Rattle.daig_session.specs.Questions.{StepsUntil, IsSoundUntil, TicksUntil, IsFullTurn};
ghost use Rattle.daig_session.specs.Questions.{IsFilledAt, TellsAtPlace, IsSoundAtPlace};
ghost use Rattle.daig_session.specs.Questions.{TicksAtPlace, JudgesFrom, StaysUnjudged};
ghost use Rattle.daig_session.specs.Questions.{TicksForJudging, TicksWhileJudging};
ghost use Rattle.daig_session.specs.Questions.{IsSoundUntilThere};
ghost use Rattle.daig_session.specs.Engines.{IsReadyWith, IsUnderWay, ResumesAt, RefusesAt};
ghost use Rattle.daig_session.specs.Engines.{missing_for, WorksAtMost, IsAdded, TicksForAdded};
ghost use Rattle.daig_session.specs.Engines.{FillsFirst, GoesOn, HasAll, KeepsSetup};

use crate::asking::read_answer;
use crate::book::Book;
use crate::course::{Course, Going, Kind, Tour};
use crate::error::{QueryError, StepError};
use crate::parts::Parts;
use crate::session::Session;
use crate::tickets::{put_going, take_going};
use crate::touring::begun_course;
use base_values::{Items, Memory};
use daig_graph::Value;
use daig_machine::{Question, questions_keep_cells};
use daig_query::{Engine, Progress, Walk};
use domain_laws::{Domain, Findings, Steps};
use fault_words::FaultFindings;
use imp_syntax::StmtId;
use std::alloc::Global;
use std::sync::ledger::Ledger;
use why_cells::upstream;
use why_slice::answers_stay;

/// What a step answers. With each answer but the first the ticket is closed.
#[derive(Drop)]
pub enum StepResult<S> {
    /// More was missing; so many cells were filled.
    Pending(usize),
    /// The state, by the present program.
    State(Value<S>),
    /// The statements that the state depends on.
    Why(Items<StmtId>),
    /// The report.
    Report(Findings),
    /// The report of faults, with the findings of all verdicts.
    Faults(FaultFindings),
}

/// What a step comes to before a report is judged: what is told, or for a report that nothing is missing any more after so
/// many cells were filled.
#[derive(Drop)]
enum Stepped<S> {
    Told(StepResult<S>),
    Full { kind: Kind, filled: usize },
}

/// What a ticket has come to, or where it begins anew its question, if the program has that.
fn resumed<D: Domain>(
    alloc: Global,
    engine: &Engine<D>,
    book: &mut Book,
    place: usize,
) -> Result<Course, QueryError>
    requires ready { IsReadyWith D.operations engine.now book.old }
    requires there { place < length book.old.tickets.open_ones.items }
    ensures left { IsWithout place book.old book.new }
    ensures going { ResumesAt D.operations engine.now book.old place result }
    ensures refused { RefusesAt D.operations engine.now book.old place result }
{
    match take_going(&mut book.tickets.open_ones, place) {
        Some(course) => Ok(course),
        None => {
            let flow = book.flow();
            let one = &book.tickets.open_ones[place];
            begun_course(alloc, engine, &flow, &one.question)
        }
    }
}

/// Fills the first so many of what is missing for a question.
pub(crate) fn fill_some<D: Domain, L: Ledger>(
    alloc: Global,
    engine: &mut Engine<D>,
    book: &Book,
    going: &mut Going,
    most: usize,
    steps: &mut Steps<L>,
) -> Result<Progress, Memory>
    requires ready { IsReadyWith D.operations engine.old book.now }
    requires going { IsUnderWay D.operations engine.old book.now going.old }
    ensures setup { KeepsSetup engine.old engine.new }
    ensures fills { FillsFirst D.operations engine.old engine.new book.now going.old }
    ensures adds_few { FillsFew engine.old.store engine.new.store }
    ensures going { GoesOn D.operations engine.old engine.new book.now going.old going.new }
    ensures counted { IfOk result (λ p. IsAdded engine.old engine.new p.filled) }
    ensures first { IfOk result
        (λ p. p.filled ≡ min most (missing_for D.operations engine.old book.now going.old)) }
    ensures done { IfOk result
        (λ p. IsTrue p.done ↔ (missing_for D.operations engine.old book.now going.old ≤ most)) }
    ensures filled { IfOk result (λ p. IsTrue p.done →
        HasAll D.operations engine.old engine.new book.now going.old going.new) }
    ensures least { steps.old ≤ steps.new }
    ensures ticked { IfOk result
        (λ p. WorksAtMost D.counted engine.old steps.old steps.new p.filled) }
    ensures ticked_filled { TicksForAdded engine.old engine.new D.counted steps.old steps.new }
{
    let flow = book.flow();
    let Going { targets, walk } = going;
    engine.advance(alloc, &flow, targets.as_slice(), walk, most, steps)
}

/// What is told of the question of the ticket at a place, which asks at one place and for which nothing is missing.
fn told<D: Domain, L: Ledger>(
    alloc: Global,
    engine: &Engine<D>,
    book: &Book,
    place: usize,
    walk: &Walk,
    steps: &mut Steps<L>,
) -> Result<StepResult<D::State>, Memory>
    requires ready { IsReadyWith D.operations engine.now book.now }
    requires there { place < length book.now.tickets.open_ones.items }
    requires filled { IsFilledAt D.operations engine.now book.now place walk.now }
    ensures says { TellsAtPlace D.operations engine.now book.now place result }
    ensures sound { IsSoundAtPlace D.operations engine.now book.now place D.covers result }
    ensures least { steps.old ≤ steps.new }
    ensures ticked { TicksAtPlace D.operations engine.now book.now place D.counted
        steps.old steps.new }
{
    answers_stay::<D>();
    let flow = book.flow();
    let one = &book.tickets.open_ones[place];
    match &one.question {
        Question::State { at: _, string: _ } => {
            let value = read_answer(alloc, engine, walk, steps)?;
            Ok(StepResult::State(value))
        }
        Question::Why { at, string } => {
            let stmts = upstream(alloc, engine, &flow, at, string.as_slice(), walk)?;
            Ok(StepResult::Why(stmts))
        }
        Question::Report => unreachable!(),
        Question::Faults { only: _ } => unreachable!(),
    }
}

impl<D: Domain> Parts<D> {
    /// A step of the ticket at a place, which asks at one place and has come so far there.
    fn step_on<L: Ledger>(
        &mut self,
        alloc: Global,
        place: usize,
        mut going: Going,
        most: usize,
        steps: &mut Steps<L>,
    ) -> Result<StepResult<D::State>, StepError>
        requires ready { IsReadyBy D.operations self.old }
        requires there { IsAtPlace (D.operations self.old.engine.domain) self.old.engine.store
            self.old.book place (Course.Place going) }
        ensures ready { IsReadyBy D.operations self.new }
        ensures setup { KeepsSetup self.old.engine self.new.engine }
        ensures adds_few { FillsFew self.old.engine.store self.new.engine.store }
        ensures next_ticket { KeepsNextTicket self.old self.new }
        ensures steps { StepsThere D.operations self.old self.new place most result }
        ensures sound { IsSoundThere D.operations self.old self.new place D.covers result }
        ensures least { steps.old ≤ steps.new }
        ensures ticked { TicksForThere D.operations self.old self.new place D.counted
            steps.old steps.new result }
        ensures ticked_filled { TicksForSomeThere D.operations self.old self.new place D.counted
            steps.old steps.new }
    {
        questions_keep_cells::<D>();
        let progress = fill_some(alloc, &mut self.engine, &self.book, &mut going, most, steps)?;
        let filled = progress.filled;
        if !progress.done {
            put_going(
                &mut self.book.tickets.open_ones,
                place,
                Course::Place(going),
            );
            self.book.cost = filled as u64;
            return Ok(StepResult::Pending(filled));
        }
        let turn = told(alloc, &self.engine, &self.book, place, &going.walk, steps)?;
        self.book.tickets.close(place);
        self.book.cost = filled as u64;
        Ok(turn)
    }

    /// A step of the ticket at a place, which is for a report that has come so far.
    fn step_along<L: Ledger>(
        &mut self,
        alloc: Global,
        place: usize,
        mut tour: Tour,
        most: usize,
        steps: &mut Steps<L>,
    ) -> Result<Stepped<D::State>, StepError>
        requires ready { IsReadyBy D.operations self.old }
        requires there { IsAtPlace (D.operations self.old.engine.domain) self.old.engine.store
            self.old.book place (Course.Along tour) }
        ensures ready { IsReadyBy D.operations self.new }
        ensures setup { KeepsSetup self.old.engine self.new.engine }
        ensures stays_bounded { StaysBounded self.old self.new }
        ensures next_ticket { KeepsNextTicket self.old self.new }
        ensures steps { SteppedThere D.operations self.old self.new place most result }
        ensures full { IfOk result (IsFullTurn D.operations self.new) }
        ensures sound { IsSoundUntilThere D.operations self.old self.new place D.covers result }
        ensures least { steps.old ≤ steps.new }
        ensures ticked { TicksUntilThere D.operations self.old self.new place D.counted
            steps.old steps.new result }
        ensures ticked_filled { TicksForFilled D.counted self.old self.new steps.old steps.new }
    {
        let kind = tour.kind;
        let progress = self.fill_tour(alloc, &mut tour, most, steps)?;
        let filled = progress.filled;
        if progress.done {
            return Ok(Stepped::Full { kind, filled });
        }
        put_going(&mut self.book.tickets.open_ones, place, Course::Along(tour));
        self.book.cost = filled as u64;
        Ok(Stepped::Told(StepResult::Pending(filled)))
    }

    /// A step of a ticket, if it is open, with a report's statements still to be judged.
    fn step_until<L: Ledger>(
        &mut self,
        alloc: Global,
        ticket: u64,
        most: u32,
        steps: &mut Steps<L>,
    ) -> Result<Stepped<D::State>, StepError>
        requires ready { IsReadyBy D.operations self.old }
        ensures ready { IsReadyBy D.operations self.new }
        ensures setup { KeepsSetup self.old.engine self.new.engine }
        ensures bounded { BoundsSwept self.old self.new }
        ensures next_ticket { KeepsNextTicket self.old self.new }
        ensures steps { StepsUntil D.operations self.old self.new ticket most result }
        ensures full { IfOk result (IsFullTurn D.operations self.new) }
        ensures sound { IsSoundUntil D.operations self.old self.new ticket D.covers result }
        ensures least { steps.old ≤ steps.new }
        ensures ticked { TicksUntil D.operations self.old self.new ticket D.counted
            steps.old steps.new result }
        ensures ticked_filled { TicksForSomeStep D.operations self.old self.new ticket D.counted
            steps.old steps.new }
    {
        let Some(place) = self.book.tickets.place_of(ticket) else {
            return Err(StepError::NoTicket);
        };
        match resumed(alloc, &self.engine, &mut self.book, place) {
            Ok(Course::Place(going)) => {
                let turn = self.step_on(alloc, place, going, most as usize, steps)?;
                Ok(Stepped::Told(turn))
            }
            Ok(Course::Along(tour)) => self.step_along(alloc, place, tour, most as usize, steps),
            Err(QueryError::Refused(_why)) => {
                self.book.tickets.close(place);
                Err(StepError::Gone)
            }
            Err(QueryError::Memory) => Err(StepError::Memory),
        }
    }
}

impl<D: Domain> Session<D> {
    /// What is told of a report for which nothing is missing.
    fn judged<L: Ledger>(
        &mut self,
        alloc: Global,
        kind: Kind,
        steps: &mut Steps<L>,
    ) -> Result<StepResult<D::State>, Memory>
        requires full { IsTourFull D.operations self.old kind }
        ensures setup { KeepsSetup self.old.engine self.new.engine }
        ensures stays_bounded { StaysBounded self.old self.new }
        ensures next_ticket { KeepsNextTicket self.old self.new }
        ensures no_cells { HasAsMany self.old self.new }
        ensures judges { JudgesFrom D.operations self.old self.new kind result }
        ensures unjudged { StaysUnjudged D.operations self.old self.new result }
        ensures sound { IfOk result (ReportsDone self.old.book.history.now) }
        ensures least { steps.old ≤ steps.new }
        ensures ticked { TicksForJudging D.operations self.old self.new D.counted kind
            steps.old steps.new result }
        ensures ticked_filled { TicksWhileJudging D.operations self.old self.new D.counted kind
            steps.old steps.new }
    {
        self.ready();
        match kind {
            Kind::Checks => {
                let found = self.report_now(alloc, steps);
                self.ready();
                Ok(StepResult::Report(found?))
            }
            Kind::Faults => {
                let found = self.faults_now(alloc, steps);
                self.ready();
                Ok(StepResult::Faults(found?))
            }
        }
    }

    /// A step of a ticket, with no sweep before it.
    fn step_now<L: Ledger>(
        &mut self,
        alloc: Global,
        ticket: u64,
        most: u32,
        steps: &mut Steps<L>,
    ) -> Result<StepResult<D::State>, StepError>
        ensures setup { KeepsSetup self.old.engine self.new.engine }
        ensures bounded { BoundsSwept self.old self.new }
        ensures next_ticket { KeepsNextTicket self.old self.new }
        ensures steps { StepsFrom D.operations self.old self.new ticket most result }
        ensures sound { IsSoundStep D.operations self.old self.new ticket D.covers result }
        ensures least { steps.old ≤ steps.new }
        ensures ticked { TicksForStep D.operations self.old self.new ticket D.counted
            steps.old steps.new result }
        ensures ticked_filled { TicksForSomeStep D.operations self.old self.new ticket D.counted
            steps.old steps.new }
    {
        match self.parts.step_until(alloc, ticket, most, steps)? {
            Stepped::Told(turn) => Ok(turn),
            Stepped::Full { kind, filled } => {
                let turn = self.judged(alloc, kind, steps)?;
                let _closed = self.cancel(ticket);
                self.parts.book.cost = filled as u64;
                Ok(turn)
            }
        }
    }

    /// Fills the first `most` cells that are missing for a ticket's question, in the order in which the whole request fills
    /// them. Where more were missing the answer is [`StepResult::Pending`]; else it is that of the present program, and the
    /// ticket is closed.
    ///
    /// It ticks as the request does for what it fills, and with the answer for what the request reads. It takes no time for
    /// what is left, nor for what earlier steps filled, as long as the program stays. A report judges its statements in its
    /// last step.
    ///
    /// # Errors
    ///
    /// [`StepError::NoTicket`] exactly where no ticket of this number is open. [`StepError::Gone`] exactly where the
    /// present program refuses the question, which never befalls a report; the ticket is closed then.
    /// [`StepError::Memory`] when memory runs out: some of what was missing may be kept then, the first of it, and all else
    /// is as it was.
    pub fn step<L: Ledger>(
        &mut self,
        alloc: Global,
        ticket: u64,
        most: u32,
        steps: &mut Steps<L>,
    ) -> Result<StepResult<D::State>, StepError>
        ensures setup { KeepsSetup self.old.engine self.new.engine }
        ensures bounded { IsWithinBound self.new }
        ensures next_ticket { KeepsNextTicket self.old self.new }
        ensures steps { StepsFrom D.operations self.old self.new ticket most result }
        ensures sound { IsSoundStep D.operations self.old self.new ticket D.covers result }
        ensures least { steps.old ≤ steps.new }
        ensures ticked { TicksForStep D.operations self.old self.new ticket D.counted
            steps.old steps.new result }
        ensures ticked_filled { TicksForSomeStep D.operations self.old self.new ticket D.counted
            steps.old steps.new }
    {
        self.parts.engine.sweep();
        self.step_now(alloc, ticket, most, steps)
    }
}
