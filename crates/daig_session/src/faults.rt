//! Reports of faults out of the cells, for `reports` and `sound` of `faults`.
ghost use Rattle.std.specs.Prelude.{◌≡◌, ◌≤◌, [], ◌∷◌, IfOk, OnOk, Some};
ghost use Rattle.batch_meaning.specs.Answers as meaning;
ghost use Rattle.fault_verdicts.specs.Known.{IsKnown};
ghost use Rattle.fault_verdicts.specs.Statements.{place_of};
ghost use Rattle.daig_query.specs.Answered.{Says};
ghost use Rattle.daig_session.specs.Sessions.{StaysBounded, KeepsNextTicket};
ghost use Rattle.daig_session.specs.Sessions.{IsWithinBound};
ghost use Rattle.daig_session.specs.Places.{only, Tells, KeepsAll, KeepsPart};
ghost use Rattle.daig_session.specs.Places.{TicksForAll, TicksForPart};
ghost use Rattle.daig_session.specs.Faults.{places_of, all_faulting, FindsFaults};
ghost use Rattle.daig_session.specs.Faults.{FindsAllFaults, ReportsFaults, TicksForFaults};
ghost use Rattle.daig_session.specs.Faults.{AreFaultsSound};
ghost use Rattle.daig_session.specs.Engines.{KeepsSetup};

use crate::pointed::all_pointed;
use crate::session::Session;
use base_values::{Items, Memory};
use batch_meaning::QueryRefusal;
use daig_graph::Value;
use domain_laws::{Domain, Steps};
use fault_verdicts::{Evaluated, Known, add_findings, faults_are_sound};
use fault_words::FaultFindings;
use std::alloc::Global;
use std::sync::ledger::Ledger;

/// What an answer tells of faults.
fn known_in<S>(value: Value<S>) -> Known<S>
    ensures known { (a : meaning.Answer S) → Says a (Some value) → IsKnown a result }
{
    match value {
        Value::State(state) => Known::State(state),
        Value::Over { head: _, chain: _ } => Known::Nothing,
    }
}

/// What an answer, or a refusal, tells of faults: where no chain comes no run does, and any other refusal tells nothing.
fn known_of<S>(told: Result<Value<S>, QueryRefusal>) -> Known<S>
    ensures known { (a : meaning.Answer S) → Tells a told → IsKnown a result }
{
    match told {
        Ok(value) => known_in(value),
        Err(QueryRefusal::NoChain) => Known::Absent,
        Err(QueryRefusal::LongString) => Known::Nothing,
        Err(QueryRefusal::NoProcedure) => Known::Nothing,
        Err(QueryRefusal::NoStatement) => Known::Nothing,
        Err(QueryRefusal::WrongStatement) => Known::Nothing,
    }
}

impl<D: Domain> Session<D> {
    /// Fills what is missing where a statement evaluates, and adds what is found of its faults.
    fn add_faults<L: Ledger>(
        &mut self,
        alloc: Global,
        x: &Evaluated,
        found: &mut FaultFindings,
        steps: &mut Steps<L>,
    ) -> Result<(), Memory>
        ensures bounded { IsWithinBound self.new }
        ensures setup { KeepsSetup self.old.engine self.new.engine }
        ensures keeps_part { KeepsPart D.operations self.old self.new (only (place_of x.now)) }
        ensures keeps_all { OnOk result
            (KeepsAll D.operations self.old self.new (only (place_of x.now))) }
        ensures found { OnOk result
            (FindsFaults D.operations self.old self.new (x.now ∷ []) found.old found.new) }
        ensures least { steps.old ≤ steps.new }
        ensures ticked { OnOk result (TicksForAll D.operations self.old self.new D.counted
            (only (place_of x.now)) steps.old steps.new) }
        ensures ticked_filled { TicksForPart D.operations self.old self.new D.counted
            (only (place_of x.now)) steps.old steps.new }
    {
        let told = self.known_at(alloc, &x.place(), steps)?;
        add_findings(alloc, self.parts.engine.domain(), x, &known_of(told), found)
    }

    /// Adds what is found of the faults of statements, one after another.
    fn add_all_faults<L: Ledger>(
        &mut self,
        alloc: Global,
        xs: &[Evaluated],
        found: &mut FaultFindings,
        steps: &mut Steps<L>,
    ) -> Result<(), Memory>
        ensures stays_bounded { StaysBounded self.old self.new }
        ensures setup { KeepsSetup self.old.engine self.new.engine }
        ensures keeps_part { KeepsPart D.operations self.old self.new (places_of xs.now) }
        ensures keeps_all { OnOk result
            (KeepsAll D.operations self.old self.new (places_of xs.now)) }
        ensures found { OnOk result
            (FindsFaults D.operations self.old self.new xs.now found.old found.new) }
        ensures least { steps.old ≤ steps.new }
        ensures ticked { OnOk result (TicksForAll D.operations self.old self.new D.counted
            (places_of xs.now) steps.old steps.new) }
        ensures ticked_filled { TicksForPart D.operations self.old self.new D.counted
            (places_of xs.now) steps.old steps.new }
    {
        self.ready();
        for x in xs {
            let added = self.add_faults(alloc, x, found, steps);
            self.ready();
            added?;
        }
        Ok(())
    }

    /// What is found of the faults of all statements, in the order of the text.
    fn all_faults<L: Ledger>(
        &mut self,
        alloc: Global,
        steps: &mut Steps<L>,
    ) -> Result<FaultFindings, Memory>
        ensures stays_bounded { StaysBounded self.old self.new }
        ensures setup { KeepsSetup self.old.engine self.new.engine }
        ensures keeps_part { KeepsPart D.operations self.old self.new all_faulting }
        ensures keeps_all { OnOk result (KeepsAll D.operations self.old self.new all_faulting) }
        ensures found { IfOk result (FindsAllFaults D.operations self.old self.new) }
        ensures least { steps.old ≤ steps.new }
        ensures ticked { OnOk result (TicksForAll D.operations self.old self.new D.counted
            all_faulting steps.old steps.new) }
        ensures ticked_filled { TicksForPart D.operations self.old self.new D.counted
            all_faulting steps.old steps.new }
    {
        self.ready();
        let xs = all_pointed(alloc, &self.parts.book.history.table().view())?;
        let mut found = Items::new(alloc);
        self.add_all_faults(alloc, xs.as_slice(), &mut found, steps)?;
        Ok(found)
    }

    /// A report of faults, with no sweep before it.
    pub(crate) fn faults_now<L: Ledger>(
        &mut self,
        alloc: Global,
        steps: &mut Steps<L>,
    ) -> Result<FaultFindings, Memory>
        ensures setup { KeepsSetup self.old.engine self.new.engine }
        ensures stays_bounded { StaysBounded self.old self.new }
        ensures next_ticket { KeepsNextTicket self.old self.new }
        ensures reports { ReportsFaults D.operations self.old self.new result }
        ensures sound { IfOk result (AreFaultsSound self.old) }
        ensures least { steps.old ≤ steps.new }
        ensures ticked { TicksForFaults D.operations self.old self.new D.counted
            steps.old steps.new result }
        ensures ticked_filled { TicksForPart D.operations self.old self.new D.counted
            all_faulting steps.old steps.new }
    {
        faults_are_sound::<D>();
        self.ready();
        let cost = self.cost();
        let kept = self.kept_count();
        match self.all_faults(alloc, steps) {
            Ok(found) => {
                self.parts.book.cost = (self.kept_count() - kept) as u64;
                Ok(found)
            }
            Err(why) => {
                self.parts.book.cost = cost;
                Err(why)
            }
        }
    }

    /// The report of faults of the present program, interpreted from scratch: a finding for each statement and each kind of
    /// fault that it can end a run with, in the order of the text and then in the order of evaluation.
    ///
    /// Where a finding is safe, no run under any inputs ends with the fault there; where it is dead, no run comes to the
    /// statement; where it fails, no run that comes there goes on. Where none is may or fails, no run ends with a fault.
    ///
    /// Only what is missing is computed, for one statement after another; it is kept, and `cost` tells how many cells that
    /// were. It ticks at most once an operation of the domain for each of these, and twice for each chain to each statement
    /// that has fault points. Where it fails it ticks at most so for what it filled then, and for one operation more. Beside
    /// these it takes time linear in the program and in the fault points.
    ///
    /// # Errors
    ///
    /// [`Memory`] alone. Some of what was missing may be kept then, the first of it, and all else is as it was.
    pub fn faults<L: Ledger>(
        &mut self,
        alloc: Global,
        steps: &mut Steps<L>,
    ) -> Result<FaultFindings, Memory>
        ensures setup { KeepsSetup self.old.engine self.new.engine }
        ensures bounded { IsWithinBound self.new }
        ensures next_ticket { KeepsNextTicket self.old self.new }
        ensures reports { ReportsFaults D.operations self.old self.new result }
        ensures sound { IfOk result (AreFaultsSound self.old) }
        ensures least { steps.old ≤ steps.new }
        ensures ticked { TicksForFaults D.operations self.old self.new D.counted
            steps.old steps.new result }
        ensures ticked_filled { TicksForPart D.operations self.old self.new D.counted
            all_faulting steps.old steps.new }
    {
        self.parts.engine.sweep();
        self.faults_now(alloc, steps)
    }
}
