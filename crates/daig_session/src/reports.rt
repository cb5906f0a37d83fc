//! Reports out of the cells, for `reports` and `sound` of `report`.
ghost use Rattle.std.specs.Prelude.{◌≡◌, ◌≤◌, [], IfOk, IsFalse, IsTrue, OnOk, Some};
ghost use Rattle.imp_slots.specs.ActionViews.{act_of};
ghost use Rattle.daig_query.specs.Answered.{Says};
ghost use Rattle.daig_session.specs.Sessions.{StaysBounded, KeepsNextTicket};
ghost use Rattle.daig_session.specs.Sessions.{IsWithinBound};
ghost use Rattle.daig_session.specs.Places.{Tells, KeepsAll, KeepsPart};
ghost use Rattle.daig_session.specs.Places.{TicksForAll, TicksForPart};
ghost use Rattle.daig_session.specs.Reports.{checked_act, checked_at, GivesVerdict, GivesFinding};
ghost use Rattle.daig_session.specs.Reports.{checked_here, checked_in, all_checked};
ghost use Rattle.daig_session.specs.Reports.{statement_here, statements_in, Finds, FindsAll};
ghost use Rattle.daig_session.specs.Reports.{ReportsFrom, TicksForReport};
ghost use Rattle.daig_session.specs.Reports.{AreFindingsSound, HasCheck, IsChecked};
ghost use Rattle.daig_session.specs.Engines.{KeepsSetup};

use crate::checks::{all_statements, checked_stmt, is_checked};
use crate::session::Session;
use alarm_report::Found;
use base_values::{Items, Memory};
use batch_meaning::QueryRefusal;
use batch_sound::reports_are_sound;
use daig_graph::Value;
use domain_laws::{Domain, Finding, Findings, Steps};
use imp_slots::SlotStmt;
use imp_syntax::{Location, StmtId};
use std::alloc::Global;
use std::sync::ledger::Ledger;

/// What a report makes of an answer.
fn found_in<S>(value: &Value<S>) -> Found<'_, S>
    ensures verdict { GivesVerdict (λ a. Says a (Some value.now)) result }
{
    match value {
        Value::State(state) => Found::State(state),
        Value::Over { head: _, chain: _ } => Found::Over,
    }
}

/// What a report makes of an answer, or of a refusal: where no chain comes nothing is found, and any other refusal is told
/// as an Over is.
fn found_of<S>(known: &Result<Value<S>, QueryRefusal>) -> Found<'_, S>
    ensures verdict { GivesVerdict (λ a. Tells a known.now) result }
{
    match known {
        Ok(value) => found_in(value),
        Err(QueryRefusal::NoChain) => Found::Absent,
        Err(QueryRefusal::LongString) => Found::Over,
        Err(QueryRefusal::NoProcedure) => Found::Over,
        Err(QueryRefusal::NoStatement) => Found::Over,
        Err(QueryRefusal::WrongStatement) => Found::Over,
    }
}

/// What is found of a statement that has a check, by what is known before it.
fn finding<D: Domain>(
    alloc: Global,
    dom: &D,
    id: StmtId,
    stmt: &SlotStmt,
    known: &Result<Value<D::State>, QueryRefusal>,
) -> Result<Finding, Memory>
    requires asks { IsChecked stmt.now }
    ensures is { GivesFinding (D.operations dom.now) id known.now
        (checked_act id (act_of stmt.now)) result }
{
    alarm_report::report(alloc, dom, id, stmt, found_of(known))
}

impl<D: Domain> Session<D> {
    /// Whether a statement has a check.
    fn has_check(&self, id: StmtId) -> bool
        ensures there { IsTrue result → HasCheck self.now.book.history.now id }
        ensures none { IsFalse result → checked_at self.now.book.history.now id ≡ [] }
    {
        is_checked(&self.parts.book.history.table().view(), id)
    }

    /// What is found of a statement that has a check, by what is known before it.
    fn found_at(
        &self,
        alloc: Global,
        id: StmtId,
        known: &Result<Value<D::State>, QueryRefusal>,
    ) -> Result<Finding, Memory>
        requires there { HasCheck self.now.book.history.now id }
        ensures is { GivesFinding (D.operations self.now.engine.domain) id known.now
            (checked_at self.now.book.history.now id) result }
    {
        let view = self.parts.book.history.table().view();
        match checked_stmt(&view, id) {
            Some(stmt) => finding(alloc, self.parts.engine.domain(), id, stmt, known),
            None => unreachable!(),
        }
    }

    /// Fills what is missing before a statement, and adds what is found of it, if it has a check.
    fn add_finding<L: Ledger>(
        &mut self,
        alloc: Global,
        id: StmtId,
        found: &mut Findings,
        steps: &mut Steps<L>,
    ) -> Result<(), Memory>
        ensures stays_bounded { StaysBounded self.old self.new }
        ensures setup { KeepsSetup self.old.engine self.new.engine }
        ensures keeps_part { KeepsPart D.operations self.old self.new (checked_here id) }
        ensures keeps_all { OnOk result
            (KeepsAll D.operations self.old self.new (checked_here id)) }
        ensures found { OnOk result
            (Finds D.operations self.old self.new (statement_here id) found.old found.new) }
        ensures least { steps.old ≤ steps.new }
        ensures ticked { OnOk result (TicksForAll D.operations self.old self.new D.counted
            (checked_here id) steps.old steps.new) }
        ensures ticked_filled { TicksForPart D.operations self.old self.new D.counted
            (checked_here id) steps.old steps.new }
    {
        if !self.has_check(id) {
            return Ok(());
        }
        let known = self.known_at(alloc, &Location::Before(id), steps)?;
        let finding = self.found_at(alloc, id, &known)?;
        found.push(finding)
    }

    /// Adds what is found of those of some statements that have a check, one after another.
    fn add_findings<L: Ledger>(
        &mut self,
        alloc: Global,
        stmts: &[StmtId],
        found: &mut Findings,
        steps: &mut Steps<L>,
    ) -> Result<(), Memory>
        ensures stays_bounded { StaysBounded self.old self.new }
        ensures setup { KeepsSetup self.old.engine self.new.engine }
        ensures keeps_part { KeepsPart D.operations self.old self.new (checked_in stmts.now) }
        ensures keeps_all { OnOk result
            (KeepsAll D.operations self.old self.new (checked_in stmts.now)) }
        ensures found { OnOk result
            (Finds D.operations self.old self.new (statements_in stmts.now) found.old found.new) }
        ensures least { steps.old ≤ steps.new }
        ensures ticked { OnOk result (TicksForAll D.operations self.old self.new D.counted
            (checked_in stmts.now) steps.old steps.new) }
        ensures ticked_filled { TicksForPart D.operations self.old self.new D.counted
            (checked_in stmts.now) steps.old steps.new }
    {
        self.ready();
        for stmt in stmts {
            let added = self.add_finding(alloc, *stmt, found, steps);
            self.ready();
            added?;
        }
        Ok(())
    }

    /// What is found of all statements that have a check, in the order of the text.
    fn all_findings<L: Ledger>(
        &mut self,
        alloc: Global,
        steps: &mut Steps<L>,
    ) -> Result<Findings, Memory>
        ensures stays_bounded { StaysBounded self.old self.new }
        ensures setup { KeepsSetup self.old.engine self.new.engine }
        ensures keeps_part { KeepsPart D.operations self.old self.new all_checked }
        ensures keeps_all { OnOk result (KeepsAll D.operations self.old self.new all_checked) }
        ensures found { IfOk result (FindsAll D.operations self.old self.new) }
        ensures least { steps.old ≤ steps.new }
        ensures ticked { OnOk result
            (TicksForAll D.operations self.old self.new D.counted all_checked steps.old steps.new) }
        ensures ticked_filled { TicksForPart D.operations self.old self.new D.counted all_checked
            steps.old steps.new }
    {
        self.ready();
        let stmts = all_statements(alloc, &self.parts.book.history.table().view())?;
        let mut found = Items::new(alloc);
        self.add_findings(alloc, stmts.as_slice(), &mut found, steps)?;
        Ok(found)
    }

    /// A report, with no sweep before it.
    pub(crate) fn report_now<L: Ledger>(
        &mut self,
        alloc: Global,
        steps: &mut Steps<L>,
    ) -> Result<Findings, Memory>
        ensures setup { KeepsSetup self.old.engine self.new.engine }
        ensures stays_bounded { StaysBounded self.old self.new }
        ensures next_ticket { KeepsNextTicket self.old self.new }
        ensures reports { ReportsFrom D.operations self.old self.new result }
        ensures sound { IfOk result (AreFindingsSound self.old) }
        ensures least { steps.old ≤ steps.new }
        ensures ticked { TicksForReport D.operations self.old self.new D.counted
            steps.old steps.new result }
        ensures ticked_filled { TicksForPart D.operations self.old self.new D.counted all_checked
            steps.old steps.new }
    {
        reports_are_sound::<D>();
        self.ready();
        let cost = self.cost();
        let kept = self.kept_count();
        match self.all_findings(alloc, steps) {
            Ok(found) => {
                self.parts.book.cost = (self.kept_count() - kept) as u64;
                Ok(found)
            }
            Err(why) => {
                self.parts.book.cost = cost;
                Err(why)
            }
        }
    }

    /// The report of the present program, interpreted from scratch: a finding for each statement that has a check, in the
    /// order of the text. No run fails a check that is called safe, and none comes to a statement that is called dead.
    ///
    /// Only what is missing is computed, for one statement after another; it is kept, and `cost` tells how many cells that
    /// were. It ticks at most once an operation of the domain for each of these, and twice for each chain to each checked
    /// statement. Where it fails it ticks at most so for what it filled then, and for one operation more. Beside these it
    /// takes time linear in the program.
    ///
    /// # Errors
    ///
    /// [`Memory`] alone. Some of what was missing may be kept then, the first of it, and all else is as it was.
    pub fn report<L: Ledger>(
        &mut self,
        alloc: Global,
        steps: &mut Steps<L>,
    ) -> Result<Findings, Memory>
        ensures setup { KeepsSetup self.old.engine self.new.engine }
        ensures bounded { IsWithinBound self.new }
        ensures next_ticket { KeepsNextTicket self.old self.new }
        ensures reports { ReportsFrom D.operations self.old self.new result }
        ensures sound { IfOk result (AreFindingsSound self.old) }
        ensures least { steps.old ≤ steps.new }
        ensures ticked { TicksForReport D.operations self.old self.new D.counted
            steps.old steps.new result }
        ensures ticked_filled { TicksForPart D.operations self.old self.new D.counted all_checked
            steps.old steps.new }
    {
        self.parts.engine.sweep();
        self.report_now(alloc, steps)
    }
}
