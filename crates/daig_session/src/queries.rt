//! Queries, for `answers` and `sound` of `query`, and for `explains` and `stays` of `why`.
ghost use Rattle.std.specs.Prelude.{◌≡◌, ◌≤◌, IfErr, IfOk, OnOk};
ghost use Rattle.daig_query.specs.Swept.{FillsFew};
ghost use Rattle.daig_session.specs.Sessions.{IsReadyBy, TicksAtMost, TicksForFilled, cells_filled};
ghost use Rattle.daig_session.specs.Sessions.{KeepsNextTicket, IsWithinBound};
ghost use Rattle.daig_session.specs.Places.{IsUnticked};
ghost use Rattle.daig_session.specs.Questions.{Asks, HasFilled, FillsMissing, StandsAnswered};
ghost use Rattle.daig_session.specs.Questions.{StandsBetween, FailsFrom, QuestionsFrom};
ghost use Rattle.daig_session.specs.Questions.{ExplainsFrom, TicksForMissing, TicksForAnswer};
ghost use Rattle.daig_session.specs.Questions.{TicksForSome, CoversIn, SufficesIn};
ghost use Rattle.daig_session.specs.Engines.{IsReadyWith, IsUnderWay, missing_for, WorksAtMost};
ghost use Rattle.daig_session.specs.Engines.{IsAdded, TicksForAdded, FillsFirst, HasAll};
ghost use Rattle.daig_session.specs.Engines.{KeepsSetup};

use crate::asking::{begun, read_answer};
use crate::book::Book;
use crate::course::Going;
use crate::error::QueryError;
use crate::parts::Parts;
use crate::session::Session;
use base_values::{Items, Memory};
use daig_graph::Value;
use daig_machine::questions_keep_cells;
use daig_query::Engine;
use domain_laws::{Domain, Steps};
use imp_syntax::{Location, StmtId};
use std::alloc::Global;
use std::sync::ledger::Ledger;
use why_cells::upstream;
use why_slice::answers_stay;

/// Fills what is missing for a question.
fn fill_all<D: Domain, L: Ledger>(
    alloc: Global,
    engine: &mut Engine<D>,
    book: &Book,
    going: &mut Going,
    steps: &mut Steps<L>,
) -> Result<usize, Memory>
    requires ready { IsReadyWith D.operations engine.old book.now }
    requires going { IsUnderWay D.operations engine.old book.now going.old }
    ensures setup { KeepsSetup engine.old engine.new }
    ensures targets { going.new.targets ≡ going.old.targets }
    ensures fills { FillsFirst D.operations engine.old engine.new book.now going.old }
    ensures adds_few { FillsFew engine.old.store engine.new.store }
    ensures counted { IfOk result (IsAdded engine.old engine.new) }
    ensures missing { IfOk result
        (λ n. n ≡ missing_for D.operations engine.old book.now going.old) }
    ensures filled { OnOk result
        (HasAll D.operations engine.old engine.new book.now going.old going.new) }
    ensures least { steps.old ≤ steps.new }
    ensures ticked { IfOk result (WorksAtMost D.counted engine.old steps.old steps.new) }
    ensures ticked_filled { TicksForAdded engine.old engine.new D.counted steps.old steps.new }
{
    let flow = book.flow();
    let Going { targets, walk } = going;
    engine.demand(alloc, &flow, targets.as_slice(), walk, steps)
}

/// A question for which nothing is missing, and how many cells were filled for it.
#[derive(Drop)]
struct Filled {
    going: Going,
    count: usize,
}

impl<D: Domain> Parts<D> {
    /// Fills what is missing for a question, or tells why it has no answer. The book stays as it is.
    fn fill_now<L: Ledger>(
        &mut self,
        alloc: Global,
        at: &Location,
        string: &[u32],
        steps: &mut Steps<L>,
    ) -> Result<Filled, QueryError>
        requires ready { IsReadyBy D.operations self.old }
        ensures ready { IsReadyBy D.operations self.new }
        ensures setup { KeepsSetup self.old.engine self.new.engine }
        ensures book { self.new.book ≡ self.old.book }
        ensures adds_few { FillsFew self.old.engine.store self.new.engine.store }
        ensures targets { IfOk result (λ f. Asks self.old at.now string.now f.going) }
        ensures filled { IfOk result (λ f. HasFilled D.operations self.old self.new f.going) }
        ensures counted { IfOk result (λ f. f.count ≡ cells_filled self.old self.new) }
        ensures missing { FillsMissing D.operations self.old self.new at.now string.now result }
        ensures answered { StandsAnswered D.operations self.old self.new at.now string.now result }
        ensures unanswered { StandsBetween D.operations self.old self.new at.now string.now result }
        ensures fails { FailsFrom D.operations self.old self.new at.now string.now result }
        ensures least { steps.old ≤ steps.new }
        ensures unticked_refusal { IfErr result (IsUnticked steps.old steps.new) }
        ensures ticked { IfOk result
            (λ f. TicksAtMost D.counted self.old steps.old steps.new f.count) }
        ensures ticked_filled { TicksForFilled D.counted self.old self.new steps.old steps.new }
    {
        questions_keep_cells::<D>();
        let flow = self.book.flow();
        let mut going = begun(alloc, &self.engine, &flow, at, string)?;
        let count = fill_all(alloc, &mut self.engine, &self.book, &mut going, steps)?;
        Ok(Filled { going, count })
    }

    /// The same, after a sweep.
    fn fill_for<L: Ledger>(
        &mut self,
        alloc: Global,
        at: &Location,
        string: &[u32],
        steps: &mut Steps<L>,
    ) -> Result<Filled, QueryError>
        requires ready { IsReadyBy D.operations self.old }
        ensures ready { IsReadyBy D.operations self.new }
        ensures setup { KeepsSetup self.old.engine self.new.engine }
        ensures book { self.new.book ≡ self.old.book }
        ensures bounded { IsWithinBound self.new }
        ensures targets { IfOk result (λ f. Asks self.old at.now string.now f.going) }
        ensures filled { IfOk result (λ f. HasFilled D.operations self.old self.new f.going) }
        ensures counted { IfOk result (λ f. f.count ≡ cells_filled self.old self.new) }
        ensures missing { FillsMissing D.operations self.old self.new at.now string.now result }
        ensures answered { StandsAnswered D.operations self.old self.new at.now string.now result }
        ensures unanswered { StandsBetween D.operations self.old self.new at.now string.now result }
        ensures fails { FailsFrom D.operations self.old self.new at.now string.now result }
        ensures least { steps.old ≤ steps.new }
        ensures unticked_refusal { IfErr result (IsUnticked steps.old steps.new) }
        ensures ticked { IfOk result
            (λ f. TicksAtMost D.counted self.old steps.old steps.new f.count) }
        ensures ticked_filled { TicksForFilled D.counted self.old self.new steps.old steps.new }
    {
        self.engine.sweep();
        self.fill_now(alloc, at, string, steps)
    }
}

impl<D: Domain> Session<D> {
    /// What the domain knows at a location under a call string, which has the outermost call first: the answer of the
    /// present program, interpreted from scratch. A state covers each configuration that a run reaches there.
    ///
    /// Only what is missing is computed; it is kept, and `cost` tells how many cells that were. It ticks at most once an
    /// operation of the domain for each of these, and twice for each chain. Where it fails it ticks at most so for what it
    /// filled then, and for one operation more.
    ///
    /// # Errors
    ///
    /// [`QueryError::Refused`] for the first of these causes: the string has more than two calls; the program has no such
    /// procedure, no such statement, no such loop; no chain ends in the string. The session is then as it was.
    /// [`QueryError::Memory`] when memory runs out: some of what was missing may be kept then, the first of it, and all else
    /// is as it was.
    pub fn query<L: Ledger>(
        &mut self,
        alloc: Global,
        at: &Location,
        string: &[u32],
        steps: &mut Steps<L>,
    ) -> Result<Value<D::State>, QueryError>
        ensures setup { KeepsSetup self.old.engine self.new.engine }
        ensures bounded { IsWithinBound self.new }
        ensures next_ticket { KeepsNextTicket self.old self.new }
        ensures answers { QuestionsFrom D.operations self.old self.new at.now string.now result }
        ensures sound { IfOk result (CoversIn D.covers self.old at.now string.now) }
        ensures least { steps.old ≤ steps.new }
        ensures unticked_refusal { IfErr result (IsUnticked steps.old steps.new) }
        ensures ticked { TicksForAnswer D.operations self.old self.new at.now string.now D.counted
            steps.old steps.new result }
        ensures ticked_filled { TicksForSome D.operations self.old self.new at.now string.now
            D.counted steps.old steps.new }
    {
        let filled = self.parts.fill_for(alloc, at, string, steps)?;
        let value = read_answer(alloc, &self.parts.engine, &filled.going.walk, steps)?;
        self.parts.book.cost = filled.count as u64;
        Ok(value)
    }

    /// The statements that the answer of [`Session::query`] depends on, an Over too, rising, each once: the one that the
    /// location names, the call sites of the selected chains, and those of all that the answer is computed from, except
    /// simple statements of which it needs only what is after an Over or a dead state. Another simple statement in the
    /// place of one that is not listed, neither of them a call or a break, gives the same answer, where the thresholds of all
    /// procedures stay.
    ///
    /// It fills what the question fills, and costs what it costs; then it takes time in proportion to the cells that the
    /// answer needs and their inputs. It ticks at most once an operation of the domain for each cell that it fills. Where
    /// it fails it ticks at most so for what it filled then, and for one operation more.
    ///
    /// # Errors
    ///
    /// As of [`Session::query`].
    pub fn why<L: Ledger>(
        &mut self,
        alloc: Global,
        at: &Location,
        string: &[u32],
        steps: &mut Steps<L>,
    ) -> Result<Items<StmtId>, QueryError>
        ensures setup { KeepsSetup self.old.engine self.new.engine }
        ensures bounded { IsWithinBound self.new }
        ensures next_ticket { KeepsNextTicket self.old self.new }
        ensures explains { ExplainsFrom D.operations self.old self.new at.now string.now result }
        ensures stays { IfOk result (SufficesIn D.operations self.old at.now string.now) }
        ensures least { steps.old ≤ steps.new }
        ensures unticked_refusal { IfErr result (IsUnticked steps.old steps.new) }
        ensures ticked { TicksForMissing D.operations self.old self.new at.now string.now D.counted
            steps.old steps.new result }
        ensures ticked_filled { TicksForFilled D.counted self.old self.new steps.old steps.new }
    {
        answers_stay::<D>();
        let filled = self.parts.fill_for(alloc, at, string, steps)?;
        let flow = self.parts.book.flow();
        let stmts = upstream(
            alloc,
            &self.parts.engine,
            &flow,
            at,
            string,
            &filled.going.walk,
        )?;
        self.parts.book.cost = filled.count as u64;
        Ok(stmts)
    }
}
