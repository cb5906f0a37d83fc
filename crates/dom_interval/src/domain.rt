//! The intervals as a domain.
ghost use Rattle.std.specs.Prelude.{refl};
ghost use Rattle.dom_interval_meaning.specs.Domain.{intervals};
ghost use Rattle.dom_interval_meaning.specs.Covers as meaning;
ghost use Rattle.dom_interval_meaning.proofs.Laws.{interval_laws, interval_keeps_dead};

use crate::IntervalState;
use crate::calls::{entered, initial, left};
use crate::compare::empty;
use crate::guards::{assumed, copy_of, joined};
use crate::statements::{behind, is_empty};
use crate::text::state_text;
use crate::verdicts::verdict;
use crate::widening::widened;
use base_values::{Memory, Text};
use domain_laws::{Domain, Steps, Verdict};
use imp_slots::{Layout, SlotCall, SlotCond, SlotStmt};
use std::alloc::Global;
use std::sync::ledger::Ledger;

/// The domain of intervals: a range for each int, and for the length of each array.
#[derive(Clone, Copy, Debug)]
pub struct Interval;

impl Domain for Interval {
    type State = IntervalState;

    ghost operations = { λ d. intervals };

    ghost covers = { λ d s h vs. meaning.covers s h vs };

    ghost counted = { λ d. 1 };

    fn init<L: Ledger>(
        &self,
        alloc: Global,
        main: &Layout,
        steps: &mut Steps<L>,
    ) -> Result<IntervalState, Memory> {
        steps.tick();
        Ok(initial(alloc, main)?)
    }

    fn post<L: Ledger>(
        &self,
        alloc: Global,
        stmt: &SlotStmt,
        s: &IntervalState,
        steps: &mut Steps<L>,
    ) -> Result<IntervalState, Memory> {
        steps.tick();
        Ok(behind(alloc, stmt, s)?)
    }

    fn assume<L: Ledger>(
        &self,
        alloc: Global,
        c: &SlotCond,
        sense: bool,
        s: &IntervalState,
        steps: &mut Steps<L>,
    ) -> Result<IntervalState, Memory> {
        steps.tick();
        let copy = copy_of(s)?;
        Ok(assumed(alloc, c, sense, copy)?)
    }

    fn join<L: Ledger>(
        &self,
        alloc: Global,
        l: &IntervalState,
        r: &IntervalState,
        steps: &mut Steps<L>,
    ) -> Result<IntervalState, Memory> {
        steps.tick();
        Ok(joined(alloc, l, r)?)
    }

    fn widen<L: Ledger>(
        &self,
        alloc: Global,
        thresholds: &[i64],
        l: &IntervalState,
        r: &IntervalState,
        steps: &mut Steps<L>,
    ) -> Result<IntervalState, Memory> {
        steps.tick();
        Ok(widened(alloc, thresholds, l, r)?)
    }

    fn enter<L: Ledger>(
        &self,
        alloc: Global,
        call: &SlotCall,
        s: &IntervalState,
        steps: &mut Steps<L>,
    ) -> Result<IntervalState, Memory> {
        steps.tick();
        Ok(entered(alloc, call.entering(), s)?)
    }

    fn leave<L: Ledger>(
        &self,
        alloc: Global,
        call: &SlotCall,
        s: &IntervalState,
        done: &IntervalState,
        steps: &mut Steps<L>,
    ) -> Result<IntervalState, Memory> {
        steps.tick();
        Ok(left(call.returning(), s, done)?)
    }

    fn shed<L: Ledger>(
        &self,
        alloc: Global,
        s: &IntervalState,
        steps: &mut Steps<L>,
    ) -> Result<IntervalState, Memory> {
        steps.tick();
        Ok(copy_of(s)?)
    }

    fn ticks(&self) -> u32 {
        1
    }

    fn dead(&self, s: &IntervalState) -> bool {
        is_empty(s)
    }

    fn check(&self, alloc: Global, stmt: &SlotStmt, s: &IntervalState) -> Result<Verdict, Memory> {
        Ok(verdict(alloc, stmt, s)?)
    }

    fn text(&self, alloc: Global, layout: &Layout, s: &IntervalState) -> Result<Text, Memory> {
        state_text(alloc, layout, s)
    }

    fn copy(&self, alloc: Global, s: &IntervalState) -> Result<IntervalState, Memory> {
        Ok(copy_of(s)?)
    }

    ghost laws = { λ d. interval_laws };

    ghost keeps_dead = { λ d. interval_keeps_dead };

    ghost tests_equality = { λ d s t. refl };
}
