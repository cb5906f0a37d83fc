//! Intervals whose operations run out of memory.
ghost use Rattle.std.specs.Prelude.{◌≡◌, Ok, IfOk};

use base_values::{Memory, Text};
use dom_interval::{Interval, IntervalState};
use domain_laws::{Domain, Steps, Verdict};
use imp_slots::{Layout, SlotCall, SlotCond, SlotStmt};
use std::alloc::Global;
use std::cell::Cell;
use std::sync::ledger::Ledger;

/// Which operations fail.
#[derive(Clone, Copy)]
enum Which {
    /// One alone; sheds count.
    One,
    /// All that come after, but sheds, which do not count.
    Rest,
}

/// Intervals, of whose operations some run out of memory.
#[derive(Drop)]
pub(crate) struct Failing {
    which: Which,
    left: Cell<u32>,
}

impl Failing {
    /// The operation of this number fails, counted from 1.
    pub(crate) fn at(number: u32) -> Failing {
        Failing {
            which: Which::One,
            left: Cell::new(number),
        }
    }

    /// So many operations pass, and all after them fail; sheds pass, and do not count.
    pub(crate) fn after(count: u32) -> Failing {
        Failing {
            which: Which::Rest,
            left: Cell::new(count),
        }
    }

    /// Whether the next operation fails.
    fn fails(&self) -> bool {
        let left = self.left.get();
        self.left.set(left.saturating_sub(1));
        match self.which {
            Which::One => left == 1,
            Which::Rest => left == 0,
        }
    }

    /// What an operation made, or out of memory.
    fn passed(&self, made: Result<IntervalState, Memory>) -> Result<IntervalState, Memory>
        ensures same { IfOk result (λ t. made ≡ Ok t) }
    {
        if self.fails() { Err(Memory) } else { made }
    }
}

impl Domain for Failing {
    ghost use Rattle.std.specs.Prelude.{refl};
    ghost use Rattle.dom_interval_meaning.specs.Domain.{intervals};
    ghost use Rattle.dom_interval_meaning.specs.Covers as meaning;
    ghost use Rattle.dom_interval_meaning.proofs.Laws.{interval_laws, interval_keeps_dead};

    type State = IntervalState;

    ghost operations = { λ d. intervals };

    ghost covers = { λ d s h vs. meaning.covers s h vs };

    ghost counted = { λ d. 1 };

    fn init<L: Ledger>(
        &self,
        alloc: Global,
        main: &Layout,
        steps: &mut Steps<L>,
    ) -> Result<IntervalState, Memory> {
        self.passed(Interval.init(alloc, main, steps))
    }

    fn post<L: Ledger>(
        &self,
        alloc: Global,
        stmt: &SlotStmt,
        s: &IntervalState,
        steps: &mut Steps<L>,
    ) -> Result<IntervalState, Memory> {
        self.passed(Interval.post(alloc, stmt, s, steps))
    }

    fn assume<L: Ledger>(
        &self,
        alloc: Global,
        c: &SlotCond,
        sense: bool,
        s: &IntervalState,
        steps: &mut Steps<L>,
    ) -> Result<IntervalState, Memory> {
        self.passed(Interval.assume(alloc, c, sense, s, steps))
    }

    fn join<L: Ledger>(
        &self,
        alloc: Global,
        l: &IntervalState,
        r: &IntervalState,
        steps: &mut Steps<L>,
    ) -> Result<IntervalState, Memory> {
        self.passed(Interval.join(alloc, l, r, steps))
    }

    fn widen<L: Ledger>(
        &self,
        alloc: Global,
        thresholds: &[i64],
        l: &IntervalState,
        r: &IntervalState,
        steps: &mut Steps<L>,
    ) -> Result<IntervalState, Memory> {
        self.passed(Interval.widen(alloc, thresholds, l, r, steps))
    }

    fn enter<L: Ledger>(
        &self,
        alloc: Global,
        call: &SlotCall,
        s: &IntervalState,
        steps: &mut Steps<L>,
    ) -> Result<IntervalState, Memory> {
        self.passed(Interval.enter(alloc, call, s, steps))
    }

    fn leave<L: Ledger>(
        &self,
        alloc: Global,
        call: &SlotCall,
        s: &IntervalState,
        done: &IntervalState,
        steps: &mut Steps<L>,
    ) -> Result<IntervalState, Memory> {
        self.passed(Interval.leave(alloc, call, s, done, steps))
    }

    fn shed<L: Ledger>(
        &self,
        alloc: Global,
        s: &IntervalState,
        steps: &mut Steps<L>,
    ) -> Result<IntervalState, Memory> {
        let made = Interval.shed(alloc, s, steps);
        match self.which {
            Which::One => self.passed(made),
            Which::Rest => made,
        }
    }

    fn ticks(&self) -> u32 {
        1
    }

    fn dead(&self, s: &IntervalState) -> bool {
        Interval.dead(s)
    }

    fn check(&self, alloc: Global, stmt: &SlotStmt, s: &IntervalState) -> Result<Verdict, Memory> {
        Interval.check(alloc, stmt, s)
    }

    fn text(&self, alloc: Global, layout: &Layout, s: &IntervalState) -> Result<Text, Memory> {
        Interval.text(alloc, layout, s)
    }

    fn copy(&self, alloc: Global, s: &IntervalState) -> Result<IntervalState, Memory> {
        Interval.copy(alloc, s)
    }

    ghost laws = { λ d. interval_laws };

    ghost keeps_dead = { λ d. interval_keeps_dead };

    ghost tests_equality = { λ d s t. refl };
}
