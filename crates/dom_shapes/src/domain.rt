//! Shapes as a domain.
ghost use Rattle.std.specs.Prelude.{refl};
ghost use Rattle.dom_shapes_meaning.specs.Domain.{shapes};
ghost use Rattle.dom_listseg_meaning.specs.Covers as meaning;
ghost use Rattle.dom_shapes_meaning.proofs.Laws.{shapes_laws, shapes_keep_dead};

use crate::sets::{joined, tidied};
use crate::statements::behind;
use base_values::{Memory, Text};
use dom_listseg::{ListSeg, SegmentState};
use domain_laws::{Domain, Steps};
use imp_slots::{Layout, SlotCall, SlotCond, SlotStmt};
use imp_words::Verdict;
use std::alloc::Global;
use std::sync::ledger::Ledger;

/// The domain of shapes: list segments with one graph a shape.
#[derive(Clone, Copy, Debug)]
pub struct Shapes;

impl Domain for Shapes {
    type State = SegmentState;

    ghost operations = { λ d. shapes };

    ghost covers = { λ d s h vs. meaning.covers s h vs };

    ghost counted = { λ d. 1 };

    fn init<L: Ledger>(
        &self,
        alloc: Global,
        main: &Layout,
        steps: &mut Steps<L>,
    ) -> Result<SegmentState, Memory> {
        ListSeg.init(alloc, main, steps)
    }

    fn post<L: Ledger>(
        &self,
        alloc: Global,
        stmt: &SlotStmt,
        s: &SegmentState,
        steps: &mut Steps<L>,
    ) -> Result<SegmentState, Memory> {
        steps.tick();
        behind(alloc, stmt, s)
    }

    fn assume<L: Ledger>(
        &self,
        alloc: Global,
        c: &SlotCond,
        sense: bool,
        s: &SegmentState,
        steps: &mut Steps<L>,
    ) -> Result<SegmentState, Memory> {
        ListSeg.assume(alloc, c, sense, s, steps)
    }

    fn join<L: Ledger>(
        &self,
        alloc: Global,
        l: &SegmentState,
        r: &SegmentState,
        steps: &mut Steps<L>,
    ) -> Result<SegmentState, Memory> {
        steps.tick();
        joined(alloc, l, r)
    }

    fn widen<L: Ledger>(
        &self,
        alloc: Global,
        thresholds: &[i64],
        l: &SegmentState,
        r: &SegmentState,
        steps: &mut Steps<L>,
    ) -> Result<SegmentState, Memory> {
        steps.tick();
        joined(alloc, l, r)
    }

    #[tactic(auto, unfolding(dom_shapes_meaning::specs::Operations::enter))]
    fn enter<L: Ledger>(
        &self,
        alloc: Global,
        call: &SlotCall,
        s: &SegmentState,
        steps: &mut Steps<L>,
    ) -> Result<SegmentState, Memory> {
        let entered = ListSeg.enter(alloc, call, s, steps)?;
        tidied(alloc, entered)
    }

    #[tactic(auto, unfolding(dom_shapes_meaning::specs::Operations::leave))]
    fn leave<L: Ledger>(
        &self,
        alloc: Global,
        call: &SlotCall,
        s: &SegmentState,
        done: &SegmentState,
        steps: &mut Steps<L>,
    ) -> Result<SegmentState, Memory> {
        let left = ListSeg.leave(alloc, call, s, done, steps)?;
        tidied(alloc, left)
    }

    #[tactic(auto, unfolding(dom_shapes_meaning::specs::Operations::shed))]
    fn shed<L: Ledger>(
        &self,
        alloc: Global,
        s: &SegmentState,
        steps: &mut Steps<L>,
    ) -> Result<SegmentState, Memory> {
        let shed = ListSeg.shed(alloc, s, steps)?;
        tidied(alloc, shed)
    }

    fn ticks(&self) -> u32 {
        1
    }

    fn dead(&self, s: &SegmentState) -> bool {
        ListSeg.dead(s)
    }

    fn check(&self, alloc: Global, stmt: &SlotStmt, s: &SegmentState) -> Result<Verdict, Memory> {
        ListSeg.check(alloc, stmt, s)
    }

    fn text(&self, alloc: Global, layout: &Layout, s: &SegmentState) -> Result<Text, Memory> {
        ListSeg.text(alloc, layout, s)
    }

    fn copy(&self, alloc: Global, s: &SegmentState) -> Result<SegmentState, Memory> {
        ListSeg.copy(alloc, s)
    }

    ghost laws = { λ d. shapes_laws };

    ghost keeps_dead = { λ d. shapes_keep_dead };

    ghost tests_equality = { λ d s t. refl };
}
