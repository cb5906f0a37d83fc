//! The list segments as a domain.
ghost use Rattle.std.specs.Prelude.{refl};
ghost use Rattle.dom_listseg_meaning.specs.Domain.{segments};
ghost use Rattle.dom_listseg_meaning.specs.Covers as meaning;
ghost use Rattle.dom_listseg_meaning.proofs.Laws.{segments_laws, segments_keep_dead};

use crate::SegmentState;
use crate::assumptions::assumed;
use crate::calls::{entered, initial, left, shed};
use crate::sets::joined;
use crate::state::{copy_of, is_empty};
use crate::statements::behind;
use crate::text::state_text;
use crate::verdicts::verdict;
use base_values::{Memory, Text};
use domain_laws::{Domain, Steps};
use imp_slots::{Layout, SlotCall, SlotCond, SlotStmt};
use imp_words::Verdict;
use std::alloc::Global;
use std::sync::ledger::Ledger;

/// The domain of list segments: which lists the link variables name, and what they share.
#[derive(Clone, Copy, Debug)]
pub struct ListSeg;

impl Domain for ListSeg {
    type State = SegmentState;

    ghost operations = { λ d. segments };

    ghost covers = { λ d s h vs. meaning.covers s h vs };

    ghost counted = { λ d. 1 };

    fn init<L: Ledger>(
        &self,
        alloc: Global,
        main: &Layout,
        steps: &mut Steps<L>,
    ) -> Result<SegmentState, Memory> {
        steps.tick();
        initial(alloc, main)
    }

    fn post<L: Ledger>(
        &self,
        alloc: Global,
        stmt: &SlotStmt,
        s: &SegmentState,
        steps: &mut Steps<L>,
    ) -> Result<SegmentState, Memory> {
        steps.tick();
        behind(alloc, stmt, s)
    }

    fn assume<L: Ledger>(
        &self,
        alloc: Global,
        c: &SlotCond,
        sense: bool,
        s: &SegmentState,
        steps: &mut Steps<L>,
    ) -> Result<SegmentState, Memory> {
        steps.tick();
        assumed(alloc, c, sense, s)
    }

    fn join<L: Ledger>(
        &self,
        alloc: Global,
        l: &SegmentState,
        r: &SegmentState,
        steps: &mut Steps<L>,
    ) -> Result<SegmentState, Memory> {
        steps.tick();
        joined(alloc, l, r)
    }

    fn widen<L: Ledger>(
        &self,
        alloc: Global,
        thresholds: &[i64],
        l: &SegmentState,
        r: &SegmentState,
        steps: &mut Steps<L>,
    ) -> Result<SegmentState, Memory> {
        steps.tick();
        joined(alloc, l, r)
    }

    fn enter<L: Ledger>(
        &self,
        alloc: Global,
        call: &SlotCall,
        s: &SegmentState,
        steps: &mut Steps<L>,
    ) -> Result<SegmentState, Memory> {
        steps.tick();
        entered(alloc, call.entering(), s)
    }

    fn leave<L: Ledger>(
        &self,
        alloc: Global,
        call: &SlotCall,
        s: &SegmentState,
        done: &SegmentState,
        steps: &mut Steps<L>,
    ) -> Result<SegmentState, Memory> {
        steps.tick();
        left(alloc, call.returning(), s, done)
    }

    fn shed<L: Ledger>(
        &self,
        alloc: Global,
        s: &SegmentState,
        steps: &mut Steps<L>,
    ) -> Result<SegmentState, Memory> {
        steps.tick();
        shed(alloc, s)
    }

    fn ticks(&self) -> u32 {
        1
    }

    fn dead(&self, s: &SegmentState) -> bool {
        is_empty(s)
    }

    fn check(&self, alloc: Global, stmt: &SlotStmt, s: &SegmentState) -> Result<Verdict, Memory> {
        verdict(alloc, stmt, s)
    }

    fn text(&self, alloc: Global, layout: &Layout, s: &SegmentState) -> Result<Text, Memory> {
        state_text(alloc, layout, s)
    }

    fn copy(&self, alloc: Global, s: &SegmentState) -> Result<SegmentState, Memory> {
        copy_of(s)
    }

    ghost laws = { λ d. segments_laws };

    ghost keeps_dead = { λ d. segments_keep_dead };

    ghost tests_equality = { λ d s t. refl };
}
