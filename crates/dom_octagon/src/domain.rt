//! The octagons as a domain.
ghost use Rattle.std.specs.Prelude.{refl};
ghost use Rattle.dom_octagon_meaning.specs.Covers as meaning;
ghost use Rattle.dom_octagon_meaning.specs.Domain.{octagons};
ghost use Rattle.dom_octagon_meaning.proofs.Laws.{octagon_laws, octagon_keeps_dead};

use crate::calls::{entered, initial};
use crate::guards::assumed;
use crate::returns::left;
use crate::statements::behind;
use crate::text::state_text;
use crate::verdicts::verdict;
use base_values::{Memory, Text};
use dom_octagon_states::{OctagonState, closed, copy_of, is_empty, joined, widened};
use domain_laws::{Domain, Steps, Verdict};
use imp_slots::{Layout, SlotCall, SlotCond, SlotStmt};
use std::alloc::Global;
use std::sync::ledger::Ledger;

/// The domain of octagons: bounds on sums and differences of ints and the lengths of arrays.
#[derive(Clone, Copy, Debug)]
pub struct Octagon;

impl Domain for Octagon {
    type State = OctagonState;

    ghost operations = { λ d. octagons };

    ghost covers = { λ d s h vs. meaning.covers s h vs };

    ghost counted = { λ d. 1 };

    fn init<L: Ledger>(
        &self,
        alloc: Global,
        main: &Layout,
        steps: &mut Steps<L>,
    ) -> Result<OctagonState, Memory> {
        steps.tick();
        initial(alloc, main)
    }

    fn post<L: Ledger>(
        &self,
        alloc: Global,
        stmt: &SlotStmt,
        s: &OctagonState,
        steps: &mut Steps<L>,
    ) -> Result<OctagonState, Memory> {
        steps.tick();
        behind(alloc, stmt, s)
    }

    fn assume<L: Ledger>(
        &self,
        alloc: Global,
        c: &SlotCond,
        sense: bool,
        s: &OctagonState,
        steps: &mut Steps<L>,
    ) -> Result<OctagonState, Memory> {
        steps.tick();
        assumed(alloc, c, sense, s)
    }

    fn join<L: Ledger>(
        &self,
        alloc: Global,
        l: &OctagonState,
        r: &OctagonState,
        steps: &mut Steps<L>,
    ) -> Result<OctagonState, Memory> {
        steps.tick();
        joined(alloc, l, r)
    }

    fn widen<L: Ledger>(
        &self,
        alloc: Global,
        thresholds: &[i64],
        l: &OctagonState,
        r: &OctagonState,
        steps: &mut Steps<L>,
    ) -> Result<OctagonState, Memory> {
        steps.tick();
        widened(alloc, thresholds, l, r)
    }

    fn enter<L: Ledger>(
        &self,
        alloc: Global,
        call: &SlotCall,
        s: &OctagonState,
        steps: &mut Steps<L>,
    ) -> Result<OctagonState, Memory> {
        steps.tick();
        entered(alloc, call.entering(), s)
    }

    fn leave<L: Ledger>(
        &self,
        alloc: Global,
        call: &SlotCall,
        s: &OctagonState,
        done: &OctagonState,
        steps: &mut Steps<L>,
    ) -> Result<OctagonState, Memory> {
        steps.tick();
        left(alloc, call.returning(), s, done)
    }

    fn shed<L: Ledger>(
        &self,
        alloc: Global,
        s: &OctagonState,
        steps: &mut Steps<L>,
    ) -> Result<OctagonState, Memory> {
        steps.tick();
        closed(s)
    }

    fn ticks(&self) -> u32 {
        1
    }

    fn dead(&self, s: &OctagonState) -> bool {
        is_empty(s)
    }

    fn check(&self, alloc: Global, stmt: &SlotStmt, s: &OctagonState) -> Result<Verdict, Memory> {
        verdict(alloc, stmt, s)
    }

    fn text(&self, alloc: Global, layout: &Layout, s: &OctagonState) -> Result<Text, Memory> {
        state_text(alloc, layout, s)
    }

    fn copy(&self, alloc: Global, s: &OctagonState) -> Result<OctagonState, Memory> {
        copy_of(s)
    }

    ghost laws = { λ d. octagon_laws };

    ghost keeps_dead = { λ d. octagon_keeps_dead };

    ghost tests_equality = { λ d s t. refl };
}
