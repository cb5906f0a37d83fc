//! The product of two domains, each operation by its parts.
ghost use Rattle.std.specs.Prelude.{◌≡◌, ◌+◌, ◌≤◌, IfOk};
ghost use Rattle.dom_product_meaning.specs.Product.{product, covered_by_both, stronger};
ghost use Rattle.dom_product_meaning.proofs.Laws.{product_laws, product_keeps_dead, product_equality};

use crate::pool::Pool;
use crate::state::PairState;
use base_values::{Memory, Text};
use domain_laws::{Domain, Steps, Verdict};
use imp_slots::{Layout, SlotCall, SlotCond, SlotStmt};
use std::alloc::Global;
use std::marker::Model;
use std::sync::ledger::Ledger;

/// Two domains as one, beside the parts of states that they made last.
#[derive(Debug, Drop)]
pub struct Pair<A: Domain, B: Domain> {
    first: A,
    second: B,
    firsts: Pool<A::State>,
    seconds: Pool<B::State>,
}

impl<A: Domain, B: Domain> Model for Pair<A, B> {
    ghost use Rattle.std.specs.Prelude.{◌+◌, ◌≤◌};
    ghost use Rattle.dom_product.specs.Parts.{Parts};

    ghost Value = { Parts A B };

    ghost view = { λ p. record { first = p.first; second = p.second } };

    ghost invariant = { λ p. A.counted p.first + B.counted p.second ≤ 1000 };
}

impl<A: Domain, B: Domain> Pair<A, B> {
    /// The product of two domains whose operations together tick at most 1,000 times.
    pub fn new(first: A, second: B) -> Pair<A, B>
        requires few { A.counted first + B.counted second ≤ 1000 }
        ensures parts { result ≡ record { first = first; second = second } }
    {
        Pair {
            first,
            second,
            firsts: Pool::new(),
            seconds: Pool::new(),
        }
    }

    // The state of these parts. Each is shared with the states in use that have an equal one, if one is found.
    fn share(
        &self,
        alloc: Global,
        first: A::State,
        second: B::State,
    ) -> Result<PairState<A::State, B::State>, Memory>
        ensures parts { IfOk result (λ s. s ≡ (first, second)) }
    {
        Ok(PairState {
            first: self.firsts.share(alloc, first)?,
            second: self.seconds.share(alloc, second)?,
        })
    }
}

impl<A: Domain, B: Domain> Domain for Pair<A, B> {
    type State = PairState<A::State, B::State>;

    ghost operations = { λ d. product (A.operations d.first) (B.operations d.second) };

    ghost covers = { λ d s h vs. covered_by_both (A.covers d.first) (B.covers d.second) s h vs };

    ghost counted = { λ d. A.counted d.first + B.counted d.second };

    fn init<L: Ledger>(
        &self,
        alloc: Global,
        main: &Layout,
        steps: &mut Steps<L>,
    ) -> Result<PairState<A::State, B::State>, Memory> {
        let first = self.first.init(alloc, main, steps);
        let second = self.second.init(alloc, main, steps);
        self.share(alloc, first?, second?)
    }

    fn post<L: Ledger>(
        &self,
        alloc: Global,
        stmt: &SlotStmt,
        s: &PairState<A::State, B::State>,
        steps: &mut Steps<L>,
    ) -> Result<PairState<A::State, B::State>, Memory> {
        let first = self.first.post(alloc, stmt, s.first(), steps);
        let second = self.second.post(alloc, stmt, s.second(), steps);
        self.share(alloc, first?, second?)
    }

    fn assume<L: Ledger>(
        &self,
        alloc: Global,
        c: &SlotCond,
        sense: bool,
        s: &PairState<A::State, B::State>,
        steps: &mut Steps<L>,
    ) -> Result<PairState<A::State, B::State>, Memory> {
        let first = self.first.assume(alloc, c, sense, s.first(), steps);
        let second = self.second.assume(alloc, c, sense, s.second(), steps);
        self.share(alloc, first?, second?)
    }

    fn join<L: Ledger>(
        &self,
        alloc: Global,
        l: &PairState<A::State, B::State>,
        r: &PairState<A::State, B::State>,
        steps: &mut Steps<L>,
    ) -> Result<PairState<A::State, B::State>, Memory> {
        let first = self.first.join(alloc, l.first(), r.first(), steps);
        let second = self.second.join(alloc, l.second(), r.second(), steps);
        self.share(alloc, first?, second?)
    }

    fn widen<L: Ledger>(
        &self,
        alloc: Global,
        thresholds: &[i64],
        l: &PairState<A::State, B::State>,
        r: &PairState<A::State, B::State>,
        steps: &mut Steps<L>,
    ) -> Result<PairState<A::State, B::State>, Memory> {
        let first = self
            .first
            .widen(alloc, thresholds, l.first(), r.first(), steps);
        let second = self
            .second
            .widen(alloc, thresholds, l.second(), r.second(), steps);
        self.share(alloc, first?, second?)
    }

    fn enter<L: Ledger>(
        &self,
        alloc: Global,
        call: &SlotCall,
        s: &PairState<A::State, B::State>,
        steps: &mut Steps<L>,
    ) -> Result<PairState<A::State, B::State>, Memory> {
        let first = self.first.enter(alloc, call, s.first(), steps);
        let second = self.second.enter(alloc, call, s.second(), steps);
        self.share(alloc, first?, second?)
    }

    fn leave<L: Ledger>(
        &self,
        alloc: Global,
        call: &SlotCall,
        s: &PairState<A::State, B::State>,
        done: &PairState<A::State, B::State>,
        steps: &mut Steps<L>,
    ) -> Result<PairState<A::State, B::State>, Memory> {
        let first = self
            .first
            .leave(alloc, call, s.first(), done.first(), steps);
        let second = self
            .second
            .leave(alloc, call, s.second(), done.second(), steps);
        self.share(alloc, first?, second?)
    }

    fn shed<L: Ledger>(
        &self,
        alloc: Global,
        s: &PairState<A::State, B::State>,
        steps: &mut Steps<L>,
    ) -> Result<PairState<A::State, B::State>, Memory> {
        let first = self.first.shed(alloc, s.first(), steps);
        let second = self.second.shed(alloc, s.second(), steps);
        self.share(alloc, first?, second?)
    }

    fn ticks(&self) -> u32 {
        self.first.ticks() + self.second.ticks()
    }

    fn dead(&self, s: &PairState<A::State, B::State>) -> bool {
        let first = self.first.dead(s.first());
        let second = self.second.dead(s.second());
        first && second
    }

    fn check(
        &self,
        alloc: Global,
        stmt: &SlotStmt,
        s: &PairState<A::State, B::State>,
    ) -> Result<Verdict, Memory> {
        let first = self.first.check(alloc, stmt, s.first())?;
        let second = self.second.check(alloc, stmt, s.second())?;
        Ok(stronger_of(first, second))
    }

    fn text(
        &self,
        alloc: Global,
        layout: &Layout,
        s: &PairState<A::State, B::State>,
    ) -> Result<Text, Memory> {
        let mut text = self.first.text(alloc, layout, s.first())?;
        let second = self.second.text(alloc, layout, s.second())?;
        text.append(b" & ")?;
        text.append(second.as_slice())?;
        Ok(text)
    }

    fn copy(
        &self,
        alloc: Global,
        s: &PairState<A::State, B::State>,
    ) -> Result<PairState<A::State, B::State>, Memory> {
        s.copy()
    }

    ghost laws = { λ d. product_laws (A.operations d.first) (B.operations d.second)
        (A.covers d.first) (B.covers d.second) (A.laws d.first) (B.laws d.second) };

    ghost keeps_dead = { λ d. product_keeps_dead (A.operations d.first) (B.operations d.second)
        (A.keeps_dead d.first) (B.keeps_dead d.second) };

    ghost tests_equality = { λ d s t. product_equality (A.operations d.first)
        (B.operations d.second) A.State.eq B.State.eq (A.tests_equality d.first)
        (B.tests_equality d.second) s t };
}

/// Dead where either verdict is, else safe where either is, else may.
fn stronger_of(first: Verdict, second: Verdict) -> Verdict
    ensures exact { result ≡ stronger first second }
{
    match (first, second) {
        (Verdict::Dead, _) => Verdict::Dead,
        (_, Verdict::Dead) => Verdict::Dead,
        (Verdict::Safe, _) => Verdict::Safe,
        (_, Verdict::Safe) => Verdict::Safe,
        (Verdict::May, Verdict::May) => Verdict::May,
    }
}
