//! The calls that fill the missing cells of a demand, turn by turn.
ghost use Rattle.std.specs.Prelude.{◌≡◌, ◌+◌, ◌*◌, ◌<◌, ◌≤◌, ◌↔◌, Some, true, false, suc, length, map, min, IfOk, IfSome, IsTrue, OnOk};
ghost use Rattle.imp_flow.specs.Reached.{target_of};
ghost use Rattle.daig_query.specs.Right.{IsRight};
ghost use Rattle.daig_query.specs.Walked.{AreTargets, IsDone, IsGood};
ghost use Rattle.daig_query.specs.Filled.{cells_added, missing, Fills};

use crate::engine::Engine;
use crate::store::Store;
use crate::turning::{TurnOutcome, take_turn};
use crate::walk::Walk;
use base_values::Memory;
use domain_laws::{Domain, Steps};
use imp_flow::{Flow, Target};
use std::alloc::Global;
use std::sync::ledger::Ledger;

/// How many cells were filled, and whether none is missing any more.
#[derive(Clone, Copy, Debug, PartialEq, Eq)]
pub struct Progress {
    pub filled: usize,
    pub done: bool,
}

/// Fills the first cells that are missing, at most so many, if there is a limit.
fn fill_missing<D: Domain, L: Ledger>(
    alloc: Global,
    dom: &D,
    flow: &Flow<'_>,
    store: &mut Store<D::State>,
    targets: &[Target],
    walk: &mut Walk,
    limit: Option<usize>,
    steps: &mut Steps<L>,
) -> Result<Progress, Memory>
    requires right { IsRight (D.operations dom.now) flow.now store.old }
    requires targets { AreTargets flow.now (map target_of targets.now) }
    requires walk { IsGood (D.operations dom.now) flow.now (map target_of targets.now) store.old
        walk.old }
    ensures fills { Fills (D.operations dom.now) flow.now (map target_of targets.now) store.old
        store.new (cells_added store.old store.new) }
    ensures walk { IsGood (D.operations dom.now) flow.now (map target_of targets.now) store.new
        walk.new }
    ensures within { IfSome limit (λ n. cells_added store.old store.new ≤ n) }
    ensures counted { IfOk result (λ p. p.filled ≡ cells_added store.old store.new) }
    ensures all { IfOk result (λ p. p.done ≡ true → p.filled ≡
        length (missing (D.operations dom.now) flow.now
        (map target_of targets.now) store.old)) }
    ensures done { IfOk result (λ p. p.done ≡ true → IsDone (D.operations dom.now) flow.now
        (map target_of targets.now) store.new walk.new) }
    ensures more { IfOk result (λ p. p.done ≡ false → p.filled < length
        (missing (D.operations dom.now) flow.now (map target_of targets.now) store.old)) }
    ensures limited { IfOk result (λ p. p.done ≡ false → limit ≡ Some p.filled) }
    ensures least { steps.old ≤ steps.new }
    ensures ticked { IfOk result (λ p. steps.new ≤ steps.old + D.counted dom.now * p.filled) }
    ensures most { steps.new ≤ steps.old + D.counted dom.now
        * suc (cells_added store.old store.new) }
{
    walk.drop_filled(&store.graph);
    let before = store.graph.kept_count();
    'turns: loop {
        let filled = store.graph.kept_count() - before;
        let spent = limit == Some(filled);
        match take_turn(alloc, dom, flow, store, targets, walk, spent, steps)? {
            TurnOutcome::Pushed => {}
            TurnOutcome::Filled => {}
            TurnOutcome::Spent => {
                return Ok(Progress {
                    filled,
                    done: false,
                });
            }
            TurnOutcome::Done => return Ok(Progress { filled, done: true }),
        }
    }
}

impl<D: Domain> Engine<D> {
    /// Fills the first names that these targets need and that have no cell, at most so many, in the order of the demand:
    /// depth first, each after its inputs from left to right. The walk is one that was begun for these targets, over
    /// cells that were only added to since; it says how far the demand has come.
    ///
    /// A step takes time in proportion to what it fills, and not to what is left. It ticks at most once an operation of
    /// the domain for each name that it fills; for an operation that is remembered, a fixed point and an Over it does not.
    ///
    /// # Errors
    ///
    /// [`Memory`] when memory runs out. Some of the names may be filled then, the first ones, and all cells are right; the
    /// operation that failed may have ticked too.
    pub fn advance<L: Ledger>(
        &mut self,
        alloc: Global,
        flow: &Flow<'_>,
        targets: &[Target],
        walk: &mut Walk,
        most: usize,
        steps: &mut Steps<L>,
    ) -> Result<Progress, Memory>
        requires right { IsRight (D.operations self.old.domain) flow.now self.old.store }
        requires targets { AreTargets flow.now (map target_of targets.now) }
        requires walk { IsGood (D.operations self.old.domain) flow.now
            (map target_of targets.now) self.old.store walk.old }
        ensures domain { self.new.domain ≡ self.old.domain }
        ensures spare { self.new.spare ≡ self.old.spare }
        ensures fills { Fills (D.operations self.old.domain) flow.now
            (map target_of targets.now) self.old.store self.new.store
            (cells_added self.old.store self.new.store) }
        ensures walk { IsGood (D.operations self.old.domain) flow.now
            (map target_of targets.now) self.new.store walk.new }
        ensures within { cells_added self.old.store self.new.store ≤ most }
        ensures counted { IfOk result (λ p. p.filled ≡ cells_added self.old.store self.new.store) }
        ensures first { IfOk result (λ p. p.filled ≡ min most
            (length (missing (D.operations self.old.domain) flow.now
            (map target_of targets.now) self.old.store))) }
        ensures all { IfOk result (λ p. IsTrue p.done ↔ (length
            (missing (D.operations self.old.domain) flow.now
            (map target_of targets.now) self.old.store) ≤ most)) }
        ensures done { IfOk result (λ p. IsTrue p.done →
            IsDone (D.operations self.old.domain) flow.now
            (map target_of targets.now) self.new.store walk.new) }
        ensures least { steps.old ≤ steps.new }
        ensures ticked { IfOk result (λ p. steps.new ≤ steps.old + D.counted self.old.domain
            * p.filled) }
        ensures most { steps.new ≤ steps.old + D.counted self.old.domain
            * suc (cells_added self.old.store self.new.store) }
    {
        let dom = &self.domain;
        fill_missing(
            alloc,
            dom,
            flow,
            &mut self.store,
            targets,
            walk,
            Some(most),
            steps,
        )
    }

    /// Fills all names that these targets need and that have no cell, and gives how many they are: [`Engine::advance`]
    /// with no limit.
    ///
    /// # Errors
    ///
    /// [`Memory`], as [`Engine::advance`].
    pub fn demand<L: Ledger>(
        &mut self,
        alloc: Global,
        flow: &Flow<'_>,
        targets: &[Target],
        walk: &mut Walk,
        steps: &mut Steps<L>,
    ) -> Result<usize, Memory>
        requires right { IsRight (D.operations self.old.domain) flow.now self.old.store }
        requires targets { AreTargets flow.now (map target_of targets.now) }
        requires walk { IsGood (D.operations self.old.domain) flow.now
            (map target_of targets.now) self.old.store walk.old }
        ensures domain { self.new.domain ≡ self.old.domain }
        ensures spare { self.new.spare ≡ self.old.spare }
        ensures fills { Fills (D.operations self.old.domain) flow.now
            (map target_of targets.now) self.old.store self.new.store
            (cells_added self.old.store self.new.store) }
        ensures walk { IsGood (D.operations self.old.domain) flow.now
            (map target_of targets.now) self.new.store walk.new }
        ensures counted { IfOk result (λ n. n ≡ cells_added self.old.store self.new.store) }
        ensures all { IfOk result (λ n. n ≡ length (missing (D.operations self.old.domain) flow.now
            (map target_of targets.now) self.old.store)) }
        ensures done { OnOk result (IsDone (D.operations self.old.domain) flow.now
            (map target_of targets.now) self.new.store walk.new) }
        ensures least { steps.old ≤ steps.new }
        ensures ticked { IfOk result (λ n. steps.new ≤ steps.old + D.counted self.old.domain * n) }
        ensures most { steps.new ≤ steps.old + D.counted self.old.domain
            * suc (cells_added self.old.store self.new.store) }
    {
        let dom = &self.domain;
        let progress = fill_missing(
            alloc,
            dom,
            flow,
            &mut self.store,
            targets,
            walk,
            None,
            steps,
        )?;
        Ok(progress.filled)
    }
}
