//! What a setting knows of one procedure.
ghost use Rattle.std.specs.Prelude.{◌≡◌, ◌<◌, length, slice_get, IfOk, Some};
ghost use Rattle.imp_check.specs.Slots.{routines_of};
ghost use Rattle.call_contexts.specs.Settings.{all_thresholds, IsPart};
ghost use Rattle.call_contexts.specs.Tallies.{all_tallies};

use crate::counts::Counts;
use crate::loops::Loops;
use crate::tallying::tally;
use crate::threshold_sets::thresholds_of;
use base_values::{Items, Memory};
use imp_chains::{Widening, thresholds_rise};
use imp_syntax::ProcId;
use imp_table::View;
use std::alloc::{AllocError, Global};
use std::marker::Model;
use std::rc::Rc;

/// The thresholds of a procedure. Copies share them.
#[derive(Drop)]
pub(crate) struct Thresholds {
    thresholds: Rc<Items<i64>>,
}

impl Model for Thresholds {
    ghost use Rattle.std.specs.Prelude.{ℤ, List};
    ghost use Rattle.std.specs.Coded.{coded_list, coded_ℤ};

    ghost Value = { List ℤ };

    ghost coded = { coded_list coded_ℤ };

    ghost view = { λ a. a.thresholds.value };
}

impl Clone for Thresholds {
    ghost is_clone = { λ m copy. copy ≡ m };

    fn clone(&self) -> Result<Thresholds, AllocError> {
        let thresholds = self.thresholds.clone()?;
        Ok(Thresholds { thresholds })
    }
}

impl Thresholds {
    fn new(alloc: Global, thresholds: Items<i64>) -> Result<Thresholds, Memory>
        ensures is { IfOk result (λ m. m ≡ thresholds) }
    {
        let thresholds = Rc::new(alloc, thresholds)?;
        Ok(Thresholds { thresholds })
    }

    /// The thresholds of a procedure that has these counts: those of the numbers that are counted, and none where widening
    /// stops at none. It takes time linear in these numbers.
    pub(crate) fn of_counts(
        alloc: Global,
        widening: Widening,
        prog: &View<'_>,
        proc: ProcId,
        counts: &Counts,
    ) -> Result<Thresholds, Memory>
        requires counts { slice_get (all_tallies widening (routines_of prog.now)) proc ≡
            Some counts.now }
        ensures are { IfOk result (λ thresholds. slice_get (all_thresholds widening
            (routines_of prog.now)) proc ≡ Some thresholds) }
    {
        if !widening.thresholds {
            return Thresholds::new(alloc, Items::new(alloc));
        }
        prog.procs();
        thresholds_rise();
        let numbers = counts.numbers(alloc)?;
        Thresholds::new(alloc, thresholds_of(alloc, numbers.as_slice())?)
    }

    pub(crate) fn as_slice(&self) -> &[i64]
        ensures is { result.now ≡ self.now }
    {
        self.thresholds.as_slice()
    }
}

/// In how many statements of a procedure each of its numbers stands. Copies share it.
#[derive(Drop)]
pub(crate) struct NumberTally {
    counts: Rc<Counts>,
}

impl Model for NumberTally {
    ghost use Rattle.std.specs.Prelude.{ℕ, List};
    ghost use Rattle.call_contexts.specs.Tallies.{tally_code};

    ghost Value = { List (ℕ × ℕ) };

    ghost coded = { tally_code };

    ghost view = { λ a. a.counts.value };
}

impl Clone for NumberTally {
    ghost is_clone = { λ t copy. copy ≡ t };

    fn clone(&self) -> Result<NumberTally, AllocError> {
        let counts = self.counts.clone()?;
        Ok(NumberTally { counts })
    }
}

impl NumberTally {
    pub(crate) fn new(alloc: Global, counts: Counts) -> Result<NumberTally, Memory>
        ensures is { IfOk result (λ t. t ≡ counts) }
    {
        let counts = Rc::new(alloc, counts)?;
        Ok(NumberTally { counts })
    }

    pub(crate) fn counts(&self) -> &Counts
        ensures is { result.now ≡ self.now }
    {
        &self.counts
    }
}

/// The thresholds of a procedure, in how many of its statements each of its numbers stands, and its loops.
#[derive(Drop)]
pub(crate) struct Part {
    pub(crate) thresholds: Thresholds,
    pub(crate) tally: NumberTally,
    pub(crate) loops: Loops,
}

impl Part {
    /// The part of a procedure, made of its statements. It takes time linear in the procedure, times the logarithm of its
    /// numbers and loops.
    pub(crate) fn new(
        alloc: Global,
        widening: Widening,
        prog: &View<'_>,
        proc: ProcId,
    ) -> Result<Part, Memory>
        requires there { proc < length prog.now }
        ensures is { IfOk result (λ part. IsPart widening
            (routines_of prog.now) proc part.thresholds part.tally part.loops) }
    {
        let stmts = prog.statements(alloc, proc)?;
        let counts = tally(alloc, widening, prog, proc, stmts.as_slice())?;
        Ok(Part {
            thresholds: Thresholds::of_counts(alloc, widening, prog, proc, &counts)?,
            tally: NumberTally::new(alloc, counts)?,
            loops: Loops::new(alloc, prog, proc, stmts.as_slice())?,
        })
    }

    /// The part of these thresholds and this tally, which it shares, and of these loops.
    pub(crate) fn shared(
        thresholds: &Thresholds,
        tally: &NumberTally,
        loops: Loops,
    ) -> Result<Part, Memory>
        ensures thresholds { IfOk result (λ part. part.thresholds ≡ thresholds.now) }
        ensures tally { IfOk result (λ part. part.tally ≡ tally.now) }
        ensures loops { IfOk result (λ part. part.loops ≡ loops) }
    {
        let thresholds = thresholds.clone()?;
        let tally = tally.clone()?;
        Ok(Part {
            thresholds,
            tally,
            loops,
        })
    }
}
