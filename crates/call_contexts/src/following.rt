//! How a setting follows a change of the program.
ghost use Rattle.std.specs.Prelude.{◌≡◌, ◌<◌, ◌&&◌, ℕ, true, List, length, slice_get, IfOk, Some};
ghost use Rattle.std.specs.Bool.{OnTrue};
ghost use Rattle.std.specs.BTreeSet.{contains};
ghost use Rattle.std.specs.Ordering.{nat_cmp};
ghost use Rattle.imp_syntax.specs.Plain.{Procedure};
ghost use Rattle.imp_check.specs.Slots.{routines_of};
ghost use Rattle.imp_check.specs.Entries.{entries_of, entry_of};
ghost use Rattle.imp_check.specs.Fine.{IsFine};
ghost use Rattle.imp_table.specs.Changes.{AreFalling, Makes};
ghost use Rattle.call_contexts.specs.Settings.{all_thresholds, setting_of, IsPart};
ghost use Rattle.call_contexts.specs.Tallies.{all_tallies};
ghost use Rattle.call_contexts.specs.Loops.{all_loops};
ghost use Rattle.call_contexts.specs.Touches.{Brings, touches};

use crate::counts::Counts;
use crate::differences::Differences;
use crate::loops::Loops;
use crate::part::{NumberTally, Part, Thresholds};
use crate::setting::{Setting, no_parts};
use crate::table::procedure_count;
use crate::tallying::changed;
use crate::touched::touched_places;
use base_values::Memory;
use imp_syntax::ProcId;
use imp_table::{Change, Put, Table, View};
use std::alloc::Global;
use std::collections::BTreeSet;

/// The loops of a procedure after a change, where these procedures are touched, and these were its loops.
fn loops_over(
    alloc: Global,
    old: &View<'_>,
    new: &View<'_>,
    puts: &[Put],
    touched: &BTreeSet<u32>,
    proc: ProcId,
    before: &Loops,
) -> Result<Loops, Memory>
    requires brings { Brings old.now new.now puts.now }
    requires touched { (k : ℕ) → contains nat_cmp touched.now k ≡
        touches (entry_of (entries_of old.now)) puts.now k }
    requires before { slice_get (all_loops (routines_of old.now)) proc ≡ Some before.now }
    requires there { proc < length new.now }
    ensures are { IfOk result (λ loops. slice_get (all_loops (routines_of new.now)) proc ≡
        Some loops) }
{
    if touched.contains(&proc.place()) {
        before.after(alloc, old, new, puts, proc)
    } else {
        Ok(before.clone()?)
    }
}

impl Setting {
    /// The setting of the program that a change makes, where this is that of the program before it. Procedures that keep
    /// the set of their numbers share their thresholds with this setting; the thresholds of others are made of the numbers that are
    /// counted then. Procedures that keep their loops share these, and those where the numbers that come are those that go
    /// share what is counted. It takes time linear in the change and in the number of procedures. Where other numbers come
    /// than go, it also takes time linear in the different numbers of the procedure, times the logarithm of these where
    /// their set changes; where loops come or go, in its loops, times the logarithm of these; and for a procedure more the
    /// time of [`Setting::new`] for it. It fails only when memory runs out.
    pub fn after(&self, alloc: Global, table: &Table, change: &Change) -> Result<Setting, Memory>
        ghost program: { List Procedure }
        requires makes { Makes table.now.program change.now program }
        requires fine { IsFine program }
        requires falling { AreFalling change.now.entries.items }
        requires before { self.now ≡ setting_of self.now.engine (routines_of table.now.program) }
        ensures is { IfOk result (λ setting. setting ≡ setting_of self.now.engine
            (routines_of program)) }
    {
        let old = table.view();
        let new = table.changed(change);
        old.procs();
        new.procs();
        self.over(alloc, &old, &new, change.entries.as_slice())
    }

    /// The setting of a program that has these entries over those of the program before it.
    fn over(
        &self,
        alloc: Global,
        old: &View<'_>,
        new: &View<'_>,
        puts: &[Put],
    ) -> Result<Setting, Memory>
        requires brings { Brings old.now new.now puts.now }
        requires before { self.now ≡ setting_of self.now.engine (routines_of old.now) }
        ensures is { IfOk result (λ setting. setting ≡ setting_of self.now.engine
            (routines_of new.now)) }
    {
        let touched = touched_places(alloc, old, puts)?;
        let mut setting = no_parts(alloc, self.budget, self.widening);
        for place in 0..procedure_count(new) {
            setting.push(self.part_over(alloc, old, new, puts, &touched, ProcId::new(place))?)?;
        }
        Ok(setting)
    }

    /// The part of a procedure of that program, where these procedures are touched.
    fn part_over(
        &self,
        alloc: Global,
        old: &View<'_>,
        new: &View<'_>,
        puts: &[Put],
        touched: &BTreeSet<u32>,
        proc: ProcId,
    ) -> Result<Part, Memory>
        requires brings { Brings old.now new.now puts.now }
        requires before { self.now ≡ setting_of self.now.engine (routines_of old.now) }
        requires touched { (k : ℕ) → contains nat_cmp touched.now k ≡
            touches (entry_of (entries_of old.now)) puts.now k }
        requires there { proc < length new.now }
        ensures is { IfOk result (λ part. IsPart self.now.engine.widening
            (routines_of new.now) proc part.thresholds part.tally part.loops) }
    {
        let place = proc.place() as usize;
        let (Some(thresholds), Some(tally), Some(before)) = (
            self.thresholds.get(place),
            self.tallies.get(place),
            self.loops.get(place),
        ) else {
            return Part::new(alloc, self.widening, new, proc);
        };
        let loops = loops_over(alloc, old, new, puts, touched, proc, before)?;
        if self.recounts(touched, proc) {
            self.changed_part(alloc, old, new, puts, proc, thresholds, tally, loops)
        } else {
            Part::shared(thresholds, tally, loops)
        }
    }

    /// Whether a procedure may have other thresholds, where these are touched.
    fn recounts(&self, touched: &BTreeSet<u32>, proc: ProcId) -> bool
        ensures is { result ≡ (self.now.engine.widening.thresholds && contains nat_cmp touched.now
            proc) }
    {
        self.widening.thresholds && touched.contains(&proc.place())
    }

    /// The part of a procedure that a change touches, where it had these thresholds and this tally, and has these loops.
    fn changed_part(
        &self,
        alloc: Global,
        old: &View<'_>,
        new: &View<'_>,
        puts: &[Put],
        proc: ProcId,
        before: &Thresholds,
        tally: &NumberTally,
        loops: Loops,
    ) -> Result<Part, Memory>
        requires brings { Brings old.now new.now puts.now }
        requires widens { self.now.engine.widening.thresholds ≡ true }
        requires thresholds { slice_get (all_thresholds self.now.engine.widening
            (routines_of old.now)) proc ≡ Some before.now }
        requires tally { slice_get (all_tallies self.now.engine.widening (routines_of old.now))
            proc ≡ Some tally.now }
        requires loops { slice_get (all_loops (routines_of new.now)) proc ≡ Some loops }
        requires there { proc < length new.now }
        ensures is { IfOk result (λ part. IsPart self.now.engine.widening
            (routines_of new.now) proc part.thresholds part.tally part.loops) }
    {
        let differences = Differences::new(alloc, old, puts, proc)?;
        if differences.are_none() {
            return Part::shared(before, tally, loops);
        }
        let (lost, gained) = (differences.lost(), differences.gained());
        let counts = changed(alloc, tally.counts(), lost, gained)?;
        let is_kept = counts.has_same_numbers(tally.counts());
        let thresholds = self.thresholds_over(alloc, new, proc, before, &counts, is_kept)?;
        Ok(Part {
            thresholds,
            tally: NumberTally::new(alloc, counts)?,
            loops,
        })
    }

    /// The thresholds of a procedure that has these counts. They are those before where they are kept, and are else made of the
    /// numbers that are counted.
    fn thresholds_over(
        &self,
        alloc: Global,
        new: &View<'_>,
        proc: ProcId,
        before: &Thresholds,
        counts: &Counts,
        is_kept: bool,
    ) -> Result<Thresholds, Memory>
        requires counts { slice_get (all_tallies self.now.engine.widening (routines_of new.now))
            proc ≡ Some counts.now }
        requires kept { OnTrue is_kept (slice_get (all_thresholds self.now.engine.widening
            (routines_of new.now)) proc ≡ Some before.now) }
        ensures are { IfOk result (λ thresholds. slice_get
            (all_thresholds self.now.engine.widening (routines_of new.now)) proc ≡
            Some thresholds) }
    {
        if is_kept {
            return Ok(before.clone()?);
        }
        Thresholds::of_counts(alloc, self.widening, new, proc, counts)
    }
}
