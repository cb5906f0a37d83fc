//! How the loops of a program are interpreted.
ghost use Rattle.std.specs.Prelude.{◌≡◌, ◌++◌, ◌∷◌, [], IfOk, OnOk};
ghost use Rattle.imp_check.specs.Slots.{routines_of};
ghost use Rattle.call_contexts.specs.Settings.{engine_of, setting_of, thresholds_at, loops_at};

use crate::loops::Loops;
use crate::part::{NumberTally, Part, Thresholds};
use crate::table::procedure_count;
use base_values::{Items, Memory};
use imp_chains::Widening;
use imp_syntax::{ProcId, StmtId};
use imp_table::View;
use std::alloc::Global;
use std::marker::Model;

/// How the loops of a program are interpreted: how often their iterates are made and how, with the
/// thresholds of each procedure. It counts in how many statements of each procedure a number stands, so that it knows after a
/// change whether the procedure still has the same numbers. It also knows the loops of each procedure.
#[derive(Drop)]
pub struct Setting {
    pub(crate) budget: u32,
    pub(crate) widening: Widening,
    pub(crate) thresholds: Items<Thresholds>,
    pub(crate) tallies: Items<NumberTally>,
    pub(crate) loops: Items<Loops>,
}

impl Model for Setting {
    ghost use Rattle.call_contexts.specs.Settings as plain;
    ghost use Rattle.call_contexts.specs.Settings.{setting_code};

    ghost Value = { plain.Setting };

    ghost coded = { setting_code };

    ghost view = { λ a. record {
      engine = record { budget = a.budget; widening = a.widening };
      thresholds = a.thresholds;
      tallies = a.tallies;
      loops = a.loops;
    } };
}

/// A setting of no procedures yet.
pub(crate) fn no_parts(alloc: Global, budget: u32, widening: Widening) -> Setting
    ensures is { result ≡ record {
      engine = engine_of budget widening;
      thresholds = [];
      tallies = [];
      loops = [];
    } }
{
    Setting {
        budget,
        widening,
        thresholds: Items::new(alloc),
        tallies: Items::new(alloc),
        loops: Items::new(alloc),
    }
}

impl Setting {
    /// The setting of a program, of whose loops the iterates are made `budget` times at most. It takes time linear in the
    /// program, times the logarithm of the numbers and loops of a procedure, and fails only when memory runs out.
    pub fn new(
        alloc: Global,
        prog: &View<'_>,
        budget: u32,
        widening: Widening,
    ) -> Result<Setting, Memory>
        ensures is { IfOk result (λ setting. setting ≡ setting_of (engine_of budget widening)
            (routines_of prog.now)) }
    {
        let mut setting = no_parts(alloc, budget, widening);
        for place in 0..procedure_count(prog) {
            setting.push(Part::new(alloc, widening, prog, ProcId::new(place))?)?;
        }
        Ok(setting)
    }

    /// Adds the part of one more procedure.
    pub(crate) fn push(&mut self, part: Part) -> Result<(), Memory>
        ensures engine { self.new.engine ≡ self.old.engine }
        ensures thresholds { OnOk result (self.new.thresholds ≡ self.old.thresholds
            ++ part.thresholds ∷ []) }
        ensures tallies { OnOk result (self.new.tallies ≡ self.old.tallies ++ part.tally ∷ []) }
        ensures loops { OnOk result (self.new.loops ≡ self.old.loops ++ part.loops ∷ []) }
    {
        self.thresholds.push(part.thresholds)?;
        self.tallies.push(part.tally)?;
        self.loops.push(part.loops)
    }

    /// How often the iterates of a loop are made at most.
    pub fn budget(&self) -> u32
        ensures is { result ≡ self.now.engine.budget }
    {
        self.budget
    }

    /// How the iterates of a loop are made.
    pub fn widening(&self) -> Widening
        ensures is { result ≡ self.now.engine.widening }
    {
        self.widening
    }

    /// The thresholds of the procedure at a place, rising; none where there is no procedure.
    pub fn thresholds(&self, place: usize) -> &[i64]
        ensures is { result.now ≡ thresholds_at self.now place }
    {
        match self.thresholds.get(place) {
            Some(thresholds) => thresholds.as_slice(),
            None => &[],
        }
    }

    /// The loops of the procedure at a place, their numbers rising; none where there is no procedure.
    pub fn loops(&self, place: usize) -> &[StmtId]
        ensures are { result.now ≡ loops_at self.now place }
    {
        match self.loops.get(place) {
            Some(loops) => loops.as_slice(),
            None => &[],
        }
    }
}
