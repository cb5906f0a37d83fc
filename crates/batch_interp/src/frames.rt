//! Where a block stands: its procedure, and the calls that led to it.
ghost use Rattle.std.specs.Prelude.{◌≡◌, ◌-◌, ◌∷◌, [], ◌<◌, length, map, reverse, take, slice_get, IfOk};
ghost use Rattle.std.specs.Option.{option_copied};
ghost use Rattle.imp_check.specs.Slots.{routines_of};
ghost use Rattle.call_contexts.specs.Settings.{setting_of};
ghost use Rattle.batch_interp.specs.Frames.{body_at, thresholds_at};

use base_values::{Items, Memory};
use call_contexts::Setting;
use imp_slots::{Routine, SlotBlock};
use imp_syntax::{Chain, StmtId};
use imp_table::{Checked, View};
use std::alloc::Global;
use std::marker::Model;

/// A program, and how its loops are interpreted.
#[derive(Drop)]
pub(crate) struct Plan<'a> {
    prog: &'a Checked,
    setting: &'a Setting,
}

impl<'a> Model for Plan<'a> {
    ghost use Rattle.std.specs.Prelude.{◌≡◌, map};
    ghost use Rattle.imp_check.specs.Slots.{routines_of};
    ghost use Rattle.imp_chains.specs.Thresholds as rising;
    ghost use Rattle.batch_interp.specs.Frames as plain;

    ghost Value = { plain.Plan };

    ghost use Rattle.batch_interp.specs.PlanCode.{plan_code};

    ghost coded = { plan_code };

    ghost view = { λ a. record {
      program = routines_of a.prog.now;
      engine = a.setting.now.engine;
    } };

    ghost invariant = { λ a. a.setting.now.thresholds ≡ map
        (rising.thresholds a.setting.now.engine.widening) (routines_of a.prog.now) };
}

/// The procedure of a block, and the call statements from main to it, the last one first.
#[derive(Debug, Drop)]
pub struct CallFrame {
    /// How many procedures stand before it.
    pub place: usize,
    /// The call statements.
    pub sites: Items<StmtId>,
}

/// What each step of a walk through a block is lent: the domain, the program, and where the block stands.
#[derive(Drop)]
pub(crate) struct Interpreter<'a, D> {
    pub(crate) alloc: Global,
    pub(crate) dom: &'a D,
    pub(crate) plan: &'a Plan<'a>,
    pub(crate) frame: &'a CallFrame,
}

impl<'a> Plan<'a> {
    /// The plan of a program by its setting.
    pub(crate) fn new(prog: &'a Checked, setting: &'a Setting) -> Plan<'a>
        requires setting { setting.now ≡ setting_of setting.now.engine (routines_of prog.now) }
        ensures is { result ≡ record {
          program = routines_of prog.now;
          engine = setting.now.engine;
        } }
    {
        Plan { prog, setting }
    }

    /// The program, as it is read.
    pub(crate) fn view(&self) -> View<'a>
        ensures is { routines_of result ≡ self.now.program }
    {
        self.prog.view()
    }

    /// How often the iterates of a loop are made at most.
    pub(crate) fn budget(&self) -> u32
        ensures is { result ≡ self.now.engine.budget }
    {
        self.setting.budget()
    }

    /// For how many rounds the iterates of a loop are joined.
    pub(crate) fn delay(&self) -> u32
        ensures is { result ≡ self.now.engine.widening.delay }
    {
        self.setting.widening().delay
    }

    /// The procedures.
    pub(crate) fn routines(&self) -> &'a [Routine]
        ensures is { result.now ≡ self.now.program }
    {
        self.prog.routines()
    }

    /// The body of the procedure at a place.
    #[tactic(auto, using(crate::proofs::Walkings::body_there))]
    pub(crate) fn body(&self, place: usize) -> &'a SlotBlock
        requires within { place < length self.now.program }
        ensures is { result.now ≡ body_at self.now.program place }
    {
        self.routines()[place].body()
    }

    /// The thresholds of a procedure.
    #[tactic(auto, using(crate::proofs::ThresholdTables::thresholds_there))]
    pub(crate) fn thresholds(&self, place: usize) -> &[i64]
        ensures is { result.now ≡ thresholds_at self.now place }
    {
        self.setting.thresholds(place)
    }
}

impl<'a> Plan<'a> {
    /// The procedure at a place, where it stands before the one at `place`.
    pub(crate) fn callee(&self, place: usize, callee: usize) -> Option<&Routine>
        ensures is { option_copied result ≡ slice_get (take place self.now.program) callee }
    {
        if callee < place {
            self.routines().get(callee)
        } else {
            None
        }
    }
}

impl CallFrame {
    /// The frame of main, which stands last.
    pub fn main(alloc: Global, routines: &[Routine]) -> CallFrame
        ensures is { result ≡ record { place = length routines.now - 1; sites = [] } }
    {
        CallFrame {
            place: routines.len().saturating_sub(1),
            sites: Items::new(alloc),
        }
    }

    /// The frame of a procedure that this one calls. It fails only when memory runs out.
    pub fn callee(&self, alloc: Global, site: u32, place: usize) -> Result<CallFrame, Memory>
        ensures is { IfOk result (λ f. f ≡ record {
          place = place;
          sites = site ∷ self.now.sites;
        }) }
    {
        let mut sites = Items::with_capacity(alloc, 8)?;
        sites.push(StmtId::new(site))?;
        for earlier in self.sites.as_slice() {
            sites.push(*earlier)?;
        }
        Ok(CallFrame { place, sites })
    }

    /// The calls from main, outermost first. It fails only when memory runs out.
    pub fn chain(&self, alloc: Global) -> Result<Chain, Memory>
        ensures is { IfOk result (λ chain. reverse chain ≡ self.now.sites) }
    {
        let sites: Vec<StmtId> = self.sites.as_slice().iter().rev().copied().collect(alloc)?;
        Ok(Chain::new(Items::from_vec(sites)))
    }
}
