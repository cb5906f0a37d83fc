//! The report of faults of a program; the task `faults`.
ghost use Rattle.std.specs.Prelude.{◌≡◌};
ghost use Rattle.imp_check.specs.Slots.{routines_of};
ghost use Rattle.call_contexts.specs.Settings.{setting_of};
ghost use Rattle.serve_command.specs.declared.job.Task.TheVariants.{Faults};
ghost use Rattle.serve_output.specs.Given.{FailsOnFile, GivesBytes, GivesTask};
ghost use Rattle.serve_output.specs.Jobs.{engine_of};
ghost use Rattle.serve_output.specs.Output.{fault_bytes, faults_of};

use crate::domains::Named;
use crate::error::JobError;
use crate::files::load_checked;
use base_counter::Steps;
use base_values::Memory;
use call_contexts::Setting;
use dom_interval::Interval;
use dom_listseg::ListSeg;
use dom_octagon::Octagon;
use dom_product::Pair;
use dom_shapes::Shapes;
use fault_report::fault_report;
use imp_table::Checked;
use io_edge::Files;
use request_json::{Reply, reply_line};
use serve_command::{AnalysisOptions, DomainName};
use std::alloc::Global;
use std::sync::ledger::Ledger;

/// The line of the report of faults, by this setting.
fn line_by<D: Named, L: Ledger>(
    alloc: Global,
    domain: &D,
    setting: &Setting,
    program: &Checked,
    steps: &mut Steps<L>,
) -> Result<Vec<u8>, Memory>
    requires setting { setting.now ≡ setting_of setting.now.engine (routines_of program.now) }
    ensures bytes { GivesBytes (fault_bytes D.name setting.now.engine program.now) result }
{
    let findings = fault_report(alloc, domain, program, setting, steps)?;
    reply_line(alloc, &Reply::Faults(findings))
}

/// The line of the report of faults, by the domain of the settings. It fails only when memory runs out.
fn told_by<D: Named, L: Ledger>(
    alloc: Global,
    domain: &D,
    settings: &AnalysisOptions,
    program: &Checked,
    steps: &mut Steps<L>,
) -> Result<Vec<u8>, Memory>
    requires named { settings.now.domain ≡ D.name }
    ensures bytes { GivesBytes (faults_of settings.now program.now) result }
{
    let setting = Setting::new(alloc, &program.view(), settings.budget, settings.widening)?;
    line_by(alloc, domain, &setting, program, steps)
}

/// The line of the report of faults. It fails only when memory runs out.
fn told<L: Ledger>(
    alloc: Global,
    settings: &AnalysisOptions,
    program: &Checked,
    steps: &mut Steps<L>,
) -> Result<Vec<u8>, Memory>
    ensures bytes { GivesBytes (faults_of settings.now program.now) result }
{
    match settings.domain {
        DomainName::Interval => told_by(alloc, &Interval, settings, program, steps),
        DomainName::Octagon => told_by(alloc, &Octagon, settings, program, steps),
        DomainName::ListSeg => told_by(alloc, &ListSeg, settings, program, steps),
        DomainName::IntervalListSeg => {
            let pair = Pair::new(Interval, ListSeg);
            told_by(alloc, &pair, settings, program, steps)
        }
        DomainName::OctagonListSeg => {
            let pair = Pair::new(Octagon, ListSeg);
            told_by(alloc, &pair, settings, program, steps)
        }
        DomainName::Shapes => told_by(alloc, &Shapes, settings, program, steps),
        DomainName::IntervalShapes => {
            let pair = Pair::new(Interval, Shapes);
            told_by(alloc, &pair, settings, program, steps)
        }
        DomainName::OctagonShapes => {
            let pair = Pair::new(Octagon, Shapes);
            told_by(alloc, &pair, settings, program, steps)
        }
    }
}

/// What `faults` gives for the program of a file.
pub fn faults<F: Files, L: Ledger>(
    alloc: Global,
    settings: &AnalysisOptions,
    name: &str,
    files: &mut F,
    steps: &mut Steps<L>,
) -> Result<Vec<u8>, JobError>
    ensures gives { GivesTask (F.told files.old) name.now (Faults settings.now) result }
    ensures missing { FailsOnFile F.faults F.told files.old files.new name.now result }
{
    let program = load_checked(alloc, name, files)?;
    let bytes = told(alloc, settings, &program, steps)?;
    Ok(bytes)
}
