//! The listing and the report of a program, by batch interpretation; the task `batch`.
ghost use Rattle.std.specs.Prelude.{◌≡◌, ◌++◌};
ghost use Rattle.imp_check.specs.Slots.{routines_of};
ghost use Rattle.call_contexts.specs.Settings.{setting_of};
ghost use Rattle.serve_command.specs.declared.job.Task.TheVariants.{Batch};
ghost use Rattle.serve_output.specs.Given.{FailsOnFile, GivesBytes, GivesTask};
ghost use Rattle.serve_output.specs.Jobs.{engine_of};
ghost use Rattle.serve_output.specs.Output.{batch_of, report_bytes};

use crate::domains::Named;
use crate::error::JobError;
use crate::files::load_checked;
use base_counter::Steps;
use base_values::Memory;
use batch_interp::batch_report;
use call_contexts::Setting;
use dom_interval::Interval;
use dom_listseg::ListSeg;
use dom_octagon::Octagon;
use dom_product::Pair;
use dom_shapes::Shapes;
use imp_table::Checked;
use io_edge::Files;
use request_json::{Reply, reply_line};
use serve_command::{AnalysisOptions, DomainName};
use serve_replies::listing;
use std::alloc::Global;
use std::sync::ledger::Ledger;

/// The line of the report, by this setting.
fn line_by<D: Named, L: Ledger>(
    alloc: Global,
    domain: &D,
    setting: &Setting,
    program: &Checked,
    steps: &mut Steps<L>,
) -> Result<Vec<u8>, Memory>
    requires setting { setting.now ≡ setting_of setting.now.engine (routines_of program.now) }
    ensures bytes { GivesBytes (report_bytes D.name setting.now.engine program.now) result }
{
    let findings = batch_report(alloc, domain, program, setting, steps)?;
    reply_line(alloc, &Reply::Report(findings))
}

/// The line of the report.
fn report_line<D: Named, L: Ledger>(
    alloc: Global,
    domain: &D,
    settings: &AnalysisOptions,
    program: &Checked,
    steps: &mut Steps<L>,
) -> Result<Vec<u8>, Memory>
    ensures bytes { GivesBytes (report_bytes D.name (engine_of settings.now) program.now) result }
{
    let setting = Setting::new(alloc, &program.view(), settings.budget, settings.widening)?;
    line_by(alloc, domain, &setting, program, steps)
}

/// One text after another.
fn behind(alloc: Global, first: &[u8], second: &[u8]) -> Result<Vec<u8>, Memory>
    ensures bytes { GivesBytes (first.now ++ second.now) result }
{
    let mut bytes = Vec::from_slice(alloc, first)?;
    bytes.extend_from_slice(second)?;
    Ok(bytes)
}

/// The listing and the line of the report, by the domain of the settings. It fails only when memory runs out.
#[tactic(auto, unfolding(crate::specs::Output::batch_bytes))]
fn listed_by<D: Named, L: Ledger>(
    alloc: Global,
    domain: &D,
    settings: &AnalysisOptions,
    program: &Checked,
    steps: &mut Steps<L>,
) -> Result<Vec<u8>, Memory>
    requires named { settings.now.domain ≡ D.name }
    ensures bytes { GivesBytes (batch_of settings.now program.now) result }
{
    let line = report_line(alloc, domain, settings, program, steps)?;
    let listing = listing(alloc, program.program())?;
    behind(alloc, listing.as_slice(), line.as_slice())
}

/// The listing and the line of the report. It fails only when memory runs out.
fn listed<L: Ledger>(
    alloc: Global,
    settings: &AnalysisOptions,
    program: &Checked,
    steps: &mut Steps<L>,
) -> Result<Vec<u8>, Memory>
    ensures bytes { GivesBytes (batch_of settings.now program.now) result }
{
    match settings.domain {
        DomainName::Interval => listed_by(alloc, &Interval, settings, program, steps),
        DomainName::Octagon => listed_by(alloc, &Octagon, settings, program, steps),
        DomainName::ListSeg => listed_by(alloc, &ListSeg, settings, program, steps),
        DomainName::IntervalListSeg => {
            let pair = Pair::new(Interval, ListSeg);
            listed_by(alloc, &pair, settings, program, steps)
        }
        DomainName::OctagonListSeg => {
            let pair = Pair::new(Octagon, ListSeg);
            listed_by(alloc, &pair, settings, program, steps)
        }
        DomainName::Shapes => listed_by(alloc, &Shapes, settings, program, steps),
        DomainName::IntervalShapes => {
            let pair = Pair::new(Interval, Shapes);
            listed_by(alloc, &pair, settings, program, steps)
        }
        DomainName::OctagonShapes => {
            let pair = Pair::new(Octagon, Shapes);
            listed_by(alloc, &pair, settings, program, steps)
        }
    }
}

/// What `batch` gives for the program of a file.
pub fn batch<F: Files, L: Ledger>(
    alloc: Global,
    settings: &AnalysisOptions,
    name: &str,
    files: &mut F,
    steps: &mut Steps<L>,
) -> Result<Vec<u8>, JobError>
    ensures gives { GivesTask (F.told files.old) name.now (Batch settings.now) result }
    ensures missing { FailsOnFile F.faults F.told files.old files.new name.now result }
{
    let program = load_checked(alloc, name, files)?;
    let bytes = listed(alloc, settings, &program, steps)?;
    Ok(bytes)
}
