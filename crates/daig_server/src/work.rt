//! The task `serve` for a program: the lines of the script are answered.
ghost use Rattle.std.specs.Prelude.{◌≡◌, ◌≤◌, ◌^◌};
ghost use Rattle.serve_output.specs.Ends.{CausedByStreams, Fits, ServesProgram, WritesServed};
ghost use Rattle.serve_output.specs.Sources.{IsNumbered};
ghost use Rattle.serve_answers.specs.Lines.{Served};

use crate::server::Server;
use base_counter::Steps;
use dom_interval::Interval;
use dom_listseg::ListSeg;
use dom_octagon::Octagon;
use dom_product::Pair;
use dom_shapes::Shapes;
use imp_table::Table;
use io_edge::{Sink, Source};
use serve_command::{AnalysisOptions, DomainName};
use serve_output::{Named, Status};
use serve_script::{Answerer, Stop, answer_script};
use std::alloc::Global;
use std::mem;
use std::sync::ledger::Ledger;

/// Answers the script.
fn serve_lines<D: Named, I: Source, O: Sink, L: Ledger>(
    alloc: Global,
    server: &mut Server<D>,
    script: &mut I,
    out: &mut O,
    steps: &mut Steps<L>,
) -> Status
    requires lasts { ⟦<Server<D> as Answerer>⟧.lasts server.old (2 ^ 40) }
    ensures fits { Fits result 0 }
    ensures wrote { (first : Served) → ⟦<Server<D> as Answerer>⟧.stands server.old first →
        WritesServed D.name first result
        (I.told script.old) (I.told script.new) (O.told out.old) (O.told out.new) }
    ensures caused { CausedByStreams I.faults I.told O.faults script.old script.new
        out.old out.new result }
{
    match answer_script(alloc, server, script, out, steps) {
        Ok(()) => Status::Done,
        Err(Stop::Script) => Status::Script,
        Err(Stop::Sink) => Status::Sink,
        Err(Stop::Memory) => Status::Memory,
        Err(Stop::Long) => Status::LongScript,
    }
}

/// Answers the script by a session with the program, which remembers so many results, by the domain of the settings.
fn serve_by<D: Named, I: Source, O: Sink, L: Ledger>(
    alloc: Global,
    domain: D,
    settings: &AnalysisOptions,
    memo: u32,
    table: Table,
    script: &mut I,
    out: &mut O,
    steps: &mut Steps<L>,
) -> Status
    requires named { settings.now.domain ≡ D.name }
    requires memo { 1 ≤ memo }
    requires numbered { IsNumbered table.program }
    ensures fits { Fits result 0 }
    ensures wrote { ServesProgram settings.now table.program result
        (I.told script.old) (I.told script.new) (O.told out.old) (O.told out.new) }
    ensures caused { CausedByStreams I.faults I.told O.faults script.old script.new
        out.old out.new result }
{
    match Server::start(alloc, domain, settings, memo, table) {
        Ok(mut server) => {
            let status = serve_lines(alloc, &mut server, script, out, steps);
            // the process ends now, which gives all memory back at once
            mem::forget(server);
            status
        }
        Err(_) => Status::Memory,
    }
}

/// Does the task `serve` for a program.
pub(crate) fn serve_program<I: Source, O: Sink, L: Ledger>(
    alloc: Global,
    settings: &AnalysisOptions,
    memo: u32,
    table: Table,
    script: &mut I,
    out: &mut O,
    steps: &mut Steps<L>,
) -> Status
    requires memo { 1 ≤ memo }
    requires numbered { IsNumbered table.program }
    ensures fits { Fits result 0 }
    ensures wrote { ServesProgram settings.now table.program result
        (I.told script.old) (I.told script.new) (O.told out.old) (O.told out.new) }
    ensures caused { CausedByStreams I.faults I.told O.faults script.old script.new
        out.old out.new result }
{
    match settings.domain {
        DomainName::Interval => serve_by(
            alloc, Interval, settings, memo, table, script, out, steps,
        ),
        DomainName::Octagon => serve_by(alloc, Octagon, settings, memo, table, script, out, steps),
        DomainName::ListSeg => serve_by(alloc, ListSeg, settings, memo, table, script, out, steps),
        DomainName::IntervalListSeg => {
            let pair = Pair::new(Interval, ListSeg);
            serve_by(alloc, pair, settings, memo, table, script, out, steps)
        }
        DomainName::OctagonListSeg => {
            let pair = Pair::new(Octagon, ListSeg);
            serve_by(alloc, pair, settings, memo, table, script, out, steps)
        }
        DomainName::Shapes => serve_by(alloc, Shapes, settings, memo, table, script, out, steps),
        DomainName::IntervalShapes => {
            let pair = Pair::new(Interval, Shapes);
            serve_by(alloc, pair, settings, memo, table, script, out, steps)
        }
        DomainName::OctagonShapes => {
            let pair = Pair::new(Octagon, Shapes);
            serve_by(alloc, pair, settings, memo, table, script, out, steps)
        }
    }
}
