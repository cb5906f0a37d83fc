//! The generated script over a generated program, summed up.
ghost use Rattle.std.specs.Prelude.{◌≡◌, ◌<◌, ◌+◌, ◌^◌, ℕ, [], ◌∷◌, suc, length};
ghost use Rattle.std.specs.Prelude.{◌≤◌, IfErr, IfOk, OnOk};
ghost use Rattle.std.specs.String.{string_bytes};
ghost use Rattle.gen_summary.specs.Summary.{nothing, IsWithin};
ghost use Rattle.serve_script.specs.Lines.{last_part, whole_lines};
ghost use Rattle.serve_answers.specs.Lines.{Served};
ghost use Rattle.serve_answers.specs.Readings.{Readings};
ghost use Rattle.daig_gen.specs.Source.{source_of};
ghost use Rattle.serve_output.specs.Given.{Gives};
ghost use Rattle.serve_output.specs.Output.{gen_bytes, generated_output};
ghost use Rattle.serve_output.specs.Sources.{IsNumbered, IsTextOf};
ghost use Rattle.daig_server.specs.Tallies.{GivesSummary, ServesOn, Tallies, UsesOne};

use crate::server::Server;
use base_counter::Steps;
use base_values::Memory;
use dom_interval::Interval;
use dom_listseg::ListSeg;
use dom_octagon::Octagon;
use dom_product::Pair;
use dom_shapes::Shapes;
use gen_sources::sources_are_accepted;
use gen_summary::ReplyTally;
use imp_chains::Widening;
use imp_parse::each_text_has_one_answer;
use imp_table::Table;
use serve_answers::texts_are_read;
use serve_command::{AnalysisOptions, DomainName};
use serve_output::{JobError, Named, read_table};
use serve_script::Answerer;
use std::alloc::Global;
use std::sync::ledger::Ledger;

/// How many results of operations are remembered for a generated script.
const MEMO: u32 = 1024;

/// Answers a line, and adds the reply to the tally.
fn tally_line<D: Named, L: Ledger>(
    alloc: Global,
    server: &mut Server<D>,
    line: &[u8],
    tally: &mut ReplyTally,
    steps: &mut Steps<L>,
) -> Result<(), Memory>
    requires lasts { (n : ℕ) × ⟦<Server<D> as Answerer>⟧.lasts server.old (suc n) }
    requires room { (n : ℕ) × (n < 2 ^ 62) × IsWithin n tally.old }
    ensures lasts { OnOk result (UsesOne ⟦<Server<D> as Answerer>⟧.lasts server.old server.new) }
    ensures within { OnOk result ((n : ℕ) → IsWithin n tally.old → IsWithin (n + 1) tally.new) }
    ensures next { OnOk result (ServesOn D.name ⟦<Server<D> as Answerer>⟧.stands
        (line.now ∷ []) server.old server.new) }
    ensures added { OnOk result (Tallies D.name (⟦<Server<D> as Answerer>⟧.stands server.old)
        (line.now ∷ []) tally.old tally.new) }
{
    let reply = server.answer(alloc, line, steps)?;
    tally.add(reply.as_slice(), server.cost());
    Ok(())
}

/// Goes on by one byte: LF ends the pending line, which is answered; any other byte goes on with it.
#[tactic(auto, using(crate::proofs::TallyLemmas::within_more))]
fn tally_byte<D: Named, L: Ledger>(
    alloc: Global,
    server: &mut Server<D>,
    line: &mut Vec<u8>,
    byte: u8,
    tally: &mut ReplyTally,
    steps: &mut Steps<L>,
) -> Result<(), Memory>
    requires lasts { (n : ℕ) × ⟦<Server<D> as Answerer>⟧.lasts server.old (suc n) }
    requires room { (n : ℕ) × (n < 2 ^ 62) × IsWithin n tally.old }
    ensures line { OnOk result (line.new.items ≡ last_part line.old.items (byte ∷ [])) }
    ensures lasts { OnOk result (UsesOne ⟦<Server<D> as Answerer>⟧.lasts server.old server.new) }
    ensures within { OnOk result ((n : ℕ) → IsWithin n tally.old → IsWithin (n + 1) tally.new) }
    ensures next { OnOk result (ServesOn D.name ⟦<Server<D> as Answerer>⟧.stands
        (whole_lines line.old.items (byte ∷ [])) server.old server.new) }
    ensures tally { OnOk result (Tallies D.name (⟦<Server<D> as Answerer>⟧.stands server.old)
        (whole_lines line.old.items (byte ∷ [])) tally.old tally.new) }
{
    if byte == b'\n' {
        tally_line(alloc, server, line.as_slice(), tally, steps)?;
        line.clear();
    } else {
        line.push(byte)?;
    }
    Ok(())
}

/// Answers the lines of a script, each with its LF, and tallies the replies.
fn tally_lines<D: Named, L: Ledger>(
    alloc: Global,
    server: &mut Server<D>,
    script: &[u8],
    steps: &mut Steps<L>,
) -> Result<ReplyTally, Memory>
    requires lasts { ⟦<Server<D> as Answerer>⟧.lasts server.old (length script.now) }
    requires short { length script.now < 2 ^ 62 }
    ensures tally { IfOk result (Tallies D.name (⟦<Server<D> as Answerer>⟧.stands server.old)
        (whole_lines [] script.now) nothing) }
{
    let mut tally = ReplyTally::new();
    let mut line = Vec::new(alloc);
    for byte in script {
        tally_byte(alloc, server, &mut line, *byte, &mut tally, steps)?;
    }
    Ok(tally)
}

/// The summary of the generated script, which a server answers.
fn summed<D: Named, L: Ledger>(
    alloc: Global,
    server: &mut Server<D>,
    seed: u64,
    size: u32,
    steps: &mut Steps<L>,
) -> Result<String, Memory>
    requires lasts { ⟦<Server<D> as Answerer>⟧.lasts server.old (2 ^ 40) }
    ensures line { IfOk result (λ v.
        (first : Served) → ⟦<Server<D> as Answerer>⟧.stands server.old first →
        string_bytes v ≡ gen_bytes D.name first seed size) }
{
    let script = daig_gen::script(alloc, seed, size)?;
    let tally = tally_lines(alloc, server, script.as_slice(), steps)?;
    tally.line(alloc)
}

/// The summary of the generated script over the program, by the domain of the settings. It fails only when memory runs
/// out.
fn summary_by<D: Named, L: Ledger>(
    alloc: Global,
    domain: D,
    settings: &AnalysisOptions,
    table: Table,
    seed: u64,
    size: u32,
    steps: &mut Steps<L>,
) -> Result<Vec<u8>, Memory>
    requires named { settings.now.domain ≡ D.name }
    requires numbered { IsNumbered table.program }
    ensures summary { GivesSummary settings.now table.program seed size result }
{
    let mut server = Server::start(alloc, domain, settings, MEMO, table)?;
    let line = summed(alloc, &mut server, seed, size, steps)?;
    Ok(line.into_bytes())
}

/// The summary of the generated script over the program. It fails only when memory runs out.
fn summary<L: Ledger>(
    alloc: Global,
    settings: &AnalysisOptions,
    table: Table,
    seed: u64,
    size: u32,
    steps: &mut Steps<L>,
) -> Result<Vec<u8>, Memory>
    requires numbered { IsNumbered table.program }
    ensures summary { GivesSummary settings.now table.program seed size result }
{
    match settings.domain {
        DomainName::Interval => summary_by(alloc, Interval, settings, table, seed, size, steps),
        DomainName::Octagon => summary_by(alloc, Octagon, settings, table, seed, size, steps),
        DomainName::ListSeg => summary_by(alloc, ListSeg, settings, table, seed, size, steps),
        DomainName::IntervalListSeg => {
            let pair = Pair::new(Interval, ListSeg);
            summary_by(alloc, pair, settings, table, seed, size, steps)
        }
        DomainName::OctagonListSeg => {
            let pair = Pair::new(Octagon, ListSeg);
            summary_by(alloc, pair, settings, table, seed, size, steps)
        }
        DomainName::Shapes => summary_by(alloc, Shapes, settings, table, seed, size, steps),
        DomainName::IntervalShapes => {
            let pair = Pair::new(Interval, Shapes);
            summary_by(alloc, pair, settings, table, seed, size, steps)
        }
        DomainName::OctagonShapes => {
            let pair = Pair::new(Octagon, Shapes);
            summary_by(alloc, pair, settings, table, seed, size, steps)
        }
    }
}

/// The program of a generated source. It fails only when memory runs out.
fn generated_table(alloc: Global, seed: u64, size: u32) -> Result<Table, JobError>
    requires small { size ≤ 1000 }
    ensures accepted { IfOk result (λ t. IsTextOf (source_of seed size) t.program) }
    ensures numbered { IfOk result (λ t. IsNumbered t.program) }
    ensures only { IfErr result (λ error. error ≡ JobError.Memory) }
{
    sources_are_accepted();
    each_text_has_one_answer();
    texts_are_read();
    let source = daig_gen::source(alloc, seed, size)?;
    read_table(alloc, source.as_slice())
}

/// What `gen` gives by this domain, as loops are interpreted by default. It fails only when memory runs out.
pub(crate) fn generated<L: Ledger>(
    alloc: Global,
    seed: u64,
    size: u32,
    domain: DomainName,
    steps: &mut Steps<L>,
) -> Result<Vec<u8>, JobError>
    requires small { size ≤ 1000 }
    ensures gives { (readings : Readings) →
        Gives result (generated_output readings seed size domain) }
    ensures only { IfErr result (λ error. error ≡ JobError.Memory) }
{
    let table = generated_table(alloc, seed, size)?;
    let widening = Widening {
        delay: 0,
        thresholds: true,
    };
    let settings = AnalysisOptions {
        domain,
        widening,
        budget: 100,
    };
    Ok(summary(alloc, &settings, table, seed, size, steps)?)
}
