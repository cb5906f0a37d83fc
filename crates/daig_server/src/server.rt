//! The server of one program, which answers each line as the machine `server` of `serve_answers` does.
ghost use Rattle.std.specs.Prelude.{◌≡◌, ◌<◌, ◌≤◌, ◌+◌, ◌^◌, IfOk};
ghost use Rattle.daig_machine.specs.Machine.{first_machine, Machine};
ghost use Rattle.daig_session.specs.Sessions.{StandsFor};
ghost use Rattle.serve_output.specs.Jobs.{engine_of};
ghost use Rattle.serve_answers.specs.Fine.{next_number};
ghost use Rattle.serve_output.specs.Sources.{IsNumbered};

use base_counter::Steps;
use base_values::Memory;
use daig_session::Session;
use imp_table::Table;
use serve_command::AnalysisOptions;
use serve_output::Named;
use serve_replies::long_line;
use serve_script::Answerer;
use serve_session::answer_line;
use std::alloc::Global;
use std::sync::ledger::Ledger;

/// The server of one program: a session with it.
#[derive(Drop)]
pub(crate) struct Server<D: Named> {
    session: Session<D>,
}

/// The next number of a statement of a program that is numbered from 1 on.
#[tactic(auto, using(crate::proofs::FewLemmas::few_numbers, crate::proofs::FewLemmas::number_count))]
fn next_number(table: &Table) -> u32
    ensures number { result ≡ next_number table.now.program }
    ensures some { 0 < result }
    ensures low { result ≤ 1000001 }
{
    table.procs();
    table.view().count() + 1
}

impl<D: Named> Server<D> {
    /// The server of this program, which remembers so many results. It fails only when memory runs out.
    pub(crate) fn start(
        alloc: Global,
        domain: D,
        settings: &AnalysisOptions,
        memo: u32,
        table: Table,
    ) -> Result<Server<D>, Memory>
        requires memo { 1 ≤ memo }
        requires numbered { IsNumbered table.program }
        ensures begins { IfOk result (λ s. StandsFor D.operations s.session
            (first_machine table.program (engine_of settings.now) (next_number table.program))) }
        ensures first { IfOk result (λ s. s.session.book.tickets.next ≡ 1) }
    {
        let next = next_number(&table);
        let session = Session::start(
            alloc,
            domain,
            table,
            next,
            settings.budget,
            settings.widening,
            memo as usize,
        )?;
        Ok(Server { session })
    }
}

impl<D: Named> Server<D> {
    /// How many cells the last question filled.
    pub(crate) fn cost(&self) -> u64
        ensures is { (m : Machine) → StandsFor D.operations self.now.session m → result ≡ m.cost }
    {
        self.session.cost()
    }
}

impl<D: Named> Answerer for Server<D> {
    ghost use Rattle.std.specs.Prelude.{◌≤◌, ◌+◌, ◌^◌};
    ghost use Rattle.daig_session.specs.Sessions.{StandsFor};
    ghost use Rattle.serve_answers.specs.Lines.{Served, server};
    ghost use Rattle.serve_output.specs.Domains.{meaning_of};

    ghost State = { Served };

    ghost machine = { server (meaning_of D.name).operations };

    ghost stands = { λ s m. StandsFor D.operations s.session m.machine };

    ghost lasts = { λ s n. s.session.book.tickets.next + n ≤ 2 ^ 63 };

    fn answer<L: Ledger>(
        &mut self,
        alloc: Global,
        line: &[u8],
        steps: &mut Steps<L>,
    ) -> Result<Vec<u8>, Memory> {
        answer_line(alloc, &mut self.session, line, steps)
    }

    fn answer_long(&self, alloc: Global) -> Result<Vec<u8>, Memory> {
        long_line(alloc)
    }
}
