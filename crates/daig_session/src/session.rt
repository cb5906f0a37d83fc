//! A session: what it is begun with, for `begins` of `start`, and what is read of it.
ghost use Rattle.std.specs.Prelude.{◌≡◌, ◌+◌, ◌*◌, ◌<◌, ◌≤◌, length, IfOk, option_copied};
ghost use Rattle.std.specs.Prelude.{option_map};
ghost use Rattle.call_contexts.specs.Settings.{engine_of};
ghost use Rattle.daig_machine.specs.Machine.{first_machine, ticket_of, Ticket};
ghost use Rattle.daig_session.specs.Books.{AreBelow};
ghost use Rattle.daig_session.specs.Sessions.{IsReadyBy, StandsFor, OfEachMachine, IsWithinBound};

use crate::book::Book;
use crate::parts::Parts;
use base_values::Memory;
use daig_machine::Question;
use daig_query::Engine;
use domain_laws::Domain;
use imp_chains::Widening;
use imp_table::Table;
use std::alloc::Global;
use std::marker::Model;

/// A session with a program. Clauses see its engine and its book.
#[derive(Drop)]
pub struct Session<D: Domain> {
    pub(crate) parts: Parts<D>,
}

impl<D: Domain> Model for Session<D> {
    ghost use Rattle.daig_session.specs.declared.parts.Parts.{Parts};

    ghost Value = { Parts D D.State };

    ghost use Rattle.std.specs.Coded.{codes};
    ghost use Rattle.std.specs.FinMap as map;
    ghost use Rattle.memo_table.specs.contracts.operation.Operation as operation;
    ghost use Rattle.daig_session.specs.contracts.book.Book as book;

    ghost coded = { Prim.hlevel (codes, map.code, operation.the_row.coded, book.the_row.coded) };

    ghost use Rattle.daig_session.specs.Sessions.{IsReadyBy};

    ghost view = { λ a. a.parts };

    ghost invariant = { λ a. IsReadyBy D.operations a.parts };
}

impl<D: Domain + Drop> Session<D> {
    /// A session with a program, whose loops take at most `budget` rounds and are widened so. New statements carry the
    /// numbers from `next` on. At most `memo` results of operations are remembered.
    ///
    /// It takes time linear in the program's thresholds, and the memory for going back and forth.
    ///
    /// # Errors
    ///
    /// [`Memory`] alone.
    pub fn start(
        alloc: Global,
        domain: D,
        table: Table,
        next: u32,
        budget: u32,
        widening: Widening,
        memo: usize,
    ) -> Result<Session<D>, Memory>
        requires some { 0 < next }
        requires low { next ≤ 1000001 }
        requires below { AreBelow next table.program }
        requires memo { 0 < memo }
        ensures domain { IfOk result (λ s. s.engine.domain ≡ domain) }
        ensures spare { IfOk result (λ s. s.engine.spare ≤ 4 * memo + 4096) }
        ensures bounded { IfOk result IsWithinBound }
        ensures begins { IfOk result (λ s. StandsFor D.operations s
            (first_machine table.program (engine_of budget widening) next)) }
    {
        let book = Book::begun(alloc, table, next, budget, widening)?;
        let engine = Engine::new(alloc, domain, memo)?;
        Ok(Session {
            parts: Parts { engine, book },
        })
    }
}

impl<D: Domain> Session<D> {
    /// Does nothing. Its contract tells what holds of every session.
    pub fn ready(&self)
        ensures ready { IsReadyBy D.operations self.now }
    {
        let _parts = &self.parts;
    }

    /// The domain that the session began with.
    pub fn domain(&self) -> &D
        ensures is { result.now ≡ self.now.engine.domain }
    {
        self.parts.engine.domain()
    }

    /// The present program.
    pub fn program(&self) -> &Table
        ensures is { OfEachMachine D.operations self.now (λ m. result.now.program ≡ m.program) }
    {
        self.parts.book.history.table()
    }

    /// The number of the next new statement.
    pub fn next(&self) -> u32
        ensures is { OfEachMachine D.operations self.now (λ m. result ≡ m.next) }
        ensures same { result ≡ self.now.book.next }
    {
        self.parts.book.next
    }

    /// How many cells the last answered query, report, step or `why` filled.
    pub fn cost(&self) -> u64
        ensures is { OfEachMachine D.operations self.now (λ m. result ≡ m.cost) }
    {
        self.parts.book.cost
    }

    /// How many cells are kept.
    pub fn kept_count(&self) -> usize
        ensures is { OfEachMachine D.operations self.now (λ m. result ≡ length m.kept) }
    {
        self.parts.engine.kept_count()
    }

    /// The number of the next ticket.
    pub fn next_ticket(&self) -> u64
        ensures is { OfEachMachine D.operations self.now (λ m. result ≡ m.next_ticket) }
        ensures same { result ≡ self.now.book.tickets.next }
    {
        self.parts.book.tickets.next
    }

    /// What an open ticket asks; `None` where no ticket of this number is open. It takes time linear in the open tickets,
    /// which are few.
    pub fn question_of(&self, ticket: u64) -> Option<&Question>
        ensures is { OfEachMachine D.operations self.now (λ m. option_copied result ≡ option_map
            (λ (t : Ticket). t.question) (ticket_of ticket m.tickets)) }
    {
        match self.parts.book.tickets.place_of(ticket) {
            None => None,
            Some(place) => {
                let one = &self.parts.book.tickets.open_ones[place];
                Some(&one.question)
            }
        }
    }
}
