//! What a session keeps beside its engine.
ghost use Rattle.std.specs.Prelude.{◌≡◌, IfOk};
ghost use Rattle.imp_check.specs.Fine.{IsFine};
ghost use Rattle.call_contexts.specs.Settings.{engine_of};
ghost use Rattle.daig_session.specs.Books.{flow_in, IsFirst, IsSet, IsSetFor, LeadsFrom};
ghost use Rattle.daig_session.specs.Books.{program_after, IsTurnedBy};
ghost use Rattle.daig_session.specs.Moves.{IsNearest};
ghost use Rattle.daig_session.specs.Sides.{programs_of, TurnsTo, TakesNearest, HasNearest};

use crate::course::Course;
use base_values::Memory;
use call_contexts::Setting;
use daig_tickets::Tickets;
use edit_history::History;
use imp_chains::Widening;
use imp_flow::Flow;
use imp_table::{Change, Table};
use std::alloc::Global;

/// The programs before the present one, or those after it.
#[derive(Clone, Copy)]
pub(crate) enum Side {
    Behind,
    Ahead,
}

/// The program with those before it and after it, how its loops are interpreted, the next number of a statement, the
/// open tickets, and how many cells the last answered query, report, step or `why` filled.
#[derive(Drop)]
pub(crate) struct Book {
    pub(crate) history: History,
    pub(crate) setting: Setting,
    pub(crate) next: u32,
    pub(crate) tickets: Tickets<Course>,
    pub(crate) cost: u64,
}

impl Book {
    /// The book of a program at first, whose loops take at most `budget` rounds and are widened so.
    pub(crate) fn begun(
        alloc: Global,
        table: Table,
        next: u32,
        budget: u32,
        widening: Widening,
    ) -> Result<Book, Memory>
        ensures fine { IfOk result (λ _. IsFine table.program) }
        ensures first { IfOk result
            (λ b. IsFirst b table.program (engine_of budget widening) next) }
    {
        table.procs();
        let setting = Setting::new(alloc, &table.view(), budget, widening)?;
        let history = History::new(alloc, table)?;
        let tickets = Tickets::new(alloc);
        Ok(Book {
            history,
            setting,
            next,
            tickets,
            cost: 0,
        })
    }

    /// The flow of the present program. It takes constant time.
    pub(crate) fn flow(&self) -> Flow<'_>
        requires set { IsSet self.now }
        ensures is { result ≡ flow_in self.now }
    {
        Flow::new(self.history.table().view(), &self.setting)
    }

    /// Puts a change in, with the setting of the program that it makes and the next number.
    pub(crate) fn remember(&mut self, change: Change, next: u32, setting: Setting)
        requires leads { LeadsFrom self.old change }
        requires set { IsSetFor self.old (program_after self.old change) setting }
        ensures turned { IsTurnedBy self.old change next self.new }
    {
        self.history.remember(change);
        self.setting = setting;
        self.next = next;
        self.tickets.begin_anew();
    }

    /// Goes back to the program before, which has this setting.
    pub(crate) fn back(&mut self, setting: Setting)
        requires there { HasNearest Side.Behind self.old }
        ensures past { TakesNearest Side.Behind self.old self.new }
        ensures turned { TurnsTo Side.Behind setting self.old self.new }
    {
        self.history.back();
        self.setting = setting;
        self.tickets.begin_anew();
    }

    /// Goes on to the program after, which has this setting.
    pub(crate) fn forth(&mut self, setting: Setting)
        requires there { HasNearest Side.Ahead self.old }
        ensures future { TakesNearest Side.Ahead self.old self.new }
        ensures turned { TurnsTo Side.Ahead setting self.old self.new }
    {
        self.history.forth();
        self.setting = setting;
        self.tickets.begin_anew();
    }

    /// The change that leads to the nearest program of a side, if there is one.
    pub(crate) fn nearest(&self, side: Side) -> Option<&Change>
        ensures is { IsNearest self.now result (λ c. c.now) (programs_of side self.now) }
    {
        match side {
            Side::Behind => self.history.behind(),
            Side::Ahead => self.history.ahead(),
        }
    }

    /// Goes to the nearest program of a side, which has this setting.
    pub(crate) fn turn(&mut self, side: Side, setting: Setting)
        requires there { HasNearest side self.old }
        ensures nearest { TakesNearest side self.old self.new }
        ensures turned { TurnsTo side setting self.old self.new }
    {
        match side {
            Side::Behind => self.back(setting),
            Side::Ahead => self.forth(setting),
        }
    }
}
