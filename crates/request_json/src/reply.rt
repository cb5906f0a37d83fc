//! What lines are answered: the values that [`reply_line`](crate::reply_line) writes.
use base_values::{Items, Text};
use fault_words::FaultFindings;
use imp_syntax::{Chain, StmtId};
use imp_words::{Findings, QueryRefusal as QueryRefusal, RunEnd};

/// What a line is answered.
#[derive(Debug, Drop)]
pub enum Reply {
    /// The state at a location, as text.
    State(Text),
    /// The iteration of a loop did not end within the budget: there is no state.
    Over {
        /// The loop.
        head: StmtId,
        /// The call statements of its chain, outermost first.
        chain: Chain,
    },
    /// The findings of all checks.
    Report(Findings),
    /// What is found of faults.
    Faults(FaultFindings),
    /// What was worked out.
    Cost {
        /// How many cells the last query filled.
        cost: u64,
        /// How many cells there are.
        kept: u64,
    },
    /// The program.
    Program {
        /// The next statement number that is not used.
        next: u32,
        /// The program's text.
        text: Text,
    },
    /// The program's text with the statements' numbers.
    Listing(Text),
    /// A run of the program.
    Run {
        /// How it ended.
        end: RunEnd,
        /// How many of its configurations stood at the location that was asked for, if one was.
        reached: Option<u64>,
    },
    /// An edit is done: the next statement number that is not used.
    Next(u32),
    /// The statements that a state depends on.
    Why(Items<StmtId>),
    /// The number of a new ticket.
    Ticket(u64),
    /// A step filled so many cells, and is not done.
    Pending(u64),
    /// The ticket of this number is given up.
    Cancelled(u64),
    /// The request is refused.
    Refused(Refusal),
}

/// Why a request is refused.
#[derive(Debug, Drop)]
pub enum Refusal {
    /// The line is not UTF-8, or no JSON.
    NoJson,
    /// The line is no object, has no text `do`, or a field of the request is missing or not as it
    /// should be.
    BadMember,
    /// `do` names no request.
    NoRequest,
    /// The program has no such statement, procedure or chain, or the call string is too long.
    Query(QueryRefusal),
    /// The text of an edit is not read.
    Unread {
        /// A place in bytes, where tokens fail, or in tokens.
        at: u64,
        /// The fault's name.
        name: Text,
    },
    /// The program would not be well formed.
    IllFormed(ProgramFault),
    /// The program would pass a limit.
    Limit(ProgramFault),
    /// The procedure to be dropped is main, or is still called.
    StillCalled,
    /// There is no such open ticket.
    NoTicket,
    /// As many tickets are open as there may be.
    ManyTickets,
    /// The line is too long.
    LongLine,
    /// The location of the ticket is no longer in the program.
    Gone,
    /// There is no edit to undo.
    NothingToUndo,
    /// There is nothing undone to do again.
    NothingToRedo,
}

/// What is wrong with a program, and where.
#[derive(Debug, Drop)]
pub struct ProgramFault {
    /// The statement, or number 0 where it is none.
    pub at: StmtId,
    /// The fault's name, or the limit's.
    pub name: Text,
    /// The procedure.
    pub proc: Text,
}
