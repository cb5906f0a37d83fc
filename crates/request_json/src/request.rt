//! What lines ask: the values that [`read_request`](crate::read_request) gives.
use base_values::{Items, Text};
use fault_words::FaultVerdict;
use imp_syntax::{Chain, Location, Place, StmtId, VariableKind};

/// What a line asks.
#[derive(Debug, Drop)]
pub enum Request {
    /// The state at a location.
    State(Query),
    /// The findings of all checks.
    Report,
    /// What is found of every fault that can end a run.
    Faults {
        /// The verdict of those that are wanted; all where there is none.
        only: Option<FaultVerdict>,
    },
    /// How many cells the last query filled, and how many there are.
    Cost,
    /// The program's text, and the next statement number.
    Program,
    /// The program's text with the statements' numbers.
    Listing,
    /// A run of the program.
    Run {
        /// What its input statements take, in turn.
        inputs: Items<i64>,
        /// How many steps it may take, up to 1,000,000.
        fuel: u32,
        /// Where its configurations are counted.
        at: Option<Location>,
    },
    /// Another simple statement in the place of one.
    Replace {
        /// The statement that goes.
        id: StmtId,
        /// The text of the new one.
        text: Text,
    },
    /// New statements at a place.
    Insert {
        /// Where they go.
        place: Place,
        /// Their text.
        text: Text,
    },
    /// A statement goes, with all inside it.
    Delete {
        /// The statement that goes.
        id: StmtId,
    },
    /// Another condition of an if or while.
    Guard {
        /// The if or while.
        id: StmtId,
        /// The condition's text.
        text: Text,
    },
    /// A new local variable.
    Declare {
        /// The procedure that gets it.
        proc: Text,
        /// Its name, one of the language.
        name: Text,
        /// Its kind.
        kind: VariableKind,
    },
    /// A new procedure.
    Add {
        /// The procedure that it is put before.
        before: Text,
        /// Its text.
        text: Text,
    },
    /// A procedure goes.
    Drop {
        /// The procedure that goes.
        proc: Text,
    },
    /// The statements that the state at a location depends on.
    Why(Query),
    /// The program before the last edit.
    Undo,
    /// The program before the last undo.
    Redo,
    /// A ticket for a request, which is to be worked on in steps.
    Begin(Task),
    /// Some steps of work on a ticket.
    Step {
        /// The ticket's number, below 2^63.
        ticket: u64,
        /// How many cells may be filled, up to 1,000,000.
        n: u32,
    },
    /// A ticket is given up.
    Cancel {
        /// The ticket's number, below 2^63.
        ticket: u64,
    },
}

/// A request that a ticket is opened for.
#[derive(Debug, Drop)]
pub enum Task {
    /// The state at a location.
    State(Query),
    /// The statements that it depends on.
    Why(Query),
    /// The findings of all checks.
    Report,
    /// What is found of every fault that can end a run.
    Faults {
        /// The verdict of those that are wanted; all where there is none.
        only: Option<FaultVerdict>,
    },
}

/// A location, and the call string that selects the chains to it: up to two call statements,
/// outermost first. The empty one selects all.
#[derive(Debug, Drop)]
pub struct Query {
    pub at: Location,
    pub string: Chain,
}
