//! Locations, chains, places and edits.
ghost use Rattle.std.specs.Prelude.{◌≡◌};

use crate::{Block, Cond, Declaration, Proc, Stmt, StmtId};
use base_values::{Items, Text};
use std::marker::Model;

/// A location of a program.
#[derive(Debug, Drop)]
pub enum Location {
    /// A statement is about to start.
    Before(StmtId),
    /// A statement has just ended.
    After(StmtId),
    /// The condition of a while is about to be tested.
    Head(StmtId),
    /// The body of a procedure is done.
    End(Text),
}

/// The call statements from main to a procedure, outermost first.
#[derive(Debug, Drop)]
pub struct Chain {
    sites: Items<StmtId>,
}

impl Model for Chain {
    ghost use Rattle.std.specs.Prelude.{ℕ, List};

    ghost Value = { List ℕ };

    ghost view = { λ a. a.sites };
}

impl Chain {
    /// The chain of these call statements, outermost first.
    pub fn new(sites: Items<StmtId>) -> Chain
        ensures is { result ≡ sites }
    {
        Chain { sites }
    }

    /// The call statements, outermost first.
    pub fn sites(&self) -> &[StmtId]
        ensures is { result.now ≡ self.now }
    {
        self.sites.as_slice()
    }
}

/// A place for new statements.
#[derive(Debug, Drop)]
pub enum Place {
    /// After a statement, in its block.
    After(StmtId),
    /// Before the first block of an if.
    ThenStart(StmtId),
    /// Before the second block of an if.
    ElseStart(StmtId),
    /// Before the body of a while.
    BodyStart(StmtId),
    /// Before the body of a procedure.
    ProcStart(Text),
}

/// An edit of a program.
#[derive(Debug, Drop)]
pub enum Edit {
    /// The simple statement becomes another simple one.
    Replace(StmtId, Stmt),
    /// Statements are put at a place.
    Insert(Place, Block),
    /// The statement and all inside it are removed.
    Delete(StmtId),
    /// The if or while gets another condition.
    Guard(StmtId, Cond),
    /// The procedure gets a new last local variable.
    Declare(Text, Declaration),
    /// A procedure is put before the named one.
    AddProc {
        /// The procedure that then stands after the new one.
        before: Text,
        /// The new one.
        proc: Proc,
    },
    /// The procedure is removed.
    DropProc(Text),
}
