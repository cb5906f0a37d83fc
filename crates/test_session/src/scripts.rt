//! Scripts: calls of a session one after another.
ghost use Rattle.std.specs.Prelude.{◌≡◌, ◌<◌};

use crate::texts::{next_of, table_of};
use crate::turns::{begun, queried, queried_twice, replaced, stepped};
use base_values::Items;
use daig_machine::Question;
use daig_session::Session;
use domain_laws::{Domain, Steps};
use imp_chains::Widening;
use imp_syntax::{Location, StmtId};
use std::alloc::Global;
use std::marker::Brand;
use std::sync::ledger::{Blank, Ledger};
use std::test::Fail;

/// A line of a script.
#[derive(Clone, Copy)]
pub(crate) enum Line<'a> {
    /// What is answered after a statement.
    After(u32),
    /// What is answered before a statement.
    Before(u32),
    /// What is answered after a statement, twice, each with its cost.
    Twice(u32),
    /// A ticket for the place after a statement is opened.
    Ask(u32),
    /// A ticket for the report is opened.
    Report,
    /// So many cells are filled for a ticket.
    Step(u64, u32),
    /// The statement becomes the action of a text.
    Replace(u32, &'a str),
}

/// A program, how its loops are interpreted, and how many results of operations are remembered.
#[derive(Clone, Copy)]
pub(crate) struct Setup<'a> {
    pub(crate) text: &'a str,
    pub(crate) budget: u32,
    pub(crate) thresholds: bool,
    pub(crate) memo: usize,
}

/// A session with a program.
fn started<D: Domain + Drop>(
    alloc: Global,
    domain: D,
    setup: Setup<'_>,
) -> Result<Session<D>, Fail> {
    if setup.memo == 0 {
        return Err("no memo".into());
    }
    let table = table_of(alloc, setup.text)?;
    let next = next_of(alloc, &table)?;
    let widening = Widening {
        delay: 0,
        thresholds: setup.thresholds,
    };
    Ok(Session::start(
        alloc,
        domain,
        table,
        next,
        setup.budget,
        widening,
        setup.memo,
    )?)
}

/// What a line tells.
fn play<D: Domain, L: Ledger>(
    alloc: Global,
    session: &mut Session<D>,
    line: Line<'_>,
    steps: &mut Steps<L>,
) -> Result<String, Fail> {
    match line {
        Line::After(stmt) => queried(alloc, session, &Location::After(StmtId::new(stmt)), steps),
        Line::Before(stmt) => queried(alloc, session, &Location::Before(StmtId::new(stmt)), steps),
        Line::Twice(stmt) => {
            queried_twice(alloc, session, &Location::After(StmtId::new(stmt)), steps)
        }
        Line::Ask(stmt) => begun(
            alloc,
            session,
            Question::State {
                at: Location::After(StmtId::new(stmt)),
                string: Items::new(alloc),
            },
        ),
        Line::Report => begun(alloc, session, Question::Report),
        Line::Step(ticket, most) => stepped(alloc, session, ticket, most, steps),
        Line::Replace(stmt, text) => replaced(alloc, session, stmt, text),
    }
}

/// What the lines tell, one after another.
fn lines<D: Domain, L: Ledger>(
    alloc: Global,
    session: &mut Session<D>,
    script: &[Line<'_>],
    steps: &mut Steps<L>,
) -> Result<String, Fail> {
    let mut all = String::new(alloc);
    for next in script {
        let told = play(alloc, session, *next, steps)?;
        all.push_str(&told)?;
        all.push_str("; ")?;
    }
    Ok(all)
}

/// What the lines tell; nothing is counted.
fn counted<D: Domain, L: Ledger>(
    alloc: Global,
    blank: Blank,
    session: &mut Session<D>,
    script: &[Line<'_>],
) -> Result<String, Fail>
    requires name { blank.name ≡ L.name }
    requires parts { blank.parts ≡ L.parts }
    requires some { 0 < blank.parts }
{
    let mut steps = Steps::<L>::new(blank);
    lines(alloc, session, script, &mut steps)
}

/// What a script tells of a program, over a domain.
pub(crate) fn told<D: Domain + Drop>(
    alloc: Global,
    domain: D,
    setup: Setup<'_>,
    script: &[Line<'_>],
) -> Result<String, Fail> {
    let mut session = started(alloc, domain, setup)?;
    let blank = Blank::new(1);
    counted::<D, Brand>(alloc, blank, &mut session, script)
}
