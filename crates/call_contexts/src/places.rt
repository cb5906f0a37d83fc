//! The procedure of a location.
ghost use Rattle.std.specs.Prelude.{◌≡◌, ◌<◌, ◌^◌, length};
ghost use Rattle.imp_words.specs.declared.refusal.QueryRefusal.TheVariants.{NoStatement};
ghost use Rattle.imp_slots.specs.Fits.{IsChecked};
ghost use Rattle.imp_chains.specs.Chains.{holder, is_while};
ghost use Rattle.batch_meaning.specs.Answers.{found_or, found_loop, procedure_of};
ghost use Rattle.imp_check.specs.Slots.{routines_of};
ghost use Rattle.call_contexts.specs.Places.{found_of, is_loop};

use batch_meaning::QueryRefusal;
use imp_slots::Routine;
use imp_syntax::{Location, ProcId, Stmt, StmtId, StmtNode};
use imp_table::{Checked, View};

/// The procedure of a statement.
fn holder(prog: &View<'_>, stmt: StmtId) -> Result<ProcId, QueryRefusal>
    ensures is { found_of result ≡ found_or NoStatement (holder stmt (routines_of prog.now)) }
{
    match prog.entry(stmt) {
        Some(entry) => Ok(entry.context.proc),
        None => Err(QueryRefusal::NoStatement),
    }
}

/// Whether a statement is a loop.
pub(crate) fn is_loop(part: &Stmt) -> bool
    ensures is { result ≡ is_loop part.now }
{
    matches!(part.node(), StmtNode::While(_, _))
}

/// The procedure of a loop.
fn loop_holder(prog: &View<'_>, stmt: StmtId) -> Result<ProcId, QueryRefusal>
    ensures is { found_of result ≡ found_loop (is_while stmt (routines_of prog.now))
        (found_or NoStatement (holder stmt (routines_of prog.now))) }
{
    prog.procs();
    match prog.entry(stmt) {
        Some(entry) => {
            let place = entry.context.proc;
            if is_loop(&entry.part) {
                Ok(place)
            } else {
                Err(QueryRefusal::WrongStatement)
            }
        }
        None => Err(QueryRefusal::NoStatement),
    }
}

/// The procedure of a location. It takes constant time for a statement, and time linear in the
/// procedures for an end.
///
/// # Errors
///
/// [`QueryRefusal::NoProcedure`] or [`QueryRefusal::NoStatement`] where the program has no such procedure or
/// statement, [`QueryRefusal::WrongStatement`] where the head of a statement is asked for that is no loop.
#[tactic(auto, using(crate::proofs::Placed::named_is))]
pub fn place_of(prog: &View<'_>, at: &Location) -> Result<ProcId, QueryRefusal>
    ensures is { found_of result ≡ procedure_of (routines_of prog.now) at.now }
{
    match at {
        Location::Before(n) => holder(prog, *n),
        Location::After(n) => holder(prog, *n),
        Location::Head(n) => loop_holder(prog, *n),
        Location::End(name) => prog.proc_named(name).ok_or(QueryRefusal::NoProcedure),
    }
}

/// The procedures over slots, in the order of the text. There are few of them: their places fit a
/// `u32`.
#[tactic(auto, using(crate::proofs::Few::few_routines))]
pub fn few_routines(prog: &Checked) -> &[Routine]
    ensures is { result.now ≡ routines_of prog.now }
    ensures few { length result.now < 2 ^ 32 }
    ensures checked { IsChecked result.now }
{
    prog.program();
    prog.routines()
}
