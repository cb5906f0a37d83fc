//! Programs with a change at one procedure.
ghost use Rattle.std.specs.Prelude.{◌≡◌, ◌++◌, IfOk, OnOk};
ghost use Rattle.imp_edit.specs.Changes.{at_named};
ghost use Rattle.imp_edit.specs.Made.{made_of};

use crate::trees::in_front;
use base_values::{Items, Memory, Text};
use imp_syntax::{Edit, Place, Proc, Program};
use std::alloc::Global;

/// The program with what the edit makes of the first procedure of a name. It takes time linear in the procedures.
#[tactic(auto, using(crate::proofs::ProcedureLemmas::met, crate::proofs::ProcedureLemmas::passed, crate::proofs::ProcedureLemmas::ended))]
pub(crate) fn at_named(
    alloc: Global,
    name: &Text,
    edit: &Edit,
    procs: &[Proc],
) -> Result<Program, Memory>
    ensures is { IfOk result (λ p. p ≡ at_named name.now (made_of edit.now) procs.now) }
{
    let mut all = Items::new(alloc);
    for (i, proc) in procs.iter().enumerate() {
        if proc.name() == name {
            made_of(alloc, edit, proc, &mut all)?;
            add_all(&procs[i + 1..], &mut all)?;
            return Program::new(alloc, all);
        }
        all.push(proc.clone()?)?;
    }
    Program::new(alloc, all)
}

/// Adds copies of procedures.
fn add_all(procs: &[Proc], all: &mut Items<Proc>) -> Result<(), Memory>
    ensures added { OnOk result (all.new ≡ all.old ++ procs.now) }
{
    for proc in procs {
        all.push(proc.clone()?)?;
    }
    Ok(())
}

/// What the procedure of an edit becomes.
fn made_of(alloc: Global, edit: &Edit, proc: &Proc, all: &mut Items<Proc>) -> Result<(), Memory>
    ensures added { OnOk result (all.new ≡ all.old ++ made_of edit.now proc.now) }
{
    match edit {
        Edit::Insert(Place::ProcStart(_), more) => {
            let body = in_front(alloc, more, proc.body())?;
            all.push(proc.with_body(body)?)
        }
        Edit::Declare(_, local) => all.push(proc.with_local(alloc, local.clone()?)?),
        Edit::AddProc {
            before: _,
            proc: new,
        } => {
            all.push(new.clone()?)?;
            all.push(proc.clone()?)
        }
        Edit::DropProc(_) => Ok(()),
        _ => all.push(proc.clone()?),
    }
}
