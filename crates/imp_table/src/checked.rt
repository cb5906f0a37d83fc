//! Checked programs.
ghost use Rattle.std.specs.Prelude.{◌≡◌, IfOk, IfErr, None};
ghost use Rattle.imp_slots.specs.Fits.{IsChecked};
ghost use Rattle.imp_check.specs.Programs.{AreNumbered, check_fault};
ghost use Rattle.imp_check.specs.Slots.{routines_of};
ghost use Rattle.imp_check.specs.Fine.{IsFine};
ghost use Rattle.imp_check.specs.Refused.{IsRefused};

use crate::table::Table;
use crate::view::View;
use base_values::{Items, Memory};
use imp_check::{CheckError, check_procs, routines_of};
use imp_slots::Routine;
use imp_syntax::Program;
use std::alloc::Global;
use std::marker::Model;

/// A program without faults as a tree, over slots and as a table, seen as its procedures.
#[derive(Drop)]
pub struct Checked {
    parts: Box<Parts>,
}

#[derive(Drop)]
struct Parts {
    program: Program,
    routines: Items<Routine>,
    table: Table,
}

impl Model for Checked {
    ghost use Rattle.std.specs.Prelude.{List};
    ghost use Rattle.imp_syntax.specs.Plain.{Procedure};
    ghost use Rattle.imp_syntax.specs.ProgramCode.{program_code};

    ghost Value = { List Procedure };

    ghost coded = { program_code };

    ghost use Rattle.imp_table.specs.Checks.{AreRight};

    ghost view = { λ a. a.parts.value.program };

    ghost invariant = { λ a. AreRight a.parts.value };
}

/// Checks a program: it is checked where it has no fault, and else its first fault is given.
///
/// # Errors
///
/// [`CheckError::Fault`] with the first fault, and [`CheckError::Memory`] when memory runs out. On an
/// error the program is dropped.
pub fn check(alloc: Global, program: Program) -> Result<Checked, CheckError>
    requires numbered { AreNumbered program }
    ensures accepted { IfOk result (λ c. c ≡ program) }
    ensures faultless { IfOk result (λ _. check_fault program ≡ None) }
    ensures refused { IfErr result (IsRefused (check_fault program)) }
{
    check_procs(alloc, program.procs())?;
    Ok(accept(alloc, program)?)
}

/// Checks a program as [`check`] does, and makes its table alone. It leaves the program.
///
/// # Errors
///
/// As [`check`].
pub fn check_table(alloc: Global, program: &Program) -> Result<Table, CheckError>
    requires numbered { AreNumbered program.now }
    ensures accepted { IfOk result (λ table. table.program ≡ program.now) }
    ensures fine { IfOk result (λ _. IsFine program.now) }
    ensures refused { IfErr result (IsRefused (check_fault program.now)) }
{
    check_procs(alloc, program.procs())?;
    Ok(Table::of(alloc, program)?)
}

#[tactic(auto, using(imp_check::proofs::FewLemmas::few_checked))]
fn accept(alloc: Global, program: Program) -> Result<Checked, Memory>
    requires fine { IsFine program }
    ensures is { IfOk result (λ c. c ≡ program) }
{
    let routines = routines_of(alloc, program.procs())?;
    let table = Table::of(alloc, &program)?;
    let parts = Parts {
        program,
        routines,
        table,
    };
    let parts = Box::new(alloc, parts)?;
    Ok(Checked { parts })
}

impl Checked {
    /// The program.
    pub fn program(&self) -> &Program
        ensures is { result.now ≡ self.now }
        ensures faultless { check_fault self.now ≡ None }
        ensures numbered { AreNumbered self.now }
    {
        &self.parts.program
    }

    /// The procedures over slots, in the order of the text. Slots are of the layouts with their kinds, callees stand
    /// earlier and take their arguments, numbers stand once, and each break has a loop around it.
    pub fn routines(&self) -> &[Routine]
        ensures is { result.now ≡ routines_of self.now }
        ensures fit { IsChecked (routines_of self.now) }
    {
        self.parts.routines.as_slice()
    }

    /// The table of the program's statements.
    pub fn table(&self) -> &Table
        ensures is { result.now.program ≡ self.now }
    {
        &self.parts.table
    }

    /// The program as it is read. It takes constant time.
    pub fn view(&self) -> View<'_>
        ensures is { result ≡ self.now }
    {
        self.table().view()
    }
}
