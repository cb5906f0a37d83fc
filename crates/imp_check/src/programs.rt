//! The first fault of a program.
ghost use Rattle.std.specs.Prelude.{◌≡◌, ◌<◌, ◌≤◌, ◌∷◌, ◌++◌, [], length, IfOk, IfErr, OnOk, None, true};
ghost use Rattle.std.specs.Option.{option_copied};
ghost use Rattle.imp_check.specs.Faults.{at, in_procedure};
ghost use Rattle.imp_check.specs.Names.{variables};
ghost use Rattle.imp_check.specs.Small.{small_block, small_program};
ghost use Rattle.imp_check.specs.Programs.{size_fault, count_numeric, count_links, one_numeric, one_link, variable_fault, variables_fault, procedure_fault, procedures_fault, last_of, name_of, takes_nothing, chains_fault, ending_fault, check_fault, AreNumbered};
ghost use Rattle.imp_check.specs.Fine.{IsFine};
ghost use Rattle.imp_check.specs.Refused.{IsRefused};

use crate::chains::all_chains;
use crate::counts::{deepest, program_count};
use crate::fault::Spot;
use crate::names::{is_named, kind_of};
use crate::statements::{Scope, block_fault};
use crate::variables::Variables;
use crate::{CheckError, Fault, LocatedFault};
use base_values::{Items, Memory, Text};
use imp_syntax::{Declaration, Proc, VariableKind};
use std::alloc::Global;

const MOST_PROCEDURES: usize = 64;

const MOST_STATEMENTS: u32 = 10_000;

const MOST_NESTING: u32 = 32;

const MOST_INTS: usize = 16;

const MOST_LISTS: usize = 8;

const MOST_CALLS: u32 = 8;

const MOST_CHAINS: u32 = 4_096;

/// More procedures, statements or blocks in one another than there may be.
pub(crate) fn size_fault(procs: &[Proc]) -> Option<Fault>
    ensures is { result ≡ size_fault procs.now }
{
    if procs.len() > MOST_PROCEDURES {
        Some(Fault::Procedures)
    } else if program_count(procs) > MOST_STATEMENTS {
        Some(Fault::Statements)
    } else if deepest(procs) > MOST_NESTING {
        Some(Fault::Nesting)
    } else {
        None
    }
}

fn one_numeric(kind: VariableKind) -> usize
    ensures is { result ≡ one_numeric kind }
{
    match kind {
        VariableKind::Int => 1,
        VariableKind::Array => 1,
        VariableKind::List => 0,
    }
}

fn one_link(kind: VariableKind) -> usize
    ensures is { result ≡ one_link kind }
{
    match kind {
        VariableKind::Int => 0,
        VariableKind::Array => 0,
        VariableKind::List => 1,
    }
}

fn count_numeric(variables: &[Declaration]) -> usize
    ensures is { result ≡ count_numeric variables.now }
    ensures within { result ≤ length variables.now }
{
    let mut count = 0;
    for variable in variables {
        count += one_numeric(variable.kind);
    }
    count
}

fn count_links(variables: &[Declaration]) -> usize
    ensures is { result ≡ count_links variables.now }
    ensures within { result ≤ length variables.now }
{
    let mut count = 0;
    for variable in variables {
        count += one_link(variable.kind);
    }
    count
}

/// The fault of a variable after others.
fn variable_fault(seen: &[Declaration], variable: &Declaration) -> Option<Fault>
    ensures is { result ≡ variable_fault seen.now variable.now }
{
    if kind_of(seen, &variable.name).is_some() {
        Some(Fault::Redeclared)
    } else if count_numeric(seen) + one_numeric(variable.kind) > MOST_INTS {
        Some(Fault::Ints)
    } else if count_links(seen) + one_link(variable.kind) > MOST_LISTS {
        Some(Fault::Lists)
    } else {
        None
    }
}

#[tactic(auto, using(crate::proofs::Going::variables_step))]
fn variables_fault(variables: &[Declaration]) -> Option<Fault>
    ensures is { result ≡ variables_fault [] variables.now }
{
    for (i, variable) in variables.iter().enumerate() {
        if let Some(fault) = variable_fault(&variables[..i], variable) {
            return Some(fault);
        }
    }
    None
}

/// The variables of a procedure, in order.
pub(crate) fn variables_of(alloc: Global, proc: &Proc) -> Result<Items<Declaration>, Memory>
    ensures is { IfOk result (λ vs. vs ≡ variables proc.now) }
{
    let mut variables = Items::new(alloc);
    append(&mut variables, proc.parameters())?;
    if let Some(outcome) = proc.outcome() {
        variables.push(outcome.clone()?)?;
    }
    append(&mut variables, proc.locals())?;
    Ok(variables)
}

fn append(all: &mut Items<Declaration>, more: &[Declaration]) -> Result<(), Memory>
    ensures added { OnOk result (all.new ≡ all.old ++ more.now) }
{
    for declaration in more {
        all.push(declaration.clone()?)?;
    }
    Ok(())
}

/// The first fault of a procedure, which is the first of the others.
fn procedure_fault(
    alloc: Global,
    earlier: &[Proc],
    others: &[Proc],
    proc: &Proc,
) -> Result<Option<Spot>, Memory>
    ensures is { IfOk result (λ fault. fault ≡ procedure_fault earlier.now others.now proc.now) }
    ensures small { IfOk result (λ fault. fault ≡ None → small_block proc.now.body ≡ true) }
{
    if is_named(earlier, proc.name()) {
        return Ok(Some(Spot {
            fault: Fault::Redeclared,
            at: 0,
        }));
    }
    let variables = variables_of(alloc, proc)?;
    let variables = variables.as_slice();
    if let Some(fault) = variables_fault(variables) {
        return Ok(Some(Spot { fault, at: 0 }));
    }
    let variables = Variables::listed(variables);
    let scope = Scope::new(earlier, others, &variables);
    Ok(block_fault(&scope, false, proc.body()))
}

fn found_in(name: &Text, spot: Spot) -> Result<LocatedFault, Memory>
    ensures is { IfOk result (λ found. found ≡ record {
      fault = spot.fault;
      proc = name.now;
      at = spot.at;
    }) }
{
    let proc = name.clone()?;
    Ok(LocatedFault {
        fault: spot.fault,
        proc,
        at: spot.at,
    })
}

/// The first fault of the procedures, one by one.
#[tactic(auto, using(crate::proofs::Going::procedures_step, crate::proofs::SmallLemmas::programs_step))]
pub(crate) fn procedures_fault(
    alloc: Global,
    procs: &[Proc],
) -> Result<Option<LocatedFault>, Memory>
    ensures is { IfOk result (λ found. found ≡ procedures_fault [] procs.now) }
    ensures small { IfOk result (λ found. found ≡ None → small_program procs.now ≡ true) }
{
    for (i, proc) in procs.iter().enumerate() {
        if let Some(spot) = procedure_fault(alloc, &procs[..i], &procs[i..], proc)? {
            return Ok(Some(found_in(proc.name(), spot)?));
        }
    }
    Ok(None)
}

fn takes_nothing(proc: &Proc) -> bool
    ensures is { result ≡ takes_nothing (Some proc.now) }
{
    proc.parameters().is_empty() && proc.outcome().is_none()
}

/// A fault of `main` or of the chains of calls.
#[tactic(auto, unfolding(crate::specs::Tallies::tally_of))]
fn ending_fault(alloc: Global, procs: &[Proc]) -> Result<Option<Fault>, Memory>
    ensures is { IfOk result (λ fault. fault ≡ ending_fault procs.now) }
{
    let Some(main) = procs.last() else {
        return Ok(Some(Fault::NoMain));
    };
    if main.name().as_slice() != b"main".as_slice() {
        return Ok(Some(Fault::NoMain));
    }
    if !takes_nothing(main) {
        return Ok(Some(Fault::MainHasParameters));
    }
    chains_fault(alloc, procs)
}

/// More calls in a chain, or more chains, than there may be.
#[tactic(auto, unfolding(crate::specs::Tallies::tally_of))]
fn chains_fault(alloc: Global, procs: &[Proc]) -> Result<Option<Fault>, Memory>
    ensures is { IfOk result (λ fault. fault ≡ chains_fault procs.now) }
{
    let tally = all_chains(alloc, procs)?;
    if tally.longest > MOST_CALLS {
        Ok(Some(Fault::Depth))
    } else if tally.count > MOST_CHAINS {
        Ok(Some(Fault::Chains))
    } else {
        Ok(None)
    }
}

/// A fault whose procedure is the last one.
fn found_last(alloc: Global, procs: &[Proc], fault: Fault) -> Result<LocatedFault, Memory>
    ensures is { IfOk result (λ found. found ≡ record {
      fault = fault;
      proc = name_of (last_of procs.now);
      at = 0;
    }) }
{
    let spot = Spot { fault, at: 0 };
    match procs.last() {
        Some(last) => found_in(last.name(), spot),
        None => Ok(LocatedFault {
            fault,
            proc: Text::new(alloc),
            at: 0,
        }),
    }
}

/// The first fault of a program.
fn check_fault(alloc: Global, procs: &[Proc]) -> Result<Option<LocatedFault>, Memory>
    ensures is { IfOk result (λ found. found ≡ check_fault procs.now) }
    ensures small { IfOk result (λ found. found ≡ None → small_program procs.now ≡ true) }
{
    if let Some(fault) = size_fault(procs) {
        return Ok(Some(found_last(alloc, procs, fault)?));
    }
    if let Some(found) = procedures_fault(alloc, procs)? {
        return Ok(Some(found));
    }
    match ending_fault(alloc, procs)? {
        Some(fault) => Ok(Some(found_last(alloc, procs, fault)?)),
        None => Ok(None),
    }
}

/// Looks for the first fault of a program. Where there is none, the program over slots fits.
///
/// # Errors
///
/// [`CheckError::Fault`] with the first fault, and [`CheckError::Memory`] when memory runs out.
pub fn check_procs(alloc: Global, procs: &[Proc]) -> Result<(), CheckError>
    requires numbered { AreNumbered procs.now }
    ensures fine { IfOk result (λ _. IsFine procs.now) }
    ensures refused { IfErr result (IsRefused (check_fault procs.now)) }
{
    match check_fault(alloc, procs)? {
        Some(found) => Err(CheckError::Fault(found)),
        None => Ok(()),
    }
}
