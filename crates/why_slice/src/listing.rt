//! The list of the statements that an answer depends on.
ghost use Rattle.std.specs.Prelude.{◌≡◌, ◌++◌, fold, IfOk, OnOk};
ghost use Rattle.std.specs.BTreeSet.{insert_key};
ghost use Rattle.std.specs.Ordering.{nat_cmp};
ghost use Rattle.why_slice.specs.Upstream.{all_of, listed, statement_at, sorted_once};

use crate::statements::StatementSet;
use base_values::{Items, Memory};
use imp_syntax::{Chain, Location, StmtId};
use std::alloc::Global;

/// Puts the call sites of a chain among the others.
#[tactic(auto, using(crate::proofs::Putting::put_next))]
fn put_sites(stmts: &mut StatementSet, chain: &Chain) -> Result<(), Memory>
    ensures put { OnOk result (stmts.new ≡ fold (insert_key nat_cmp) stmts.old chain.now) }
{
    for site in chain.sites() {
        stmts.put(site.number())?;
    }
    Ok(())
}

/// Puts the call sites of chains among the others.
fn put_chains(stmts: &mut StatementSet, chains: &[Chain]) -> Result<(), Memory>
    ensures put { OnOk result (stmts.new ≡ fold (insert_key nat_cmp) stmts.old
        (all_of chains.now)) }
{
    for chain in chains {
        put_sites(stmts, chain)?;
    }
    Ok(())
}

/// Puts the statement that a location names among the others.
fn put_place(stmts: &mut StatementSet, at: &Location) -> Result<(), Memory>
    ensures put { OnOk result (stmts.new ≡ fold (insert_key nat_cmp) stmts.old
        (listed (statement_at at.now))) }
{
    match at {
        Location::Before(stmt) | Location::After(stmt) | Location::Head(stmt) => {
            stmts.put(stmt.number())?;
        }
        Location::End(_) => {}
    }
    Ok(())
}

/// The statement that a location names, the call sites of these chains, and these statements: rising, each once. It takes
/// time in proportion to them, and a step more for each 64 numbers up to the greatest of them.
///
/// # Errors
///
/// [`Memory`] alone.
#[tactic(auto, using(crate::proofs::Putting::put_among))]
pub fn upstream(
    alloc: Global,
    at: &Location,
    chains: &[Chain],
    hung: StatementSet,
) -> Result<Items<StmtId>, Memory>
    ensures is { IfOk result (λ stmts. stmts ≡ sorted_once
        (listed (statement_at at.now) ++ (all_of chains.now ++ hung))) }
{
    hung.numbers_rise();
    let mut stmts = hung;
    put_place(&mut stmts, at)?;
    put_chains(&mut stmts, chains)?;
    stmts.rising(alloc)
}
