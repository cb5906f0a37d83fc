//! What is known before each statement that has a check.
ghost use Rattle.std.specs.Prelude.{◌≡◌, [], map, OnOk};
ghost use Rattle.imp_slots.specs.Plain.{Stop};
ghost use Rattle.imp_slots.specs.ActionViews.{effect_of};
ghost use Rattle.imp_slots.specs.BlockViews.{before_code};
ghost use Rattle.domain_laws.specs.Checks.{check_of};
ghost use Rattle.batch_meaning.specs.Report.{checked_in, checked_one};
ghost use Rattle.batch_meaning.specs.Values.{Value};
ghost use Rattle.batch_interp.specs.Answered.{value_of};
ghost use Rattle.batch_interp.specs.Checking.{is_checked};
ghost use Rattle.batch_interp.specs.Reporting.{before_one, claims, claim_of};
ghost use Rattle.batch_interp.specs.Added.{Adds};

use crate::Answer;
use crate::claim::Claim;
use crate::gather::Gather;
use crate::spots::copy_of;
use base_values::{Items, Memory};
use domain_laws::{Domain, check_of_action};
use imp_slots::{SlotAction, SlotBlock, SlotNode};
use std::alloc::Global;

/// Whether a statement has a check.
#[tactic(auto, using(crate::proofs::Claimed::asks, crate::proofs::Claimed::asks_nothing))]
pub(crate) fn is_checked(action: &SlotAction) -> bool
    ensures is { result ≡ is_checked (check_of (effect_of action.now)) }
{
    match check_of_action(action) {
        Some(_) => true,
        None => false,
    }
}

/// Adds a statement, if it has a check.
#[tactic(auto, using(crate::proofs::Claimed::one_claim, crate::proofs::Claimed::no_claim, crate::proofs::Claimed::claims_both))]
fn add_claim(number: u32, action: &SlotAction, found: &mut Items<Claim>) -> Result<(), Memory>
    ensures added { OnOk result (Adds claim_of found.old found.new
        (claims (checked_one number (effect_of action.now) (check_of (effect_of action.now))))) }
{
    if is_checked(action) {
        let action = action.clone()?;
        found.push(Claim { number, action })
    } else {
        Ok(())
    }
}

/// Adds the statements of a block that have a check, in the order of the text.
#[cycle(claims)]
#[tactic(auto, using(imp_slots::specs::BlockFalls::node_falls, crate::proofs::Claimed::claims_step, crate::proofs::Claimed::claims_end))]
pub(crate) fn add_claims(block: &SlotBlock, found: &mut Items<Claim>) -> Result<(), Memory>
    ensures added { OnOk result
        (Adds claim_of found.old found.new (claims (checked_in block.now))) }
{
    for node in block.statements() {
        add_claims_in(node, found)?;
    }
    Ok(())
}

#[cycle(claims)]
#[tactic(auto, using(crate::proofs::Claimed::claims_one, crate::proofs::Claimed::claims_two))]
fn add_claims_in(node: &SlotNode, found: &mut Items<Claim>) -> Result<(), Memory>
    ensures added { OnOk result
        (Adds claim_of found.old found.new (claims (checked_in (before_code node.now Stop)))) }
{
    match node {
        SlotNode::Simple(n, action) => add_claim(*n, action, found),
        SlotNode::If(_, _, then, els) => {
            add_claims(then, found)?;
            add_claims(els, found)
        }
        SlotNode::While(_, _, body) => add_claims(body, found),
        SlotNode::Call(_, _, _) => Ok(()),
        SlotNode::Break(_) => Ok(()),
    }
}

/// Values are gathered before the statements that have a check.
impl<D: Domain> Gather<D> for Items<Answer<D::State>> {
    ghost Told = { Value D.State };

    ghost at_simple = { λ e v. before_one (check_of e) v };

    ghost at_head = { λ n v. [] };

    ghost told = { λ it. map value_of it };

    #[tactic(auto, using(crate::proofs::Claimed::one_before, crate::proofs::Claimed::no_before, crate::proofs::Claimed::values_one))]
    fn add_simple(
        &mut self,
        alloc: Global,
        dom: &D,
        action: &SlotAction,
        before: &Answer<D::State>,
    ) -> Result<(), Memory> {
        if is_checked(action) {
            self.push(copy_of(alloc, dom, before)?)
        } else {
            Ok(())
        }
    }

    fn add_head(&mut self, _n: u32, _head: Answer<D::State>) -> Result<(), Memory>
        ensures added { OnOk result (Adds value_of self.old self.new []) }
    {
        Ok(())
    }
}
