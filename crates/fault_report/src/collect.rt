//! The statements of a program, with their fault points.
ghost use Rattle.std.specs.Prelude.{◌≡◌, ◌++◌, IfOk, OnOk, false};
ghost use Rattle.imp_slots.specs.Plain.{Stop};
ghost use Rattle.imp_slots.specs.BlockViews.{before_code};
ghost use Rattle.fault_verdicts.specs.Statements.{evaluated, evaluated_in, evaluated_statements};

use base_values::{Items, Memory};
use fault_points::{FaultPoints, points_of_action, points_of_arguments, points_of_condition};
use fault_verdicts::Evaluated;
use imp_slots::{Routine, SlotBlock, SlotNode};
use std::alloc::Global;

/// A statement that is no loop.
fn straight(number: u32, points: FaultPoints) -> Evaluated
    ensures is { result ≡ evaluated number false points }
{
    Evaluated {
        number,
        is_loop: false,
        points,
    }
}

/// Adds the statements of a block, in preorder.
#[cycle(statements)]
#[tactic(auto, using(imp_slots::specs::BlockFalls::node_falls, crate::proofs::Collected::step, crate::proofs::Collected::end))]
pub(crate) fn add_statements(
    alloc: Global,
    block: &SlotBlock,
    found: &mut Items<Evaluated>,
) -> Result<(), Memory>
    ensures added { OnOk result (found.new ≡ found.old ++ evaluated_in block.now) }
{
    for node in block.statements() {
        add_statement(alloc, node, found)?;
    }
    Ok(())
}

#[cycle(statements)]
#[tactic(auto, using(crate::proofs::Collected::one, crate::proofs::Collected::two))]
fn add_statement(alloc: Global, node: &SlotNode, found: &mut Items<Evaluated>) -> Result<(), Memory>
    ensures added { OnOk result (found.new ≡ found.old
        ++ evaluated_in (before_code node.now Stop)) }
{
    match node {
        SlotNode::Simple(n, action) => {
            found.push(straight(*n, points_of_action(alloc, action)?))
        }
        SlotNode::If(n, c, then, els) => {
            found.push(straight(*n, points_of_condition(alloc, c)?))?;
            add_statements(alloc, then, found)?;
            add_statements(alloc, els, found)
        }
        SlotNode::While(n, c, body) => {
            let points = points_of_condition(alloc, c)?;
            found.push(Evaluated {
                number: *n,
                is_loop: true,
                points,
            })?;
            add_statements(alloc, body, found)
        }
        SlotNode::Call(n, call, _) => {
            found.push(straight(*n, points_of_arguments(alloc, call)?))
        }
        SlotNode::Break(n) => found.push(straight(*n, Items::new(alloc))),
    }
}

/// The statements of procedures, in preorder.
pub(crate) fn statements_of(alloc: Global, routines: &[Routine]) -> Result<Items<Evaluated>, Memory>
    ensures are { IfOk result (λ xs. xs ≡ evaluated_statements routines.now) }
{
    let mut found = Items::new(alloc);
    for routine in routines {
        add_statements(alloc, routine.body(), &mut found)?;
    }
    Ok(found)
}
