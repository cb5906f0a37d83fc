//! The statements of a program as nodes of its flow, and the loops around them.
ghost use Rattle.std.specs.Prelude.{◌≡◌, ◌++◌, reverse, option_map, OnOk};
ghost use Rattle.imp_check.specs.Slots.{routines_of};
ghost use Rattle.imp_flow_rows.specs.Entered.{known_in, head_of, loops_up, loops_around, node_now};
ghost use Rattle.imp_flow.specs.Nodes.{nodes_of, node_of};
ghost use Rattle.imp_flow.specs.Reached.{into_loops};

use crate::steps::TargetStep;
use base_short::Short;
use base_values::Memory;
use imp_flow_rows::Node;
use imp_syntax::StmtId;
use imp_table::View;

/// The innermost loop around a loop.
fn head_of(prog: &View<'_>, stmt: StmtId) -> Option<StmtId>
    ensures is { result ≡ head_of (known_in prog.now stmt) }
{
    match prog.entry(stmt) {
        None => None,
        Some(entry) => entry.context.head,
    }
}

/// Adds the steps into a loop and those around it, at most so many.
#[tactic(auto, using(crate::proofs::EnteredLemmas::into_more, crate::proofs::EnteredLemmas::into_none, crate::proofs::EnteredLemmas::into_zero))]
fn enter_loops(
    prog: &View<'_>,
    most: u32,
    head: Option<StmtId>,
    steps: &mut Short<TargetStep>,
) -> Result<(), Memory>
    ensures added { OnOk result (steps.new ≡ steps.old ++ into_loops
        (loops_up (known_in prog.now) most head)) }
{
    if most == 0 {
        return Ok(());
    }
    match head {
        None => Ok(()),
        Some(stmt) => {
            enter_loops(prog, most - 1, head_of(prog, stmt), steps)?;
            steps.push(TargetStep::Take(stmt))
        }
    }
}

/// Adds the steps into the loops around a statement, outermost first. It takes time linear in the blocks around it.
pub(crate) fn enter_loops_around(
    node: &Node<'_>,
    steps: &mut Short<TargetStep>,
) -> Result<(), Memory>
    ensures added { OnOk result (steps.new ≡ steps.old ++ into_loops (loops_around node.now)) }
{
    let context = node.known.context;
    enter_loops(node.prog, context.depth, context.head, steps)
}

/// The statement of a number.
#[tactic(auto, using(crate::proofs::EnteredLemmas::node_found, crate::proofs::EnteredLemmas::node_gone))]
#[inline]
pub(crate) fn node_of<'a>(prog: &'a View<'a>, stmt: StmtId) -> Option<Node<'a>>
    ensures is { option_map node_now result ≡ node_of (nodes_of (reverse (routines_of prog.now)))
        stmt }
{
    prog.procs();
    match prog.entry(stmt) {
        None => None,
        Some(known) => Some(Node { prog, known }),
    }
}
