//! What a frame still has to do.
ghost use Rattle.std.specs.Prelude.{◌≡◌, ◌∷◌, [], ◌<◌, OnOk, IfSome, MatchOption};
ghost use Rattle.std.specs.Vec.{vec_len};
ghost use Rattle.imp_slots.specs.BlockViews.{code_of};
ghost use Rattle.concrete_sem.specs.Steps.{Work, push};
ghost use Rattle.imp_run.specs.Work.{put, work_on, Leaves};

use base_values::Memory;
use imp_slots::{SlotBlock, SlotCall, SlotCond, SlotNode};

/// An item of work. Under the last one of a frame stands the return from its procedure.
#[derive(Clone, Copy)]
pub(crate) enum Item<'a> {
    /// Statements to be done: the first, and those after it.
    Do(&'a SlotNode, &'a [SlotNode]),
    /// A statement that has just been done, and its call where it is one.
    Done(u32, Option<&'a SlotCall>),
    /// A loop whose condition is to be tested.
    Test(u32, &'a SlotCond, &'a SlotBlock),
}

/// Puts an item on top.
#[tactic(auto, using(crate::proofs::WorkLemmas::work_on_push))]
pub(crate) fn push_item<'a>(work: &mut Vec<Item<'a>>, item: Item<'a>) -> Result<(), Memory>
    ensures is { OnOk result ((w : Work) → work_on w work.new.items ≡
        put item.entry (work_on w work.old.items)) }
{
    work.push(item)?;
    Ok(())
}

/// Puts the statements of a block on top.
#[tactic(auto, using(crate::proofs::WorkLemmas::work_on_push, crate::proofs::WorkLemmas::push_before))]
pub(crate) fn push_block<'a>(work: &mut Vec<Item<'a>>, block: &'a [SlotNode]) -> Result<(), Memory>
    ensures is { OnOk result ((w : Work) → work_on w work.new.items ≡
        push (code_of block.now) (work_on w work.old.items)) }
{
    match block {
        [] => Ok(()),
        [first, rest @ ..] => push_item(work, Item::Do(first, rest)),
    }
}

/// Takes the item on top away.
#[tactic(auto, using(crate::proofs::WorkLemmas::work_on_push))]
pub(crate) fn pop_item<'a>(work: &mut Vec<Item<'a>>) -> Option<Item<'a>>
    ensures fewer { IfSome result (λ item. vec_len work.new < vec_len work.old) }
    ensures is { MatchOption result ((w : Work) → work_on w work.old.items ≡ w)
        (λ item. (w : Work) → work_on w work.old.items ≡ put item (work_on w work.new.items)) }
{
    work.pop()
}

/// Takes the items down to the first test away, that one too, and gives its loop.
pub(crate) fn leave_loop<'a>(work: &mut Vec<Item<'a>>) -> Option<u32>
    ensures is { Leaves result work.old.items work.new.items }
{
    while let Some(item) = pop_item(work) {
        match item {
            Item::Test(number, _, _) => return Some(number),
            Item::Do(_, _) => {}
            Item::Done(_, _) => {}
        }
    }
    None
}
