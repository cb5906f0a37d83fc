//! Lists turned round and put together.
ghost use Rattle.std.specs.Prelude.{◌≡◌, ◌++◌, reverse, OnOk, IfOk};
ghost use Rattle.batch_interp.specs.Handing.{in_one};

use base_values::{Items, Memory};
use std::alloc::Global;

/// The same list with its last item first.
pub(crate) fn last_first<T>(items: Items<T>) -> Items<T>
    ensures is { result ≡ reverse items }
{
    let mut all = items.into_vec();
    all.reverse();
    Items::from_vec(all)
}

/// Adds the items of another list, which goes.
#[tactic(auto, using(crate::proofs::Turned::one_moved, crate::proofs::Turned::turned_twice))]
pub(crate) fn append<T: Drop>(all: &mut Items<T>, more: Items<T>) -> Result<(), Memory>
    ensures added { OnOk result (all.new ≡ all.old ++ more) }
{
    let mut left = last_first(more);
    while let Some(next) = left.pop() {
        all.push(next)?;
    }
    Ok(())
}

/// The items of all these lists as one list. The lists come with the last one first.
#[tactic(auto, using(crate::proofs::Turned::one_put))]
pub(crate) fn in_one<T: Drop>(alloc: Global, parts: Items<Items<T>>) -> Result<Items<T>, Memory>
    ensures is { IfOk result (λ all. all ≡ in_one (reverse parts)) }
{
    let mut left = parts;
    let mut all = Items::new(alloc);
    while let Some(part) = left.pop() {
        append(&mut all, part)?;
    }
    Ok(all)
}
