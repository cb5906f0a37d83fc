//! The text of a state.
ghost use Rattle.std.specs.Prelude.{◌≡◌, ◌++◌, ◌+◌, ◌<◌, ◌^◌, IfOk, OnOk, [], ◌∷◌, length};
ghost use Rattle.dbm_close.specs.Steps.{half};
ghost use Rattle.dbm_core.specs.Limits.{IsWithin};
ghost use Rattle.dbm_core.specs.Weights.{add_weight};
ghost use Rattle.dom_octagon_states.specs.Limits.{IsTight};
ghost use Rattle.dom_octagon_meaning.specs.Text as texts;

use crate::calls::bound_at;
use crate::evaluate::range;
use base_values::{Memory, Text};
use dbm_core::other_sign;
use dom_numeric::{put_name, put_range, put_space};
use dom_octagon_states::{Bounds, OctagonState, closure};
use imp_slots::{Layout, NumericSlot};
use itoa::Buffer;
use std::alloc::Global;

/// The ranges of the slots from this one on.
#[tactic(auto, using(base_values::proofs::Joined::joined_3))]
fn put_ranges(
    text: &mut Text,
    m: &Bounds,
    slot: usize,
    numbers: &[NumericSlot],
) -> Result<(), Memory>
    requires tight { IsTight m.now }
    requires room { slot + length numbers.now < 2 ^ 60 }
    ensures value { OnOk result (text.new ≡ text.old ++ texts.ranges_text m.now slot numbers.now) }
{
    match numbers {
        [] => Ok(()),
        [number, rest @ ..] => {
            put_space(text, slot)?;
            put_range(text, number, range(m, slot))?;
            put_ranges(text, m, slot + 1, rest)
        }
    }
}

/// Half the sum of two bounds of a state.
fn half_sum(a: Option<i128>, b: Option<i128>) -> Option<i128>
    requires left { IsWithin (2 ^ 64) a }
    requires right { IsWithin (2 ^ 64) b }
    ensures value { result ≡ half (add_weight a b) }
{
    match (a, b) {
        (Some(x), Some(y)) => Some((x + y).div_euclid(2)),
        (None, _) => None,
        (Some(_), None) => None,
    }
}

/// Whether a bound is less than another; none is greater than all.
fn is_sharper(bound: Option<i128>, other: Option<i128>) -> bool
    ensures value { result ≡ texts.is_sharper bound other }
{
    match (bound, other) {
        (Some(c), Some(h)) => c < h,
        (Some(_), None) => true,
        (None, _) => false,
    }
}

/// The bound on two nodes, where it is less than half the sum of their own.
#[tactic(auto, using(crate::proofs::Tables::bound_within))]
fn sharp(m: &Bounds, i: usize, j: usize) -> Option<i128>
    requires tight { IsTight m.now }
    requires row { i < 2 ^ 62 }
    requires column { j < 2 ^ 62 }
    ensures value { result ≡ texts.sharp m.now i j }
{
    let _slots = m.kinds();
    let bound = bound_at(m, i, j);
    let own = bound_at(m, i, other_sign(i));
    let other = bound_at(m, other_sign(j), j);
    if is_sharper(bound, half_sum(own, other)) {
        bound
    } else {
        None
    }
}

/// What a bound says of two slots.
#[tactic(auto, unfolding(dom_octagon_meaning::specs::Text::bound_text), using(base_values::proofs::Joined::joined_6))]
fn put_bound(
    text: &mut Text,
    sign: &[u8],
    first: &NumericSlot,
    between: u8,
    second: &NumericSlot,
    bound: Option<i128>,
) -> Result<(), Memory>
    ensures value { OnOk result (text.new ≡ text.old ++ texts.bound_text sign.now first.now
        (between ∷ []) second.now bound) }
{
    let Some(bound) = bound else {
        return Ok(());
    };
    text.append(sign)?;
    put_name(text, first)?;
    text.push(between)?;
    put_name(text, second)?;
    text.append(b"<=")?;
    let mut buffer = Buffer::new();
    text.append(buffer.format(bound).as_bytes())
}

/// The sharp bounds on two slots.
#[tactic(auto, unfolding(dom_octagon_meaning::specs::Text::pair_text), using(base_values::proofs::Joined::joined_4))]
fn put_pair(
    text: &mut Text,
    m: &Bounds,
    a: usize,
    first: &NumericSlot,
    b: usize,
    second: &NumericSlot,
) -> Result<(), Memory>
    requires tight { IsTight m.now }
    requires row { a < 2 ^ 60 }
    requires column { b < 2 ^ 60 }
    ensures value { OnOk result (text.new ≡ text.old ++ texts.pair_text m.now a first.now b
        second.now) }
{
    put_bound(text, b" ", first, b'-', second, sharp(m, 2 * b, 2 * a))?;
    put_bound(text, b" ", second, b'-', first, sharp(m, 2 * a, 2 * b))?;
    put_bound(text, b" ", first, b'+', second, sharp(m, 2 * b + 1, 2 * a))?;
    put_bound(text, b" -", first, b'-', second, sharp(m, 2 * b, 2 * a + 1))
}

/// The pairs of slot a with those from b on.
#[tactic(auto, using(base_values::proofs::Joined::joined_2))]
fn put_pairs_with(
    text: &mut Text,
    m: &Bounds,
    a: usize,
    first: &NumericSlot,
    b: usize,
    numbers: &[NumericSlot],
) -> Result<(), Memory>
    requires tight { IsTight m.now }
    requires row { a < 2 ^ 60 }
    requires room { b + length numbers.now < 2 ^ 60 }
    ensures value { OnOk result (text.new ≡ text.old ++ texts.pairs_with m.now a first.now b
        numbers.now) }
{
    match numbers {
        [] => Ok(()),
        [second, rest @ ..] => {
            put_pair(text, m, a, first, b, second)?;
            put_pairs_with(text, m, a, first, b + 1, rest)
        }
    }
}

/// The pairs of the slots from this one on.
#[tactic(auto, using(base_values::proofs::Joined::joined_2))]
fn put_pairs(
    text: &mut Text,
    m: &Bounds,
    slot: usize,
    numbers: &[NumericSlot],
) -> Result<(), Memory>
    requires tight { IsTight m.now }
    requires room { slot + length numbers.now < 2 ^ 60 }
    ensures value { OnOk result (text.new ≡ text.old ++ texts.pairs_text m.now slot numbers.now) }
{
    match numbers {
        [] => Ok(()),
        [first, rest @ ..] => {
            put_pairs_with(text, m, slot, first, slot + 1, rest)?;
            put_pairs(text, m, slot + 1, rest)
        }
    }
}

/// The text of a closed matrix: `any` where there are no slots.
fn matrix_text(alloc: Global, numbers: &[NumericSlot], m: &Bounds) -> Result<Text, Memory>
    requires tight { IsTight m.now }
    ensures value { IfOk result (λ v. v ≡ texts.matrix_text numbers.now m.now) }
{
    let mut text = Text::new(alloc);
    if numbers.is_empty() {
        text.append(b"any")?;
        return Ok(text);
    }
    put_ranges(&mut text, m, 0, numbers)?;
    put_pairs(&mut text, m, 0, numbers)?;
    Ok(text)
}

/// A state's text: `none` where the closed state is empty.
#[tactic(auto, unfolding(dom_octagon_meaning::specs::Text::text))]
pub fn state_text(alloc: Global, layout: &Layout, s: &OctagonState) -> Result<Text, Memory>
    ensures value { IfOk result (λ v. v ≡ texts.text layout.now s.now) }
{
    match closure(s) {
        None => Text::from_slice(alloc, b"none"),
        Some(m) => matrix_text(alloc, layout.numbers(), m),
    }
}
