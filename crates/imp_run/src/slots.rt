//! The variables of a frame.
ghost use Rattle.std.specs.Prelude.{◌≡◌, ◌∷◌, [], ◌++◌, ◌<◌, pos, length, map, slice_get, slice_set, IfOk, OnOk};
ghost use Rattle.concrete_sem.specs.Values.{int_at, array_at, link_at, number_at, with_number, with_link, Int, Array};
ghost use Rattle.concrete_sem.specs.Passing.{first_number, first_link, over};
ghost use Rattle.imp_run.specs.Slots.{number_of, elements_of};

use crate::elements::Elements;
use base_values::{Memory, Text};
use imp_slots::{Layout, NumericSlot};
use std::alloc::Global;
use std::marker::Model;
use std::mem::replace;

/// What a numeric slot holds.
#[derive(Drop)]
pub(crate) enum SlotValue {
    Int(i64),
    Array(Elements),
}

/// The variables of a frame, by slots.
#[derive(Drop)]
pub(crate) struct Slots {
    numbers: Vec<SlotValue>,
    links: Vec<Option<usize>>,
}

impl Model for Slots {
    ghost use Rattle.std.specs.Prelude.{map};
    ghost use Rattle.concrete_sem.specs.Values.{Variables};

    ghost Value = { Variables };

    ghost use Rattle.imp_run.specs.Slots.{number_of};

    ghost view = { λ a. record { numbers = map number_of a.numbers.items; links = a.links.items } };
}

impl Slots {
    /// No slots.
    pub(crate) fn new(alloc: Global) -> Slots
        ensures numbers { result.numbers ≡ [] }
        ensures links { result.links ≡ [] }
    {
        Slots {
            numbers: Vec::new(alloc),
            links: Vec::new(alloc),
        }
    }

    /// Adds a numeric slot after the others.
    pub(crate) fn add_number(&mut self, held: SlotValue) -> Result<(), Memory>
        ensures numbers { OnOk result (self.new.numbers ≡ self.old.numbers ++ number_of held ∷ []) }
        ensures links { self.new.links ≡ self.old.links }
    {
        self.numbers.push(held)?;
        Ok(())
    }

    /// Adds a link slot after the others.
    pub(crate) fn add_link(&mut self, link: Option<usize>) -> Result<(), Memory>
        ensures numbers { self.new.numbers ≡ self.old.numbers }
        ensures links { OnOk result (self.new.links ≡ self.old.links ++ link ∷ []) }
    {
        self.links.push(link)?;
        Ok(())
    }

    /// The first slots stay, and the others of the layout are added as they start; slots that the
    /// layout does not have go.
    pub(crate) fn fill(&mut self, layout: &Layout) -> Result<(), Memory>
        ensures numbers { OnOk result (self.new.numbers ≡
            over self.old.numbers (map first_number layout.now.numbers)) }
        ensures links { OnOk result (self.new.links ≡ over self.old.links
            (map first_link layout.now.links)) }
    {
        fill_numbers(&mut self.numbers, layout.numbers())?;
        fill_links(&mut self.links, layout.links())
    }

    /// The int of a slot, 0 where it holds none.
    pub(crate) fn int_at(&self, x: u32) -> i64
        ensures is { result ≡ int_at self.now x }
    {
        match self.numbers.get(x as usize) {
            Some(SlotValue::Int(z)) => *z,
            Some(SlotValue::Array(_)) => 0,
            None => 0,
        }
    }

    /// The length of the array of a slot, 0 where it holds none.
    pub(crate) fn length_at(&self, a: u32) -> i64
        ensures is { result ≡ pos (length (array_at self.now a)) }
    {
        match self.numbers.get(a as usize) {
            Some(SlotValue::Int(_)) => 0,
            Some(SlotValue::Array(elements)) => elements.len() as i64,
            None => 0,
        }
    }

    /// The link of a slot, null where it holds none.
    pub(crate) fn link_at(&self, p: u32) -> Option<usize>
        ensures is { result ≡ link_at self.now p }
    {
        match self.links.get(p as usize) {
            Some(link) => *link,
            None => None,
        }
    }

    /// The elements of the array of a slot, shared; none where it holds none.
    pub(crate) fn share_array(&self, a: u32) -> Result<Elements, Memory>
        ensures is { IfOk result (λ e. e ≡ array_at self.now a) }
    {
        match self.numbers.get(a as usize) {
            Some(SlotValue::Int(_)) => Ok(Elements::none()),
            Some(SlotValue::Array(elements)) => elements.share(),
            None => Ok(Elements::none()),
        }
    }

    /// An element of the array of a slot.
    pub(crate) fn element_at(&self, a: u32, at: usize) -> Option<i64>
        ensures is { result ≡ slice_get (array_at self.now a) at }
    {
        match self.numbers.get(a as usize) {
            Some(SlotValue::Int(_)) => None,
            Some(SlotValue::Array(elements)) => elements.get(at),
            None => None,
        }
    }

    /// Sets a numeric slot, where it is there.
    pub(crate) fn set_number(&mut self, x: u32, held: SlotValue)
        ensures is { self.new ≡ with_number self.old x (number_of held) }
    {
        put(&mut self.numbers, x as usize, held);
    }

    /// Sets a link slot, where it is there.
    pub(crate) fn set_link(&mut self, p: u32, link: Option<usize>)
        ensures is { self.new ≡ with_link self.old p link }
    {
        let p = p as usize;
        if p < self.links.len() {
            self.links[p] = link;
        }
    }

    /// What a numeric slot holds, shared; 0 where it is not there.
    pub(crate) fn share_number(&self, x: u32) -> Result<SlotValue, Memory>
        ensures is { IfOk result (λ h. number_of h ≡ number_at self.now x) }
    {
        match self.numbers.get(x as usize) {
            Some(SlotValue::Int(z)) => Ok(SlotValue::Int(*z)),
            Some(SlotValue::Array(elements)) => Ok(SlotValue::Array(elements.share()?)),
            None => Ok(SlotValue::Int(0)),
        }
    }

    /// Takes the elements of the array of a slot, and leaves it an int.
    fn take_array(&mut self, a: u32) -> Elements
        ensures elements { result ≡ array_at self.old a }
        ensures left { self.new ≡ with_number self.old a (Int (pos 0)) }
    {
        elements_of(take(&mut self.numbers, a as usize))
    }

    /// Sets an element of the array of a slot, which has one at that place. Elements that are shared
    /// are copied first.
    #[tactic(auto, using(crate::proofs::SlotLemmas::set_twice))]
    pub(crate) fn set_element(
        &mut self,
        alloc: Global,
        a: u32,
        at: usize,
        value: i64,
    ) -> Result<(), Memory>
        requires there { at < length (array_at self.old a) }
        ensures is { OnOk result (self.new ≡ with_number self.old a
            (Array (slice_set (array_at self.old a) at value))) }
    {
        let taken = self.take_array(a);
        let elements = taken.with(alloc, at, value)?;
        self.set_number(a, SlotValue::Array(elements));
        Ok(())
    }
}

/// The elements of an array, none where it is none.
fn elements_of(held: Option<SlotValue>) -> Elements
    ensures is { result ≡ elements_of held }
{
    match held {
        Some(SlotValue::Array(elements)) => elements,
        Some(SlotValue::Int(_)) => Elements::none(),
        None => Elements::none(),
    }
}

/// Puts something in a place of a list, where it is there.
fn put(numbers: &mut Vec<SlotValue>, at: usize, held: SlotValue)
    ensures is { numbers.new.items ≡ slice_set numbers.old.items at held }
{
    if at < numbers.len() {
        let _old = replace(&mut numbers[at], held);
    }
}

/// Takes what is in a place of a list, where it is there, and leaves an int.
fn take(numbers: &mut Vec<SlotValue>, at: usize) -> Option<SlotValue>
    ensures is { result ≡ slice_get numbers.old.items at }
    ensures left { numbers.new.items ≡ slice_set numbers.old.items at (SlotValue.Int (pos 0)) }
{
    if at < numbers.len() {
        Some(replace(&mut numbers[at], SlotValue::Int(0)))
    } else {
        None
    }
}

/// What a numeric slot starts with.
fn first_held(slot: &NumericSlot) -> SlotValue
    ensures is { number_of result ≡ first_number slot.now }
{
    if slot.is_array() {
        SlotValue::Array(Elements::none())
    } else {
        SlotValue::Int(0)
    }
}

fn fill_numbers(numbers: &mut Vec<SlotValue>, layout: &[NumericSlot]) -> Result<(), Memory>
    ensures is { OnOk result (map number_of numbers.new.items ≡
        over (map number_of numbers.old.items) (map first_number layout.now)) }
{
    numbers.truncate(layout.len());
    for slot in &layout[numbers.len()..] {
        numbers.push(first_held(slot))?;
    }
    Ok(())
}

fn fill_links(links: &mut Vec<Option<usize>>, layout: &[Text]) -> Result<(), Memory>
    ensures is { OnOk result (links.new.items ≡ over links.old.items (map first_link layout.now)) }
{
    links.truncate(layout.len());
    for _name in &layout[links.len()..] {
        links.push(None)?;
    }
    Ok(())
}
