//! The slots of a procedure's variables.
ghost use Rattle.std.specs.Prelude.{◌≡◌, ◌<◌, ◌≤◌, ◌^◌, ◌++◌, length, IfOk, OnOk};
ghost use Rattle.imp_check.specs.Programs.{count_numeric, count_links};
ghost use Rattle.imp_check.specs.Slots.{numerics, links, layout_of, number_slot, link_slot, names_array, names_link, number_in, link_in, is_array_in, is_link_in};

use crate::names::same_name;
use base_values::{Items, Memory, Text};
use imp_slots::{Layout, NumericSlot};
use imp_syntax::{Declaration, VariableKind};
use std::alloc::Global;
use std::marker::Model;

/// The layout of a procedure of few variables, seen as the layout.
#[derive(Drop)]
pub(crate) struct Slots {
    layout: Layout,
}

impl Model for Slots {
    ghost use Rattle.std.specs.Prelude.{◌<◌, ◌^◌, length};
    ghost use Rattle.imp_slots.specs.Plain.{Layout};
    ghost use Rattle.imp_slots.specs.PartCodes.{layout_code};

    ghost Value = { Layout };

    ghost coded = { layout_code };

    ghost view = { λ a. a.layout };

    ghost invariant = { λ a. (length a.layout.numbers < 2 ^ 32) ×
        (length a.layout.links < 2 ^ 32) };
}

impl Slots {
    /// The layout of these variables.
    #[tactic(auto, using(crate::proofs::SlotLemmas::length_numerics, crate::proofs::SlotLemmas::length_links))]
    pub(crate) fn new(alloc: Global, variables: &[Declaration]) -> Result<Slots, Memory>
        requires numbers { count_numeric variables.now < 17 }
        requires links { count_links variables.now < 9 }
        ensures is { IfOk result (λ slots. slots ≡ layout_of variables.now) }
    {
        let numbers = numerics(alloc, variables)?;
        let links = links(alloc, variables)?;
        let layout = Layout::new(alloc, numbers, links)?;
        Ok(Slots { layout })
    }

    /// The slots of this layout.
    pub(crate) fn of(layout: Layout) -> Slots
        requires numbers { length layout.numbers < 2 ^ 32 }
        requires links { length layout.links < 2 ^ 32 }
        ensures is { result ≡ layout }
    {
        Slots { layout }
    }

    pub(crate) fn layout(&self) -> &Layout
        ensures is { result.now ≡ self.now }
    {
        &self.layout
    }

    /// The slot of an int or an array.
    pub(crate) fn number(&self, name: &Text) -> u32
        ensures is { result ≡ number_in self.now name.now }
    {
        number_slot(self.layout.numbers(), name)
    }

    /// The slot of a list.
    pub(crate) fn link(&self, name: &Text) -> u32
        ensures is { result ≡ link_in self.now name.now }
    {
        link_slot(self.layout.links(), name)
    }

    pub(crate) fn is_array(&self, name: &Text) -> bool
        ensures is { result ≡ is_array_in self.now name.now }
    {
        names_array(self.layout.numbers(), name)
    }

    pub(crate) fn is_link(&self, name: &Text) -> bool
        ensures is { result ≡ is_link_in self.now name.now }
    {
        names_link(self.layout.links(), name)
    }
}

#[tactic(auto, using(crate::proofs::SlotLemmas::numerics_step))]
fn numerics(alloc: Global, variables: &[Declaration]) -> Result<Items<NumericSlot>, Memory>
    ensures is { IfOk result (λ found. found ≡ numerics variables.now) }
{
    let mut numbers = Items::new(alloc);
    for variable in variables {
        match variable.kind {
            VariableKind::Int => numbers.push(NumericSlot::new(variable.name.clone()?, false))?,
            VariableKind::Array => numbers.push(NumericSlot::new(variable.name.clone()?, true))?,
            VariableKind::List => {}
        }
    }
    Ok(numbers)
}

fn links(alloc: Global, variables: &[Declaration]) -> Result<Items<Text>, Memory>
    ensures is { IfOk result (λ found. found ≡ links variables.now) }
{
    let mut found = Items::new(alloc);
    for variable in variables {
        match variable.kind {
            VariableKind::List => found.push(variable.name.clone()?)?,
            _ => {}
        }
    }
    Ok(found)
}

fn number_slot(numbers: &[NumericSlot], name: &Text) -> u32
    requires few { length numbers.now < 2 ^ 32 }
    ensures is { result ≡ number_slot numbers.now name.now }
{
    let mut slot = 0;
    for number in numbers {
        if same_name(number.name(), name) {
            return slot;
        }
        slot += 1;
    }
    slot
}

fn link_slot(links: &[Text], name: &Text) -> u32
    requires few { length links.now < 2 ^ 32 }
    ensures is { result ≡ link_slot links.now name.now }
{
    let mut slot = 0;
    for link in links {
        if same_name(link, name) {
            return slot;
        }
        slot += 1;
    }
    slot
}

fn names_array(numbers: &[NumericSlot], name: &Text) -> bool
    ensures is { result ≡ names_array numbers.now name.now }
{
    for number in numbers {
        if same_name(number.name(), name) {
            return number.is_array();
        }
    }
    false
}

fn names_link(links: &[Text], name: &Text) -> bool
    ensures is { result ≡ names_link links.now name.now }
{
    for link in links {
        if same_name(link, name) {
            return true;
        }
    }
    false
}
