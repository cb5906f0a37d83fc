//! The variables of procedures.
ghost use Rattle.std.specs.Prelude.{◌≡◌, IfOk};

use base_values::{Items, Memory, Text};
use std::alloc::{AllocError, Global};
use std::marker::Model;
use std::rc::Rc;

/// A slot of a number: an int, or an array, of which domains know the length.
#[derive(Drop)]
pub struct NumericSlot {
    name: Text,
    is_array: bool,
}

impl Model for NumericSlot {
    ghost use Rattle.imp_slots.specs.Plain.{Numeric};
    ghost use Rattle.imp_slots.specs.PartCodes.{numeric_code};

    ghost Value = { Numeric };

    ghost coded = { numeric_code };

    ghost view = { λ a. record { name = a.name; is_array = a.is_array } };
}

impl NumericSlot {
    /// The slot of this name and kind.
    pub fn new(name: Text, is_array: bool) -> NumericSlot
        ensures same { result ≡ record { name = name; is_array = is_array } }
    {
        NumericSlot { name, is_array }
    }

    /// The variable's name.
    pub fn name(&self) -> &Text
        ensures same { result.now ≡ self.now.name }
    {
        &self.name
    }

    /// Whether the variable is an array.
    pub fn is_array(&self) -> bool
        ensures same { result ≡ self.now.is_array }
    {
        self.is_array
    }
}

impl Clone for NumericSlot {
    ghost is_clone = { λ slot copy. copy ≡ slot };

    fn clone(&self) -> Result<NumericSlot, AllocError> {
        let name = self.name.clone()?;
        Ok(NumericSlot {
            name,
            is_array: self.is_array,
        })
    }
}

/// The variables of a procedure, shared by its copies: ints and arrays are the numeric slots, list
/// variables the link slots, each counted from 0.
#[derive(Drop)]
pub struct Layout {
    slots: Rc<Slots>,
}

#[derive(Drop)]
struct Slots {
    numbers: Items<NumericSlot>,
    links: Items<Text>,
}

impl Model for Layout {
    ghost use Rattle.imp_slots.specs.Plain as plain;
    ghost use Rattle.imp_slots.specs.PartCodes.{layout_code};

    ghost Value = { plain.Layout };

    ghost coded = { layout_code };

    ghost view = { λ a. record { numbers = a.slots.value.numbers; links = a.slots.value.links } };
}

impl Layout {
    /// The layout of these slots. It fails only when memory runs out.
    pub fn new(
        alloc: Global,
        numbers: Items<NumericSlot>,
        links: Items<Text>,
    ) -> Result<Layout, Memory>
        ensures same { IfOk result (λ layout. layout ≡ record {
          numbers = numbers;
          links = links;
        }) }
    {
        let slots = Rc::new(alloc, Slots { numbers, links })?;
        Ok(Layout { slots })
    }

    /// The numeric slots, in order.
    pub fn numbers(&self) -> &[NumericSlot]
        ensures same { result.now ≡ self.now.numbers }
    {
        self.slots.as_ref().numbers.as_slice()
    }

    /// The names of the link slots, in order.
    pub fn links(&self) -> &[Text]
        ensures same { result.now ≡ self.now.links }
    {
        self.slots.as_ref().links.as_slice()
    }
}

impl Clone for Layout {
    ghost is_clone = { λ layout copy. copy ≡ layout };

    fn clone(&self) -> Result<Layout, AllocError> {
        let slots = self.slots.clone()?;
        Ok(Layout { slots })
    }
}
