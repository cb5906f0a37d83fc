//! Calls over slots: how values pass into the callee and back.
ghost use Rattle.std.specs.Prelude.{◌≡◌, IfOk, map};
ghost use Rattle.imp_slots.specs.CallViews.{argument_of, taken_of};

use crate::{Layout, SlotExpr};
use base_values::{Items, Memory};
use std::alloc::{AllocError, Global};
use std::marker::Model;
use std::rc::Rc;

/// An argument of a call.
#[derive(Drop)]
pub enum Argument {
    /// An int.
    Int(SlotExpr),
    /// The array of a numeric slot.
    Array(u32),
    /// The link of a link slot, or null.
    Link(Option<u32>),
}

impl Clone for Argument {
    ghost is_clone = { λ a copy. copy ≡ a };

    fn clone(&self) -> Result<Argument, AllocError> {
        match self {
            Argument::Int(e) => Ok(Argument::Int(e.clone()?)),
            Argument::Array(a) => Ok(Argument::Array(*a)),
            Argument::Link(p) => Ok(Argument::Link(*p)),
        }
    }
}

/// What entering a procedure uses, shared by its copies: the layout of the procedure, and the
/// arguments in the order of its parameters.
#[derive(Drop)]
pub struct Entering {
    parts: Rc<EnteringParts>,
}

#[derive(Drop)]
struct EnteringParts {
    layout: Layout,
    arguments: Items<Argument>,
}

impl Model for Entering {
    ghost use Rattle.std.specs.Prelude.{map};
    ghost use Rattle.imp_slots.specs.Plain as plain;
    ghost use Rattle.imp_slots.specs.PartCodes.{entering_code};

    ghost Value = { plain.Entering };

    ghost coded = { entering_code };

    ghost use Rattle.imp_slots.specs.CallViews.{argument_of};

    ghost view = { λ a. record {
      layout = a.parts.value.layout;
      arguments = map argument_of a.parts.value.arguments;
    } };
}

impl Entering {
    /// Entering a procedure of this layout with these arguments. It fails only when memory runs out.
    pub fn new(
        alloc: Global,
        layout: Layout,
        arguments: Items<Argument>,
    ) -> Result<Entering, Memory>
        ensures same { IfOk result (λ e. e ≡ record {
          layout = layout;
          arguments = map argument_of arguments;
        }) }
    {
        let parts = Rc::new(alloc, EnteringParts { layout, arguments })?;
        Ok(Entering { parts })
    }

    /// The layout of the procedure that is entered.
    pub fn layout(&self) -> &Layout
        ensures same { result.now ≡ self.now.layout }
    {
        &self.parts.as_ref().layout
    }

    /// The arguments, in the order of the parameters.
    pub fn arguments(&self) -> &[Argument]
        ensures same { map argument_of result.now ≡ self.now.arguments }
    {
        self.parts.as_ref().arguments.as_slice()
    }
}

impl Clone for Entering {
    ghost is_clone = { λ e copy. copy ≡ e };

    fn clone(&self) -> Result<Entering, AllocError> {
        let parts = self.parts.clone()?;
        Ok(Entering { parts })
    }
}

/// A result that is taken: from a slot of the callee to a slot of the caller.
#[derive(Clone, Copy, Debug, PartialEq, Eq, Hash)]
pub enum Returning {
    /// From a numeric slot to one.
    Numeric {
        /// The caller's slot.
        to: u32,
        /// The callee's slot.
        from: u32,
    },
    /// From a link slot to one.
    Link {
        /// The caller's slot.
        to: u32,
        /// The callee's slot.
        from: u32,
    },
}

/// A call: what entering its procedure uses, and what is taken of the result.
#[derive(Drop)]
pub struct SlotCall {
    entering: Entering,
    returning: Option<Returning>,
}

impl Model for SlotCall {
    ghost use Rattle.imp_slots.specs.Plain.{Invoke};
    ghost use Rattle.imp_slots.specs.PartCodes.{invoke_code};

    ghost Value = { Invoke };

    ghost coded = { invoke_code };

    ghost use Rattle.imp_slots.specs.CallViews.{taken_of};

    ghost view = { λ a. record { entering = a.entering; returning = taken_of a.returning } };
}

impl SlotCall {
    /// The call of these parts.
    pub fn new(entering: Entering, returning: Option<Returning>) -> SlotCall
        ensures same { result ≡ record { entering = entering; returning = taken_of returning } }
    {
        SlotCall {
            entering,
            returning,
        }
    }

    /// What entering the procedure uses.
    pub fn entering(&self) -> &Entering
        ensures same { result.now ≡ self.now.entering }
    {
        &self.entering
    }

    /// What is taken of the result.
    pub fn returning(&self) -> Option<Returning>
        ensures same { taken_of result ≡ self.now.returning }
    {
        self.returning
    }
}

impl Clone for SlotCall {
    ghost is_clone = { λ call copy. copy ≡ call };

    fn clone(&self) -> Result<SlotCall, AllocError> {
        let entering = self.entering.clone()?;
        Ok(SlotCall {
            entering,
            returning: self.returning,
        })
    }
}
