//! Texts, seen as the list of their bytes.
ghost use Rattle.std.specs.Prelude.{◌≡◌, [], ◌∷◌, ◌++◌, length, ◌↔◌, IsTrue, IfOk, OnOk, OnErr};
ghost use Rattle.std.specs.Str.{bytes_eq};
ghost use Rattle.std.specs.Cmp.{partial_equiv_from_equiv};
ghost use Rattle.std.specs.Cmp.Lexicographic.{nat_list_eq_equiv, bytes_decides};
ghost use Rattle.std.specs.Hash as fed;
ghost use Rattle.std.specs.Hash.{same_Alike};

use crate::Memory;
use std::alloc::{AllocError, Global};
use std::hash::{Hash, Hasher};
use std::marker::Model;

/// A text, seen as the list of its bytes. It need be no UTF-8.
#[derive(Debug, Drop)]
pub struct Text {
    bytes: Vec<u8>,
}

impl Model for Text {
    ghost use Rattle.std.specs.Prelude.{ℕ, List};

    ghost Value = { List ℕ };

    ghost view = { λ a. a.bytes.items };
}

impl Text {
    /// The empty text. It allocates nothing.
    pub fn new(alloc: Global) -> Text
        ensures empty { result ≡ [] }
    {
        Text {
            bytes: Vec::new(alloc),
        }
    }

    /// The empty text, with room for so many bytes. It fails only when memory runs out.
    pub fn with_capacity(alloc: Global, capacity: usize) -> Result<Text, Memory>
        ensures empty { IfOk result (λ text. text ≡ []) }
    {
        let bytes = Vec::with_capacity(alloc, capacity)?;
        Ok(Text { bytes })
    }

    /// The text of these bytes. It fails only when memory runs out.
    pub fn from_slice(alloc: Global, bytes: &[u8]) -> Result<Text, Memory>
        ensures same { IfOk result (λ text. text ≡ bytes.now) }
    {
        let bytes = Vec::from_slice(alloc, bytes)?;
        Ok(Text { bytes })
    }

    /// The bytes, in order.
    pub fn as_slice(&self) -> &[u8]
        ensures same { result.now ≡ self.now }
    {
        self.bytes.as_slice()
    }

    /// How many bytes there are.
    pub fn len(&self) -> usize
        ensures count { result ≡ length self.now }
    {
        self.bytes.len()
    }

    /// Whether there is no byte.
    pub fn is_empty(&self) -> bool
        ensures empty { IsTrue result ↔ (self.now ≡ []) }
    {
        self.bytes.is_empty()
    }

    /// Adds a byte at the end. When memory runs out the text stays.
    pub fn push(&mut self, byte: u8) -> Result<(), Memory>
        ensures added { OnOk result (self.new ≡ self.old ++ byte ∷ []) }
        ensures unchanged { OnErr result (self.new ≡ self.old) }
    {
        self.bytes.push(byte)?;
        Ok(())
    }

    /// Adds bytes at the end. When memory runs out the text stays.
    pub fn append(&mut self, bytes: &[u8]) -> Result<(), Memory>
        ensures added { OnOk result (self.new ≡ self.old ++ bytes.now) }
        ensures unchanged { OnErr result (self.new ≡ self.old) }
    {
        self.bytes.extend_from_slice(bytes)?;
        Ok(())
    }
}

impl Clone for Text {
    ghost is_clone = { λ text copy. copy ≡ text };

    fn clone(&self) -> Result<Text, AllocError> {
        let bytes = self.bytes.clone()?;
        Ok(Text { bytes })
    }
}

impl PartialEq for Text {
    ghost eq = { bytes_eq };

    ghost laws = { partial_equiv_from_equiv nat_list_eq_equiv };

    fn eq(&self, other: &Text) -> bool {
        self.bytes.as_slice() == other.bytes.as_slice()
    }
}

impl Eq for Text {
    ghost laws = { nat_list_eq_equiv };
}

impl Hash for Text {
    ghost hash_input = { fed.slice fed.u8 };

    ghost respects_eq = { (same_Alike (fed.slice fed.u8) bytes_decides).fed };

    fn hash<H: Hasher>(&self, state: &mut H) {
        self.bytes.hash(state);
    }
}
