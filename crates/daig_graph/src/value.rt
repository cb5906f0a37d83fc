//! Values of cells.
ghost use Rattle.std.specs.Prelude.{◌≡◌, IfOk};

use base_values::Memory;
use imp_syntax::{Chain, StmtId};
use std::alloc::{AllocError, Global};
use std::marker::Model;
use std::rc::Rc;

/// What a cell holds.
#[derive(Drop)]
pub enum Value<V> {
    /// A state.
    State(V),
    /// A loop used up its budget, under a chain of call sites.
    Over { head: StmtId, chain: SharedChain },
}

/// A chain of call sites, shared by its copies: each takes constant time.
#[derive(Drop)]
pub struct SharedChain {
    chain: Rc<Chain>,
}

impl Model for SharedChain {
    ghost use Rattle.std.specs.Prelude.{List, ℕ};

    ghost Value = { List ℕ };

    ghost view = { λ a. a.chain.value };
}

impl SharedChain {
    /// This chain.
    pub fn new(alloc: Global, chain: Chain) -> Result<SharedChain, Memory>
        ensures same { IfOk result (λ c. c ≡ chain) }
    {
        let chain = Rc::new(alloc, chain)?;
        Ok(SharedChain { chain })
    }

    /// The chain.
    pub fn chain(&self) -> &Chain
        ensures same { result.now ≡ self.now }
    {
        self.chain.as_ref()
    }
}

impl Clone for SharedChain {
    ghost is_clone = { λ chain copy. copy ≡ chain };

    fn clone(&self) -> Result<SharedChain, AllocError> {
        let chain = self.chain.clone()?;
        Ok(SharedChain { chain })
    }
}
