//! The states that are written, under their loops and call sites.
ghost use Rattle.std.specs.Prelude.{◌≡◌, ◌∷◌, [], List, ℕ, Some, IfOk, OnOk, if◌then◌else◌};
ghost use Rattle.std.specs.Map.{lookup};
ghost use Rattle.std.specs.Option.{option_copied};
ghost use Rattle.std.specs.Str.{bytes_eq};

use base_values::{Items, Memory};
use imp_syntax::StmtId;
use std::alloc::Global;
use std::collections::HashMap;
use std::marker::Model;

/// States, each under a loop and the call sites of its chain, the last one first.
#[derive(Drop)]
pub struct Written<S> {
    states: HashMap<Items<StmtId>, S>,
}

impl<S> Model for Written<S> {
    ghost use Rattle.std.specs.Prelude.{ℕ, List};

    ghost Value = { List (List ℕ × S) };

    ghost view = { λ a. a.states.entries };
}

/// What a state stands under: a loop, and after it the call sites of its chain, the last one first. It fails for want of
/// memory alone.
pub fn loop_key(alloc: Global, stmt: StmtId, sites: &[StmtId]) -> Result<Items<StmtId>, Memory>
    ensures is { IfOk result (λ key. key ≡ stmt ∷ sites.now) }
{
    let mut key = Vec::with_capacity(alloc, 9)?;
    key.push(stmt)?;
    key.extend_from_slice(sites)?;
    Ok(Items::from_vec(key))
}

impl<S: Drop> Written<S> {
    /// No states. It takes no memory yet.
    pub(crate) fn new(alloc: Global) -> Written<S>
        ensures empty { result ≡ [] }
    {
        Written {
            states: HashMap::new(alloc),
        }
    }

    /// The state under a loop and call sites, or `None` where none is written there. It takes the time of hashing them.
    pub fn get(&self, key: &Items<StmtId>) -> Option<&S>
        ensures state { option_copied result ≡ lookup (bytes_eq key.now) self.now }
    {
        self.states.get(key)
    }

    /// Writes the state of a loop under call sites.
    pub(crate) fn insert(&mut self, key: Items<StmtId>, state: S) -> Result<(), Memory>
        ensures put { OnOk result ((q : List ℕ) → lookup (bytes_eq q) self.new ≡
            (if bytes_eq key q then Some state else lookup (bytes_eq q) self.old)) }
    {
        self.states.insert(key, state)?;
        Ok(())
    }
}
