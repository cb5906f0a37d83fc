//! States of the list segments' domain: all, or what one of a set of graphs covers.
ghost use Rattle.std.specs.Prelude.{◌≡◌, IfOk, IfSome, [], List, true};
ghost use Rattle.std.specs.Option.{option_map};
ghost use Rattle.dom_listseg_meaning.specs.State.{Segments, Top, Graphs, segments_same, segments_fed};
ghost use Rattle.dom_listseg_meaning.proofs.StateLaws.{segments_equiv, segments_per, segments_fed-same};
ghost use Rattle.dom_listseg_meaning.specs.Operations as operations;
ghost use Rattle.dom_listseg_meaning.specs.Sets.{rises};
ghost use Rattle.dom_listseg_words.specs.Words.{state_in};

use base_values::Memory;
use dom_listseg_sets::{FoldedGraph, GraphSet};
use std::alloc::Global;
use std::hash::{Hash, Hasher};
use std::marker::Model;
use std::rc::Rc;

/// A state of list segments: all, or what one of its graphs covers. Copies share the set of graphs.
#[derive(Drop)]
pub struct SegmentState {
    pub(crate) kept: Kept,
}

#[derive(Drop)]
pub(crate) enum Kept {
    Top,
    Graphs(Rc<GraphSet>),
}

impl Model for SegmentState {
    ghost use Rattle.dom_listseg_meaning.specs.State.{Segments, segments_code};

    ghost Value = { Segments };

    ghost coded = { segments_code };

    ghost use Rattle.dom_listseg.specs.View.{segments_of};

    ghost view = { λ a. segments_of a.kept };
}

impl PartialEq for SegmentState {
    ghost eq = { segments_same };

    ghost laws = { segments_per };

    fn eq(&self, other: &SegmentState) -> bool {
        match (&self.kept, &other.kept) {
            (Kept::Top, Kept::Top) => true,
            (Kept::Graphs(a), Kept::Graphs(b)) => *listed(a) == *listed(b),
            _ => false,
        }
    }
}

impl Eq for SegmentState {
    ghost laws = { segments_equiv };
}

impl Hash for SegmentState {
    ghost hash_input = { segments_fed };

    ghost respects_eq = { segments_fed-same };

    fn hash<H: Hasher>(&self, state: &mut H) {
        match &self.kept {
            Kept::Top => state.write_u8(0),
            Kept::Graphs(shared) => {
                state.write_u8(1);
                listed(shared).hash(state);
            }
        }
    }
}

impl SegmentState {
    /// The state of these graphs, Top where there are none. It fails only when memory runs out.
    pub fn from_graphs(alloc: Global, graphs: Option<GraphSet>) -> Result<SegmentState, Memory>
        ensures exact { IfOk result (λ s. s ≡ state_in graphs) }
    {
        match graphs {
            None => Ok(top()),
            Some(graphs) => within(alloc, graphs),
        }
    }

    /// The graphs of the state in their order, none where it is Top.
    pub fn graphs(&self) -> Option<&[FoldedGraph]>
        ensures exact { state_in (option_map (λ g. g.now) result) ≡ self.now }
        ensures rises { IfSome result (λ g. rises g.now ≡ true) }
    {
        match &self.kept {
            Kept::Top => None,
            Kept::Graphs(shared) => Some(listed(shared)),
        }
    }
}

/// All.
pub fn top() -> SegmentState
    ensures top { result ≡ Top }
{
    SegmentState { kept: Kept::Top }
}

/// What one of these graphs covers.
pub fn within(alloc: Global, graphs: GraphSet) -> Result<SegmentState, Memory>
    ensures graphs { IfOk result (λ s. s ≡ Graphs graphs) }
{
    let shared = Rc::new(alloc, graphs)?;
    Ok(SegmentState {
        kept: Kept::Graphs(shared),
    })
}

/// Nothing.
pub fn empty(alloc: Global) -> Result<SegmentState, Memory>
    ensures empty { IfOk result (λ s. s ≡ Graphs []) }
{
    within(alloc, GraphSet::new(alloc))
}

/// The graphs that a state shares.
pub fn listed(shared: &Rc<GraphSet>) -> &[FoldedGraph]
    ensures listed { result.now ≡ shared.now.value }
    ensures rises { rises result.now ≡ true }
{
    shared.as_ref().as_slice()
}

/// Whether nothing is described.
#[tactic(auto, unfolding(dom_listseg_meaning::specs::Operations::dead))]
pub fn is_empty(s: &SegmentState) -> bool
    ensures exact { result ≡ operations.dead s.now }
{
    match &s.kept {
        Kept::Top => false,
        Kept::Graphs(shared) => listed(shared).is_empty(),
    }
}

/// The state once more, which shares its graphs.
pub fn copy_of(s: &SegmentState) -> Result<SegmentState, Memory>
    ensures same { IfOk result (λ t. t ≡ s.now) }
{
    match &s.kept {
        Kept::Top => Ok(top()),
        Kept::Graphs(shared) => {
            let shared = shared.clone()?;
            Ok(SegmentState {
                kept: Kept::Graphs(shared),
            })
        }
    }
}
