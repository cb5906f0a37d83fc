//! The text of a state.
ghost use Rattle.std.specs.Prelude.{◌≡◌, ◌++◌, ◌+◌, ◌<◌, ◌^◌, ◌∷◌, [], IfOk, OnOk, if◌then◌else◌, codes};
ghost use Rattle.std.specs.Fmt.{decimal};
ghost use Rattle.dom_listseg_meaning.specs.State.{Graphs};
ghost use Rattle.dom_listseg_meaning.specs.Text as texts;

use crate::SegmentState;
use crate::state::{Kept, listed};
use crate::targets::last_slots;
use base_values::{Memory, Text};
use dom_listseg_sets::FoldedGraph;
use imp_slots::Layout;
use itoa::Buffer;
use shape_graph::{Atom, ShapeGraph};
use std::alloc::Global;

// A node's number, counted from 1.
fn put_number(text: &mut Text, node: usize) -> Result<(), Memory>
    ensures value { OnOk result (text.new ≡ text.old ++ decimal (node + 1)) }
{
    let mut buffer = Buffer::new();
    text.append(buffer.format(node as u128 + 1).as_bytes())
}

// `nil`, or the node's number.
#[tactic(auto, unfolding(dom_listseg_meaning::specs::Text::target_text))]
fn put_target(text: &mut Text, target: Option<usize>) -> Result<(), Memory>
    ensures value { OnOk result (text.new ≡ text.old ++ texts.target_text target) }
{
    match target {
        None => text.append(b"nil"),
        Some(node) => put_number(text, node),
    }
}

// A space before each slot but the first.
fn put_space(text: &mut Text, slot: usize) -> Result<(), Memory>
    ensures value { OnOk result (text.new ≡ text.old ++ texts.space_at slot) }
{
    if slot > 0 {
        text.push(b' ')?;
    }
    Ok(())
}

// `p=nil` or `p=k`, with a space before each but the first.
#[tactic(auto, using(base_values::proofs::Joined::joined_4))]
fn put_slot(text: &mut Text, slot: usize, name: &Text, target: Option<usize>) -> Result<(), Memory>
    ensures value { OnOk result (text.new ≡ text.old ++ (texts.space_at slot ++ name.now
        ++ codes "=" ++ texts.target_text target)) }
{
    put_space(text, slot)?;
    text.append(name.as_slice())?;
    text.append(b"=")?;
    put_target(text, target)
}

// What a node is.
fn put_kind(text: &mut Text, many: bool) -> Result<(), Memory>
    ensures value { OnOk result (text.new ≡ text.old ++ (if many
        then codes ":seg(" else codes ":one(")) }
{
    if many {
        text.append(b":seg(")
    } else {
        text.append(b":one(")
    }
}

// `k:one(t)` or `k:seg(t)`, with a space before.
#[tactic(auto, unfolding(dom_listseg_meaning::specs::Text::node_text), using(base_values::proofs::Joined::joined_5))]
fn put_node(text: &mut Text, node: usize, atom: Atom) -> Result<(), Memory>
    ensures value { OnOk result (text.new ≡ text.old ++ texts.node_text node atom) }
{
    text.append(b" ")?;
    put_number(text, node)?;
    put_kind(text, atom.many)?;
    put_target(text, atom.target)?;
    text.append(b")")
}

// The slots of a frame.
fn put_slots(text: &mut Text, names: &[Text], targets: &[Option<usize>]) -> Result<(), Memory>
    ensures value { OnOk result (text.new ≡ text.old ++ texts.slots_text 0 names.now targets.now) }
{
    for (slot, name) in names.iter().enumerate() {
        if slot >= targets.len() {
            break;
        }
        put_slot(text, slot, name, targets[slot])?;
    }
    Ok(())
}

// The nodes.
fn put_nodes(text: &mut Text, atoms: &[Atom]) -> Result<(), Memory>
    ensures value { OnOk result (text.new ≡ text.old ++ texts.nodes_text 0 atoms.now) }
{
    for (node, atom) in atoms.iter().enumerate() {
        put_node(text, node, *atom)?;
    }
    Ok(())
}

// The slots of the last frame, then the nodes.
#[tactic(auto, unfolding(dom_listseg_meaning::specs::Text::graph_text), using(base_values::proofs::Joined::joined_2))]
fn put_graph(text: &mut Text, names: &[Text], graph: &ShapeGraph) -> Result<(), Memory>
    ensures value { OnOk result (text.new ≡ text.old ++ texts.graph_text names.now graph.now) }
{
    if names.is_empty() {
        return text.append(b"any");
    }
    put_slots(text, names, last_slots(graph))?;
    put_nodes(text, graph.atoms())
}

// The graphs, with ` | ` before each.
fn put_more(text: &mut Text, names: &[Text], graphs: &[FoldedGraph]) -> Result<(), Memory>
    ensures value { OnOk result (text.new ≡ text.old ++ texts.more_text names.now graphs.now) }
{
    for graph in graphs {
        text.append(b" | ")?;
        put_graph(text, names, graph.as_graph())?;
    }
    Ok(())
}

// The graphs, with ` | ` between; `none` where there is none.
#[tactic(auto, unfolding(dom_listseg_meaning::specs::Text::text))]
fn graphs_text(alloc: Global, layout: &Layout, graphs: &[FoldedGraph]) -> Result<Text, Memory>
    ensures value { IfOk result (λ v. v ≡ texts.text layout.now (Graphs graphs.now)) }
{
    match graphs {
        [] => Text::from_slice(alloc, b"none"),
        [first, more @ ..] => {
            let mut text = Text::new(alloc);
            put_graph(&mut text, layout.links(), first.as_graph())?;
            put_more(&mut text, layout.links(), more)?;
            Ok(text)
        }
    }
}

/// A state's text.
#[tactic(auto, unfolding(dom_listseg_meaning::specs::Text::text))]
pub fn state_text(alloc: Global, layout: &Layout, s: &SegmentState) -> Result<Text, Memory>
    ensures value { IfOk result (λ v. v ≡ texts.text layout.now s.now) }
{
    match &s.kept {
        Kept::Top => Text::from_slice(alloc, b"top"),
        Kept::Graphs(shared) => graphs_text(alloc, layout, listed(shared)),
    }
}
