//! Two rising lists of graphs, gone through side by side.
ghost use Rattle.std.specs.Prelude.{◌≡◌, ◌++◌, ◌↔◌, true, IsTrue, OnOk};
ghost use Rattle.dom_listseg_meaning.specs.Sets as sets;

use crate::folded::FoldedGraph;
use base_values::Memory;
use std::cmp::Ordering;

// Puts all graphs after those that are there.
fn append(graphs: &mut Vec<FoldedGraph>, others: &[FoldedGraph]) -> Result<(), Memory>
    ensures added { OnOk result (graphs.new.items ≡ graphs.old.items ++ others.now) }
{
    for other in others {
        graphs.push(other.copy()?)?;
    }
    Ok(())
}

/// Puts the union of two lists, of which the right one rises, after the graphs that are there.
pub fn merge(
    graphs: &mut Vec<FoldedGraph>,
    left: &[FoldedGraph],
    right: &[FoldedGraph],
) -> Result<(), Memory>
    requires rises { sets.rises right.now ≡ true }
    ensures merged { OnOk result (graphs.new.items ≡ graphs.old.items
        ++ sets.union left.now right.now) }
{
    let mut left_place = 0;
    let mut right_place = 0;
    while left_place < left.len() && right_place < right.len() {
        let first = &left[left_place];
        let other = &right[right_place];
        match first.cmp(other) {
            Ordering::Less => {
                graphs.push(first.copy()?)?;
                left_place += 1;
            }
            Ordering::Equal => {
                graphs.push(first.copy()?)?;
                left_place += 1;
                right_place += 1;
            }
            Ordering::Greater => {
                graphs.push(other.copy()?)?;
                right_place += 1;
            }
        }
    }
    append(graphs, &left[left_place..])?;
    append(graphs, &right[right_place..])
}

/// Whether a list has all graphs of another, which rises.
pub fn has_all(left: &[FoldedGraph], right: &[FoldedGraph]) -> bool
    requires rises { sets.rises right.now ≡ true }
    ensures same { IsTrue result ↔ sets.union left.now right.now ≡ left.now }
{
    let mut left_place = 0;
    let mut right_place = 0;
    while left_place < left.len() && right_place < right.len() {
        match left[left_place].cmp(&right[right_place]) {
            Ordering::Less => left_place += 1,
            Ordering::Equal => {
                left_place += 1;
                right_place += 1;
            }
            Ordering::Greater => return false,
        }
    }
    right_place == right.len()
}
