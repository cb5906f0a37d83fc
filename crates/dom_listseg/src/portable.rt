//! List segments as texts, and their order.
ghost use Rattle.std.specs.Prelude.{◌≡◌, IfOk};
ghost use Rattle.dom_listseg_meaning.specs.Covers as meaning;
ghost use Rattle.dom_listseg_words.specs.Words.{segment_port};
ghost use Rattle.dom_listseg_words.proofs.Portable.{segment_portable};

use crate::SegmentState;
use crate::domain::ListSeg;
use base_values::{Memory, Text};
use cert_meaning::Portable;
use imp_slots::Layout;
use std::alloc::{AllocError, Global};

/// How many list slots each frame has, main's first.
fn counts(alloc: Global, layouts: &[Layout]) -> Result<Vec<usize>, AllocError>
    ensures exact { IfOk result (λ v. v.items ≡ meaning.counts layouts.now) }
{
    let [layout, rest @ ..] = layouts else {
        return Ok(Vec::new(alloc));
    };
    let mut counts = self::counts(alloc, rest)?;
    counts.push(layout.links().len())?;
    Ok(counts)
}

impl Portable for ListSeg {
    ghost port = { λ d. segment_port };

    fn put(&self, alloc: Global, s: &SegmentState) -> Result<Text, Memory> {
        dom_listseg_words::put(alloc, s.graphs())
    }

    fn take(
        &self,
        alloc: Global,
        layouts: &[Layout],
        text: &[u8],
    ) -> Result<Option<SegmentState>, Memory> {
        let counts = counts(alloc, layouts)?;
        match dom_listseg_words::take(alloc, &counts, text)? {
            None => Ok(None),
            Some(graphs) => Ok(Some(SegmentState::from_graphs(alloc, graphs)?)),
        }
    }

    fn leq(&self, alloc: Global, l: &SegmentState, r: &SegmentState) -> Result<bool, Memory> {
        Ok(dom_listseg_words::leq(l.graphs(), r.graphs()))
    }

    ghost port_laws = { λ d. segment_portable };
}
