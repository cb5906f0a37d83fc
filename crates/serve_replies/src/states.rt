//! The reply to a question for a state: `specs/States.antt`.
ghost use Rattle.std.specs.Prelude.{◌≡◌, IfOk};
ghost use Rattle.std.specs.Option.{option_copied};
ghost use Rattle.imp_check.specs.Slots.{routines_of};
ghost use Rattle.batch_meaning.specs.Answers.{procedure_of};
ghost use Rattle.batch_meaning.specs.Values.{State};
ghost use Rattle.serve_replies.specs.States.{layout_or_none, layout_found, layout_at, value_reply};

use base_values::{Items, Memory, Text};
use call_contexts::place_of;
use domain_laws::Domain;
use imp_slots::Layout;
use imp_syntax::{Chain, Location, StmtId};
use imp_table::View;
use request_json::Reply;
use std::alloc::Global;

/// The variables of the procedure of a location, where the program has the location.
#[tactic(auto, using(crate::proofs::Layouts::layout_is))]
fn layout_found<'a>(program: &View<'a>, at: &Location) -> Option<&'a Layout>
    ensures layout { option_copied result ≡ layout_found (routines_of program.now)
        (procedure_of (routines_of program.now) at.now) }
{
    match place_of(program, at) {
        Ok(proc) => program.layout(proc),
        Err(_) => None,
    }
}

/// The text of a state of a frame with these variables, or with none.
fn layout_text<D: Domain>(
    alloc: Global,
    dom: &D,
    layout: Option<&Layout>,
    state: &D::State,
) -> Result<Text, Memory>
    ensures text { IfOk result (λ text. text ≡ (D.operations dom.now).text
        (layout_or_none (option_copied layout.entry)) state.now) }
{
    match layout {
        Some(layout) => dom.text(alloc, layout, state),
        None => {
            let layout = Layout::new(alloc, Items::new(alloc), Items::new(alloc))?;
            dom.text(alloc, &layout, state)
        }
    }
}

/// The reply for a state at a location of a program.
pub fn state_reply<D: Domain>(
    alloc: Global,
    dom: &D,
    program: &View<'_>,
    at: &Location,
    state: &D::State,
) -> Result<Reply, Memory>
    ensures reply { IfOk result (λ reply. reply ≡ value_reply (D.operations dom.now)
        (layout_at (routines_of program.now) at.now) (State state.now)) }
{
    let text = layout_text(alloc, dom, layout_found(program, at), state)?;
    Ok(Reply::State(text))
}

/// The numbers of a call string.
pub fn numbers_of(alloc: Global, string: &Chain) -> Result<Items<u32>, Memory>
    ensures numbers { IfOk result (λ numbers. numbers ≡ string.now) }
{
    let mut numbers = Items::new(alloc);
    for site in string.sites() {
        numbers.push(site.number())?;
    }
    Ok(numbers)
}

/// The reply for a loop that used up its budget, with its chain from the outermost call in.
pub fn over_reply(alloc: Global, head: StmtId, chain: &Chain) -> Result<Reply, Memory>
    ensures reply { IfOk result (λ reply. reply ≡ Reply.Over head chain.now) }
{
    let mut sites = Items::with_capacity(alloc, chain.sites().len())?;
    for site in chain.sites() {
        sites.push(*site)?;
    }
    Ok(Reply::Over {
        head,
        chain: Chain::new(sites),
    })
}
