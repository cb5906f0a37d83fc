//! The lines of a certificate.
ghost use Rattle.std.specs.Prelude.{◌≡◌, ◌++◌, ◌∷◌, [], IfOk, OnOk, List, map, reverse};
ghost use Rattle.serde_json.specs.Written.{compact_text};
ghost use Rattle.imp_slots.specs.Plain.{Routine};
ghost use Rattle.batch_meaning.specs.Batch.{LoopOptions};
ghost use Rattle.batch_interp.specs.Heads.{head_told};
ghost use Rattle.cert_lines.specs.Certificate.{Certificate, Gives, certificate_text};
ghost use Rattle.cert_write.specs.Writing.{behind, bytes_in, line_data, lines_under, or_over};

use base_values::{Items, Memory};
use batch_interp::{Answer, LoopHead};
use cert_meaning::Portable;
use imp_syntax::{Chain, StmtId};
use request_json::{Reply, put_ids, put_number, put_quoted, reply_line};
use std::alloc::Global;

/// Adds a loop under a chain, with the text of its state, as an object.
#[tactic(auto, using(crate::proofs::LineLemmas::state_text))]
fn put_state(text: &mut Vec<u8>, stmt: StmtId, chain: &Chain, state: &[u8]) -> Result<(), Memory>
    ensures object { OnOk result (text.new.items ≡ text.old.items
        ++ compact_text (line_data stmt chain.now state.now)) }
{
    text.extend_from_slice(b"{\"at\":")?;
    put_number(text, u64::from(stmt.number()))?;
    text.extend_from_slice(b",\"chain\":")?;
    put_ids(text, chain.sites())?;
    text.extend_from_slice(b",\"state\":")?;
    put_quoted(text, state)?;
    text.push(b'}')?;
    Ok(())
}

/// Adds the line of a loop under a chain, with the text of its state.
fn put_line(text: &mut Vec<u8>, stmt: StmtId, chain: &Chain, state: &[u8]) -> Result<(), Memory>
    ensures line { OnOk result (text.new.items ≡ text.old.items
        ++ (compact_text (line_data stmt chain.now state.now) ++ 10 ∷ [])) }
{
    put_state(text, stmt, chain, state)?;
    text.push(b'\n')?;
    Ok(())
}

/// The line of a loop that used up its budget.
#[tactic(auto, using(crate::proofs::LineLemmas::over_text))]
fn over_line(alloc: Global, head: StmtId, chain: &Chain) -> Result<Vec<u8>, Memory>
    ensures line { IfOk result (λ v. v.items ≡ certificate_text (Gives head (reverse chain.now))) }
{
    let sites = Vec::from_slice(alloc, chain.sites())?;
    let chain = Chain::new(Items::from_vec(sites));
    reply_line(alloc, &Reply::Over { head, chain })
}

/// Adds the line of a loop under a chain; or gives the line of its Over.
fn add_line<D: Portable>(
    alloc: Global,
    dom: &D,
    chain: &Chain,
    head: &LoopHead<D::State>,
    text: &mut Vec<u8>,
) -> Result<Option<Vec<u8>>, Memory>
    ensures added { IfOk result (λ o. (engine : LoopOptions) (program : List Routine)
        (more : Certificate) → behind text.old.items
        (lines_under (D.operations dom.now) (D.port dom.now) engine program (reverse chain.now)
        (head_told head.now ∷ []) more) ≡ or_over (bytes_in o) (behind text.new.items more)) }
{
    match &head.value {
        Answer::State(state) => {
            let state = dom.put(alloc, state)?;
            put_line(text, head.stmt, chain, state.as_slice())?;
            Ok(None)
        }
        Answer::Over { head, chain } => {
            let line = over_line(alloc, *head, chain)?;
            Ok(Some(line))
        }
    }
}

/// Adds the lines of loops under a chain; or gives the line of the first Over.
pub(crate) fn add_lines<D: Portable>(
    alloc: Global,
    dom: &D,
    chain: &Chain,
    heads: &[LoopHead<D::State>],
    text: &mut Vec<u8>,
) -> Result<Option<Vec<u8>>, Memory>
    ensures added { IfOk result (λ o. (engine : LoopOptions) (program : List Routine)
        (more : Certificate) → behind text.old.items
        (lines_under (D.operations dom.now) (D.port dom.now) engine program (reverse chain.now)
        (map head_told heads.now) more) ≡ or_over (bytes_in o) (behind text.new.items more)) }
{
    for head in heads {
        match add_line(alloc, dom, chain, head, text)? {
            Some(line) => return Ok(Some(line)),
            None => {}
        }
    }
    Ok(None)
}
