//! What checking a certificate comes to, and its line.
ghost use Rattle.std.specs.Prelude.{◌≡◌, ◌++◌, IfOk, OnOk, codes, decimal, reverse};
ghost use Rattle.request_json.specs.Replies.{count, list_of};
ghost use Rattle.serde_json.specs.Written.{compact_text};
ghost use Rattle.cert_lines.specs.Verify.{verified_data, verified_line, why_name, No, BadLine, Yes};
ghost use Rattle.cert_check.specs.Following.{why_of};
ghost use Rattle.cert_check.specs.Verified.{verified_of};

use crate::followed::Why;
use base_values::Memory;
use imp_syntax::{Chain, StmtId};
use request_json::{put_ids, put_number, put_quoted};
use std::alloc::Global;

/// What checking comes to.
#[derive(Drop)]
pub(crate) enum Verified {
    /// All written states hold.
    Yes,
    /// This line is the first bad one, counted from 1.
    BadLine(usize),
    /// This loop is the first of which what is written does not do.
    No { at: StmtId, chain: Chain, why: Why },
}

/// The word of a fault.
fn why_word(why: Why) -> &'static str
    ensures word { result.now ≡ why_name (why_of why) }
{
    match why {
        Why::Missing => "missing",
        Why::Entry => "entry",
        Why::Step => "step",
    }
}

/// Adds that a line is bad.
#[tactic(auto, using(crate::proofs::LineLemmas::bad_text))]
fn put_bad(text: &mut Vec<u8>, line: usize) -> Result<(), Memory>
    ensures line { OnOk result (text.new.items ≡ text.old.items
        ++ compact_text (verified_data (BadLine line))) }
{
    text.extend_from_slice(b"{\"line\":")?;
    put_number(text, line as u64)?;
    text.extend_from_slice(b",\"verify\":\"no\"}")?;
    Ok(())
}

/// Adds a loop and the calls of its chain, as the first members of an object.
fn put_place(text: &mut Vec<u8>, at: StmtId, chain: &Chain) -> Result<(), Memory>
    ensures place { OnOk result (text.new.items ≡ (((text.old.items ++ codes "{\"at\":")
        ++ decimal at) ++ codes ",\"chain\":") ++ compact_text (list_of count chain.now)) }
{
    text.extend_from_slice(b"{\"at\":")?;
    put_number(text, u64::from(at.number()))?;
    text.extend_from_slice(b",\"chain\":")?;
    put_ids(text, chain.sites())?;
    Ok(())
}

/// Adds that what is written of a loop does not do.
fn put_no(text: &mut Vec<u8>, at: StmtId, chain: &Chain, why: Why) -> Result<(), Memory>
    ensures line { OnOk result (text.new.items ≡ text.old.items
        ++ compact_text (verified_data (No at (reverse chain.now) (why_of why)))) }
{
    put_place(text, at, chain)?;
    text.extend_from_slice(b",\"verify\":\"no\",\"why\":")?;
    put_quoted(text, why_word(why).as_bytes())?;
    text.push(b'}')?;
    Ok(())
}

/// Adds what checking comes to.
#[tactic(auto, using(crate::proofs::LineLemmas::yes_text))]
fn put_verified(text: &mut Vec<u8>, verified: &Verified) -> Result<(), Memory>
    ensures line { OnOk result (text.new.items ≡ text.old.items
        ++ compact_text (verified_data (verified_of verified.now))) }
{
    match verified {
        Verified::Yes => {
            text.extend_from_slice(b"{\"verify\":\"yes\"}")?;
            Ok(())
        }
        Verified::BadLine(line) => put_bad(text, *line),
        Verified::No { at, chain, why } => put_no(text, *at, chain, *why),
    }
}

/// The line that says what checking comes to. It fails only when memory runs out.
pub(crate) fn verified_line(alloc: Global, verified: &Verified) -> Result<Vec<u8>, Memory>
    ensures line { IfOk result (λ v. v.items ≡ verified_line (verified_of verified.now)) }
{
    let mut text = Vec::new(alloc);
    put_verified(&mut text, verified)?;
    text.push(b'\n')?;
    Ok(text)
}
