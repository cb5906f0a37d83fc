//! Lists of the numbers of statements, as JSON has them.
ghost use Rattle.std.specs.Prelude.{◌≡◌, ◌++◌, OnOk, codes, decimal, true};
ghost use Rattle.serde_json.specs.Written.{compact_text, items_text};
ghost use Rattle.request_json.specs.Replies.{list_of, items_of, count};

use crate::escapes::put_number;
use base_values::Memory;
use imp_syntax::StmtId;

/// Adds one more number, after a comma.
fn put_next_id(line: &mut Vec<u8>, id: StmtId) -> Result<(), Memory>
    ensures number { OnOk result (line.new.items ≡ (line.old.items ++ codes ",") ++ decimal id) }
{
    line.push(b',')?;
    put_number(line, u64::from(id.number()))
}

/// Adds numbers, each after a comma, and the bracket that closes their list.
fn put_more_ids(line: &mut Vec<u8>, ids: &[StmtId]) -> Result<(), Memory>
    ensures list { OnOk result (line.new.items ≡ line.old.items ++ items_text true
        (items_of count ids.now)) }
{
    for id in ids {
        put_next_id(line, *id)?;
    }
    line.push(b']')?;
    Ok(())
}

/// Adds a list of numbers of statements, as JSON has it. It takes time linear in the list, and fails for want of
/// memory alone.
#[tactic(auto, using(crate::proofs::WritingLemmas::list_text))]
pub fn put_ids(line: &mut Vec<u8>, ids: &[StmtId]) -> Result<(), Memory>
    ensures list { OnOk result (line.new.items ≡ line.old.items
        ++ compact_text (list_of count ids.now)) }
{
    match ids {
        [] => line.extend_from_slice(b"[]")?,
        [first, rest @ ..] => {
            line.push(b'[')?;
            put_number(line, u64::from(first.number()))?;
            put_more_ids(line, rest)?;
        }
    }
    Ok(())
}
