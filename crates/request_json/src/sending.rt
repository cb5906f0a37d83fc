//! Fields of objects, as a `Serializer` is sent them: `specs/Sending.antt`.
ghost use Rattle.std.specs.Prelude.{◌≡◌, ◌==◌, [], length, OnOk, if◌then◌else◌};
ghost use Rattle.std.specs.Str.Lossy.{utf8_valid_len};
ghost use Rattle.serde_json.specs.Data.{string};
ghost use Rattle.serde_json.specs.Events.{SendsValue};
ghost use Rattle.request_json.specs.Replies.{count, list_of, text_of};
ghost use Rattle.request_json.specs.Sending.{SendsField};

use imp_syntax::StmtId;
use serde::Serializer;

/// The bytes as a text, or the empty text where they are not UTF-8.
fn text_in(bytes: &[u8]) -> &str
    ensures text { result.now ≡ (if utf8_valid_len bytes.now == length bytes.now
        then bytes.now else []) }
{
    match str::from_utf8(bytes) {
        Ok(text) => text,
        Err(_) => "",
    }
}

/// Sends a whole number.
pub(crate) fn send_count<S: Serializer>(out: &mut S, key: &str, number: u64) -> Result<(), S::Error>
    ensures field { OnOk result (SendsField key.now (count number)
        (S.written out.old) (S.written out.new)) }
{
    out.key(key)?;
    out.u64(number)
}

/// Sends a word.
pub(crate) fn send_word<S: Serializer>(out: &mut S, key: &str, word: &str) -> Result<(), S::Error>
    ensures field { OnOk result (SendsField key.now (string word.now)
        (S.written out.old) (S.written out.new)) }
{
    out.key(key)?;
    out.str(word)
}

/// Sends bytes as a text.
pub(crate) fn send_text<S: Serializer>(out: &mut S, key: &str, bytes: &[u8]) -> Result<(), S::Error>
    ensures field { OnOk result (SendsField key.now (text_of bytes.now)
        (S.written out.old) (S.written out.new)) }
{
    out.key(key)?;
    out.str(text_in(bytes))
}

/// Sends a list of the numbers of statements.
fn send_numbers<S: Serializer>(out: &mut S, ids: &[StmtId]) -> Result<(), S::Error>
    ensures list { OnOk result (SendsValue (list_of count ids.now)
        (S.written out.old) (S.written out.new)) }
{
    out.begin_seq(Some(ids.len()))?;
    for id in ids {
        out.u64(u64::from(id.number()))?;
    }
    out.end_seq()
}

/// Sends the numbers of statements, as a list under a key.
pub(crate) fn send_ids<S: Serializer>(
    out: &mut S,
    key: &str,
    ids: &[StmtId],
) -> Result<(), S::Error>
    ensures field { OnOk result (SendsField key.now (list_of count ids.now)
        (S.written out.old) (S.written out.new)) }
{
    out.key(key)?;
    send_numbers(out, ids)
}
