//! The value of a line: the clause of [`json_of`].
ghost use Rattle.std.specs.Prelude.{◌≡◌, IfOk, option_map};
ghost use Rattle.serde_json.specs.View.{view};
ghost use Rattle.request_json.specs.Members.{json_of};

use base_values::Memory;
use serde_json::Value;
use std::alloc::Global;

/// The value of a line, or None where the line is not UTF-8, or no JSON. It takes time linear in the line, and fails only
/// when memory runs out.
#[tactic(auto, using(crate::proofs::LineLemmas::json_of_value, crate::proofs::LineLemmas::json_of_no_text, crate::proofs::LineLemmas::json_of_no_value))]
pub fn json_of(alloc: Global, line: &[u8]) -> Result<Option<Value>, Memory>
    ensures value { IfOk result (λ value. option_map view value ≡ json_of line.now) }
{
    let Ok(text) = str::from_utf8(line) else {
        return Ok(None);
    };
    match Value::from_str(alloc, text) {
        Ok(value) => Ok(Some(value)),
        Err(error) if error.is_memory() => Err(Memory),
        Err(_) => Ok(None),
    }
}
