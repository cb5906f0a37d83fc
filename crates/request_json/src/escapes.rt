//! Texts in quotes and numbers, as JSON has them, for the clause `line` of
//! [`reply_line`](crate::reply_line).
ghost use Rattle.std.specs.Prelude.{◌≡◌, ◌<◌, ◌/◌, ◌%◌, [], ◌∷◌, ◌++◌, OnOk, decimal};
ghost use Rattle.std.specs.Char.{digit_char};
ghost use Rattle.json.specs.Print.{escape_byte, escape, quoted};

use base_values::Memory;
use itoa::Buffer;

/// Adds a number in decimal. It fails only when memory runs out.
pub fn put_number(line: &mut Vec<u8>, number: u64) -> Result<(), Memory>
    ensures number { OnOk result (line.new.items ≡ line.old.items ++ decimal number) }
{
    let mut buffer = Buffer::new();
    line.extend_from_slice(buffer.format(number).as_bytes())?;
    Ok(())
}

/// The hexadecimal digit of a number below 16.
fn hex_digit(number: u8) -> u8
    requires { number < 16 }
    ensures digit { result ≡ digit_char number }
{
    if number < 10 {
        b'0' + number
    } else {
        b'a' + (number - 10)
    }
}

/// Adds bytes.
fn put(line: &mut Vec<u8>, bytes: &[u8]) -> Result<(), Memory>
    ensures bytes { OnOk result (line.new.items ≡ line.old.items ++ bytes.now) }
{
    line.extend_from_slice(bytes)?;
    Ok(())
}

/// Adds the number of a byte below 32, as JSON has it.
fn put_numbered(line: &mut Vec<u8>, byte: u8) -> Result<(), Memory>
    requires { byte < 32 }
    ensures escaped { OnOk result (line.new.items ≡ line.old.items ++ 92 ∷ 117 ∷ 48 ∷ 48
        ∷ digit_char (byte / 16) ∷ digit_char (byte % 16) ∷ []) }
{
    let digits = [hex_digit(byte / 16), hex_digit(byte % 16)];
    line.extend_from_slice(b"\\u00")?;
    put(line, &digits)
}

/// Adds a byte.
#[inline]
fn put_byte(line: &mut Vec<u8>, byte: u8) -> Result<(), Memory>
    ensures byte { OnOk result (line.new.items ≡ line.old.items ++ byte ∷ []) }
{
    line.push(byte)?;
    Ok(())
}

/// Adds what stands in a JSON text for the byte.
#[tactic(auto, unfolding(json::specs::Print::escape_byte))]
#[inline]
fn put_escaped(line: &mut Vec<u8>, byte: u8) -> Result<(), Memory>
    ensures escaped { OnOk result (line.new.items ≡ line.old.items ++ escape_byte byte) }
{
    match byte {
        b'"' | b'\\' => put(line, &[b'\\', byte]),
        8 => put(line, b"\\b"),
        9 => put(line, b"\\t"),
        10 => put(line, b"\\n"),
        12 => put(line, b"\\f"),
        13 => put(line, b"\\r"),
        0..32 => put_numbered(line, byte),
        _ => put_byte(line, byte),
    }
}

/// Adds the bytes of a text, each as it stands in a JSON text.
fn put_escapes(line: &mut Vec<u8>, text: &[u8]) -> Result<(), Memory>
    ensures escaped { OnOk result (line.new.items ≡ line.old.items ++ escape text.now) }
{
    for byte in text {
        put_escaped(line, *byte)?;
    }
    Ok(())
}

/// Adds a text in quotes, as JSON has it. It takes time linear in the text, and fails only when memory runs out.
pub fn put_quoted(line: &mut Vec<u8>, text: &[u8]) -> Result<(), Memory>
    ensures quoted { OnOk result (line.new.items ≡ line.old.items ++ quoted text.now) }
{
    line.push(b'"')?;
    put_escapes(line, text)?;
    line.push(b'"')?;
    Ok(())
}
