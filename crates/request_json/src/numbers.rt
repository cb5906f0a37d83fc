//! Numbers of statements in decimal, as they stand in the locations and places of a request.
ghost use Rattle.std.specs.Prelude.{◌≡◌, ◌<◌, ◌≤◌, ◌^◌, ◌*◌, ◌+◌, ◌-◌, ◌⊎◌, IfSome, IsNone, true, false};
ghost use Rattle.imp_lex.specs.Front.{is_digit};
ghost use Rattle.request_json.specs.Places.{number_of};

/// The number that one digit more writes, where it is a digit and the number is below 2^32.
fn with_digit(value: u32, digit: u8) -> Option<u32>
    ensures more { IfSome result (λ n. (is_digit digit ≡ true) × (n ≡ value * 10 + (digit - 48))) }
    ensures small { IfSome result (λ n. n < 2 ^ 32) }
    ensures stop { IsNone result → (is_digit digit ≡ false) ⊎ (2 ^ 32 ≤ value * 10 + (digit - 48)) }
{
    if digit < b'0' || digit > b'9' {
        return None;
    }
    let next = u64::from(value) * 10 + u64::from(digit - b'0');
    if next > 0xffff_ffff {
        return None;
    }
    Some(next as u32)
}

/// The value of the digits, where they are a number of 1 to 10 digits below 2^32.
pub(crate) fn number_of(digits: &[u8]) -> Option<u32>
    ensures number { result ≡ number_of digits.now }
{
    if digits.len() < 1 {
        return None;
    }
    if digits.len() > 10 {
        return None;
    }
    let mut value = 0;
    for digit in digits {
        match with_digit(value, *digit) {
            Some(next) => value = next,
            None => return None,
        }
    }
    Some(value)
}
