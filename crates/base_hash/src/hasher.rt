//! The hasher.
ghost use Rattle.std.specs.Prelude.{◌≡◌};
ghost use Rattle.base_hash.specs.Mixed as hashing;

use std::hash::{BuildHasherDefault, Hasher};

/// What makes the hashers of a table.
pub type NumberHashing = BuildHasherDefault<NumberHasher>;

/// A hasher that multiplies each number with what it has so far to 128 bits, and joins the halves by xor.
#[derive(Clone, Copy, Debug)]
pub struct NumberHasher {
    state: u64,
}

impl Default for NumberHasher {
    ghost is_default = { λ h. h ≡ hashing.initial };

    fn default() -> NumberHasher {
        NumberHasher {
            state: 0x243f_6a88_85a3_08d3,
        }
    }
}

/// The halves of a product of 128 bits, joined by xor.
#[inline(always)]
fn folded(number: u64) -> u64
    ensures is { result ≡ hashing.folded number }
{
    let product = number as u128 * 0x9e37_79b9_7f4a_7c15;
    (product & 0xFFFF_FFFF_FFFF_FFFF) as u64 ^ (product >> 64) as u64
}

/// The state after a number.
#[inline(always)]
fn mixed(state: u64, number: u64) -> u64
    ensures is { result ≡ hashing.mixed state number }
{
    folded(state ^ number)
}

/// The state after some bytes, each as a number.
fn mixed_bytes(state: u64, bytes: &[u8]) -> u64
    ensures is { result ≡ hashing.mixed_bytes state bytes.now }
{
    let mut so_far = state;
    for byte in bytes {
        so_far = mixed(so_far, *byte as u64);
    }
    so_far
}

impl Hasher for NumberHasher {
    ghost write = { hashing.write };

    ghost finish = { λ h. h.state };

    #[inline(always)]
    fn finish(&self) -> u64 {
        self.state
    }

    #[inline(always)]
    fn write(&mut self, bytes: &[u8]) {
        if bytes.len() == 8 {
            let number = u64::from_le_bytes([
                bytes[0], bytes[1], bytes[2], bytes[3], bytes[4], bytes[5], bytes[6], bytes[7],
            ]);
            self.state = mixed(self.state, number);
        } else {
            self.state = mixed_bytes(self.state, bytes);
        }
    }

    #[inline(always)]
    fn write_u64(&mut self, i: u64) {
        self.state = mixed(self.state, i);
    }

    #[inline(always)]
    fn write_usize(&mut self, i: usize) {
        self.state = mixed(self.state, i as u64);
    }
}
