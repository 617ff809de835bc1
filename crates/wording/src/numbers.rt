// Readers of numbers. Each takes a whole word and answers its value, or `None` where it is not such a number:
//
// * `unsigned`: up to 2^32 - 1, as Rust reads a u32 (a `+` and leading zeros are allowed);
// * `read_signed`: from -2^31 to 2^31 - 1, as Rust reads an i32;
// * `set`: 64 bits in hexadecimal, with or without `0x`;
// * `given`: decimal digits alone, exactly as `output::put_decimal` writes them.
//
// Reading stops at the first byte that is no digit, or as soon as the number is above the limit. The library's `parse`
// takes a text, and to see whether a word is one would look at all its bytes first.
ghost use Rattle.std.specs.Prelude.{◌≡◌, ◌≤◌};
ghost use Rattle.wording.specs.Numbers.{AtMost, number_in, unsigned_of, given_of, set_of, signed_of};

use crate::escapes;
use texts::bytes;

// Reads one digit or more of this base; the value is at most the limit.
#[tactic(auto, using(crate::proofs::Values::number_none, crate::proofs::Values::number_some, crate::proofs::Values::no_digit, crate::proofs::Values::past_limit, crate::proofs::Values::next_digit, crate::proofs::Values::value_end, crate::proofs::Values::no_number))]
fn number(s: &[u8], base: u64, limit: u64) -> Option<u64>
    requires { base ≤ 16 }
    ensures { (result ≡ number_in base limit s.now) × AtMost limit result }
{
    if s.len() == 0 {
        return None;
    }
    let mut v: u64 = 0;
    for b in s {
        let d = escapes::digit(*b)? as u64;
        if base <= d {
            return None;
        }
        v = v.checked_mul(base)?.checked_add(d)?;
        if limit < v {
            return None;
        }
    }
    Some(v)
}

// An unsigned number of 32 bits.
#[tactic(auto, unfolding(crate::specs::Numbers::unsigned_of))]
pub fn unsigned(s: &[u8]) -> Option<u32>
    ensures { result ≡ unsigned_of s.now }
{
    Some(number(bytes::strip(s, b'+'), 10, u32::MAX as u64)? as u32)
}

// A decimal number: digits alone, no sign, no needless zero at the start, at most the limit. Each number has one text.
#[tactic(auto, using(crate::proofs::Given::given_zero, crate::proofs::Given::given_plus, crate::proofs::Given::given_other, crate::proofs::Given::given_short))]
pub fn given(s: &[u8], limit: u64) -> Option<u64>
    ensures { (result ≡ given_of limit s.now) × AtMost limit result }
{
    // A needless zero would give a number a second text. A plus is no digit.
    if let [b'0', _, ..] | [b'+', ..] = s {
        return None;
    }
    number(s, 10, limit)
}

// A set of 64 bits in hexadecimal; every `0x` at the start is dropped.
#[tactic(auto, using(crate::proofs::Values::prefix_next, crate::proofs::Values::prefix_end), unfolding(crate::specs::Numbers::set_of))]
pub fn set(s: &[u8]) -> Option<u64>
    ensures { result ≡ set_of s.now }
{
    let mut digits = s;
    while let Some(rest) = digits.strip_prefix(b"0x") {
        digits = rest;
    }
    number(bytes::strip(digits, b'+'), 16, u64::MAX)
}

// A signed number of 32 bits.
#[tactic(auto, using(crate::proofs::Values::signed_minus, crate::proofs::Values::signed_plus))]
pub fn read_signed(s: &[u8]) -> Option<i32>
    ensures { result ≡ signed_of s.now }
{
    if let Some(digits) = s.strip_prefix(b"-") {
        // The smallest number has no opposite of 32 bits, so the sign is changed in 64.
        let n = number(digits, 10, u32::MAX as u64)?;
        return i32::try_from(-(n as i64)).ok();
    }
    i32::try_from(unsigned(s)?).ok()
}
