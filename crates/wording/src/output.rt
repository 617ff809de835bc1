// Writers of answers. An answer is written piece by piece into a space; what has no room is left out. The texts of a
// flaw and of a refusal are no `Display`: no contract says when `write!` into a space answers `Ok`.
ghost use Rattle.std.specs.Prelude.{◌≡◌, ◌≤◌};
ghost use Rattle.texts.specs.Lent.{over};
ghost use Rattle.wording.specs.Output.{decimal, hex, hash, signed, refusal_text, number_word, flaw_word, bad, Wide};

use squares::refusal::{Guard, Refusal};
use texts::space::Space;

// What is wrong with a bad request.
#[derive(Clone, Copy, Debug, PartialEq, Eq)]
pub enum Flaw {
    // The line is too long.
    Length,
    // An escape in the line is invalid.
    Escape,
    // The first word names no request.
    Name,
    // The request needs more words, or fewer.
    Words,
    // A number in the line cannot be read.
    Number,
    // The side is neither W nor B.
    Side,
}

impl Guard for Flaw {}

// Writes a number in decimal, without needless zeros.
#[tactic(auto, using(texts::proofs::Overs::over_as, crate::proofs::Numerals::decimal_is))]
pub fn put_decimal(out: &mut Space, n: u64)
    ensures { out.new ≡ over (decimal n) out.old }
{
    let mut digits = [0u8; 20];
    let k = io::decimal(n, &mut digits);
    out.put(&digits[..k]);
}

// Writes a signed number.
pub fn put_signed(out: &mut Space, z: i32)
    ensures { out.new ≡ over (signed z) out.old }
{
    if z < 0 {
        out.put_byte(b'-');
    }
    put_decimal(out, z.unsigned_abs() as u64);
}

// Writes a number in hexadecimal, with at least so many digits, and no more than it needs. `put_decimal` has room for
// more digits and asks for no least number of them, so one function for both would take all that is here.
#[tactic(auto)]
fn put_wide(out: &mut Space, n: u64, least: usize)
    requires { (1 ≤ least) × (least ≤ 16) }
    ensures { Wide least n out.old out.new }
{
    let mut digits = [0u8; 16];
    let k = io::hex(n, least, &mut digits);
    out.put(&digits[..k]);
}

// Writes a number in hexadecimal, without needless zeros.
pub fn put_hex(out: &mut Space, n: u64)
    ensures { out.new ≡ over (hex n) out.old }
{
    put_wide(out, n, 1);
}

// Writes the 16 hexadecimal digits of a hash.
pub fn put_hash(out: &mut Space, n: u64)
    ensures { out.new ≡ over (hash n) out.old }
{
    put_wide(out, n, 16);
}

// Writes `err`, the number of the refusal and its square: `err 7 31`.
#[tactic(auto, using(texts::proofs::Overs::over_append), unfolding(texts::specs::Lent::over, crate::specs::Output::refusal_text))]
pub fn put_refusal(out: &mut Space, e: Refusal)
    ensures { out.new ≡ over (refusal_text e) out.old }
{
    out.put(b"err ");
    put_decimal(out, e.number() as u64);
    out.put_byte(b' ');
    put_decimal(out, e.square() as u64);
}

// Writes `!` and the number of the refusal: `!15`.
#[tactic(auto, using(texts::proofs::Overs::over_append), unfolding(texts::specs::Lent::over, crate::specs::Output::number_word))]
pub fn put_number(out: &mut Space, e: Refusal)
    ensures { out.new ≡ over (number_word e) out.old }
{
    out.put_byte(b'!');
    put_decimal(out, e.number() as u64);
}

#[tactic(auto, unfolding(crate::specs::Output::flaw_word))]
fn put_flaw(out: &mut Space, flaw: Flaw)
    ensures { out.new ≡ over (flaw_word flaw) out.old }
{
    match flaw {
        Flaw::Length => out.put(b"length"),
        Flaw::Escape => out.put(b"escape"),
        Flaw::Name => out.put(b"name"),
        Flaw::Words => out.put(b"words"),
        Flaw::Number => out.put(b"number"),
        Flaw::Side => out.put(b"side"),
    }
}

// Writes `bad request:` and the word that says what is wrong.
#[tactic(auto, using(texts::proofs::Overs::over_append), unfolding(texts::specs::Lent::over, crate::specs::Output::bad))]
pub fn put_bad(out: &mut Space, flaw: Flaw)
    ensures { out.new ≡ over (bad flaw) out.old }
{
    out.put(b"bad request: ");
    put_flaw(out, flaw);
}
