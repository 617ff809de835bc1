// Escapes let a word contain bytes that would end it, or the line. A backslash begins one:
//
//     \\  a backslash       \s  a space       \t  a tab       \n  a line feed       \r  a carriage return
//     \xHH  the byte of two hexadecimal digits
//
// A backslash that begins none of these is an invalid escape.
ghost use Rattle.std.specs.Prelude.{◌≡◌, ◌∷◌};
ghost use Rattle.std.specs.Iterator.{YieldsFirst, item_count};
ghost use Rattle.texts.specs.Lent.{over};
ghost use Rattle.wording.specs.Numbers.{digit_of, IsDigit};
ghost use Rattle.wording.specs.Escapes.{high_of, hex_escape, escape_of, Escaped, plain, is_plain, undone, Undid};
ghost use Rattle.wording.specs.Steps.{undone_left};

use texts::space::Space;

// The value of a hexadecimal digit in either case.
pub(crate) fn digit(b: u8) -> Option<u32>
    ensures { IsDigit 16 (digit_of b) result }
{
    (b as char).to_digit(16)
}

// The value of the first of two hexadecimal digits. Rust reads a `+` there as a sign, so `\x+A` is the byte 10.
#[tactic(auto, unfolding(crate::specs::Escapes::high_of))]
fn high(b: u8) -> Option<u32>
    ensures { IsDigit 16 (high_of b) result }
{
    if b == b'+' { Some(0) } else { digit(b) }
}

// Reads the two digits after `\x`.
#[tactic(auto, using(crate::proofs::Escaped::hex_short, crate::proofs::Escaped::high_bad, crate::proofs::Escaped::low_bad, crate::proofs::Escaped::pair_good))]
fn hex_escape(s: &[u8]) -> Option<(u8, &[u8])>
    ensures { Escaped (120 ∷ s.now) (hex_escape s.now) result }
{
    let [x, y, rest @ ..] = s else {
        return None;
    };
    let a = high(*x)?;
    let b = digit(*y)?;
    Some(((a * 16 + b) as u8, rest))
}

// Reads an escape: s is what comes after its backslash. The answer is the byte that the escape stands for, and what
// comes after the escape; there is none where the escape is invalid.
#[tactic(auto, using(crate::proofs::Escaped::escape_none, crate::proofs::Escaped::escape_byte, crate::proofs::Escaped::escape_hex, crate::proofs::Escaped::escape_other), unfolding(crate::specs::Escapes::escape_of))]
fn read_escape(s: &[u8]) -> Option<(u8, &[u8])>
    ensures { Escaped s.now (escape_of s.now) result }
{
    let [letter, rest @ ..] = s else {
        return None;
    };
    match *letter {
        b'\\' => Some((b'\\', rest)),
        b's' => Some((b' ', rest)),
        b't' => Some((b'\t', rest)),
        b'n' => Some((b'\n', rest)),
        b'r' => Some((b'\r', rest)),
        b'x' => hex_escape(rest),
        _ => None,
    }
}

// The bytes that a word stands for, one after another. An invalid escape is `None`, and nothing comes after it.
#[derive(Clone, Copy)]
struct Undone<'a>(&'a [u8]);

impl<'a> Iterator for Undone<'a> {
    type Item = Option<u8>;

    ghost next_gives = { YieldsFirst undone_left };

    ghost remaining = { item_count undone_left };

    #[tactic(auto, using(crate::proofs::Escaped::each_end, crate::proofs::Escaped::each_plain))]
    fn next(&mut self) -> Option<Option<u8>> {
        let [b, tail @ ..] = self.0 else {
            return None;
        };
        if *b != b'\\' {
            self.0 = tail;
            return Some(Some(*b));
        }
        let Some((x, rest)) = read_escape(tail) else {
            self.0 = &[];
            return Some(None);
        };
        self.0 = rest;
        Some(Some(x))
    }
}

// Whether every escape in the word is valid. Most words have no backslash: they are their own text, which is quicker
// to see.
#[tactic(auto, using(crate::proofs::Escaped::bare_plain))]
pub fn is_plain(s: &[u8]) -> bool
    ensures { result ≡ is_plain (plain s.now) }
{
    if !s.contains(&b'\\') {
        return true;
    }
    Undone(s).all(|b| b.is_some())
}

// Writes the text of a word; nothing where an escape in it is invalid.
#[tactic(auto, using(texts::proofs::Overs::over_none, texts::proofs::Overs::over_append, crate::proofs::Escaped::over_undone_none, crate::proofs::Escaped::bare_text))]
fn put_plain(out: &mut Space, s: &[u8])
    ensures { out.new ≡ over (undone s.now) out.old }
{
    if !s.contains(&b'\\') {
        out.put(s);
        return;
    }
    if !is_plain(s) {
        return;
    }
    for b in Undone(s).flatten() {
        out.put_byte(b);
    }
}

// Writes the text of a word into lent bytes, as much of it as fits, and returns how many bytes were written. Where an
// escape is invalid nothing is written, and callers are promised 0: one that must know asks `is_plain`. (`answer` and
// `help` of the crate `requests` begin and end so too. A function for that would take the writing as a closure, and be
// no shorter.)
pub fn unescape(s: &[u8], out: &mut [u8]) -> usize
    ensures { Undid s.now out.old out.new result }
{
    let mut space = Space::new(out);
    put_plain(&mut space, s);
    space.at
}
