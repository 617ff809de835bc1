// Lent bytes that are written piece by piece, and the place after what was written.
//
// What has no room is left out, and the bytes after the text stay as they were. This is no `io::Cursor<&mut [u8]>`: its
// place is a u64, and each write answers a `Result` that every caller would have to drop. `write!` would not do either:
// its contract does not say when it answers `Ok`.
ghost use Rattle.std.specs.Prelude.{◌≡◌, ◌∷◌, []};
ghost use Rattle.texts.specs.Bytes.{digits};
ghost use Rattle.texts.specs.Lent.{over, text_of};

#[derive(Drop)]
pub struct Space<'a> {
    pub bytes: &'a mut [u8],
    pub at: usize,
}

impl<'a> Space<'a> {
    // Nothing is written yet.
    #[inline(always)]
    pub fn new(bytes: &'a mut [u8]) -> Space<'a>
        ensures bytes { result.bytes ≡ bytes.entry }
        ensures at { result.at ≡ 0 }
    {
        Space { bytes, at: 0 }
    }

    // Writes one byte.
    #[tactic(auto, unfolding(crate::specs::Lent::over, crate::specs::Lent::byte_over))]
    #[inline(always)]
    pub fn put_byte(&mut self, b: u8)
        ensures { self.new ≡ over (b ∷ []) self.old }
    {
        if self.at < self.bytes.len() {
            self.bytes[self.at] = b;
            self.at += 1;
        }
    }

    // Writes these bytes, as many as have room.
    #[tactic(auto, using(crate::proofs::Overs::over_part, crate::proofs::Overs::over_out))]
    pub fn put(&mut self, s: &[u8])
        ensures { self.new ≡ over s.now self.old }
    {
        if self.at < self.bytes.len() {
            let n = s.len().min(self.bytes.len() - self.at);
            self.bytes[self.at..self.at + n].copy_from_slice(&s[..n]);
            self.at += n;
        }
    }

    // Writes a number below 100 in decimal. From 100 on callers are promised two bytes by the same formula, so this is
    // no `put_decimal` of `wording`.
    #[tactic(auto, unfolding(crate::specs::Bytes::digits, crate::specs::Lent::over))]
    #[inline(always)]
    pub fn put_digits(&mut self, n: u8)
        ensures { self.new ≡ over (digits n) self.old }
    {
        if 10 <= n {
            self.put_byte(b'0' + n / 10);
        }
        self.put_byte(b'0' + n % 10);
    }

    // The bytes before the place. The fields are public, so a place after the end may be handed in; it is tested here.
    #[tactic(auto, unfolding(crate::specs::Lent::text_of))]
    #[inline(always)]
    pub fn text(&self) -> &[u8]
        ensures { result.now ≡ text_of self.now }
    {
        &self.bytes[..self.at.min(self.bytes.len())]
    }
}
