// The words of a line. Every single space ends a word, so two spaces have an empty word between them. After a space at
// the end of the line there is no word.
ghost use Rattle.std.specs.Prelude.{◌≡◌};
ghost use Rattle.std.specs.Iterator.{YieldsFirstBy, item_count};
ghost use Rattle.wording.specs.Words.{same_text, first_word, after_word, word_at, blanks_in};
ghost use Rattle.wording.specs.Steps.{words_left};

use texts::bytes;

// Whether two texts are the same: `==` of slices, under the public name that it had.
#[tactic(auto, using(crate::proofs::WordLaws::same_pointwise))]
pub fn same(a: &[u8], b: &[u8]) -> bool
    ensures { result ≡ same_text a.now b.now }
{
    a == b
}

// What comes before the first space: the whole where there is none.
#[tactic(auto, unfolding(crate::specs::Words::first_word))]
pub fn first(s: &[u8]) -> &[u8]
    ensures { result.now ≡ first_word s.now }
{
    bytes::up_to(s, b' ')
}

// What comes after the first space: nothing where there is none.
#[tactic(auto, unfolding(crate::specs::Words::after_word))]
pub fn rest(s: &[u8]) -> &[u8]
    ensures { result.now ≡ after_word s.now }
{
    bytes::after_first(s, b' ')
}

// The words of a line one after another: `for word in Words(line)`. This is no `Split`, which would give an empty part
// after a space at the end.
#[derive(Clone, Copy)]
pub struct Words<'a>(pub &'a [u8]);

impl<'a> Iterator for Words<'a> {
    type Item = &'a [u8];

    ghost next_gives = { YieldsFirstBy (λ word. word.now) words_left };

    ghost remaining = { item_count words_left };

    // One search for the space gives the word and what comes after it.
    #[tactic(auto, using(crate::proofs::LineWords::words_first, crate::proofs::LineWords::words_none, crate::proofs::LineWords::fewer, texts::proofs::Cuts::after_else), unfolding(crate::specs::Words::first_word, crate::specs::Words::after_word, texts::specs::Bytes::after_first))]
    fn next(&mut self) -> Option<&'a [u8]> {
        let left = self.0;
        if left.len() == 0 {
            return None;
        }
        let (word, after) = bytes::cut_at(left, b' ');
        self.0 = after.unwrap_or(&[]);
        Some(word)
    }
}

// The word of this index, from 0 on; empty where there are fewer words.
pub fn word(s: &[u8], index: usize) -> &[u8]
    ensures { result.now ≡ word_at index s.now }
{
    Words(s).nth(index).unwrap_or(&[])
}

// How many spaces there are.
pub fn blanks(s: &[u8]) -> usize
    ensures { result ≡ blanks_in s.now }
{
    s.iter().filter(|b| **b == b' ').count()
}
