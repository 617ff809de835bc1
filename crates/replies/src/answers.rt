// What is written of a position, a move, a list of moves or a count: `ok` and the answer, or the refusal.
#![tactic(auto, using(texts::proofs::Overs::over_append, texts::proofs::Overs::over_none), unfolding(texts::specs::Lent::over, crate::specs::Answers::fen_answer, crate::specs::Answers::hub_answer, crate::specs::Answers::hash_answer, crate::specs::Answers::set_word, crate::specs::Answers::bits_answer, crate::specs::Answers::list_answer, crate::specs::Answers::divided_answer, crate::specs::Answers::record_word, crate::specs::Answers::move_answer))]

ghost use Rattle.std.specs.Prelude.{◌≡◌, ◌∷◌, [], zip};
ghost use Rattle.std.specs.Fn.{FnOnceReturnsAtMut};
ghost use Rattle.std.specs.Result.{result_ok};
ghost use Rattle.captures.specs.Lists.{entries};
ghost use Rattle.texts.specs.Lent.{over};
ghost use Rattle.texts.specs.Bytes.{bytes};
ghost use Rattle.wording.specs.Output.{hash};
ghost use Rattle.replies.specs.Answers.{on_ok, Tells, PutsWritten, yes_no, set_word, fen_word, hub_word, bits_word, bits_answer, scored_answer, tested_answer, counted_answer, hub_answer, hash_answer, placed_answer, count_word, square_word, square_answer, move_word, moves_text, counts_text, list_word, list_answer, divided_word, divided_answer, record_word, full_word, move_answer, after_text, after_answer};

use captures::moves::MoveList;
use movegen::perft::Divided;
use positions::moves::Move;
use positions::position::Position;
use squares::refusal::Refusal;
use texts::space::Space;
use texts::{fen, hub};
use wording::output;

// Passes on what `write` writes into 200 bytes of its own; nothing where it refuses. (With `min` nothing is required of
// the length that `write` answers.)
fn put_written<F: FnOnce(&mut [u8]) -> Result<usize, Refusal>>(out: &mut Space, write: F)
    requires { F.IsAlwaysCallable write }
    ensures { PutsWritten (FnOnceReturnsAtMut F.FnOnce write) out.old out.new }
{
    let mut own = [0u8; 200];
    if let Ok(n) = write(&mut own) {
        out.put(&own[..n.min(200)]);
    }
}

// The FEN of a position.
pub fn put_fen(out: &mut Space, p: Position)
    ensures { out.new ≡ over (fen_word p) out.old }
{
    put_written(out, |space| fen::fen(p, space));
}

// The Hub text of a position.
fn put_hub(out: &mut Space, p: Position)
    ensures { out.new ≡ over (hub_word p) out.old }
{
    put_written(out, |space| hub::hub(p, space));
}

pub fn put_ok(out: &mut Space)
    ensures { out.new ≡ over (bytes "ok ") out.old }
{
    out.put(b"ok ");
}

// What was found, or nothing where it was refused; the refusal is written then. (A function that gets what follows as a
// closure would have a `requires`, which no public function has.)
pub fn found<T>(out: &mut Space, r: Result<T, Refusal>) -> Option<T>
    ensures value { result ≡ result_ok r }
    ensures out_after { out.new ≡ over (on_ok r (λ _. [])) out.old }
{
    match r {
        Ok(x) => Some(x),
        Err(e) => {
            output::put_refusal(out, e);
            None
        }
    }
}

// `ok` and what `put` writes of what was found, or the refusal.
pub(crate) fn tell<T, F: FnOnce(&mut Space, T)>(out: &mut Space, r: Result<T, Refusal>, put: F)
    requires { F.IsAlwaysCallable put }
    ensures { Tells (F.post put) r out.old out.new }
{
    if let Some(x) = found(out, r) {
        put_ok(out);
        put(out, x);
    }
}

pub fn tell_fen(out: &mut Space, p: Result<Position, Refusal>)
    ensures { out.new ≡ over (placed_answer p) out.old }
{
    tell(out, p, put_fen);
}

pub fn tell_hub(out: &mut Space, p: Result<Position, Refusal>)
    ensures { out.new ≡ over (on_ok p hub_answer) out.old }
{
    tell(out, p, put_hub);
}

fn put_hash(out: &mut Space, p: Position)
    ensures { out.new ≡ over (hash p.hash) out.old }
{
    output::put_hash(out, p.hash);
}

pub fn tell_hash(out: &mut Space, p: Result<Position, Refusal>)
    ensures { out.new ≡ over (on_ok p hash_answer) out.old }
{
    tell(out, p, put_hash);
}

// A set in hexadecimal and a space.
fn put_set(out: &mut Space, set: u64)
    ensures { out.new ≡ over (set_word set) out.old }
{
    output::put_hex(out, set);
    out.put_byte(b' ');
}

// The three sets, the side and the hash.
fn put_bits(out: &mut Space, p: Position)
    ensures { out.new ≡ over (bits_word p) out.old }
{
    put_set(out, p.white);
    put_set(out, p.black);
    put_set(out, p.kings);
    out.put_byte(p.side.to_char());
    out.put_byte(b' ');
    put_hash(out, p);
}

pub fn tell_bits(out: &mut Space, p: Result<Position, Refusal>)
    ensures { out.new ≡ over (on_ok p bits_answer) out.old }
{
    tell(out, p, put_bits);
}

pub fn tell_scored(out: &mut Space, s: Result<i32, Refusal>)
    ensures { out.new ≡ over (scored_answer s) out.old }
{
    tell(out, s, output::put_signed);
}

// 1 or 0.
#[tactic(auto, unfolding(crate::specs::Answers::yes_no))]
fn put_yes_no(out: &mut Space, yes: bool)
    ensures { out.new ≡ over (yes_no yes ∷ []) out.old }
{
    out.put_byte(if yes { b'1' } else { b'0' });
}

pub fn tell_tested(out: &mut Space, t: Result<bool, Refusal>)
    ensures { out.new ≡ over (tested_answer t) out.old }
{
    tell(out, t, put_yes_no);
}

pub fn tell_counted(out: &mut Space, c: Result<u64, Refusal>)
    ensures { out.new ≡ over (counted_answer c) out.old }
{
    tell(out, c, output::put_decimal);
}

// A number, or nothing where it is refused.
pub(crate) fn put_count(out: &mut Space, c: Result<u64, Refusal>)
    ensures { out.new ≡ over (count_word c) out.old }
{
    if let Ok(n) = c {
        output::put_decimal(out, n);
    }
}

// The number, the bit and the row of a square.
fn put_square(out: &mut Space, n: u32)
    ensures { out.new ≡ over (square_word n) out.old }
{
    output::put_decimal(out, n as u64);
    out.put_byte(b' ');
    put_count(out, squares::square::bit(n).map(u64::from));
    out.put_byte(b' ');
    put_count(out, squares::square::row(n).map(u64::from));
}

pub fn tell_square(out: &mut Space, n: Result<u32, Refusal>)
    ensures { out.new ≡ over (on_ok n square_answer) out.old }
{
    tell(out, n, put_square);
}

// A move's Hub text.
pub fn put_move(out: &mut Space, m: Move)
    ensures { out.new ≡ over (move_word m) out.old }
{
    put_written(out, |space| notation::moves::to_hub(m, space));
}

// The moves of a list, a space before each.
#[tactic(auto, using(crate::proofs::Listing::moves_none, crate::proofs::Listing::moves_next, crate::proofs::Listing::moves_all))]
fn put_moves(out: &mut Space, list: MoveList)
    ensures { out.new ≡ over (moves_text (entries list)) out.old }
{
    for &m in list.entries() {
        out.put_byte(b' ');
        put_move(out, m);
    }
}

// How many moves there are, and each of them.
fn put_list(out: &mut Space, list: MoveList)
    ensures { out.new ≡ over (list_word list) out.old }
{
    output::put_decimal(out, list.len as u64);
    put_moves(out, list);
}

pub fn tell_list(out: &mut Space, l: Result<MoveList, Refusal>)
    ensures { out.new ≡ over (list_answer l) out.old }
{
    tell(out, l, put_list);
}

// The first moves, each with its count.
#[tactic(auto, using(crate::proofs::Listing::counts_none))]
fn put_counts(out: &mut Space, d: Divided)
    ensures { out.new ≡ over (counts_text (zip (entries d.list) d.counts)) out.old }
{
    for (&m, &count) in d.list.entries().iter().zip(&d.counts) {
        out.put_byte(b' ');
        put_move(out, m);
        out.put_byte(b'=');
        output::put_decimal(out, count);
    }
}

fn put_divided(out: &mut Space, d: Divided)
    ensures { out.new ≡ over (divided_word d) out.old }
{
    output::put_decimal(out, d.list.len as u64);
    put_counts(out, d);
}

pub fn tell_divided(out: &mut Space, d: Result<Divided, Refusal>)
    ensures { out.new ≡ over (divided_answer d) out.old }
{
    tell(out, d, put_divided);
}

// A move's first square, last square and set.
fn put_record(out: &mut Space, m: Move)
    ensures { out.new ≡ over (record_word m) out.old }
{
    output::put_decimal(out, m.from as u64);
    out.put_byte(b',');
    output::put_decimal(out, m.to as u64);
    out.put_byte(b',');
    output::put_hex(out, m.captured);
}

// The move's Hub text, first square, last square and set.
fn put_full(out: &mut Space, m: Move)
    ensures { out.new ≡ over (full_word m) out.old }
{
    put_move(out, m);
    out.put_byte(b' ');
    put_record(out, m);
}

pub fn tell_move(out: &mut Space, m: Result<Move, Refusal>)
    ensures { out.new ≡ over (on_ok m move_answer) out.old }
{
    tell(out, m, put_full);
}

// The FEN of the position after a move, and its hash.
fn put_after(out: &mut Space, p: Position)
    ensures { out.new ≡ over (after_text p) out.old }
{
    put_fen(out, p);
    out.put_byte(b' ');
    put_hash(out, p);
}

pub fn tell_after(out: &mut Space, p: Result<Position, Refusal>)
    ensures { out.new ≡ over (after_answer p) out.old }
{
    tell(out, p, put_after);
}
