// What a line asks. Its first byte says what the question is about, and the words after it are:
//   a  a position: the number of the entry, a number for it
//   b  a number: the number of the entry, this number
//   c  lent space: the number of the entry, how many bytes are lent
//   d  a move text on a position: the text
//   e  a game: the number of the entry, a number for it
//   g  a list of records: how many answers are lent, how many numbers the list has, these numbers
//   h  a move text on a game: the text
//   j  a new game from a FEN: the FEN
// A semicolon follows, and after it the text that the answer begins with.
use crate::given::Values;
use crate::{given, show, show_games};
use games::game::Game;
use games::replay as replays;
use movegen::perft;
use positions::position;
use scores::eval;
use squares::refusal::Refusal;
use squares::{bitboard, square};
use std::{array, io};
use texts::{bytes, fen, hub};
use wording::words;

// A question: its line, the two numbers after the first letter, and what was handed in before.
#[derive(Clone, Copy)]
struct Question<'a> {
    line: &'a [u8],
    entry: u64,
    n: u64,
    values: &'a Values,
}

// The numbers of the entries are those of the input (scripts/handed writes it). A name for each would be used here
// alone, beside the call that it stands for.
impl<'a> Question<'a> {
    fn read(line: &'a [u8], values: &'a Values) -> Question<'a> {
        Question {
            line,
            entry: given::number(line, 1),
            n: given::number(line, 2),
            values,
        }
    }

    fn of_position(self, rt: &impl Print) -> io::Result<()> {
        let p = self.values.position;
        match self.entry {
            0 => show::listed(rt, movegen::movegen::legal_moves(p, self.n as usize)),
            1 => show::tested(rt, movegen::movegen::has_captures(p)),
            2 => show::tested(rt, movegen::movegen::has_quiet_moves(p)),
            3 => show::placed(rt, movegen::movegen::after(p, self.values.mv)),
            4 => show::placed(rt, p.flipped()),
            5 => show::value(rt, perft::perft(p, given::small(self.n))),
            6 => show::divided(rt, perft::divide(p, given::small(self.n))),
            7 => show::value(rt, eval::evaluate(p)),
            8 => show::value(rt, self.values.weights.evaluate(p)),
            9 => show_games::begun(rt, Game::from_position(p)),
            10 => show::standing(rt, p.piece_at(given::small(self.n))),
            _ => show::placed(rt, position::from_parts(p.white, p.black, p.kings, p.side)),
        }
    }

    fn of_number(self, rt: &impl Print) -> io::Result<()> {
        match self.entry {
            0 => show::value(rt, square::new(given::small(self.n))),
            1 => show::value(rt, square::bit(given::small(self.n))),
            2 => show::value(rt, square::row(given::small(self.n))),
            3 => show::value(rt, square::file(given::small(self.n))),
            _ => show::value(rt, bitboard::from_bits(self.n)),
        }
    }

    fn write_into(self, out: &mut [u8]) -> Result<usize, Refusal> {
        match self.entry {
            0 => fen::fen(self.values.position, out),
            1 => hub::hub(self.values.position, out),
            2 => notation::moves::to_hub(self.values.mv, out),
            _ => notation::moves::display(self.values.mv, out),
        }
    }

    // Lends so many bytes, which are dots. A writer that refuses must leave every dot as it is; one that writes must
    // leave the dots after its text.
    fn of_space(self, rt: &impl Print) -> io::Result<()> {
        let mut dots = [b'.'; 64];
        let Some(lent) = dots.get_mut(..self.n as usize) else {
            return Ok(());
        };
        let w = self.write_into(lent);
        show::wrote(rt, w, lent)
    }

    fn of_game(self, rt: &impl Print) -> io::Result<()> {
        let g = self.values.game;
        match self.entry {
            0 => show_games::played(rt, g, g.play(self.values.mv)),
            1 => show_games::judged(rt, g.outcome()),
            2 => show::listed(rt, g.legal_moves(self.n as usize)),
            3 => show::value(rt, g.repetitions()),
            4 => show::value(rt, g.reversible_plies()),
            5 => show::placed(rt, g.position()),
            _ => show::tested(rt, g.is_over()),
        }
    }

    // Lends the first numbers of a list of nine, and a byte for each of at most four answers. Each byte is 46
    // beforehand. The numbers come after the first three words of the line.
    fn of_list(self, rt: &impl Print) -> io::Result<()> {
        let list: [u64; 9] = array::from_fn(|i| given::number(self.line, i + 3));
        let mut lent = [b'.'; 4];
        let Some(numbers) = list.get(..self.n as usize) else {
            return Ok(());
        };
        let Some(answers) = lent.get_mut(..self.entry as usize) else {
            return Ok(());
        };
        let b = replays::replay(self.values.position, numbers, answers);
        show_games::begun_with(rt, b, answers)
    }

    // The text on which a move or a game is read: the first word after the letter.
    fn text(self) -> &'a [u8] {
        words::word(self.line, 1)
    }

    fn answer(self, rt: &impl Print) -> io::Result<()> {
        let p = self.values.position;
        let g = self.values.game;
        match self.line.first() {
            Some(b'a') => self.of_position(rt),
            Some(b'b') => self.of_number(rt),
            Some(b'c') => self.of_space(rt),
            Some(b'd') => show::found(rt, notation::notation::parse_move(p, self.text())),
            Some(b'e') => self.of_game(rt),
            Some(b'h') => show_games::played_text(rt, g, gametexts::game::play_str(g, self.text())),
            Some(b'j') => show_games::begun(rt, gametexts::game::from_fen(self.text())),
            _ => self.of_list(rt),
        }
    }
}

// A line without a semicolon asks nothing.
fn line(rt: &impl Print, s: &[u8], values: &Values) -> io::Result<()> {
    let Some(text) = bytes::cut_at(s, b';').1 else {
        return Ok(());
    };
    rt.write_all(text)?;
    print!(rt; ": ")?;
    Question::read(s, values).answer(rt)
}

pub(crate) fn lines(rt: &impl Print, text: &[u8]) -> io::Result<()> {
    let mut values = Values::new();
    for s in text.split(|b| *b == b'\n') {
        values.take(s);
        line(rt, s, &values)?;
    }
    Ok(())
}
