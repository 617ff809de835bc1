// A request line and its answer. The table holds the requests; the first word of a line picks its row.
ghost use Rattle.std.specs.Prelude.{◌≡◌, min, length};
ghost use Rattle.texts.specs.Lent.{over, written, Adds};
ghost use Rattle.wording.specs.Words.{after_word};
ghost use Rattle.requests.specs.Asked.{on_read};
ghost use Rattle.requests.specs.Requests.{help_text, request_of, request_answer, answer_of};

use crate::asked::Question;
use crate::{asked, plays, reading};
use captures::moves::MAX_MOVES;
use replies::answers;
use scores::eval::Classical;
use squares::refusal::Guard;
use texts::space::Space;
use wording::output::Flaw;
use wording::{escapes, words};

// The longest line that is looked at.
pub const LONGEST: usize = 65536;

// What a line may ask for.
#[derive(Clone, Copy, Debug, PartialEq, Eq)]
pub enum Request {
    Fen,
    Hub,
    Fen2hub,
    Hub2fen,
    Square,
    Parts,
    Bits,
    Moves,
    Atmost,
    Parse,
    After,
    Perft,
    Divide,
    Eval,
    Evalw,
    Hash,
    Flip,
    Caps,
    Quiet,
    Play,
    Outcome,
    Record,
}

// A name, the arguments as `dame --help` prints them, and what is asked. FEN is a position: one word, or the rest of
// the line where nothing follows it. TEXT is the rest of the line, or one word where `..` follows it.
static REQUESTS: [(&[u8], &[u8], Request); 22] = [
    (b"fen", b"TEXT", Request::Fen),
    (b"hub", b"TEXT", Request::Hub),
    (b"fen2hub", b"TEXT", Request::Fen2hub),
    (b"hub2fen", b"TEXT", Request::Hub2fen),
    (b"square", b"TEXT", Request::Square),
    (b"parts", b"WHITE BLACK KINGS SIDE", Request::Parts),
    (b"bits", b"FEN", Request::Bits),
    (b"moves", b"FEN", Request::Moves),
    (b"atmost", b"LIMIT FEN", Request::Atmost),
    (b"parse", b"FEN TEXT", Request::Parse),
    (b"after", b"FEN TEXT", Request::After),
    (b"perft", b"FEN DEPTH", Request::Perft),
    (b"divide", b"FEN DEPTH", Request::Divide),
    (b"eval", b"FEN", Request::Eval),
    (
        b"evalw",
        b"FEN MAN KING ADVANCE CENTER GUARD",
        Request::Evalw,
    ),
    (b"hash", b"FEN", Request::Hash),
    (b"flip", b"FEN", Request::Flip),
    (b"caps", b"FEN", Request::Caps),
    (b"quiet", b"FEN", Request::Quiet),
    (b"play", b"FEN TEXT ..", Request::Play),
    (b"outcome", b"FEN", Request::Outcome),
    (b"record", b"FEN FIRST,LAST,SET ..", Request::Record),
];

// The request whose row in the table has this name.
fn request_of(name: &[u8]) -> Option<Request>
    ensures { result ≡ request_of name.now }
{
    REQUESTS
        .iter()
        .find(|(known, _, _)| words::same(name, known))
        .map(|(_, _, asks)| *asks)
}

#[tactic(auto, unfolding(crate::specs::Requests::whole_position))]
fn answer_request(request: Request, arg: &[u8], out: &mut Space)
    ensures { out.new ≡ over (request_answer request arg.now) out.old }
{
    match request {
        Request::Fen => answers::tell_fen(out, reading::fen(arg)),
        Request::Hub => answers::tell_hub(out, reading::hub(arg)),
        Request::Fen2hub => answers::tell_hub(out, reading::fen(arg)),
        Request::Hub2fen => answers::tell_fen(out, reading::hub(arg)),
        Request::Square => answers::tell_square(out, reading::square(arg)),
        Request::Parts => asked::parts(arg, out),
        Request::Bits => answers::tell_bits(out, reading::position(arg)),
        Request::Moves => asked::moves(reading::position(arg), MAX_MOVES, out),
        Request::Atmost => asked::atmost(arg, out),
        Request::Parse => Question::read(arg).parse(out),
        Request::After => Question::read(arg).after(out),
        Request::Perft => Question::read(arg).perft(out),
        Request::Divide => Question::read(arg).divide(out),
        Request::Eval => asked::eval(reading::position(arg), Classical::default(), out),
        Request::Evalw => asked::evalw(arg, out),
        Request::Hash => answers::tell_hash(out, reading::position(arg)),
        Request::Flip => asked::flip(reading::position(arg), out),
        Request::Caps => asked::caps(reading::position(arg), out),
        Request::Quiet => asked::quiet(reading::position(arg), out),
        Request::Play => Question::read(arg).play(out),
        Request::Outcome => plays::outcome(reading::position(arg), out),
        Request::Record => Question::read(arg).record(out),
    }
}

// What a line asks for, or why it asks for nothing.
#[tactic(auto, unfolding(crate::specs::Requests::answer_of))]
fn read_request(line: &[u8]) -> Result<Request, Flaw>
    ensures { on_read result (λ r. request_answer r (after_word line.now)) ≡ answer_of line.now }
{
    Flaw::Length.unless(line.len() <= LONGEST)?;
    Flaw::Escape.unless(escapes::is_plain(line))?;
    request_of(words::first(line)).ok_or(Flaw::Name)
}

fn put_answer(line: &[u8], out: &mut Space)
    ensures { out.new ≡ over (answer_of line.now) out.old }
{
    asked::answer_read(out, read_request(line), |to, request| {
        answer_request(request, words::rest(line), to)
    });
}

// The answer to a request line (without its line feed), at the start of the lent bytes; what has no room is left out.
// How many bytes it has there. (`help` begins and ends so too, as does `unescape` of `wording`, which says why there is
// no one function for them.)
pub fn answer(line: &[u8], out: &mut [u8]) -> usize
    ensures value { result ≡ min (length (answer_of line.now)) (length out.old) }
    ensures out_after { out.new ≡ written (answer_of line.now) out.old }
{
    let mut space = Space::new(out);
    put_answer(line, &mut space);
    space.at
}

// The requests with their arguments, one a line, at the start of the lent bytes; what has no room is left out.
pub fn help(out: &mut [u8]) -> usize
    ensures { Adds help_text out.old 0 out.new result }
{
    let mut space = Space::new(out);
    for (name, arguments, _) in &REQUESTS {
        space.put(name);
        space.put_byte(b' ');
        space.put(arguments);
        space.put_byte(b'\n');
    }
    space.at
}
