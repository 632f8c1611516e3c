// Tries the public calls as they are handed in on standard input, and writes what each answered and left. Who asks computes the same by brute force:
// tools/try_rounds.py and tools/try_chains.py. A call is 192 words of 16 bits, lowest byte first; an answer is 64.
//
// The words of a call: 0 for start, 1 for a round, 2 for first, 3 for next; V, K, Q, s, t; the lengths of the three columns, the number of moves, the
// lengths of the area and of the chain buffer; two words each for the count, the start set and the accepting set; 16 from marks, 16 to marks, 16
// sets of two words; the moves' 12 from states, 12 kinds and 12 to states; 40 words of the area; 12 words of the chain buffer. The words of an
// answer: 0 and the refusal's number, 1 and the length (Found), 2 (None), 3 (Going), 4 (a chain) or 5 (End); two words for the place or the count;
// from word 8 on the area, from word 48 on the chain buffer.

#![tactic(auto)]

ghost use Rattle.std.specs.Prelude.{ℕ, ◌+◌, ◌≤◌, ◌<◌, length};

use desk::held::Held;
use desk::{Prepared, Rounds, held};
use walk::{Ask, Condition, First, Move, Network, Next, Question, Refused, Status};

// Which call is asked for.
#[derive(Clone, Copy)]
enum Call {
    Start,
    Round,
    First,
    Next,
}

impl From<u16> for Call {
    fn from(name: u16) -> Call {
        match name {
            0 => Call::Start,
            2 => Call::First,
            3 => Call::Next,
            _ => Call::Round,
        }
    }
}

fn word(asked: &[u8; 384], i: usize) -> u16
    requires { i < 192 }
{
    u16::from_le_bytes([asked[2 * i], asked[2 * i + 1]])
}

fn long(asked: &[u8; 384], i: usize) -> u32
    requires { i < 191 }
{
    u32::from_le_bytes([
        asked[2 * i],
        asked[2 * i + 1],
        asked[2 * i + 2],
        asked[2 * i + 3],
    ])
}

// A number that is no more than a buffer's length.
fn within(asked: &[u8; 384], i: usize, most: usize) -> usize
    requires { i < 192 }
    ensures { result ≤ most }
{
    usize::from(word(asked, i)).min(most)
}

fn put(said: &mut [u8; 128], i: usize, w: u16)
    requires { i < 64 }
{
    let bytes = w.to_le_bytes();
    said[2 * i] = bytes[0];
    said[2 * i + 1] = bytes[1];
}

// A place or a count, in two words.
fn put_long(said: &mut [u8; 128], i: usize, n: usize)
    requires { i < 63 }
{
    put(said, i, (n & 0xffff) as u16);
    put(said, i + 1, (n >> 16 & 0xffff) as u16);
}

// The words of a column, each as the call has it.
fn fill<T: Copy, F: Fn(usize) -> T>(words: &mut [T], at: F)
    requires { (j : ℕ) → j < length words.old → F.pre at j }
{
    for j in 0..words.len() {
        words[j] = at(j);
    }
}

fn refused(said: &mut [u8; 128], e: Refused) {
    put(said, 1, e.refusal.number() as u16);
    put_long(said, 2, e.place);
}

// A status with its length and the count.
fn prepared(said: &mut [u8; 128], answer: Result<Prepared, Refused>) {
    match answer {
        Err(e) => refused(said, e),
        Ok(p) => {
            put_long(said, 2, p.rounds.done);
            match p.status {
                Status::Found(n) => {
                    put(said, 0, 1);
                    put(said, 1, (n & 0xffff) as u16);
                }
                Status::None => put(said, 0, 2),
                Status::Going => put(said, 0, 3),
            }
        }
    }
}

fn listed(said: &mut [u8; 128], answer: Result<First, Refused>) {
    match answer {
        Err(e) => refused(said, e),
        Ok(First::Chain) => put(said, 0, 4),
        Ok(First::None) => put(said, 0, 2),
    }
}

fn followed(said: &mut [u8; 128], answer: Result<Next, Refused>) {
    match answer {
        Err(e) => refused(said, e),
        Ok(Next::Chain) => put(said, 0, 4),
        Ok(Next::End) => put(said, 0, 5),
    }
}

// The words of a buffer, from word i of the answer on.
fn words(said: &mut [u8; 128], i: usize, buffer: &[u16])
    requires { i + length buffer.now ≤ 64 }
{
    for (j, &w) in buffer.iter().enumerate() {
        put(said, i + j, w);
    }
}

fn network(asked: &[u8; 384]) -> Network {
    Network {
        marks: usize::from(word(asked, 1)),
        kinds: usize::from(word(asked, 2)),
    }
}

fn condition(asked: &[u8; 384]) -> Condition {
    Condition {
        states: usize::from(word(asked, 3)),
        start: long(asked, 14),
        accept: long(asked, 16),
    }
}

fn ask(asked: &[u8; 384]) -> Ask {
    Ask {
        from: usize::from(word(asked, 4)),
        to: usize::from(word(asked, 5)),
    }
}

// The moves, in the first rows.
fn moves(asked: &[u8; 384]) -> [Move; Held::ROWS] {
    let mut rows = [Move {
        from: 0,
        kind: 0,
        to: 0,
    }; Held::ROWS];
    for j in 0..12 {
        rows[j] = Move {
            from: word(asked, 82 + j),
            kind: word(asked, 94 + j),
            to: word(asked, 106 + j),
        };
    }
    rows
}

fn answer(
    asked: &[u8; 384],
    said: &mut [u8; 128],
    question: &Question,
    area: &mut [u16],
    chain: &mut [u16],
) {
    let rows = moves(asked);
    let count = usize::from(word(asked, 9));
    let rounds = Rounds {
        done: long(asked, 12) as usize,
    };
    match Call::from(word(asked, 0)) {
        Call::Start => prepared(said, held::start(question, rows, count, area)),
        Call::Round => prepared(said, held::round(rounds, question, rows, count, area)),
        Call::First => listed(
            said,
            held::first(rounds, question, rows, count, area, chain),
        ),
        Call::Next => followed(said, held::next(rounds, question, rows, count, area, chain)),
    }
}

fn with_ties(asked: &[u8; 384], said: &mut [u8; 128], area: &mut [u16], chain: &mut [u16]) {
    let mut from = [0u16; 16];
    fill(&mut from, |j| word(asked, 18 + j));
    let mut to = [0u16; 16];
    fill(&mut to, |j| word(asked, 34 + j));
    let mut kinds = [0u32; 16];
    fill(&mut kinds, |j| long(asked, 50 + 2 * j));
    let question = Question {
        network: network(asked),
        condition: condition(asked),
        ask: ask(asked),
        from: &from[..within(asked, 6, 16)],
        to: &to[..within(asked, 7, 16)],
        kinds: &kinds[..within(asked, 8, 16)],
    };
    answer(asked, said, &question, area, chain);
}

fn turn(asked: &[u8; 384], said: &mut [u8; 128]) {
    let mut area = [0u16; 40];
    fill(&mut area, |j| word(asked, 118 + j));
    let mut chain = [0u16; 12];
    fill(&mut chain, |j| word(asked, 158 + j));
    let a = within(asked, 10, 40);
    let c = within(asked, 11, 12);
    with_ties(asked, said, &mut area[..a], &mut chain[..c]);
    words(said, 8, &area);
    words(said, 48, &chain);
}

fn main() {
    for _ in 0..1000000 {
        let mut asked = [0u8; 384];
        if io::read_full(0, &mut asked) != 384 {
            return;
        }
        let mut said = [0u8; 128];
        turn(&asked, &mut said);
        io::write_all(1, &said);
    }
}
