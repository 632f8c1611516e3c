// The types that every crate and every definition speaks of: what is lent by value, the ceilings, and the answers.
// What a call answers with them, and what it leaves in its buffers, stands in specs/.

#![tactic(auto)]

ghost use Rattle.std.specs.Prelude.{◌≡◌};
ghost use Rattle.walk.specs.Ceilings.{ceilings};
ghost use Rattle.walk.specs.Refusals.{number};

// A network's numbers of marks and kinds; its ties are lent as three columns.
#[derive(Clone, Copy)]
pub struct Network {
    pub marks: usize,
    pub kinds: usize,
}

impl Network {
    pub const MARKS: usize = 1024;

    pub const KINDS: usize = 32;

    pub const TIES: usize = 4096;
}

// A condition's number of states, its start states and its accepting states; its moves are lent as a list.
#[derive(Clone, Copy)]
pub struct Condition {
    pub states: usize,
    pub start: u32,
    pub accept: u32,
}

impl Condition {
    pub const STATES: usize = 32;

    pub const MOVES: usize = 256;

    // Room for the numbers of its moves, three each.
    pub const NUMBERS: usize = 3 * Condition::MOVES;
}

#[derive(Clone, Copy)]
pub struct Move {
    pub from: u16,
    pub kind: u16,
    pub to: u16,
}

// The area is lent as 16-bit words, one for each mark and state.
#[derive(Clone, Copy)]
pub struct Area {}

impl Area {
    pub const WORDS: usize = Network::MARKS * Condition::STATES;

    pub const UNREACHED: u16 = 65535;
}

// The marks s and t of a question.
#[derive(Clone, Copy)]
pub struct Ask {
    pub from: usize,
    pub to: usize,
}

// What a call is asked about, beside the moves: a network with its three columns, a condition, and two marks.
#[derive(Clone, Copy)]
pub struct Question<'a> {
    pub network: Network,
    pub condition: Condition,
    pub ask: Ask,
    pub from: &'a [u16],
    pub to: &'a [u16],
    pub kinds: &'a [u32],
}

#[derive(Clone, Copy)]
pub enum Status {
    Found(usize),
    None,
    Going,
}

// Why a call is refused: a row of the table of refusals.
#[derive(Clone, Copy)]
pub enum Refusal {
    Sizes,
    BadTie,
    TieOrder,
    BadCondition,
    BadMove,
    BadEnds,
    ShortArea,
    WrongArea,
    Unfinished,
    ShortChain,
    NotListed,
}

impl Refusal {
    // Its number in the table.
    pub fn number(self) -> usize
        ensures { result ≡ number self }
    {
        match self {
            Refusal::Sizes => 1,
            Refusal::BadTie => 2,
            Refusal::TieOrder => 3,
            Refusal::BadCondition => 4,
            Refusal::BadMove => 5,
            Refusal::BadEnds => 6,
            Refusal::ShortArea => 7,
            Refusal::WrongArea => 8,
            Refusal::Unfinished => 9,
            Refusal::ShortChain => 10,
            Refusal::NotListed => 11,
        }
    }
}

// The error of every call: why it is refused, and the place.
#[derive(Clone, Copy)]
pub struct Refused {
    pub refusal: Refusal,
    pub place: usize,
}

// The answer of first: the earliest chain stands in the buffer, or there is none.
#[derive(Clone, Copy)]
pub enum First {
    Chain,
    None,
}

// The answer of next: the chain after it stands in the buffer, or it was the last.
#[derive(Clone, Copy)]
pub enum Next {
    Chain,
    End,
}

// The ceilings side by side, to be held to the numbers that the definitions name.
#[derive(Clone, Copy)]
pub struct Ceilings {
    pub marks: usize,
    pub kinds: usize,
    pub ties: usize,
    pub states: usize,
    pub moves: usize,
    pub words: usize,
    pub unreached: u16,
}

impl Ceilings {
    pub fn stated() -> Ceilings
        ensures { result ≡ ceilings }
    {
        Ceilings {
            marks: Network::MARKS,
            kinds: Network::KINDS,
            ties: Network::TIES,
            states: Condition::STATES,
            moves: Condition::MOVES,
            words: Area::WORDS,
            unreached: Area::UNREACHED,
        }
    }
}
