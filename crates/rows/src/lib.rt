// Rows of the area: the words of one mark, one for each state. They are begun, fetched, written and compared here; `offers` lowers a row by what
// the ties into its mark offer, from the states that are `alive`.

#![tactic(auto)]

pub mod alive;
pub mod offers;

ghost use Rattle.std.specs.Prelude.{◌≡◌, ◌+◌, ◌*◌, ◌≤◌, ◌<◌, length, get_or};
ghost use Rattle.walk.specs.Ceilings.{ceilings};
ghost use Rattle.rows.specs.Rows.{row, opening, Row, Put, RowsTo, differ};

use tables::numbers::Mark;
use tables::sets::Elements;
use walk::{Area, Condition, Network};

// Where the row of mark v begins.
pub fn place(v: Mark, states: usize, marks: usize) -> usize
    requires { (v.0 < marks) × (marks ≤ ceilings.marks) × (states ≤ ceilings.states) }
    ensures { (result ≡ v.0 * states) × (result + states ≤ marks * states) × (marks * states ≤ ceilings.words) }
{
    v.index() * states
}

// The words of an area, to be read: a row for each mark, with a word for each state.
#[derive(Clone, Copy)]
pub struct Words<'a> {
    pub area: &'a [u16],
    pub marks: usize,
    pub states: usize,
    ghost few: { (marks ≤ ceilings.marks) × (states ≤ ceilings.states) },
    ghost room: { marks * states ≤ length area.now },
}

impl<'a> Words<'a> {
    // The words of an area that is long enough for a question.
    pub fn of(area: &'a [u16], network: Network, condition: Condition) -> Words<'a>
        requires { (network.marks ≤ ceilings.marks) × (condition.states ≤ ceilings.states) × (network.marks * condition.states ≤ length area.now) }
        ensures { (few : _) × (room : _)
            × (result ≡ record { area = area.entry; marks = network.marks; states = condition.states; few = few; room = room }) }
    {
        Words {
            area,
            marks: network.marks,
            states: condition.states,
        }
    }

    // The row of mark v.
    pub fn row(&self, v: Mark) -> &'a [u16]
        requires { v.0 < self.now.marks }
        ensures words { result.now ≡ row self.now.area.now self.now.states v.0 }
        ensures size { length result.now ≡ self.now.states }
    {
        let at = place(v, self.states, self.marks);
        &self.area[at..at + self.states]
    }
}

// The row of mark v for 0 rounds: 0 at a start pair.
pub fn opening(v: Mark, s: Mark, condition: Condition) -> [u16; Condition::STATES]
    requires { condition.states ≤ ceilings.states }
    ensures { Row result condition.states (opening s.0 condition.start v.0) }
{
    let mut row = [Area::UNREACHED; Condition::STATES];
    if v == s {
        for q in Elements::of(condition.start) {
            row[q] = 0;
        }
    }
    row
}

// The row that begins at a place of the area.
pub fn fetch(area: &[u16], at: usize, states: usize) -> [u16; Condition::STATES]
    requires { (states ≤ ceilings.states) × (at + states ≤ length area.now) }
    ensures { Row result states (λ q. get_or area.now (at + q) 0) }
{
    let mut row = [0; Condition::STATES];
    row[..states].copy_from_slice(&area[at..at + states]);
    row
}

// The row is written where it begins.
pub fn write(area: &mut [u16], at: usize, row: &[u16; Condition::STATES], states: usize)
    requires { (states ≤ ceilings.states) × (at + states ≤ length area.old) }
    ensures { Put area.old area.new row.now at states }
{
    area[at..at + states].copy_from_slice(&row[..states]);
}

// Some word of the part is not that of the row.
pub fn differs(words: &[u16], row: &[u16; Condition::STATES]) -> bool
    requires { length words.now ≤ ceilings.states }
    ensures { result ≡ differ words.now row.now (length words.now) }
{
    for (q, &w) in words.iter().enumerate() {
        if w != row[q] {
            return true;
        }
    }
    false
}

// The right area for 0 rounds, mark by mark.
pub fn open(area: &mut [u16], marks: usize, condition: Condition, s: Mark)
    requires { (marks ≤ ceilings.marks) × (condition.states ≤ ceilings.states) × (marks * condition.states ≤ length area.old) }
    ensures { RowsTo area.old area.new condition.states marks (opening s.0 condition.start) }
{
    let states = condition.states;
    for v in 0..marks {
        let m = Mark::tested(v, marks);
        let row = opening(m, s, condition);
        write(area, place(m, states, marks), &row, states);
    }
}
