// A closed table of references, as a filing or an asking looks at it.
ghost use Rattle.std.specs.Prelude.{◌≡◌, ◌*◌, ◌≤◌, ◌<◌, length};
ghost use Rattle.bits.specs.Bits.{word_bits, bit_at};
ghost use Rattle.bits.specs.Any.{any};
ghost use Rattle.reach.specs.Closure.{ClosureOf};
ghost use Rattle.standing.specs.Standing.{cleared, filled, standing_number};
ghost use Rattle.standing.specs.Closed.{leans_on, loses_of, standing_of};

use crate::Standing;
use bits::bit_at;

// What each of so many rows reaches among them, `width` words to a row.
#[derive(Clone, Copy)]
pub struct Closed<'a> {
    pub words: &'a [u32],
    pub width: usize,
    pub rows: usize,
    ghost enough: { rows * width ≤ length words.now },
    ghost wide: { rows ≤ word_bits * width },
}

impl<'a> Closed<'a> {
    // What the first rows of `sets`, v words to a row, reach among themselves, laid over the room.
    pub fn over(
        room: &'a mut [u32],
        width: usize,
        sets: &[u32],
        v: usize,
        rows: usize,
    ) -> Closed<'a>
        requires { (rows * width ≤ length room.old) × (rows * v ≤ length sets.now)
            × (width ≤ v) × (rows ≤ word_bits * width) }
        ensures width { result.width ≡ width }
        ensures rows { result.rows ≡ rows }
        ensures closed { ClosureOf width v rows sets.now result.words.now }
    {
        reach::closure(room, width, sets, v, rows);
        Closed {
            words: room,
            width,
            rows,
        }
    }

    // Row i reaches row j.
    fn reaches(&self, i: usize, j: usize) -> bool
        requires { (i < self.now.rows) × (j < self.now.rows) }
        ensures { result ≡ bit_at self.now.width self.now.words.now i j }
    {
        bit_at(self.words, self.width, i, j)
    }

    // Row i reaches row j, which is EMPTY, BAD or LOOP.
    fn leans_on(&self, states: &[u8], i: usize, j: usize) -> bool
        requires { (self.now.rows ≤ length states.now)
            × (i < self.now.rows) × (j < self.now.rows) }
        ensures { result ≡ leans_on self.now.width self.now.words.now states.now i j }
    {
        self.reaches(i, j) && (states[j] < 2 || self.reaches(j, j))
    }

    // Row i reaches a row that is EMPTY, BAD or LOOP.
    fn leans(&self, states: &[u8], i: usize) -> bool
        requires { (self.now.rows ≤ length states.now) × (i < self.now.rows) }
        ensures { result
            ≡ any self.now.rows (leans_on self.now.width self.now.words.now states.now i) }
    {
        (0..self.rows).any(|j| self.leans_on(states, i, j))
    }

    // The standing of row i.
    #[tactic(auto, unfolding(crate::specs::Closed::standing_of))]
    pub fn standing_of(&self, states: &[u8], i: usize) -> Standing
        requires { (self.now.rows ≤ length states.now) × (i < self.now.rows) }
        ensures { standing_number result
            ≡ standing_of self.now.width self.now.words.now states.now self.now.rows i }
    {
        match states[i] {
            0 => Standing::Empty,
            1 => Standing::Bad,
            _ if self.reaches(i, i) => Standing::Loop,
            _ if self.leans(states, i) => Standing::Leans,
            _ => Standing::Clean,
        }
    }

    // The standings of all rows, in their order.
    pub fn fill_standings(&self, all: &mut [u8], states: &[u8])
        requires { (self.now.rows ≤ length states.now) × (self.now.rows ≤ length all.old) }
        ensures { all.new ≡ filled all.old self.now.rows
            (standing_of self.now.width self.now.words.now states.now self.now.rows) }
    {
        for i in 0..self.rows {
            all[i] = self.standing_of(states, i).into();
        }
    }

    // Row j loses its mark when row i is filed.
    fn loses(&self, i: usize, j: usize) -> bool
        requires { (i < self.now.rows) × (j < self.now.rows) }
        ensures { result ≡ loses_of self.now.width self.now.words.now i j }
    {
        j == i || self.reaches(j, i)
    }

    // Takes the marks of row i and of each row that reaches it.
    pub fn unmark(&self, marks: &mut [u8], i: usize)
        requires { (self.now.rows ≤ length marks.old) × (i < self.now.rows) }
        ensures { marks.new ≡ cleared marks.old self.now.rows
            (loses_of self.now.width self.now.words.now i) }
    {
        for j in 0..self.rows {
            if self.loses(i, j) {
                marks[j] = 0;
            }
        }
    }
}
