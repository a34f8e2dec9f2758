// The standings of rows, and the marks that a filing takes, by the sets of rows that they name, v words to a row. The closed table of the sets is laid
// over room that the caller lends, w words to a row. For any number of rows.
#![tactic(auto)]

ghost use Rattle.std.specs.Prelude.{◌≡◌, ◌||◌, ◌*◌, ◌≤◌, ◌<◌, length, get_or, eqb};
ghost use Rattle.bits.specs.Bits.{word_bits, bit_at};
ghost use Rattle.bits.specs.Any.{any};
ghost use Rattle.reach.specs.Reach.{thru};
ghost use Rattle.standing.specs.Standing.{cleared, filled, marked_in, standing, standing_number};

use closed::Closed;

mod closed;

// How a row stands: first that fits, with its number on the panel.
#[derive(Clone, Copy, Debug, PartialEq, Eq)]
pub enum Standing {
    Empty = 0,
    Bad = 1,
    Loop = 2,
    Leans = 3,
    Clean = 4,
}

impl From<Standing> for u8 {
    ghost from_gives = { λ standing n. n ≡ standing_number standing };

    fn from(standing: Standing) -> u8 {
        standing as u8
    }
}

// The standing of row i among n.
pub fn standing_among(
    room: &mut [u32],
    w: usize,
    sets: &[u32],
    v: usize,
    states: &[u8],
    n: usize,
    i: usize,
) -> Standing
    requires { (n * w ≤ length room.old) × (n * v ≤ length sets.now) × (w ≤ v) × (n ≤ word_bits * w) × (n ≤ length states.now) × (i < n) }
    ensures { standing_number result ≡ standing n (λ j. get_or states.now j 0) (bit_at v sets.now) i }
{
    Closed::over(room, w, sets, v, n).standing_of(states, i)
}

// The standings of n rows, in their order, by one closure.
pub fn standings_among(
    all: &mut [u8],
    room: &mut [u32],
    w: usize,
    sets: &[u32],
    v: usize,
    states: &[u8],
    n: usize,
)
    requires { (n * w ≤ length room.old) × (n * v ≤ length sets.now) × (w ≤ v) × (n ≤ word_bits * w) × (n ≤ length states.now) × (n ≤ length all.old) }
    ensures { all.new ≡ filled all.old n (standing n (λ j. get_or states.now j 0) (bit_at v sets.now)) }
{
    Closed::over(room, w, sets, v, n).fill_standings(all, states);
}

// Some row of n has a mark.
pub fn any_marked(marks: &[u8], n: usize) -> bool
    requires { n ≤ length marks.now }
    ensures { result ≡ any n (marked_in marks.now) }
{
    marks[..n].iter().any(|mark| *mark != 0)
}

// Takes the marks of row i and of each of the n rows that reaches it.
pub fn unmark_among(
    marks: &mut [u8],
    room: &mut [u32],
    w: usize,
    sets: &[u32],
    v: usize,
    n: usize,
    i: usize,
)
    requires { (n * w ≤ length room.old) × (n * v ≤ length sets.now) × (w ≤ v) × (n ≤ word_bits * w) × (n ≤ length marks.old) × (i < n) }
    ensures { marks.new ≡ cleared marks.old n (λ j. eqb j i || thru (bit_at v sets.now) n j i) }
{
    Closed::over(room, w, sets, v, n).unmark(marks, i);
}
