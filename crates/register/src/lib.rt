// The register of the TypeSpec rows of one module, a struct of one size, with the sets of rows that its
// rows name in numbers that the caller lends: the same at each call from the opening on, WORDS to a
// row. Row r has the index r - 1.
#![tactic(auto)]

ghost use Rattle.std.specs.Prelude.{◌≡◌, ◌-◌, length, IfOk};
ghost use Rattle.answer.specs.Answers.{admit_code, number_in, told_of};
ghost use Rattle.standing.specs.Standing.{standing_number};
ghost use Rattle.filing.specs.Outcome.{judged};
ghost use Rattle.register.specs.Calls.{Inside, RoomFor, blank_register, left, changed, open_code, open_of, file_at, file_of, marks_after, acknowledge_at, acknowledge_of, ask_of, standing_at, standings_of};

pub use answer::refusal::Refusal;
pub use answer::{Asked, MAX_SIZE, Told, WORDS};
use answer::{asked_of, check_acknowledgement, check_call};
use filing::judge_row;
use grammar::MAX_ROWS;
use number::token::{Counts, no_counts};
use standing::Standing;

// Up to so many rows, a row is asked or filed with FEW_WORDS words to a row in the closed table,
// which is then small enough to be closed quickly.
const FEW: usize = 64;

const FEW_WORDS: usize = FEW / bits::WORD_BITS;

// The words of the closed tables of FEW and of MAX_SIZE rows.
const FEW_ROOM: usize = FEW * FEW_WORDS;

const ROOM: usize = MAX_SIZE * WORDS;

// Kept: an array for each, for the states and the marks are lent apart, as slices: both to the crate
// standing, and the marks to the sheet, which acknowledges on a copy of them.
#[derive(Clone, Copy)]
pub struct Register {
    // the row counts of the tables; that of TypeSpec is the number of rows
    pub counts: Counts,
    // of each row: 0 never filed, 1 refused, 2 accepted
    pub states: [u8; MAX_SIZE],
    // of each refused row: the refusal's number and place
    pub codes: [u8; MAX_SIZE],
    pub places: [u16; MAX_SIZE],
    // of each row: 0 for no mark
    pub marks: [u8; MAX_SIZE],
}

// What opening answers, with so many words lent.
#[tactic(auto, unfolding(crate::specs::Calls::open_code, crate::specs::Calls::too_many))]
fn check_opening(counts: Counts, lent: usize) -> Result<(), Refusal>
    ensures { number_in result ≡ open_code counts lent }
{
    if MAX_ROWS < counts.defs || MAX_ROWS < counts.refs {
        return Err(Refusal::TableTooLarge);
    }
    let rows = counts.specs as usize;
    if rows == 0 || MAX_SIZE < rows {
        return Err(Refusal::SizeOutOfRange);
    }
    if lent < rows * WORDS {
        return Err(Refusal::TooFewWords);
    }
    Ok(())
}

impl Register {
    // A register with nothing filed and nothing marked.
    fn blank(counts: Counts) -> Register
        ensures { result ≡ blank_register counts }
    {
        Register {
            counts,
            states: [0; MAX_SIZE],
            codes: [0; MAX_SIZE],
            places: [0; MAX_SIZE],
            marks: [0; MAX_SIZE],
        }
    }

    // Opens a register of so many rows, whose words it clears; a refused opening hands back one of
    // 0 rows.
    pub fn open(counts: Counts, sets: &mut [u32]) -> (Register, Result<(), Refusal>)
        ensures { left (changed (number_in result.1) result.0) sets.new
            ≡ open_of counts sets.old }
    {
        match check_opening(counts, sets.len()) {
            Ok(()) => {
                bits::clear_words(sets, 0, counts.specs as usize * WORDS);
                (Register::blank(counts), Ok(()))
            }
            Err(refusal) => (Register::blank(no_counts()), Err(refusal)),
        }
    }

    fn rows(&self) -> usize
        ensures { result ≡ self.now.counts.specs }
    {
        self.counts.specs as usize
    }

    // The index of a row, or why a call on it is refused.
    fn index_of(&self, row: usize, sets: &[u32]) -> Result<usize, Refusal>
        ensures code { number_in result ≡ admit_code (length sets.now) self.now.counts.specs row }
        ensures index { IfOk result (λ i. (i ≡ row - 1) × Inside self.now i sets.now) }
    {
        check_call(sets.len(), self.rows(), row)?;
        Ok(row - 1)
    }

    // The standing of row i, by a closed table of ROOM_WORDS words, W to a row.
    fn standing_in<const W: usize, const ROOM_WORDS: usize>(
        &self,
        i: usize,
        sets: &[u32],
    ) -> Standing
        requires inside { Inside self.now i sets.now }
        requires room { RoomFor self.now W ROOM_WORDS }
        ensures { standing_number result ≡ standing_at self.now i sets.now }
    {
        let mut room = [0u32; ROOM_WORDS];
        standing::standing_among(&mut room, W, sets, WORDS, &self.states, self.rows(), i)
    }

    fn standing_at(&self, i: usize, sets: &[u32]) -> Standing
        requires { Inside self.now i sets.now }
        ensures { standing_number result ≡ standing_at self.now i sets.now }
    {
        if self.rows() <= FEW {
            self.standing_in::<FEW_WORDS, FEW_ROOM>(i, sets)
        } else {
            self.standing_in::<WORDS, ROOM>(i, sets)
        }
    }

    // The standings of all rows, in their order, by one closure; 0 behind the last row, and for a
    // size above MAX_SIZE or too few words lent everywhere.
    // Kept: numbers, for the contract states a list of numbers, 0 where no row stands.
    pub fn standings(&self, sets: &[u32]) -> [u8; MAX_SIZE]
        ensures { result ≡ standings_of self.now sets.now }
    {
        let mut all = [0u8; MAX_SIZE];
        let n = self.rows();
        if MAX_SIZE < n || sets.len() < n * WORDS {
            return all;
        }
        let mut room = [0u32; ROOM];
        standing::standings_among(&mut all, &mut room, WORDS, sets, WORDS, &self.states, n);
        all
    }

    // Takes the marks of row i and of each row that reaches it, by a closed table of ROOM_WORDS
    // words, W to a row.
    #[tactic(auto, unfolding(crate::specs::Calls::marks_after))]
    fn unmark_in<const W: usize, const ROOM_WORDS: usize>(&mut self, i: usize, sets: &[u32])
        requires inside { Inside self.old i sets.now }
        requires room { RoomFor self.old W ROOM_WORDS }
        ensures { self.new ≡ record self.old { marks = marks_after self.old i sets.now } }
    {
        let n = self.rows();
        let mut room = [0u32; ROOM_WORDS];
        standing::unmark_among(&mut self.marks, &mut room, W, sets, WORDS, n, i);
    }

    // Takes the marks that row i's filing takes. Where there are none, the rows are not looked at.
    fn unmark(&mut self, i: usize, sets: &[u32])
        requires { Inside self.old i sets.now }
        ensures { self.new ≡ record self.old { marks = marks_after self.old i sets.now } }
    {
        let n = self.rows();
        if !standing::any_marked(&self.marks, n) {
            return;
        }
        if n <= FEW {
            self.unmark_in::<FEW_WORDS, FEW_ROOM>(i, sets);
        } else {
            self.unmark_in::<WORDS, ROOM>(i, sets);
        }
    }

    fn file_at(&mut self, i: usize, blob: &[u8], sets: &mut [u32])
        requires { Inside self.old i sets.old }
        ensures { left (changed 0 self.new) sets.new
            ≡ file_at self.old i (judged self.old.counts blob.now) sets.old }
    {
        self.unmark(i, sets);
        let (state, code, place) = match judge_row(sets, i, self.counts, blob) {
            Ok(()) => (2, 0, 0),
            Err(refused) => (1, refused.code, refused.place),
        };
        self.states[i] = state;
        self.codes[i] = code;
        self.places[i] = place;
    }

    // Files a blob, good or bad, for a row.
    pub fn file(&mut self, row: usize, blob: &[u8], sets: &mut [u32]) -> Result<(), Refusal>
        ensures { left (changed (number_in result) self.new) sets.new
            ≡ file_of self.old row blob.now sets.old }
    {
        let i = self.index_of(row, sets)?;
        self.file_at(i, blob, sets);
        Ok(())
    }

    fn acknowledge_at(&mut self, i: usize, sets: &[u32]) -> Result<(), Refusal>
        requires { Inside self.old i sets.now }
        ensures { changed (number_in result) self.new ≡ acknowledge_at self.old i sets.now }
    {
        let standing = self.standing_at(i, sets);
        check_acknowledgement(standing.into(), self.marks[i])?;
        self.marks[i] = 1;
        Ok(())
    }

    // Marks a row that is BAD, LOOP or LEANS.
    #[tactic(auto, using(answer::proofs::Numbers::not_done), unfolding(crate::specs::Calls::acknowledge_of))]
    pub fn acknowledge(&mut self, row: usize, sets: &[u32]) -> Result<(), Refusal>
        ensures { changed (number_in result) self.new ≡ acknowledge_of self.old row sets.now }
    {
        let i = self.index_of(row, sets)?;
        self.acknowledge_at(i, sets)
    }

    // A row's standing, finding, place and mark.
    pub fn ask(&self, row: usize, sets: &[u32]) -> Result<Asked, Refusal>
        ensures { told_of result ≡ ask_of self.now row sets.now }
    {
        let i = self.index_of(row, sets)?;
        let standing = self.standing_at(i, sets);
        Ok(asked_of(
            standing.into(),
            self.states[i],
            self.codes[i],
            self.places[i],
            self.marks[i],
        ))
    }

    // What `ask` answers in numbers: 0 for done, with the row's four; or the refusal's, with all
    // four 0.
    pub fn report(&self, row: usize, sets: &[u32]) -> Told
        ensures { result ≡ ask_of self.now row sets.now }
    {
        match self.ask(row, sets) {
            Ok(asked) => Told {
                code: 0,
                standing: asked.standing,
                finding: asked.finding,
                place: asked.place,
                mark: asked.mark,
            },
            Err(refusal) => Told {
                code: refusal.into(),
                standing: 0,
                finding: 0,
                place: 0,
                mark: 0,
            },
        }
    }
}
