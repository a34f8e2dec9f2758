// The rows of a register with their standings, and their lines.
ghost use Rattle.std.specs.Prelude.{◌≡◌, ◌<◌, ◌≤◌, ◌++◌};
ghost use Rattle.answer.specs.Answers.{answered};
ghost use Rattle.answer.specs.Size.{max_size};
ghost use Rattle.text.specs.Printing.{Prints};
ghost use Rattle.sheet.specs.Lines.{header};
ghost use Rattle.sheet.specs.Rows.{asked_by, rows_by};

use crate::lines::row_line_to;
use answer::Asked;
use register::{MAX_SIZE, Register};
use text::text_to;

// A register and the standings of its rows, which acknowledging does not change. The marks, which
// it changes, are apart.
#[derive(Drop)]
pub struct Rows {
    pub register: Register,
    pub standings: [u8; MAX_SIZE],
    ghost within: { register.counts.specs ≤ max_size },
}

impl Rows {
    pub fn count(&self) -> usize
        ensures { result ≡ self.now.register.counts.specs }
    {
        self.register.counts.specs as usize
    }

    // What asking row i gives, by these marks.
    #[tactic(auto, unfolding(crate::specs::Rows::asked_by))]
    fn asked(&self, marks: &[u8; MAX_SIZE], i: usize) -> Asked
        requires { i < self.now.register.counts.specs }
        ensures { answered result
            ≡ asked_by self.now.register self.now.standings marks.now i }
    {
        answer::asked_of(
            self.standings[i],
            self.register.states[i],
            self.register.codes[i],
            self.register.places[i],
            marks[i],
        )
    }

    // The lines of all rows.
    #[tactic(auto, using(text::proofs::Laying::prints_none), unfolding(crate::specs::Rows::rows_by))]
    fn lines_to(&self, out: &mut [u8], to: usize, marks: &[u8; MAX_SIZE]) -> usize
        ensures { Prints
            (rows_by self.now.register self.now.standings marks.now self.now.register.counts.specs 0)
            to result out.old out.new }
    {
        let mut here = to;
        for i in 0..self.count() {
            here = row_line_to(out, here, i + 1, self.asked(marks, i));
        }
        here
    }

    // The header and the lines of all rows.
    pub fn head_to(&self, out: &mut [u8], to: usize, marks: &[u8; MAX_SIZE]) -> usize
        ensures { Prints (header
            ++ rows_by self.now.register self.now.standings marks.now
            self.now.register.counts.specs 0)
            to result out.old out.new }
    {
        let here = text_to(out, to, b"row standing code place mark\n");
        self.lines_to(out, here, marks)
    }
}
