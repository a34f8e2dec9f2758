// What the register keeps of a blob that is filed for a row: why it is refused, and the set of
// TypeSpec rows that its modifiers name.
#![tactic(auto)]

ghost use Rattle.std.specs.Prelude.{◌≡◌, ◌+◌, ◌*◌, ◌≤◌, length};
ghost use Rattle.answer.specs.Size.{words};
ghost use Rattle.filing.specs.Outcome.{judged};
ghost use Rattle.filing.specs.Kept.{finding_of, kept_of};
ghost use Rattle.filing.specs.Named.{named_by};

use answer::WORDS;
use grammar::MAX_TABLE;
use number::token::Counts;

mod named;

// Why a blob is refused, as the register keeps it: the refusal's number and place. Kept: numbers, narrow ones, for 512 rows' keeping.
#[derive(Clone, Copy, Debug, PartialEq, Eq)]
pub struct Refused {
    pub code: u8,
    pub place: u16,
}

// Judges a blob for row i, whose set of rows is written to its words of `sets`.
pub fn judge_row(sets: &mut [u32], i: usize, counts: Counts, blob: &[u8]) -> Result<(), Refused>
    requires { i * words + words ≤ length sets.old }
    ensures { (kept_of result ≡ finding_of (judged counts blob.now))
        × (sets.new ≡ named_by (judged counts blob.now) i sets.old) }
{
    bits::clear_words(sets, i * WORDS, WORDS);
    let mut table = [0u32; MAX_TABLE];
    match reader::read(0, counts, blob, &mut table) {
        Ok(nodes) => {
            named::collect(sets, i, &table, nodes);
            Ok(())
        }
        Err(fault) => Err(Refused {
            code: u32::from(fault.refusal) as u8,
            place: fault.place as u16,
        }),
    }
}
