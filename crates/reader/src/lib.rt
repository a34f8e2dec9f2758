// The reader: a signature blob, judged without a table or read into the flat node table.
#![tactic(auto)]

ghost use Rattle.std.specs.Prelude.{◌≡◌, ◌/◌, length};
ghost use Rattle.grammar.specs.Judge.{judge as judgement, reading};
ghost use Rattle.answer.specs.Answers.{panel_of};
ghost use Rattle.reader.specs.Answer.{answer_of, Reads};

use answer::refusal::{Fault, Refusal};
use number::token::Counts;

mod blob;
pub mod table;

// Judges a blob of this kind under these row counts, without a table, and gives the number of its nodes.
pub fn judge(kind: u32, counts: Counts, blob: &[u8]) -> Result<usize, Fault>
    ensures { panel_of result ≡ answer_of (judgement kind counts blob.now) }
{
    blob::judge_in(&mut [], kind, counts, blob)
}

// Reads a blob into the table that is lent, six numbers to a record, and gives the number of its nodes. A refusal leaves the table as it was.
pub fn read(kind: u32, counts: Counts, blob: &[u8], table: &mut [u32]) -> Result<usize, Fault>
    ensures { Reads (reading kind counts blob.now (length table.old / 6)) (panel_of result) table.old table.new }
{
    let nodes = blob::judge_in(&mut table[..0], kind, counts, blob)?;
    if table.len() / 6 < nodes {
        return Err(Refusal::TooFewRecords.at(nodes));
    }
    blob::judge_in(table, kind, counts, blob)
}
