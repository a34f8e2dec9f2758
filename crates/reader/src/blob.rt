// A whole blob, walked over and answered: for `judge`, `read` and `has_table`, which lend it their records.
ghost use Rattle.grammar.specs.Judge.{judge};
ghost use Rattle.answer.specs.Answers.{panel_of};
ghost use Rattle.reader.specs.Blob.{Judged};

use answer::refusal::{Fault, Refusal};
use grammar::{MAX_BYTES, MAX_KIND};
use number::token::Counts;

// The whole blob, with the records put into `out` where they fit: 12, 13, 1, the first fault from the left, 9; else how many nodes there are.
pub fn judge_in(out: &mut [u32], kind: u32, counts: Counts, src: &[u8]) -> Result<usize, Fault>
    ensures { Judged (judge kind counts src.now) (panel_of result) out.old out.new }
{
    if MAX_KIND < kind {
        return Err(Refusal::UnknownKind.at(0));
    }
    if !grammar::known_counts(counts) {
        return Err(Refusal::TableTooLarge.at(0));
    }
    if MAX_BYTES < src.len() {
        return Err(Refusal::BlobTooLong.at(0));
    }
    let end = walk::root_at(out, kind, counts, src)?;
    if end.at != src.len() {
        return Err(Refusal::BytesLeft.at(end.at));
    }
    Ok(end.node)
}
