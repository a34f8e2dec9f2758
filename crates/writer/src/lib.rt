// The writer: from a flat node table to the one blob that has it. The bytes are emitted into memory of its own, judged again by the
// reader and held against the table, and only then copied to the output.
#![tactic(auto)]

ghost use Rattle.std.specs.Prelude.{◌≡◌, ◌++◌, ◌≤◌, length, drop};
ghost use Rattle.grammar.specs.Limits.{max_bytes};
ghost use Rattle.grammar.specs.Emit.{wrote, emitted};
ghost use Rattle.grammar.specs.Writer.{confirmed, writing};
ghost use Rattle.answer.specs.Answers.{panel_of};
ghost use Rattle.answer.specs.Written.{Writes};
ghost use Rattle.writer.specs.Within.{WritesWithin};

use answer::refusal::{Fault, Refusal};
use grammar::{MAX_BYTES, MAX_DEPTH, MAX_KIND, Position};
use number::token::Counts;

// Copies `src` to the front of `out`.
// Kept: byte by byte, since `copy_from_slice` has the archive ask its C host for `memmove`, which it did not need.
fn copy_to(out: &mut [u8], src: &[u8])
    requires { length src.now ≤ length out.old }
    ensures { out.new ≡ src.now ++ drop (length src.now) out.old }
{
    for i in 0..src.len() {
        out[i] = src[i];
    }
}

// Writes the blob of this kind that has the table under these counts, and gives its length. A refusal leaves the output as it was.
pub fn write(kind: u32, counts: Counts, table: &[u32], out: &mut [u8]) -> Result<usize, Fault>
    ensures { Writes (writing kind counts table.now (length out.old)) (panel_of result) out.old out.new }
{
    if MAX_KIND < kind {
        return Err(Refusal::UnknownKind.at(0));
    }
    if !grammar::known_counts(counts) {
        return Err(Refusal::TableTooLarge.at(0));
    }
    write_known(kind, counts, table, out)
}

// The writer for a known kind and allowed counts. Few records are first emitted into few bytes, since the bytes are cleared; what does not fit there
// is emitted again.
fn write_known(kind: u32, counts: Counts, table: &[u32], out: &mut [u8]) -> Result<usize, Fault>
    ensures { Writes (confirmed kind counts table.now (length out.old) (emitted table.now)) (panel_of result) out.old out.new }
{
    if table.len() <= 48 {
        if let Some(answer) = write_within::<48>(kind, counts, table, out) {
            return answer;
        }
    }
    if table.len() <= 768 {
        if let Some(answer) = write_within::<512>(kind, counts, table, out) {
            return answer;
        }
    }
    match write_within::<MAX_BYTES>(kind, counts, table, out) {
        Some(answer) => answer,
        None => Err(Refusal::NoBlob.at(0)),
    }
}

// The same with N bytes of its own to emit into; nothing where more are needed, or the table has no blob.
fn write_within<const N: usize>(
    kind: u32,
    counts: Counts,
    table: &[u32],
    out: &mut [u8],
) -> Option<Result<usize, Fault>>
    requires { N ≤ max_bytes }
    ensures { WritesWithin N kind counts table.now result out.old out.new }
{
    let mut blob = [0u8; N];
    let start = Position { at: 0, node: 0 };
    let end = emission::all_at(&mut blob, MAX_DEPTH, table, 1, start)?;
    Some(copy_confirmed(kind, counts, &blob[..end.at], table, out))
}

// Copies an emitted blob to the output where the reader gives the table for it.
fn copy_confirmed(
    kind: u32,
    counts: Counts,
    blob: &[u8],
    table: &[u32],
    out: &mut [u8],
) -> Result<usize, Fault>
    ensures { Writes (confirmed kind counts table.now (length out.old) (wrote blob.now 0)) (panel_of result) out.old out.new }
{
    if !reader::table::has_table(kind, counts, blob, table) {
        return Err(Refusal::NoBlob.at(0));
    }
    let len = blob.len();
    if out.len() < len {
        return Err(Refusal::OutputTooShort.at(len));
    }
    copy_to(out, blob);
    Ok(len)
}
