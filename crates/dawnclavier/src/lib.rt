// The archive for programs in other languages: the reader and the writer on numbers and slices alone. dawnclavier_c exports the calls.
#![tactic(auto)]

ghost use Rattle.std.specs.Prelude.{◌≡◌, ◌/◌, ◌≤◌, length};
ghost use Rattle.number.specs.Token.{row_counts};
ghost use Rattle.grammar.specs.Limits.{max_bytes};
ghost use Rattle.grammar.specs.Judge.{judge, reading};
ghost use Rattle.grammar.specs.Writer.{writing};
ghost use Rattle.answer.specs.Answers.{panel_of};
ghost use Rattle.reader.specs.Answer.{answer_of, table_of};
ghost use Rattle.answer.specs.Written as written;
ghost use Rattle.dawnclavier.specs.Packed.{pack_of};

use answer::Answer;
use answer::refusal::Fault;
use number::token::row_counts;

// The panel's number times 2^32 plus its place.
fn pack(told: Result<usize, Fault>) -> u64
    requires { (panel_of told).place ≤ max_bytes }
    ensures { result ≡ pack_of (panel_of told) }
{
    let answer = Answer::from(told);
    (answer.code as u64) * 0x1_0000_0000 + (answer.place as u64)
}

pub fn dcl_judge(kind: u32, type_defs: u32, type_refs: u32, type_specs: u32, blob: &[u8]) -> u64
    ensures { result ≡ pack_of (answer_of (judge kind (row_counts type_defs type_refs type_specs) blob.now)) }
{
    let counts = row_counts(type_defs, type_refs, type_specs);
    pack(reader::judge(kind, counts, blob))
}

pub fn dcl_read(
    kind: u32,
    type_defs: u32,
    type_refs: u32,
    type_specs: u32,
    blob: &[u8],
    table: &mut [u32],
) -> u64
    ensures { (result ≡ pack_of (answer_of (reading kind (row_counts type_defs type_refs type_specs) blob.now (length table.old / 6)))) × (table.new ≡ table_of (reading kind (row_counts type_defs type_refs type_specs) blob.now (length table.old / 6)) table.old) }
{
    let counts = row_counts(type_defs, type_refs, type_specs);
    pack(reader::read(kind, counts, blob, table))
}

pub fn dcl_write(
    kind: u32,
    type_defs: u32,
    type_refs: u32,
    type_specs: u32,
    table: &[u32],
    out: &mut [u8],
) -> u64
    ensures { (result ≡ pack_of (written.answer_of (writing kind (row_counts type_defs type_refs type_specs) table.now (length out.old)))) × (out.new ≡ written.output_of (writing kind (row_counts type_defs type_refs type_specs) table.now (length out.old)) out.old) }
{
    let counts = row_counts(type_defs, type_refs, type_specs);
    pack(writer::write(kind, counts, table, out))
}
