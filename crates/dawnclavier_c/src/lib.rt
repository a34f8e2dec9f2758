// The archive's exports: the calls of dawnclavier under the C convention, each with its contract. A slice passes as a pointer and a length.
#![tactic(auto)]

ghost use Rattle.std.specs.Prelude.{◌≡◌, ◌/◌, length};
ghost use Rattle.number.specs.Token.{row_counts};
ghost use Rattle.grammar.specs.Judge.{judge, reading};
ghost use Rattle.grammar.specs.Writer.{writing};
ghost use Rattle.reader.specs.Answer.{answer_of, table_of};
ghost use Rattle.answer.specs.Written as written;
ghost use Rattle.dawnclavier.specs.Packed.{pack_of};

#[unsafe(no_mangle)]
pub extern "C" fn dcl_judge(
    kind: u32,
    type_defs: u32,
    type_refs: u32,
    type_specs: u32,
    blob: &[u8],
) -> u64
    ensures { result ≡ pack_of (answer_of (judge kind (row_counts type_defs type_refs type_specs) blob.now)) }
{
    dawnclavier::dcl_judge(kind, type_defs, type_refs, type_specs, blob)
}

#[unsafe(no_mangle)]
pub extern "C" fn dcl_read(
    kind: u32,
    type_defs: u32,
    type_refs: u32,
    type_specs: u32,
    blob: &[u8],
    table: &mut [u32],
) -> u64
    ensures { (result ≡ pack_of (answer_of (reading kind (row_counts type_defs type_refs type_specs) blob.now (length table.old / 6)))) × (table.new ≡ table_of (reading kind (row_counts type_defs type_refs type_specs) blob.now (length table.old / 6)) table.old) }
{
    dawnclavier::dcl_read(kind, type_defs, type_refs, type_specs, blob, table)
}

#[unsafe(no_mangle)]
pub extern "C" fn dcl_write(
    kind: u32,
    type_defs: u32,
    type_refs: u32,
    type_specs: u32,
    table: &[u32],
    out: &mut [u8],
) -> u64
    ensures { (result ≡ pack_of (written.answer_of (writing kind (row_counts type_defs type_refs type_specs) table.now (length out.old)))) × (out.new ≡ written.output_of (writing kind (row_counts type_defs type_refs type_specs) table.now (length out.old)) out.old) }
{
    dawnclavier::dcl_write(kind, type_defs, type_refs, type_specs, table, out)
}
