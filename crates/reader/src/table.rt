// Whether a blob has a given table: read once into memory of its own, and compared.
ghost use Rattle.std.specs.Prelude.{◌≡◌, ◌*◌, ◌≤◌, length};
ghost use Rattle.grammar.specs.Judge.{judge};
ghost use Rattle.grammar.specs.Limits.{max_nodes};
ghost use Rattle.grammar.specs.Writer.{has_table};

use crate::blob;
use grammar::MAX_TABLE;
use number::token::Counts;

// `has_table`, with N numbers of its own to read the blob into.
fn has_table_within<const N: usize>(kind: u32, counts: Counts, blob: &[u8], table: &[u32]) -> bool
    requires { (length table.now ≤ N) × (N ≤ 6 * max_nodes) }
    ensures { result ≡ has_table table.now (judge kind counts blob.now) }
{
    let mut seen = [0u32; N];
    match blob::judge_in(&mut seen, kind, counts, blob) {
        Ok(nodes) => 6 * nodes == table.len() && &seen[..table.len()] == table,
        Err(_) => false,
    }
}

// Whether the reader takes the whole blob and gives this table. Its own records are as few as the table allows, since they are cleared.
pub fn has_table(kind: u32, counts: Counts, blob: &[u8], table: &[u32]) -> bool
    ensures { result ≡ has_table table.now (judge kind counts blob.now) }
{
    match table.len() {
        0..=48 => has_table_within::<48>(kind, counts, blob, table),
        49..=384 => has_table_within::<384>(kind, counts, blob, table),
        385..=1536 => has_table_within::<1536>(kind, counts, blob, table),
        1537..=MAX_TABLE => has_table_within::<MAX_TABLE>(kind, counts, blob, table),
        _ => false,
    }
}
