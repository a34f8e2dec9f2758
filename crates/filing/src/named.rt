// The rows that a node table's modifiers name.
ghost use Rattle.std.specs.Prelude.{◌≡◌, ◌+◌, ◌*◌, ◌≤◌, length};
ghost use Rattle.answer.specs.Size.{words};
ghost use Rattle.filing.specs.Named.{row_named, index_of, collect_of};

use answer::{MAX_SIZE, WORDS};
use number::token::{TYPE_SPEC_TAG, row_of, tag_of};

// The index of the TypeSpec row that record k names, if it names one that a register may have.
#[tactic(auto, unfolding(crate::specs::Named::row_named))]
fn row_named(t: &[u32], k: usize) -> Option<usize>
    requires { 6 * k + 6 ≤ length t.now }
    ensures { result ≡ index_of (row_named t.now k) }
{
    let node = grammar::record_at(t, k);
    if !grammar::is_modifier(node.kind) || tag_of(node.a) != TYPE_SPEC_TAG {
        return None;
    }
    let row = row_of(node.a) as usize;
    if row == 0 || MAX_SIZE < row {
        return None;
    }
    Some(row - 1)
}

// Puts each row that n records name into row i's set, in m.
pub fn collect(m: &mut [u32], i: usize, t: &[u32], n: usize)
    requires { (i * words + words ≤ length m.old) × (6 * n ≤ length t.now) }
    ensures { m.new ≡ collect_of t.now n i m.old }
{
    for k in 0..n {
        if let Some(j) = row_named(t, k) {
            bits::put_bit(m, WORDS, i, j);
        }
    }
}
