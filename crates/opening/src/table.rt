// Records put into the table that is lent, each where it fits.
ghost use Rattle.std.specs.Prelude.{◌≡◌, ◌+◌, ◌≤◌, ◌<◌};
ghost use Rattle.grammar.specs.Limits.{max_bytes, max_nodes};
ghost use Rattle.opening.specs.Means.{record_of};
ghost use Rattle.opening.specs.End.{ended};
ghost use Rattle.opening.specs.Table.{put_of, put_after, close_of, small_of, Sealed};

use crate::Head;
use answer::refusal::Fault;
use grammar::{Node, Position};

fn size32(x: usize) -> u32
    requires { x ≤ max_bytes }
    ensures { result ≡ x }
{
    x as u32
}

// Stores the six numbers of a record at its place in the table, where they fit.
fn put(out: &mut [u32], n: usize, rec: Node)
    requires { n < max_nodes }
    ensures { out.new ≡ put_of out.old n rec }
{
    let i = 6 * n;
    if i + 6 <= out.len() {
        out[i] = rec.kind;
        out[i + 1] = rec.a;
        out[i + 2] = rec.b;
        out[i + 3] = rec.children;
        out[i + 4] = rec.at;
        out[i + 5] = rec.after;
    }
}

// Puts the record of a node whose children are read, `after` the index after them.
pub fn seal(out: &mut [u32], head: Head, here: Position, after: usize)
    requires { (here.node < max_nodes) × (here.at ≤ max_bytes) × (after ≤ max_nodes) }
    ensures { out.new ≡ put_of out.old here.node (record_of head here.at after) }
{
    let start = size32(here.at);
    let end = size32(after);
    let record = Node {
        kind: head.kind,
        a: head.a,
        b: head.b,
        children: head.children,
        at: start,
        after: end,
    };
    put(out, here.node, record);
}

// The same for a node whose children end so; their refusal is passed on, and leaves the table as it was.
#[tactic(auto, using(crate::proofs::Walks::seal_put, crate::proofs::Walks::seal_kept), unfolding(crate::specs::End::ended))]
pub fn seal_end(
    out: &mut [u32],
    head: Head,
    here: Position,
    end: Result<Position, Fault>,
) -> Result<Position, Fault>
    requires { (here.node < max_nodes) × (here.at ≤ max_bytes) × small_of (ended end) }
    ensures { Sealed (ended end) here.node head here.at (ended result) out.old out.new }
{
    let end = end?;
    seal(out, head, here, end.node);
    Ok(end)
}

// Stores the index after a node's subtree in its record, where it fits.
fn put_after(out: &mut [u32], n: usize, after: u32)
    requires { n < max_nodes }
    ensures { out.new ≡ put_after out.old n after }
{
    let i = 6 * n;
    if i + 6 <= out.len() {
        out[i + 5] = after;
    }
}

// Corrects it in the k records before the one with index n.
pub fn close(out: &mut [u32], n: usize, k: usize, after: usize)
    requires { (n ≤ max_nodes) × (k ≤ n) × (after ≤ max_bytes) }
    ensures { out.new ≡ close_of out.old n k after }
{
    let last = size32(after);
    for i in (n - k..n).rev() {
        put_after(out, i, last);
    }
}
