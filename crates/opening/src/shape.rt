// What stands behind an array's type: Rank, the sizes and the low bounds, which give the array's own numbers.
ghost use Rattle.std.specs.Prelude.{◌≤◌};
ghost use Rattle.grammar.specs.Limits.{max_bytes, max_nodes};
ghost use Rattle.grammar.specs.Judge.{bound, many};
ghost use Rattle.number.specs.Number.{found};
ghost use Rattle.opening.specs.End.{ended};
ghost use Rattle.opening.specs.Walk.{Walked};
ghost use Rattle.opening.specs.Shape.{bound_at, shape_at, Shaped};

use crate::source::Source;
use crate::table::seal;
use crate::{Head, head_of, placed};
use answer::refusal::{Fault, Refusal};
use grammar::{LOW, MAX_NODES, MAX_RANK, Position, SIZE};
use number::Number;
use number::checked::{checked_at, count_at};

// What an array's shape gives: the array's own numbers and where the walk goes on.
#[derive(Clone, Copy, Debug, PartialEq, Eq)]
pub struct Shape {
    pub head: Head,
    pub end: Position,
}

// A node that is a number alone, which was read at `at`.
fn bound_of(
    out: &mut [u32],
    d: usize,
    kind: u32,
    number: Number,
    here: Position,
) -> Result<Position, Fault>
    requires { here.at ≤ max_bytes }
    ensures { Walked (bound kind d (found number.value number.next) here.at here.node) here.node (ended result) out.old out.new }
{
    if d == 0 {
        return Err(Refusal::TooDeep.at(here.at));
    }
    if MAX_NODES <= here.node {
        return Err(Refusal::TooManyNodes.at(here.at));
    }
    let after = here.node + 1;
    seal(out, head_of(kind, number.value, 0, 0), here, after);
    Ok(Position {
        at: number.next,
        node: after,
    })
}

// A SIZE or a LOW node.
fn bound_at(
    out: &mut [u32],
    d: usize,
    src: &Source,
    kind: u32,
    here: Position,
) -> Result<Position, Fault>
    ensures { Walked (bound_at kind d src.now.bytes.now here.at here.node) here.node (ended result) out.old out.new }
{
    let number = placed(checked_at(src.bytes, here.at), here.at)?;
    bound_of(out, d, kind, number, here)
}

// `count` such nodes, one after the other.
fn bounds_at(
    out: &mut [u32],
    d: usize,
    src: &Source,
    kind: u32,
    count: u32,
    from: Position,
) -> Result<Position, Fault>
    ensures { Walked (many (bound_at kind d src.now.bytes.now) count from.at from.node) from.node (ended result) out.old out.new }
{
    let mut end = from;
    for _ in 0..count {
        end = bound_at(out, d, src, kind, end)?;
    }
    Ok(end)
}

// An array's shape: Rank, NumSizes and the sizes, then NumLoBounds and the low bounds.
pub fn shape_at(
    out: &mut [u32],
    d: usize,
    src: &Source,
    kind: u32,
    from: Position,
) -> Result<Shape, Fault>
    requires { from.node ≤ max_nodes }
    ensures { Shaped (shape_at d src.now.bytes.now kind from.at from.node) from.node result out.old out.new }
{
    let rank = placed(count_at(src.bytes, from.at, 1, MAX_RANK), from.at)?;
    let sizes = placed(count_at(src.bytes, rank.next, 0, rank.value), rank.next)?;
    let first = Position {
        at: sizes.next,
        node: from.node,
    };
    let sized = bounds_at(out, d, src, SIZE, sizes.value, first)?;
    let lows = placed(count_at(src.bytes, sized.at, 0, rank.value), sized.at)?;
    let first = Position {
        at: lows.next,
        node: sized.node,
    };
    let end = bounds_at(out, d, src, LOW, lows.value, first)?;
    let children = 1 + sizes.value + lows.value;
    Ok(Shape {
        head: head_of(kind, rank.value, sizes.value, children),
        end,
    })
}
