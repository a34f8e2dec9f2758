// The bytes of a node table, from its records alone. Nothing of the table is trusted: what is emitted counts only once it was judged.
// Slices are passed on as reborrows, for speed.
#![tactic(auto)]

ghost use Rattle.std.specs.Prelude.{◌≡◌, ◌++◌, ◌+◌, ◌*◌, ◌≤◌, ◌<◌, length};
ghost use Rattle.number.specs.Number.{encode};
ghost use Rattle.grammar.specs.Emit.{array, callable, layout_of, param_count, parts_of, times, parts, emit};
ghost use Rattle.emission.specs.End.{ended};
ghost use Rattle.emission.specs.Emission.{front_of, Spelt, Emits, Parted};

use grammar::{FIELD, LOCALS, LOW, METHOD, Node, PROPERTY, Position, SIZE};

const ARRAY: u32 = 0x14;

// What is emitted of a record: its own bytes, with so many children to come; or its subtree.
#[derive(Clone, Copy, Debug, PartialEq, Eq)]
enum Part {
    Goes { at: usize, children: u32 },
    Ends { end: Position },
}

// The ParamCount of record n, a METHOD or PROPERTY: its children but the return type.
fn param_count(table: &[u32], n: usize) -> u32
    requires { 6 * n + 6 ≤ length table.now }
    ensures { result ≡ param_count table.now n }
{
    grammar::record_at(table, n).children.saturating_sub(1)
}

// A number of one byte, as `number_to` puts it.
fn byte_to(out: &mut [u8], v: u32, at: usize) -> Option<usize>
    requires { v < 0x80 }
    ensures { Spelt (encode v) at result out.old out.new }
{
    if at < out.len() {
        out[at] = v as u8;
        return Some(at + 1);
    }
    None
}

// One number where it fits: the offset after it. Most numbers have one byte.
fn number_to(out: &mut [u8], v: u32, at: usize) -> Option<usize>
    ensures { Spelt (encode v) at result out.old out.new }
{
    if v < 0x80 {
        return byte_to(out, v, at);
    }
    let len = number::encoding::number_len(v);
    if out.len() < len {
        return None;
    }
    if out.len() - len < at {
        return None;
    }
    number::encoding::put_number(out, at, v);
    Some(at + len)
}

fn pair_to(out: &mut [u8], x: u32, y: u32, at: usize) -> Option<usize>
    ensures { Spelt (encode x ++ encode y) at result out.old out.new }
{
    let e = number_to(out, x, at)?;
    number_to(out, y, e)
}

// METHOD or PROPERTY: the lead byte, a generic count where there is one, and ParamCount.
fn call_to(out: &mut [u8], table: &[u32], rec: Node, at: usize, n: usize) -> Option<usize>
    requires { 6 * n + 6 ≤ length table.now }
    ensures { Spelt (front_of callable table.now n rec) at result out.old out.new }
{
    let count = param_count(table, n);
    if rec.a == 0 {
        return pair_to(out, rec.b, count, at);
    }
    let e = number_to(out, rec.b, at)?;
    pair_to(out, rec.a, count, e)
}

// What record n puts before its children, or before the first of them.
fn front_to(out: &mut [u8], table: &[u32], rec: Node, at: usize, n: usize) -> Option<usize>
    requires { 6 * n + 6 ≤ length table.now }
    ensures { Spelt (front_of (layout_of rec.kind) table.now n rec) at result out.old out.new }
{
    let kind = rec.kind;
    match kind {
        0x11 | 0x12 | 0x13 | 0x1E | 0x1F | 0x20 => pair_to(out, kind, rec.a, at),
        0x15 => {
            let e = pair_to(out, kind, rec.b, at)?;
            pair_to(out, rec.a, rec.children, e)
        }
        METHOD | PROPERTY => call_to(out, &*table, rec, at, n),
        FIELD => number_to(out, 0x06, at),
        LOCALS => pair_to(out, 0x07, rec.children, at),
        SIZE => number_to(out, rec.a, at),
        LOW => number_to(out, rec.a, at),
        _ => number_to(out, kind, at),
    }
}

// The subtree whose root is the record of `here`, with d levels left: up to its end where the record is an ARRAY or has no children,
// and else the bytes before its children. None where the table has no blob that fits.
#[cycle(all_at_array_at_part_at)]
fn part_at(out: &mut [u8], d: usize, table: &[u32], here: Position) -> Option<Part>
    requires { here.node ≤ length table.now }
    ensures { Parted d table.now here.node here.at result out.old out.new }
{
    if d == 0 {
        return None;
    }
    let n = here.node;
    if table.len() < 6 * n + 6 {
        return None;
    }
    let rec = grammar::record_at(table, n);
    if rec.kind == ARRAY {
        let end = array_at(out, d - 1, &*table, rec, here)?;
        return Some(Part::Ends { end });
    }
    let e = front_to(out, &*table, rec, here.at, n)?;
    let children = rec.children;
    if children == 0 {
        let end = Position { at: e, node: n + 1 };
        return Some(Part::Ends { end });
    }
    Some(Part::Goes { at: e, children })
}

// An ARRAY: its type, then Rank, NumSizes and the sizes, then NumLoBounds and the low bounds.
#[cycle(all_at_array_at_part_at)]
fn array_at(out: &mut [u8], d: usize, table: &[u32], rec: Node, here: Position) -> Option<Position>
    requires { here.node < length table.now }
    ensures { Emits (parts (emit d table.now) (parts_of array table.now here.node rec) (here.node + 1)) here.at (ended result) out.old out.new }
{
    let at = number_to(out, rec.kind, here.at)?;
    let node = here.node + 1;
    let typed = all_at(out, d, &*table, 1, Position { at, node })?;
    let at = pair_to(out, rec.a, rec.b, typed.at)?;
    let sized = all_at(out, d, &*table, rec.b, Position { at, ..typed })?;
    let lows = rec.children.saturating_sub(1).saturating_sub(rec.b);
    let at = number_to(out, lows, sized.at)?;
    all_at(out, d, &*table, lows, Position { at, ..sized })
}

// `count` subtrees one after the other; none from an offset past the end on. The children of the last of them are the next of the loop, one level down.
// Kept: `while`, since those children's count takes the place of the one left.
#[cycle(all_at_array_at_part_at)]
pub fn all_at(
    out: &mut [u8],
    d: usize,
    table: &[u32],
    count: u32,
    from: Position,
) -> Option<Position>
    requires { from.node ≤ length table.now }
    ensures { Emits (times (emit d table.now) count from.node) from.at (ended result) out.old out.new }
{
    if out.len() < from.at {
        return None;
    }
    let mut left = count;
    let mut here = from;
    let mut deep = d;
    while 0 < left {
        let part = part_at(out, deep, &*table, here)?;
        let end = match part {
            Part::Goes { at, children } => {
                let node = here.node + 1;
                let first = Position { at, node };
                if left == 1 {
                    here = first;
                    left = children;
                    deep -= 1;
                    continue;
                }
                all_at(out, deep - 1, &*table, children, first)?
            }
            Part::Ends { end } => end,
        };
        here = end;
        left -= 1;
    }
    Some(here)
}
