// The walk over a blob: one cycle of calls over the depth left, with the lent table written inside it. A node's record is put where it fits, after
// its children are read; that of a node with one child before, and the index after its subtree is corrected then. So the same walk judges, on an
// empty part of the table, and fills.
#![tactic(auto)]

ghost use Rattle.std.specs.Prelude.{◌≡◌, true, false, ◌+◌, ◌≤◌, ◌<◌, length};
ghost use Rattle.grammar.specs.Limits.{max_bytes, max_nodes, max_depth};
ghost use Rattle.grammar.specs.Judge.{node, array, many};
ghost use Rattle.grammar.specs.Kinds.{root_of};
ghost use Rattle.element.specs.Element.{is_type_place};
ghost use Rattle.element.specs.declared.Place.TheVariants as Place;
ghost use Rattle.opening.specs.End.{ended};
ghost use Rattle.opening.specs.Means.{sealed, series, signature_of};
ghost use Rattle.opening.specs.Walk.{Walked};
ghost use Rattle.walk.specs.Series.{WalkedSeries};

use answer::refusal::Fault;
use element::Place;
use grammar::{MAX_DEPTH, Position};
use number::token::Counts;
use opening::shape::shape_at;
use opening::signatures::{Lead, fn_ptr_lead_at, lead_at};
use opening::source::Source;
use opening::table::{close, seal, seal_end};
use opening::types::{Open, open_at};
use opening::{Head, head_of};

// Where a walk starts.
const START: Position = Position { at: 0, node: 0 };

// Types one after the other: where the walk goes on, and how many they are.
#[derive(Clone, Copy, Debug, PartialEq, Eq)]
pub struct Series {
    pub end: Position,
    pub items: u32,
}

// A type: the node with index n, for which d levels are left.
#[cycle(array_at_fn_ptr_at_list_at_method_at_signature_types_at_type_at_types_at)]
fn type_at(
    out: &mut [u32],
    d: usize,
    src: &Source,
    place: Place,
    here: Position,
) -> Result<Position, Fault>
    requires { is_type_place place ≡ true }
    ensures { Walked (node d src.now.bytes.now src.now.counts place here.at here.node) here.node (ended result) out.old out.new }
{
    let types = types_at(out, d, src, place, place, 1, here)?;
    Ok(types.end)
}

// `count` types one after the other, the first in one place and the rest in another. A type without children takes no call, and nodes with one
// child each are a chain that is walked in the loop: as many of them are open as levels are used.
// Kept: `while`, since a chain's node puts its child in its own place and takes none off the count.
#[cycle(array_at_fn_ptr_at_list_at_method_at_signature_types_at_type_at_types_at)]
fn types_at(
    out: &mut [u32],
    d: usize,
    src: &Source,
    place: Place,
    then: Place,
    count: u32,
    from: Position,
) -> Result<Series, Fault>
    requires { (is_type_place place ≡ true) × (is_type_place then ≡ true) }
    ensures { WalkedSeries (series (node d src.now.bytes.now src.now.counts place) (node d src.now.bytes.now src.now.counts then) count from.at from.node) count from.node result out.old out.new }
{
    let bytes = src.bytes;
    let counts = src.counts;
    let mut left = count;
    let mut here = from;
    let mut p = place;
    let mut deep = d;
    while 0 < left {
        let open = open_at(bytes, counts, p, here, deep)?;
        let end = match open {
            Open::Leaf { head, next } => {
                let after = here.node + 1;
                seal(out, head, here, after);
                Position {
                    at: next,
                    node: after,
                }
            }
            Open::One { head, child, next } => {
                let after = here.node + 1;
                seal(out, head, here, after);
                here = Position {
                    at: next,
                    node: after,
                };
                p = child;
                deep -= 1;
                continue;
            }
            Open::List { head, next } => list_at(out, deep - 1, src, head, next, here)?,
            Open::FnPtr { head, next } => fn_ptr_at(out, deep - 1, src, head, next, here)?,
            Open::Array { kind } => array_at(out, deep - 1, src, kind, here)?,
        };
        close(out, here.node, d - deep, end.node);
        here = end;
        p = then;
        deep = d;
        left -= 1;
    }
    Ok(Series {
        end: here,
        items: count - left,
    })
}

// A node with its head's number of children, each a Type, the first at `next`. The children have d levels left.
#[cycle(array_at_fn_ptr_at_list_at_method_at_signature_types_at_type_at_types_at)]
fn list_at(
    out: &mut [u32],
    d: usize,
    src: &Source,
    head: Head,
    next: usize,
    here: Position,
) -> Result<Position, Fault>
    requires { (here.at < length src.now.bytes.now) × (here.node < max_nodes) }
    ensures { Walked (sealed (many (node d src.now.bytes.now src.now.counts Place.Type) head.children next (here.node + 1)) head here.at) here.node (ended result) out.old out.new }
{
    let k = head.children;
    let place = Place::Type;
    let first = Position {
        at: next,
        node: here.node + 1,
    };
    let types = types_at(out, d, src, place, place, k, first)?;
    let end = types.end;
    seal(out, head, here, end.node);
    Ok(end)
}

// FNPTR, whose method is at `next` and has d levels left.
#[cycle(array_at_fn_ptr_at_list_at_method_at_signature_types_at_type_at_types_at)]
fn fn_ptr_at(
    out: &mut [u32],
    d: usize,
    src: &Source,
    head: Head,
    next: usize,
    here: Position,
) -> Result<Position, Fault>
    requires { (here.at < length src.now.bytes.now) × (here.node < max_nodes) }
    ensures { Walked (sealed (node d src.now.bytes.now src.now.counts Place.FnPtrMethod next (here.node + 1)) head here.at) here.node (ended result) out.old out.new }
{
    let method = Position {
        at: next,
        node: here.node + 1,
    };
    let end = method_at(out, d, src, method);
    seal_end(out, head, here, end)
}

// The method below a FNPTR: its return type and its parameters are types again.
#[cycle(array_at_fn_ptr_at_list_at_method_at_signature_types_at_type_at_types_at)]
fn method_at(out: &mut [u32], d: usize, src: &Source, here: Position) -> Result<Position, Fault>
    ensures { Walked (node d src.now.bytes.now src.now.counts Place.FnPtrMethod here.at here.node) here.node (ended result) out.old out.new }
{
    let lead = fn_ptr_lead_at(src.bytes, here, d)?;
    signature_types_at(out, d - 1, src, lead, here)
}

// A signature from its types on, which have d levels left. Its record says how many were read. It becomes part of its two callers, so that each reads its
// lead in its own frame.
#[cycle(array_at_fn_ptr_at_list_at_method_at_signature_types_at_type_at_types_at)]
#[inline(always)]
fn signature_types_at(
    out: &mut [u32],
    d: usize,
    src: &Source,
    lead: Lead,
    here: Position,
) -> Result<Position, Fault>
    requires read { (here.at < length src.now.bytes.now) × (here.node < max_nodes) }
    requires places { (is_type_place lead.first ≡ true) × (is_type_place lead.rest ≡ true) }
    ensures { Walked (signature_of (node d src.now.bytes.now) src.now.counts lead here.at here.node) here.node (ended result) out.old out.new }
{
    let first = lead.first;
    let rest = lead.rest;
    let k = lead.count;
    let start = Position {
        at: lead.next,
        node: here.node + 1,
    };
    let types = types_at(out, d, src, first, rest, k, start)?;
    let end = types.end;
    let head = head_of(lead.kind, lead.a, lead.b, types.items);
    seal(out, head, here, end.node);
    Ok(end)
}

// An array: its type, then its shape. The children have d levels left.
#[cycle(array_at_fn_ptr_at_list_at_method_at_signature_types_at_type_at_types_at)]
fn array_at(
    out: &mut [u32],
    d: usize,
    src: &Source,
    kind: u32,
    here: Position,
) -> Result<Position, Fault>
    requires { (here.at < length src.now.bytes.now) × (here.node < max_nodes) }
    ensures { Walked (array (node d src.now.bytes.now) d src.now.bytes.now src.now.counts kind here.at here.node) here.node (ended result) out.old out.new }
{
    let first = Position {
        at: here.at + 1,
        node: here.node + 1,
    };
    let typed = type_at(out, d, src, Place::Type, first)?;
    let shape = shape_at(out, d, src, kind, typed)?;
    let end = shape.end;
    seal(out, shape.head, here, end.node);
    Ok(end)
}

// A root that is no type: a field, locals, a property or a method.
fn signature_at(out: &mut [u32], src: &Source, place: Place) -> Result<Position, Fault>
    requires { is_type_place place ≡ false }
    ensures { Walked (node max_depth src.now.bytes.now src.now.counts place 0 0) 0 (ended result) out.old out.new }
{
    let lead = lead_at(src.bytes, place, START, MAX_DEPTH)?;
    signature_types_at(out, MAX_DEPTH - 1, src, lead, START)
}

// The root of a kind.
pub fn root_at(out: &mut [u32], kind: u32, counts: Counts, src: &[u8]) -> Result<Position, Fault>
    requires { length src.now ≤ max_bytes }
    ensures { Walked (node max_depth src.now counts (root_of kind) 0 0) 0 (ended result) out.old out.new }
{
    let source = Source { bytes: src, counts };
    let place = grammar::root_of(kind);
    if element::types::is_type_place(place) {
        return type_at(out, MAX_DEPTH, &source, place, START);
    }
    signature_at(out, &source, place)
}
