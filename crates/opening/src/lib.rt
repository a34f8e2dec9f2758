// What a walk over a blob does without recursion: it reads what stands before a node's children, its code byte and the numbers behind it, and what
// stands behind an array's type, and puts records into the table. Types and signatures are read apart: a walk is in the one for most nodes.
#![tactic(auto)]

ghost use Rattle.std.specs.Prelude.{◌≡◌};
ghost use Rattle.opening.specs.Code.{placed, crowded_of, code_at};
ghost use Rattle.opening.specs.Open.{head_of};

use answer::refusal::{Fault, Refusal};
use element::Place;
use grammar::{MAX_NODES, Position};
use number::Number;

pub mod shape;
pub mod signatures;
pub mod source;
pub mod table;
pub mod types;

// A node's own numbers: its record's, but for the offset and the index after it.
#[derive(Clone, Copy, Debug, PartialEq, Eq)]
pub struct Head {
    pub kind: u32,
    pub a: u32,
    pub b: u32,
    pub children: u32,
}

pub fn head_of(kind: u32, a: u32, b: u32, children: u32) -> Head
    ensures { result ≡ head_of kind a b children }
{
    Head {
        kind,
        a,
        b,
        children,
    }
}

// What was read at `from`, its refusal with that place.
fn placed(read: Result<Number, Refusal>, from: usize) -> Result<Number, Fault>
    ensures { result ≡ placed read from }
{
    read.map_err(|refusal| refusal.at(from))
}

// The refusal of a code byte for which there is no room: 5 where the byte is refused, else this one.
fn crowded(place: Place, byte: u8, refusal: Refusal) -> Refusal
    ensures { result ≡ crowded_of place byte refusal }
{
    if element::allows(place, byte) {
        refusal
    } else {
        Refusal::ByteNotAllowed
    }
}

// The code byte of a node, for which d levels are left, allowed or not. The room is looked at before the byte, for speed: both tests are rare.
fn code_at(src: &[u8], place: Place, here: Position, d: usize) -> Result<u8, Fault>
    ensures { result ≡ code_at d src.now place here.at here.node }
{
    let at = here.at;
    if src.len() <= at {
        return Err(Refusal::BytesEnd.at(at));
    }
    let byte = src[at];
    if d == 0 {
        return Err(crowded(place, byte, Refusal::TooDeep).at(at));
    }
    if MAX_NODES <= here.node {
        return Err(crowded(place, byte, Refusal::TooManyNodes).at(at));
    }
    Ok(byte)
}
