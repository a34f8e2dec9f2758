// Document 01's limits, the kinds of nodes, the roots of the kinds of blobs, a record of the flat table and the test of row counts. All else of this
// crate is in specs/ (the grammar, as definitions) and proofs/ (the theorems on it).
#![tactic(auto)]

ghost use Rattle.std.specs.Prelude.{◌≡◌, ◌+◌, ◌*◌, ◌≤◌, length};
ghost use Rattle.grammar.specs.Kinds.{root_of};
ghost use Rattle.grammar.specs.Table.{kind_of, is_modifier, record_at};
ghost use Rattle.grammar.specs.Judge.{known_counts};

use element::Place;
use number::token::Counts;

// Document 01's limits, as specs/Limits.antt and Kinds.antt have them.
pub const MAX_KIND: u32 = 4;

pub const MAX_ROWS: u32 = 0xFFFFFF;

pub const MAX_BYTES: usize = 4096;

pub const MAX_NODES: usize = 1024;

// The numbers of a flat table that has a record for every node.
pub const MAX_TABLE: usize = 6 * MAX_NODES;

pub const MAX_DEPTH: usize = 32;

pub const MAX_RANK: u32 = 32;

// The kinds of nodes that are no element bytes, as specs/Table.antt has them.
pub const METHOD: u32 = 0x100;

pub const FIELD: u32 = 0x101;

pub const LOCALS: u32 = 0x102;

pub const PROPERTY: u32 = 0x103;

pub const SIZE: u32 = 0x104;

pub const LOW: u32 = 0x105;

// One record of the node table.
// Kept: kinds are numbers, as in the flat table, whose records may hold any; so are the kinds of blobs, of which an unknown one is answered.
#[derive(Clone, Copy, Debug, PartialEq, Eq)]
pub struct Node {
    // the element byte, or a number from 100 hex up for a node that has none
    pub kind: u32,
    pub a: u32,
    pub b: u32,
    // the number of children
    pub children: u32,
    // the offset of the node's first byte
    pub at: u32,
    // the index just past the node's subtree
    pub after: u32,
}

// Where a walk over a blob or its emission stands: an offset, and the index of the next node.
#[derive(Clone, Copy, Debug, PartialEq, Eq)]
pub struct Position {
    pub at: usize,
    pub node: usize,
}

// Whether all three counts are within the bound.
pub fn known_counts(counts: Counts) -> bool
    ensures { result ≡ known_counts counts }
{
    counts.defs <= MAX_ROWS && counts.refs <= MAX_ROWS && counts.specs <= MAX_ROWS
}

// The place of the root of a kind.
pub fn root_of(kind: u32) -> Place
    ensures { result ≡ root_of kind }
{
    match kind {
        0 => Place::TypeSpec,
        1 => Place::FieldSig,
        2 => Place::LocalVarSig,
        3 => Place::PropertySig,
        4 => Place::MethodDefSig,
        _ => Place::Type,
    }
}

// The kind of a node that begins with `byte` in a place.
pub fn kind_of(place: Place, byte: u8) -> u32
    ensures { result ≡ kind_of place byte }
{
    match place {
        Place::FnPtrMethod | Place::MethodDefSig => METHOD,
        Place::FieldSig => FIELD,
        Place::LocalVarSig => LOCALS,
        Place::PropertySig => PROPERTY,
        _ => byte as u32,
    }
}

// Whether a node of this kind is a modifier: CMOD_REQD or CMOD_OPT.
pub fn is_modifier(kind: u32) -> bool
    ensures { result ≡ is_modifier kind }
{
    kind == 0x1F || kind == 0x20
}

// The record with index n of a flat node table.
pub fn record_at(table: &[u32], n: usize) -> Node
    requires { 6 * n + 6 ≤ length table.now }
    ensures { result ≡ record_at table.now n }
{
    let i = 6 * n;
    Node {
        kind: table[i],
        a: table[i + 1],
        b: table[i + 2],
        children: table[i + 3],
        at: table[i + 4],
        after: table[i + 5],
    }
}
