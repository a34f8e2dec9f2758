// The reader's second call: a signature blob read into the flat node table and into the caller's slice of record structs. Few functions touch
// such a slice; all else is on the flat table.
#![tactic(auto)]

ghost use Rattle.std.specs.Prelude.{◌≡◌, ◌<◌, ◌≤◌, ◌*◌, length};
ghost use Rattle.grammar.specs.Limits.{max_nodes};
ghost use Rattle.answer.specs.Answers.{panel_of};
ghost use Rattle.nodes.specs.Nodes.{ReadRecords, RecordOf, ReadWithin, copy_records};

use answer::refusal::Fault;
use grammar::{MAX_NODES, Node};
use number::token::Counts;

const BLANK: Node = Node {
    kind: 0,
    a: 0,
    b: 0,
    children: 0,
    at: 0,
    after: 0,
};

// What `record_of` gives: the call's answer, and one record.
#[derive(Clone, Copy, Debug, PartialEq, Eq)]
pub struct Found {
    pub answer: Result<usize, Fault>,
    pub node: Node,
}

// Reads a blob into the flat table, of which `most` records at most are lent.
fn read_within(
    kind: u32,
    counts: Counts,
    blob: &[u8],
    table: &mut [u32],
    most: usize,
) -> Result<usize, Fault>
    ensures { ReadWithin kind counts blob.now table.old most (panel_of result) table.new }
{
    if most < table.len() / 6 {
        let end = 6 * most;
        return reader::read(kind, counts, blob, &mut table[..end]);
    }
    reader::read(kind, counts, blob, table)
}

// Copies the first `count` records of the flat table to the front of `records`.
// Kept: an index, since record i is six numbers of the table, which `record_at` finds by it.
fn copy_records(table: &[u32], records: &mut [Node], count: usize)
    requires { (6 * count ≤ length table.now) × (count ≤ length records.old) }
    ensures { records.new ≡ copy_records table.now count records.old }
{
    for i in 0..count {
        records[i] = grammar::record_at(table, i);
    }
}

// Reads a blob into the flat table and into the slice of records, and gives the number of nodes; 11 counts the shorter of the two lent. A refusal
// leaves both as they were.
pub fn read_records(
    kind: u32,
    counts: Counts,
    blob: &[u8],
    table: &mut [u32],
    records: &mut [Node],
) -> Result<usize, Fault>
    ensures { ReadRecords kind counts blob.now table.old records.old (panel_of result) table.new records.new }
{
    let nodes = read_within(kind, counts, blob, table, records.len())?;
    copy_records(table, records, nodes);
    Ok(nodes)
}

// Record i by way of a local array of records.
fn record_within(kind: u32, counts: Counts, blob: &[u8], table: &mut [u32], i: usize) -> Found
    requires { i < max_nodes }
    ensures { RecordOf kind counts blob.now table.old i result table.new }
{
    let mut records = [BLANK; MAX_NODES];
    let answer = read_records(kind, counts, blob, table, &mut records);
    let node = records[i];
    Found { answer, node }
}

// Reads a blob into the flat table and into MAX_NODES blank records of its own, and gives the answer and record i; past their end a blank one.
// No parameter is a slice of structs.
pub fn record_of(kind: u32, counts: Counts, blob: &[u8], table: &mut [u32], i: usize) -> Found
    ensures { RecordOf kind counts blob.now table.old i result table.new }
{
    if i < MAX_NODES {
        return record_within(kind, counts, blob, table, i);
    }
    let found = record_within(kind, counts, blob, table, 0);
    Found {
        node: BLANK,
        ..found
    }
}
