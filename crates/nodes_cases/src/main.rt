// The reader's second call run on document 01's bench, by `nodes::record_of`. Its answer and table are held against those of `reader::read`, and
// each record against the table; what is printed is held to the file stdout.
#![tactic(auto)]

use cases::UNTOUCHED;
use cases::print::Outcome;
use cases::rows::{Case, LONGEST, case_of};
use grammar::Node;
use nodes::Found;
use std::io;

// Numbers of a table with room for 1,025 records.
const ROOM: usize = 6150;

// Rows as cases/src/rows.rt says.
const ROWS: &str = "
# Accepted.
1: 06 08
0: 0F 20 06 08
0: 14 08 01 01 03 00
0: 15 12 09 01 0E
0: 13 80 80
0: 20 06 12 09
4: 20 01 01 12 49
0: 1D*31 08
2: 07 83 FF 08*1023
# Refused.
1: 06
1: 06 08 08
0:
0: 14 08 00 00 00
0: 13 80 7F
0: 12 09
4 0 17 1: 20 01 01 12 49
0: 1D*32 08
2: 07 84 00 08*1024
# Too few numbers lent, just enough, and a tail.
1 0 18 1 0: 06 08
1 0 18 1 11: 06 08
1 0 18 1 12: 06 08
0 0 18 1 17: 0F 20 06 08
0 0 18 1 23: 0F 20 06 08
";

fn record_of(case: Case<'_>, table: &mut [u32], i: usize) -> Found {
    nodes::record_of(case.kind, case.counts, case.blob, table, i)
}

// A record as the flat table has it.
fn numbers(node: Node) -> [u32; 6] {
    let Node {
        kind,
        a,
        b,
        children,
        at,
        after,
    } = node;
    [kind, a, b, children, at, after]
}

fn show_record(rt: &impl Print, record: [u32; 6]) -> io::Result<()> {
    for number in record {
        print!(rt; " {number:x}")?;
    }
    println!(rt)
}

// How many records, of `count`, are those of the flat table, one after the other; the first twelve are printed.
fn show_records(
    rt: &impl Print,
    case: Case<'_>,
    table: &mut [u32],
    count: usize,
) -> io::Result<usize> {
    for i in 0..count {
        let record = numbers(record_of(case, table, i).node);
        if table.chunks_exact(6).nth(i) != Some(&record) {
            return Ok(i);
        }
        if i < 12 {
            show_record(rt, record)?;
        }
    }
    Ok(count)
}

// The first index where two tables of one length differ, or their length.
fn agree(left: &[u32], right: &[u32]) -> usize {
    left.iter()
        .zip(right)
        .position(|(l, r)| l != r)
        .unwrap_or(left.len())
}

// Reads a blob by both calls, and gives the number of nodes, 0 on a refusal.
fn read_both(
    rt: &impl Print,
    case: Case<'_>,
    table: &mut [u32],
    flat: &mut [u32],
) -> io::Result<usize> {
    let second = record_of(case, table, 0).answer;
    let first = reader::read(case.kind, case.counts, case.blob, flat);
    print!(rt;
        "{}, read {}",
        Outcome(second.into()),
        Outcome(first.into())
    )?;
    println!(rt; ", the tables agree to {}", agree(table, flat))?;
    Ok(first.unwrap_or(0))
}

// Reads a blob into the two tables that are lent.
fn run(rt: &impl Print, case: Case<'_>, table: &mut [u32], flat: &mut [u32]) -> io::Result<()> {
    print!(rt; "kind {}, {} bytes: ", case.kind, case.blob.len())?;
    let count = read_both(rt, case, table, flat)?;
    let shown = show_records(rt, case, table, count)?;
    print!(rt; " records as in the table: {shown}")?;
    if numbers(record_of(case, table, count).node) == [0; 6] {
        print!(rt; ", the next blank")?;
    }
    println!(rt)
}

// Runs the case of a row.
fn show(rt: &impl Print, line: &str) -> io::Result<()> {
    let mut room = [0u8; LONGEST];
    let mut table = [UNTOUCHED; ROOM];
    let mut flat = [UNTOUCHED; ROOM];
    if let Some(case) = case_of(line, ROOM as u32, &mut room) {
        if let (Some(table), Some(flat)) = (table.get_mut(..case.lent), flat.get_mut(..case.lent)) {
            run(rt, case, table, flat)?;
        }
    }
    Ok(())
}

fn main(rt: HostRuntime) -> io::Result<()> {
    for line in ROWS.lines() {
        show(&rt, line)?;
    }
    Ok(())
}
