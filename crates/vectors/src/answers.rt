// Runs one case of the reader, and of the writer on what was read, and prints what they answered and left.
use cases::print::Outcome;
use cases::rows::{Case, LONGEST, case_of};
use cases::{KEPT, UNTOUCHED};
use std::io;

// 1,025 records and a tail of five.
const ROOM: usize = 6155;

// How many numbers of the table are no longer as they were.
fn changed(table: &[u32]) -> usize {
    table.iter().filter(|n| **n != UNTOUCHED).count()
}

// A sum over all numbers of the table that goes by their order.
fn checksum(table: &[u32]) -> u64 {
    table.iter().fold(0u64, |sum, n| {
        sum.wrapping_mul(31).wrapping_add(u64::from(*n)) % 65521
    })
}

// The first twelve records at most, one to a line.
fn show_records(rt: &impl Print, table: &[u32]) -> io::Result<()> {
    for record in table.chunks(6).take(12) {
        if let [kind, a, b, children, at, after] = record {
            println!(rt; " {kind:x} {a:x} {b:x} {children:x} {at:x} {after:x}")?;
        }
    }
    Ok(())
}

// Whether `out` begins with the blob and is untouched behind it.
fn holds(out: &[u8], blob: &[u8]) -> bool {
    out.strip_prefix(blob)
        .is_some_and(|rest| rest.iter().all(|byte| *byte == KEPT))
}

// The table that was read, written, and whether the blob comes back.
fn write_back(rt: &impl Print, table: &[u32], case: Case<'_>) -> io::Result<()> {
    let mut out = [KEPT; 4100];
    let written = writer::write(case.kind, case.counts, table, &mut out);
    let what = if holds(&out, case.blob) {
        "the blob"
    } else {
        "another"
    };
    println!(rt; " written {}, {what}", Outcome(written.into()))
}

// A blob judged, and read into the table that is lent.
fn run(rt: &impl Print, table: &mut [u32], case: Case<'_>) -> io::Result<()> {
    let Case {
        kind,
        counts,
        blob,
        ..
    } = case;
    let judged = reader::judge(kind, counts, blob);
    let read = reader::read(kind, counts, blob, table);
    print!(rt;
        "kind {kind}, {} bytes: judged {}",
        blob.len(),
        Outcome(judged.into())
    )?;
    print!(rt;
        ", read {}, numbers written {}",
        Outcome(read.into()),
        changed(table)
    )?;
    println!(rt; ", sum {}", checksum(table))?;
    if let Ok(nodes) = read
        && let Some(records) = table.get(..nodes.saturating_mul(6))
    {
        show_records(rt, records)?;
        write_back(rt, records, case)?;
    }
    Ok(())
}

// Runs the case of each line of a text.
pub fn show_rows(rt: &impl Print, text: &str) -> io::Result<()> {
    let mut room = [0u8; LONGEST];
    for line in text.lines() {
        let mut table = [UNTOUCHED; ROOM];
        if let Some(case) = case_of(line, ROOM as u32, &mut room) {
            if let Some(lent) = table.get_mut(..case.lent) {
                run(rt, lent, case)?;
            }
        }
    }
    Ok(())
}
