// Tables that were changed, or lent with too little room, each given to the writer: its answer and bytes are printed and held to the file stdout.
#![tactic(auto)]

use cases::print::{Bytes, Outcome};
use cases::{KEPT, usual_counts};
use std::io;

// The table of a blob, with the number at an index changed or none; the writer is given its first numbers, a kind, and room for bytes.
#[derive(Clone, Copy)]
struct Input<'a> {
    kind: u32,
    blob: &'a [u8],
    changed: Option<(usize, u32)>,
    length: usize,
    room: usize,
}

// The table of 1D 08.
const SZARRAY: Input<'static> = Input {
    kind: 0,
    blob: b"\x1D\x08",
    changed: None,
    length: 12,
    room: 64,
};

const GENERIC_INSTANCE: Input<'static> = Input {
    blob: b"\x15\x12\x09\x01\x0E",
    ..SZARRAY
};

const METHOD_VARIABLE: Input<'static> = Input {
    blob: b"\x1E\x00",
    length: 6,
    ..SZARRAY
};

// A table written where `out` is lent.
fn write(rt: &impl Print, kind: u32, table: &[u32], out: &mut [u8]) -> io::Result<()> {
    let written = writer::write(kind, usual_counts(), table, out);
    print!(rt; "{}", Outcome(written.into()))?;
    if let Ok(len) = written
        && let Some(bytes) = out.get(..len)
    {
        print!(rt; "{}", Bytes(bytes))?;
    }
    println!(rt)
}

fn run(rt: &impl Print, input: Input<'_>) -> io::Result<()> {
    let mut table = [0u32; 120];
    let mut out = [KEPT; 64];
    let _ = reader::read(0, usual_counts(), input.blob, &mut table);
    if let Some((index, value)) = input.changed {
        if let Some(number) = table.get_mut(index) {
            *number = value;
        }
    }
    if let (Some(table), Some(out)) = (table.get(..input.length), out.get_mut(..input.room)) {
        write(rt, input.kind, table, out)?;
    }
    Ok(())
}

// Each change alone.
fn run_changed(rt: &impl Print, input: Input<'_>, changes: &[(usize, u32)]) -> io::Result<()> {
    for change in changes {
        let changed = Some(*change);
        run(rt, Input { changed, ..input })?;
    }
    Ok(())
}

// A field of the table of 1D 08.
const FIELDS: [(usize, u32); 15] = [
    (0, 0xF),
    (1, 0x1),
    (2, 0x1),
    (3, 0x0),
    (3, 0x2),
    (4, 0x1),
    (5, 0x1),
    (6, 0xA),
    (6, 0x10),
    (6, 0x20000000),
    (6, 0xFFFFFFFF),
    (7, 0xFFFFFFFF),
    (10, 0x0),
    (11, 0x1),
    (3, 0xFFFFFFFF),
];

// Tokens and a count.
const TOKENS: [(usize, u32); 6] = [
    (1, 0x9),
    (1, 0x49),
    (1, 0x4D),
    (1, 0x6),
    (2, 0x11),
    (2, 0x1D),
];

const NUMBERS: [(usize, u32); 3] = [(1, 0x7F), (1, 0x1FFFFFFF), (1, 0x20000000)];

// Too few or too many numbers.
fn cut(rt: &impl Print) -> io::Result<()> {
    for length in [0, 6, 11, 13, 18] {
        run(rt, Input { length, ..SZARRAY })?;
    }
    Ok(())
}

// Room for the bytes, and one less; too little for a changed table, too, and for an unknown kind.
fn rooms(rt: &impl Print) -> io::Result<()> {
    for room in [2, 1, 0] {
        run(rt, Input { room, ..SZARRAY })?;
    }
    let changed = Some((4, 0x1));
    for kind in [0, 5] {
        run(
            rt,
            Input {
                kind,
                changed,
                room: 0,
                ..SZARRAY
            },
        )?;
    }
    Ok(())
}

fn main(rt: HostRuntime) -> io::Result<()> {
    run_changed(&rt, SZARRAY, &FIELDS)?;
    cut(&rt)?;
    run_changed(&rt, GENERIC_INSTANCE, &TOKENS)?;
    run_changed(&rt, METHOD_VARIABLE, &NUMBERS)?;
    rooms(&rt)
}
