// Histories of calls on a register. What is printed is held to the file stdout.
#![tactic(auto)]

mod session;

use number::token::row_counts;
use register::{MAX_SIZE, Register, WORDS};
use session::Session;
use std::io;

// Document 01's sheet, and the last row of its bench.
fn worked_sheet(rt: &impl Print, sets: &mut [u32]) -> io::Result<()> {
    let mut s = Session::open(rt, row_counts(0, 0, 3), sets)?;
    s.file(1, b"\x0F\x20\x0A\x08")?;
    s.file(2, b"\x10")?;
    s.file(3, b"\x20\x0E\x08")?;
    s.acknowledge(1)?;
    s.ask_to(3)?;
    s.acknowledge(1)?;
    s.acknowledge(3)?;
    s.file(2, b"\x1D\x08")?;
    s.ask_to(3)
}

// Refused openings hand back a register of 0 rows.
fn refused(rt: &impl Print, sets: &mut [u32]) -> io::Result<()> {
    let mut s = Session::open(rt, row_counts(0x1000000, 0, 0), sets)?;
    s.file(1, b"\x08")?;
    s.ask(1)?;
    Session::open(rt, row_counts(0, 0x1000000, 513), sets)?;
    Session::open(rt, row_counts(0xFFFFFF, 0xFFFFFF, 0), sets)?;
    let mut s = Session::open(rt, row_counts(0, 0, 513), sets)?;
    s.acknowledge(1)
}

// Row 1 names 2, which names 3, which names 2; row 4 names itself; row 5 is empty.
fn rows<'a, P: Print>(rt: &'a P, sets: &'a mut [u32]) -> io::Result<Session<'a, P>> {
    let mut s = Session::open(rt, row_counts(2, 3, 5), sets)?;
    s.ask(1)?;
    s.acknowledge(1)?;
    s.file(0, b"\x08")?;
    s.file(6, b"\x08")?;
    s.file(1, b"\x20\x0A\x08")?;
    s.ask(1)?;
    s.file(2, b"\x1F\x0E\x08")?;
    s.file(3, b"\x20\x0A\x08")?;
    s.file(4, b"\x08")?;
    s.ask(4)?;
    s.acknowledge(4)?;
    s.file(4, b"\x20\x12\x08")?;
    s.ask_to(5)?;
    Ok(s)
}

// All marked; row 3 is refiled with a blob that is refused, then with a function pointer whose parameter names row 5.
fn refilings(s: &mut Session<'_, impl Print>) -> io::Result<()> {
    for row in [1, 2, 3, 4, 2] {
        s.acknowledge(row)?;
    }
    s.file(3, b"\x20\x02\x08")?;
    s.ask_to(5)?;
    s.acknowledge(3)?;
    s.file(3, b"\x1B\x00\x01\x01\x20\x16\x08")?;
    s.ask(3)?;
    s.file(5, b"\x15\x12\x05\x01\x08")?;
    s.ask_to(5)?;
    s.file(5, b"\x20\x1A\x08")?;
    s.acknowledge(5)?;
    s.acknowledge(1)?;
    s.acknowledge(6)?;
    s.ask_to(5)
}

// A register that no call hands back: it has 513 rows.
fn too_large(register: Register) -> Register {
    let mut forged = register;
    forged.counts.specs = 513;
    forged
}

// The refused filing leaves what row 1 names.
fn forged(rt: &impl Print, register: Register, sets: &mut [u32]) -> io::Result<()> {
    let mut s = Session::new(rt, too_large(register), sets);
    s.file(1, b"\x08")?;
    s.show_word(0)?;
    s.acknowledge(1)?;
    s.ask(514)
}

// 47 numbers lent for three rows at the opening are too few. They are left as they were.
fn too_few_opened(rt: &impl Print) -> io::Result<()> {
    let mut fewer = [0xFFFFFFFFu32; 47];
    let mut s = Session::open(rt, row_counts(0, 0, 3), &mut fewer)?;
    s.show_word(0)?;
    s.ask(1)?;
    s.file(1, b"\x08")?;
    s.acknowledge(1)?;
    Session::open(rt, row_counts(0, 0, 513), &mut fewer)?;
    Ok(())
}

// 79 numbers lent for five rows that were opened with enough: 19 comes before 27, and that before 16. They are left as they were.
fn too_few(rt: &impl Print, register: Register) -> io::Result<()> {
    let mut few = [0xFFFFFFFFu32; 79];
    let mut enough = [0u32; 80];
    let mut s = Session::new(rt, register, &mut few);
    s.file(6, b"\x08")?;
    s.file(2, b"\x08")?;
    s.show_word(16)?;
    s.acknowledge(6)?;
    s.ask(6)?;
    let register = s.register();
    Session::new(rt, register, &mut enough).ask(6)?;
    Session::new(rt, too_large(register), &mut few).ask(514)
}

// The largest register: row 512 names itself, row 511 is refused for naming row 513, and row 1 names row 511.
fn largest(rt: &impl Print, sets: &mut [u32]) -> io::Result<()> {
    let mut s = Session::open(rt, row_counts(0, 0, 512), sets)?;
    s.file(512, b"\x20\x88\x02\x08")?;
    s.file(511, b"\x20\x88\x06\x08")?;
    s.file(1, b"\x20\x87\xFE\x08")?;
    s.file(513, b"\x08")?;
    s.acknowledge(512)?;
    s.acknowledge(1)?;
    for row in [1, 511, 512, 513] {
        s.ask(row)?;
    }
    s.file(511, b"\x08")?;
    s.ask(1)?;
    s.ask(512)
}

// What the calls write: a refused one nothing, opening 0 to the numbers of its rows, a filing the row's own 16. Row 2 names row 1, row 1 a row above the
// size; then row 2 is refused and names none.
fn written(rt: &impl Print, sets: &mut [u32]) -> io::Result<()> {
    Session::open(rt, row_counts(0, 0, 513), sets)?.show_word(0)?;
    let mut s = Session::open(rt, row_counts(0, 0, 2), sets)?;
    s.show_word(31)?;
    s.show_word(32)?;
    s.file(2, b"\x20\x06\x08")?;
    s.show_word(16)?;
    s.file(3, b"\x20\x06\x08")?;
    s.show_word(32)?;
    s.file(1, b"\x20\x0E\x08")?;
    s.show_word(16)?;
    s.ask_to(2)?;
    s.file(2, b"\x10")?;
    s.show_word(16)?;
    s.ask(2)
}

// A register and memory that no call leaves: a count above FFFFFF, a state above 2, and a bit that names a row above the size.
fn forged_rows(rt: &impl Print, sets: &mut [u32]) -> io::Result<()> {
    let mut s = Session::open(rt, row_counts(0, 0, 2), sets)?;
    let mut register = s.register();
    register.counts.defs = 0x1000000;
    register.states[1] = 7;
    s.set_register(register);
    s.file(1, b"\x08")?;
    s.ask(1)?;
    s.set_word(16, 4);
    s.ask(2)?;
    s.set_word(16, 5);
    s.ask(2)
}

// 16 numbers to a row, whatever the size, and one fewer.
fn just_enough(rt: &impl Print) -> io::Result<()> {
    Session::open(rt, row_counts(0, 0, 1), &mut [0u32; 15])?;
    Session::open(rt, row_counts(0, 0, 1), &mut [0u32; 16])?.ask(1)?;
    Session::open(rt, row_counts(0, 0, 3), &mut [0u32; 48])?;
    Session::open(rt, row_counts(0, 0, 512), &mut [0u32; 8191])?.ask(1)?;
    for counts in [
        row_counts(0, 0, 0),
        row_counts(0, 0, 513),
        row_counts(0x1000000, 0, 513),
    ] {
        Session::open(rt, counts, &mut [0u32; 0])?;
    }
    Ok(())
}

fn main(rt: HostRuntime) -> io::Result<()> {
    let mut sets = [0xFFFFFFFFu32; MAX_SIZE * WORDS];
    written(&rt, &mut sets)?;
    forged_rows(&rt, &mut sets)?;
    just_enough(&rt)?;
    worked_sheet(&rt, &mut sets)?;
    refused(&rt, &mut sets)?;
    let mut session = rows(&rt, &mut sets)?;
    refilings(&mut session)?;
    let register = session.register();
    forged(&rt, register, &mut sets)?;
    too_few_opened(&rt)?;
    too_few(&rt, register)?;
    largest(&rt, &mut sets)
}
