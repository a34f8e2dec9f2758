// The jobs that are timed.
use crate::graphs::{Graph, Random, type_of};
use number::token::row_counts;
use register::{MAX_SIZE, Register, WORDS};

const NUMBERS: usize = 10000;

const NUMBER_ROUNDS: usize = 10000;

// The sum of the numbers that stand one after the other in a slice, by the step that the reader takes.
fn sum_of(s: &[u8]) -> u64 {
    let mut sum: u64 = 0;
    let mut at = 0;
    // Kept: where a number ends is known only when it has been read.
    while at < s.len() {
        let Ok(number) = number::checked::checked_at(s, at) else {
            return sum;
        };
        sum = sum.wrapping_add(u64::from(number.value));
        at = number.next;
    }
    sum
}

pub fn numbers() -> u64 {
    let bytes = [5u8; NUMBERS];
    (0..NUMBER_ROUNDS).fold(0u64, |sum, _| sum.wrapping_add(sum_of(&bytes)))
}

// Row 32, counted from 0: it has a mark while rows are filed.
const MARKED: usize = 31;

// Files each row, one after the other, its type; before each filing row 32 gets this mark. Gives how many of the filings left the mark.
fn file_all(g: &mut Register, graph: Graph, mark: u8, sets: &mut [u32]) -> u64 {
    let rows = g.counts.specs as usize;
    let mut random = Random::new();
    let mut kept: u64 = 0;
    for row in 1..=rows {
        g.marks[MARKED] = mark;
        let blob = type_of(graph, rows, row, &mut random);
        let _ = g.file(row, blob.as_slice(), sets);
        if g.marks[MARKED] != 0 {
            kept = kept.saturating_add(1);
        }
    }
    kept
}

// A register of so many rows, all filed.
fn filled(graph: Graph, rows: u32, sets: &mut [u32]) -> Register {
    let (mut g, _) = Register::open(row_counts(0, 0, rows), sets);
    file_all(&mut g, graph, 0, sets);
    g
}

// Asks each row, one after the other.
fn ask_all(g: Register, sets: &[u32]) -> u64 {
    (1..=g.counts.specs as usize).fold(0u64, |sum, row| {
        sum.wrapping_add(
            g.ask(row, sets)
                .map_or(0, |asked| u64::from(asked.standing)),
        )
    })
}

// Asks each row so many times.
pub fn asks(graph: Graph, rows: u32, rounds: u32) -> u64 {
    let mut sets = [0u32; MAX_SIZE * WORDS];
    let g = filled(graph, rows, &mut sets);
    (0..rounds).fold(0u64, |sum, _| sum.wrapping_add(ask_all(g, &sets)))
}

// Files each row so many times again, each time with row 32 marked, so that the rows that reach the filed one are looked for.
pub fn files(graph: Graph, rows: u32, rounds: u32) -> u64 {
    let mut sets = [0u32; MAX_SIZE * WORDS];
    let mut g = filled(graph, rows, &mut sets);
    let mut kept: u64 = 0;
    for _ in 0..rounds {
        kept = kept.saturating_add(file_all(&mut g, graph, 1, &mut sets));
    }
    kept
}
