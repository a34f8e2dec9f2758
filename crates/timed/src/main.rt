// Runs a job that the benchmark times: 10,000 numbers of one byte read 10,000 times; each row of 512 asked once, or filed once again; each row of 64
// asked or filed 1,000 times. Prints the sum of the numbers or of the standings, or how many filings left one row's mark: the benchmark holds it to the reference's.
#![tactic(auto)]

mod graphs;
mod jobs;

use graphs::Graph;
use register::MAX_SIZE;
use std::{env, io};

// The first letter of a word.
fn letter(word: Option<String>) -> Option<char> {
    word?.chars().next()
}

fn main(rt: HostRuntime) -> io::Result<()> {
    let mut words = env::args(&rt)?.skip(1);
    let Some(job) = words.next() else {
        return println!(rt;
            "usage: timed numbers | asks GRAPH [small] | files GRAPH [small]; GRAPH: cycle, line, random"
        );
    };
    let graph = Graph::from(letter(words.next()));
    let (rows, rounds) = match letter(words.next()) {
        Some('s') => (64, 1000),
        _ => (MAX_SIZE as u32, 1),
    };
    let sum = match letter(Some(job)) {
        Some('n') => jobs::numbers(),
        Some('a') => jobs::asks(graph, rows, rounds),
        Some('f') => jobs::files(graph, rows, rounds),
        _ => 0,
    };
    println!(rt; "{sum}")
}
