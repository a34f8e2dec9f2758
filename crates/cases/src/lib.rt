// What the programs that run cases share: forms that they print, cases as rows of text, the bench's row counts and what lent memory is filled with.
#![tactic(auto)]

use number::token::{Counts, row_counts};

pub mod print;
pub mod rows;

// What lent memory holds before a call.
pub const KEPT: u8 = 0xA5;

pub const UNTOUCHED: u32 = 0xA5A5A5A5;

// Document 01's row counts on the bench.
pub fn usual_counts() -> Counts {
    row_counts(0, 18, 1)
}
