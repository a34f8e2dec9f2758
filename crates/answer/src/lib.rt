// What the calls answer; and what the register's check and answer, by the number of rows, how many
// words are lent, and a row's standing, state, finding, place and mark.
#![tactic(auto)]

ghost use Rattle.std.specs.Prelude.{◌≡◌};
ghost use Rattle.answer.specs.Answers.{row_code, admit_code, ack_code, asked_of, panel_of, number_in, answered};

use refusal::{Fault, Refusal};

pub mod refusal;

// The most rows.
pub const MAX_SIZE: usize = 512;

// The words of 32 bits that are lent for each row, to hold its set of rows.
pub const WORDS: usize = 16;

// A number, 0 for done, with its place: how many nodes or bytes there are, or where a refusal stands.
// Kept: the pair that C gets as one number; contracts speak of it by `panel_of`.
#[derive(Clone, Copy, Debug, PartialEq, Eq)]
pub struct Answer {
    pub code: u32,
    pub place: usize,
}

impl From<Result<usize, Fault>> for Answer {
    ghost from_gives = { λ told answer. answer ≡ panel_of told };

    fn from(told: Result<usize, Fault>) -> Answer {
        match told {
            Ok(place) => Answer { code: 0, place },
            Err(fault) => Answer {
                code: fault.refusal.into(),
                place: fault.place,
            },
        }
    }
}

// What asking a row gives.
#[derive(Clone, Copy, Debug, PartialEq, Eq)]
pub struct Asked {
    pub standing: u32,
    pub finding: u32,
    pub place: usize,
    pub mark: u32,
}

// What asking a row answers: a number, 0 for done, with what it gives, which is four 0 on a refusal.
#[derive(Clone, Copy, Debug, PartialEq, Eq)]
pub struct Told {
    pub code: u32,
    pub standing: u32,
    pub finding: u32,
    pub place: usize,
    pub mark: u32,
}

// The number of what a call of the register answers: 0 for done, or the refusal's.
pub fn number_in<T>(told: &Result<T, Refusal>) -> u32
    ensures { result ≡ number_in told.now }
{
    match told {
        Ok(_) => 0,
        Err(refusal) => (*refusal).into(),
    }
}

// Whether there is such a row.
#[tactic(auto, unfolding(crate::specs::Answers::row_code))]
pub fn check_row(rows: usize, row: usize) -> Result<(), Refusal>
    ensures { number_in result ≡ row_code rows row }
{
    if row == 0 || rows < row {
        return Err(Refusal::NoSuchRow);
    }
    Ok(())
}

// The refusals that come first on any call but opening, with so many words lent.
#[tactic(auto, unfolding(crate::specs::Answers::admit_code))]
pub fn check_call(lent: usize, rows: usize, row: usize) -> Result<(), Refusal>
    ensures { number_in result ≡ admit_code lent rows row }
{
    if MAX_SIZE < rows {
        return Err(Refusal::SizeOutOfRange);
    }
    if lent < rows * WORDS {
        return Err(Refusal::TooFewWords);
    }
    check_row(rows, row)
}

// Whether a row of this standing and mark can be acknowledged.
// Kept: numbers, here and in asked_of: states, findings, places and marks are pub fields of a register, which may hold any, and docs name both.
#[tactic(auto, unfolding(crate::specs::Answers::ack_code))]
pub fn check_acknowledgement(standing: u8, mark: u8) -> Result<(), Refusal>
    ensures { number_in result ≡ ack_code standing mark }
{
    if standing == 0 || standing == 4 {
        return Err(Refusal::NothingToAcknowledge);
    }
    if mark != 0 {
        return Err(Refusal::AlreadyMarked);
    }
    Ok(())
}

// What asking gives of a row, by what is kept of it: finding and place are 0 unless its blob was
// refused.
pub fn asked_of(standing: u8, state: u8, finding: u8, place: u16, mark: u8) -> Asked
    ensures { answered result ≡ asked_of standing state finding place mark }
{
    let (finding, place) = if state == 1 { (finding, place) } else { (0, 0) };
    Asked {
        standing: standing.into(),
        finding: finding.into(),
        place: place.into(),
        mark: mark.into(),
    }
}
