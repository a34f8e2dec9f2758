// Forms that more than one program prints.
use answer::Answer;
use std::fmt;

// A number of the panel and its place.
#[derive(Clone, Copy)]
pub struct Outcome(pub Answer);

impl fmt::Display for Outcome {
    fn fmt<W: fmt::Write>(&self, f: &mut fmt::Formatter<W>) -> fmt::Result {
        let Answer { code, place } = self.0;
        write!(f, "{code} at {place}")
    }
}

// Each byte in two hexadecimal digits, a space before it.
#[derive(Clone, Copy)]
pub struct Bytes<'a>(pub &'a [u8]);

impl fmt::Display for Bytes<'_> {
    fn fmt<W: fmt::Write>(&self, f: &mut fmt::Formatter<W>) -> fmt::Result {
        for byte in self.0 {
            write!(f, " {byte:02x}")?;
        }
        Ok(())
    }
}
