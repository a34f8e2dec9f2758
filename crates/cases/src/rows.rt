// Cases of the reader as rows of text, one to a line: `KIND: BYTES`; with other row counts than the bench's `KIND DEFS REFS SPECS: BYTES`; with
// other than the usual numbers lent `KIND DEFS REFS SPECS LENT: BYTES`. Numbers are decimal, bytes hexadecimal, and `XX*N` is N times the byte XX. A line
// that starts with `#` says what follows.
ghost use Rattle.std.specs.Prelude.{◌≤◌, IfSome, length};

use crate::usual_counts;
use number::token::{Counts, row_counts};

// Bytes that are enough for the longest case.
pub const LONGEST: usize = 8192;

// A blob of a kind, and what it is read with: row counts, and how many numbers are lent.
#[derive(Clone, Copy)]
pub struct Case<'a> {
    pub kind: u32,
    pub counts: Counts,
    pub lent: usize,
    pub blob: &'a [u8],
}

// The byte of an item, and how often it comes.
fn item_of(item: &str) -> Option<(u8, usize)> {
    let (byte, times) = item.split_once('*').unwrap_or((item, "1"));
    Some((u8::from_str_radix(byte, 16).ok()?, times.parse().ok()?))
}

// The bytes of the items, at the front of the room; none where it is too small.
fn bytes_of<'a>(items: &str, room: &'a mut [u8]) -> Option<&'a [u8]>
    ensures { IfSome result (λ bytes. length bytes.now ≤ length room.old) }
{
    let mut length = 0;
    for item in items.split_ascii_whitespace() {
        let (byte, times) = item_of(item)?;
        room.get_mut(length..)?.get_mut(..times)?.fill(byte);
        length += times;
    }
    room.get(..length)
}

// The case of a line, its bytes put into the room; `lent` is how many numbers are lent where the line does not say.
pub fn case_of<'a>(line: &str, lent: u32, room: &'a mut [u8]) -> Option<Case<'a>>
    ensures { IfSome result (λ c. length c.blob.now ≤ length room.old) }
{
    if line.starts_with('#') {
        return None;
    }
    let (numbers, items) = line.split_once(':')?;
    let usual = usual_counts();
    let mut values = [0, usual.defs, usual.refs, usual.specs, lent];
    for (value, number) in values.iter_mut().zip(numbers.split(' ')) {
        *value = number.parse().ok()?;
    }
    let [kind, defs, refs, specs, lent] = values;
    Some(Case {
        kind,
        counts: row_counts(defs, refs, specs),
        lent: lent as usize,
        blob: bytes_of(items, room)?,
    })
}
