// Compressed numbers: reading one at any offset of a slice. Writing one is in encoding.rt.
#![tactic(auto)]

ghost use Rattle.std.specs.Prelude.{◌≡◌, ◌<◌, length, get_or};
ghost use Rattle.number.specs.Number.{number_at, whole, value2, value4};

pub mod blob;
pub mod checked;
pub mod encoding;
pub mod token;

// The greatest number that has an encoding.
pub const MAX_NUMBER: u32 = 0x1FFFFFFF;

// A number that was read, and the offset after it.
#[derive(Clone, Copy, Debug, PartialEq, Eq)]
pub struct Number {
    pub value: u32,
    pub next: usize,
}

// Why none stands where a number is due: bytes that end before or inside it; a first byte that no number has; a form longer than the
// value needs.
#[derive(Clone, Copy, Debug, PartialEq, Eq)]
pub enum NumberError {
    Cut,
    BadByte,
    TooLong,
}

// A byte of the input as a number to compute with.
fn byte(s: &[u8], at: usize) -> u32
    requires { at < length s.now }
    ensures { (result ≡ get_or s.now at 0) × (result < 256) }
{
    s[at] as u32
}

// A number whose first byte, at `at`, says that it has two bytes.
// Kept: apart from `four_bytes`, since mask, least value and sum all differ; one function would take all three, or loop over the bytes.
fn two_bytes(s: &[u8], at: usize) -> Result<Number, NumberError>
    requires { at < length s.now }
    ensures { result ≡ whole s.now at 2 0x80 (value2 s.now at) }
{
    if s.len() - at < 2 {
        return Err(NumberError::Cut);
    }
    let value = byte(s, at) % 0x40 * 0x100 + byte(s, at + 1);
    if value < 0x80 {
        return Err(NumberError::TooLong);
    }
    Ok(Number {
        value,
        next: at + 2,
    })
}

// A number whose first byte, at `at`, says that it has four bytes.
fn four_bytes(s: &[u8], at: usize) -> Result<Number, NumberError>
    requires { at < length s.now }
    ensures { result ≡ whole s.now at 4 0x4000 (value4 s.now at) }
{
    if s.len() - at < 4 {
        return Err(NumberError::Cut);
    }
    let high = byte(s, at) % 0x20 * 0x100 + byte(s, at + 1);
    let low = byte(s, at + 2) * 0x100 + byte(s, at + 3);
    let value = high * 0x10000 + low;
    if value < 0x4000 {
        return Err(NumberError::TooLong);
    }
    Ok(Number {
        value,
        next: at + 4,
    })
}

// The compressed number at the offset `at`. The leading one bits of its first byte give its length.
pub fn number_at(s: &[u8], at: usize) -> Result<Number, NumberError>
    ensures { result ≡ number_at s.now at }
{
    if s.len() <= at {
        return Err(NumberError::Cut);
    }
    let first = s[at];
    match u8::leading_zeros(!first) {
        0 => Ok(Number {
            value: byte(s, at),
            next: at + 1,
        }),
        1 => two_bytes(s, at),
        2 => four_bytes(s, at),
        _ => Err(NumberError::BadByte),
    }
}
