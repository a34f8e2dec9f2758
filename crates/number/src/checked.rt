// Numbers after their checks, with the refusal where one fails. The refusal's place is the number's start.
ghost use Rattle.std.specs.Prelude.{◌≡◌};
ghost use Rattle.number.specs.Checked.{refusal_of, checked_at, count_at};

use crate::{Number, NumberError};
use answer::refusal::Refusal;

impl From<NumberError> for Refusal {
    ghost from_gives = { λ error refusal. refusal ≡ refusal_of error };

    fn from(error: NumberError) -> Refusal {
        match error {
            NumberError::Cut => Refusal::BytesEnd,
            NumberError::BadByte => Refusal::MalformedNumber,
            NumberError::TooLong => Refusal::MalformedNumber,
        }
    }
}

// The number at the offset `at`. Most numbers have one byte, which is looked at first: a shortcut that is document 02's request 3, which lands in an issue
// of its own.
pub fn checked_at(s: &[u8], at: usize) -> Result<Number, Refusal>
    ensures { result ≡ checked_at s.now at }
{
    if at < s.len() {
        let value = crate::byte(s, at);
        if value < 0x80 {
            return Ok(Number {
                value,
                next: at + 1,
            });
        }
    }
    Ok(crate::number_at(s, at)?)
}

// The number at the offset `at`, which has to be from `low` to `high`.
pub fn count_at(s: &[u8], at: usize, low: u32, high: u32) -> Result<Number, Refusal>
    ensures { result ≡ count_at low high s.now at }
{
    let number = checked_at(s, at)?;
    if number.value < low || high < number.value {
        return Err(Refusal::CountOutOfRange);
    }
    Ok(number)
}
