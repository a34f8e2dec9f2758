// A length, and so many bytes after it.
ghost use Rattle.std.specs.Prelude.{◌≡◌};
ghost use Rattle.number.specs.Blob.{blob_at};

use crate::Number;
use answer::refusal::Refusal;

// The blob whose length stands at the offset `at`: its length, and the offset after its bytes.
pub fn blob_at(s: &[u8], at: usize) -> Result<Number, Refusal>
    ensures { result ≡ blob_at s.now at }
{
    let Number { value, next } = crate::checked::checked_at(s, at)?;
    let end = next + value as usize;
    if s.len() < end {
        return Err(Refusal::BytesEnd);
    }
    Ok(Number { value, next: end })
}
