// Tokens: a row of one of three tables, as a number.
ghost use Rattle.std.specs.Prelude.{◌≡◌};
ghost use Rattle.number.specs.Token.{tag_of, row_of, row_counts, no_counts, rows_of, token_at};

use crate::Number;
use answer::refusal::Refusal;

// The tags below these are good in VALUETYPE, CLASS and GENERICINST, and in a modifier.
pub const TYPE_TAGS: u32 = 2;

pub const MOD_TAGS: u32 = 3;

// The tag of TypeSpec's table.
pub const TYPE_SPEC_TAG: u32 = 2;

// The row counts of the tables TypeDef, TypeRef and TypeSpec.
#[derive(Clone, Copy, Debug, PartialEq, Eq)]
pub struct Counts {
    pub defs: u32,
    pub refs: u32,
    pub specs: u32,
}

pub fn row_counts(defs: u32, refs: u32, specs: u32) -> Counts
    ensures { result ≡ row_counts defs refs specs }
{
    Counts { defs, refs, specs }
}

// No rows in any table.
pub fn no_counts() -> Counts
    ensures { result ≡ no_counts }
{
    row_counts(0, 0, 0)
}

// A token is its row times 4 plus its tag.
// Kept: tags are numbers, since `token_at` answers for any number of tags.
pub fn tag_of(token: u32) -> u32
    ensures { result ≡ tag_of token }
{
    token % 4
}

pub fn row_of(token: u32) -> u32
    ensures { result ≡ row_of token }
{
    token / 4
}

// The row count of the table that a tag names.
fn rows_of(counts: Counts, tag: u32) -> u32
    ensures { result ≡ rows_of counts tag }
{
    match tag {
        0 => counts.defs,
        1 => counts.refs,
        TYPE_SPEC_TAG => counts.specs,
        _ => 0,
    }
}

// The token at the offset `at`, whose tag has to be below `tags` and whose row has to be in its table.
pub fn token_at(s: &[u8], at: usize, tags: u32, counts: Counts) -> Result<Number, Refusal>
    ensures { result ≡ token_at tags counts s.now at }
{
    let token = crate::checked::checked_at(s, at)?;
    let tag = tag_of(token.value);
    let row = row_of(token.value);
    if tags <= tag {
        return Err(Refusal::WrongTag);
    }
    if row == 0 || rows_of(counts, tag) < row {
        return Err(Refusal::RowOutOfRange);
    }
    Ok(token)
}
