// A blob with the row counts that it is read under.
ghost use Rattle.std.specs.Prelude.{◌≤◌, length};
ghost use Rattle.grammar.specs.Limits.{max_bytes};

use number::token::Counts;

#[derive(Clone, Copy)]
pub struct Source<'a> {
    pub bytes: &'a [u8],
    pub counts: Counts,
    ghost short: { length bytes.now ≤ max_bytes },
}
