// Bytes and numerals over lent output: each function lays its text from an offset on, as far as the output reaches, and gives the offset behind it.
#![tactic(auto)]

ghost use Rattle.std.specs.Prelude.{[], ◌∷◌};
ghost use Rattle.text.specs.Printing.{Prints};
ghost use Rattle.text.specs.Numeral.{numeral, decimal};

// No number of 64 bits has more digits.
const MAX_DIGITS: usize = 20;

// Kept: `out` and `to` as parameters. A struct of both says `Prints text self.old.to self.new.to self.old.out.now self.new.out.now` at each method, which is
// longer, and its callers' proofs stay one lemma to a step.

// One byte. The offset behind the greatest is the greatest.
pub fn byte_to(out: &mut [u8], to: usize, b: u8) -> usize
    ensures { Prints (b ∷ []) to result out.old out.new }
{
    if to < out.len() {
        out[to] = b;
    }
    to.saturating_add(1)
}

// Some bytes.
pub fn text_to(out: &mut [u8], to: usize, text: &[u8]) -> usize
    ensures { Prints text.now to result out.old out.new }
{
    let mut here = to;
    for b in text {
        here = byte_to(out, here, *b);
    }
    here
}

// A number in decimal; its last k digits where it has more.
fn numeral_to(out: &mut [u8], to: usize, k: usize, n: u64) -> usize
    ensures { Prints (numeral k n) to result out.old out.new }
{
    if k == 0 {
        return to;
    }
    if n < 10 {
        return byte_to(out, to, 48 + n as u8);
    }
    let here = numeral_to(out, to, k - 1, n / 10);
    byte_to(out, here, 48 + (n % 10) as u8)
}

// A number in decimal.
pub fn decimal_to(out: &mut [u8], to: usize, n: u64) -> usize
    ensures { Prints (decimal n) to result out.old out.new }
{
    numeral_to(out, to, MAX_DIGITS, n)
}
