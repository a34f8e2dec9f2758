// Reaching: a table of references, kept as bits, is copied and the copy is closed. For any number of rows.
#![tactic(auto)]

ghost use Rattle.std.specs.Prelude.{◌≡◌, ◌⊎◌, ℕ, ◌+◌, ◌*◌, ◌≤◌, ◌<◌, length};
ghost use Rattle.bits.specs.Bits.{word_bits, bit_at};
ghost use Rattle.reach.specs.Reach.{thru};
ghost use Rattle.reach.specs.Closure.{ClosureOf};
ghost use Rattle.reach.specs.Closing.{Copied, RowsCopied, Ored, RowRelaxed, Relaxed};

use bits::bit_at;

// Words d.. get those of s.. too; the two runs do not overlap.
fn or_words(m: &mut [u32], d: usize, s: usize, w: usize)
    requires { (d + w ≤ length m.old) × (s + w ≤ length m.old) × ((s + w ≤ d) ⊎ (d + w ≤ s)) }
    ensures { Ored m.old d s w m.new }
{
    // Kept: the runs are of one slice, so a zip needs split_at_mut and a test of which is first.
    for x in 0..w {
        m[d + x] |= m[s + x];
    }
}

// Row i gets the bits of row k if it has bit k.
// Kept: m, n and w, for a struct with m in it would have each step say that n and w stay.
fn relax_row(m: &mut [u32], n: usize, w: usize, k: usize, i: usize)
    requires { (n * w ≤ length m.old) × (n ≤ word_bits * w) × (k < n) × (i < n) }
    ensures { RowRelaxed w k i m.old m.new }
{
    if i == k {
        return;
    }
    if bit_at(m, w, i, k) {
        or_words(m, i * w, k * w, w);
    }
}

// One step of the closure: every row that has bit k gets the bits of row k.
fn relax(m: &mut [u32], n: usize, w: usize, k: usize)
    requires { (n * w ≤ length m.old) × (n ≤ word_bits * w) × (k < n) }
    ensures { Relaxed w n k m.old n m.new }
{
    for i in 0..n {
        relax_row(m, n, w, k, i);
    }
}

// The table becomes that of reaching.
fn close(m: &mut [u32], n: usize, w: usize)
    requires { (n * w ≤ length m.old) × (n ≤ word_bits * w) }
    ensures { (r s : ℕ) → r < n → s < word_bits * w → bit_at w m.new r s ≡ thru (bit_at w m.old) n r s }
{
    for k in 0..n {
        relax(m, n, w, k);
    }
}

// Words d.. become those of s.. of another table.
fn copy_words(m: &mut [u32], from: &[u32], d: usize, s: usize, w: usize)
    requires { (d + w ≤ length m.old) × (s + w ≤ length from.now) }
    ensures { Copied m.old from.now d s w m.new }
{
    m[d..d + w].copy_from_slice(&from[s..s + w]);
}

// The first n rows become those of a table with more words to a row, or as many.
fn copy_rows(m: &mut [u32], w: usize, from: &[u32], v: usize, n: usize)
    requires { (n * w ≤ length m.old) × (n * v ≤ length from.now) × (w ≤ v) }
    ensures { RowsCopied w v m.old from.now n m.new }
{
    for r in 0..n {
        copy_words(m, from, r * w, r * v, w);
    }
}

// m becomes the table, w words to a row, of what the first n rows of `sets`, v words to a row, reach among themselves.
pub fn closure(m: &mut [u32], w: usize, sets: &[u32], v: usize, n: usize)
    requires { (n * w ≤ length m.old) × (n * v ≤ length sets.now) × (w ≤ v) × (n ≤ word_bits * w) }
    ensures { ClosureOf w v n sets.now m.new }
{
    copy_rows(m, w, sets, v, n);
    close(m, n, w);
}
