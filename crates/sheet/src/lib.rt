// The deposit sheet: run on the register, and its print laid over lent output.
#![tactic(auto)]

ghost use Rattle.std.specs.Prelude.{◌<◌, ◌≤◌, ◌≡◌, ◌++◌, IfErr, IfOk, length};
ghost use Rattle.answer.specs.Answers.{panel_of};
ghost use Rattle.answer.specs.Refusal.{fault_at};
ghost use Rattle.answer.specs.declared.refusal.Refusal.TheVariants.{OutputTooShort};
ghost use Rattle.layout.specs.Layout.{acks_from};
ghost use Rattle.text.specs.Printing.{further, laid};
ghost use Rattle.sheet.specs.Lines.{header, refusal_line};
ghost use Rattle.sheet.specs.Text.{accepted_text, text_of, Runs};
ghost use Rattle.sheet.specs.Acks.{acks_by, acked_marks};
ghost use Rattle.sheet.specs.Rows.{rows_by, printed_by};

use answer::refusal::{Fault, Refusal};
use layout::Layout;
pub use layout::MAX_SHEET;
use register::{MAX_SIZE, WORDS};
use rows::Rows;

mod acks;
mod blobs;
mod lines;
mod rows;

// Refuses a print of `needed` bytes where there is room for fewer.
fn check_room(room: usize, needed: usize) -> Result<(), Fault>
    ensures fits { IfOk result (λ _. needed ≤ room) }
    ensures short { IfErr result
        (λ fault. (room < needed) × (fault ≡ fault_at OutputTooShort needed)) }
{
    if room < needed {
        return Err(Refusal::OutputTooShort.at(needed));
    }
    Ok(())
}

// The length of the print; the marks become those after the acknowledgements.
#[tactic(auto, using(crate::proofs::Fits::sized))]
fn size_of(s: &[u8], layout: Layout, rows: &Rows, marks: &mut [u8; MAX_SIZE]) -> usize
    ensures value { result
        ≡ further 0 (length (printed_by rows.now.register rows.now.standings marks.old
        (acks_from layout.acknowledged s.now layout.starts.acks))) }
    ensures marks_after { marks.new
        ≡ acked_marks rows.now.standings rows.now.register.counts.specs marks.old
        (acks_from layout.acknowledged s.now layout.starts.acks) }
{
    let size = rows.acks_to(&mut [], 0, s, layout, marks);
    rows.head_to(&mut [], size, marks)
}

// Lays the print over the output; `marks` are those after the acknowledgements.
fn fill(out: &mut [u8], s: &[u8], layout: Layout, rows: &Rows, marks: &[u8; MAX_SIZE])
    ensures { out.new ≡ laid out.old 0 (header
        ++ rows_by rows.now.register rows.now.standings marks.now rows.now.register.counts.specs 0
        ++ acks_by rows.now.standings rows.now.register.counts.specs rows.now.register.marks
        (acks_from layout.acknowledged s.now layout.starts.acks)) }
{
    let here = rows.head_to(out, 0, marks);
    let mut again = rows.register.marks;
    rows.acks_to(out, here, s, layout, &mut again);
}

// Prints an accepted sheet.
fn print(out: &mut [u8], s: &[u8], layout: Layout) -> Result<usize, Fault>
    ensures { Runs (accepted_text s.now layout) (panel_of result) out.old out.new }
{
    let mut sets = [0u32; MAX_SIZE * WORDS];
    let register = blobs::register_of(&mut sets, s, layout);
    let standings = register.standings(&sets);
    let mut marks = register.marks;
    let rows = Rows {
        register,
        standings,
    };
    let needed = size_of(s, layout, &rows, &mut marks);
    check_room(out.len(), needed)?;
    fill(out, s, layout, &rows, &marks);
    Ok(needed)
}

// Prints the line of a refused sheet.
// Kept: this and `print` both measure, check the room and lay. A function that takes the laying as
// a closure needs a longer contract than these lines.
#[tactic(auto, using(crate::proofs::Fits::runs_short, crate::proofs::Fits::runs_fits, crate::proofs::Lengths::refusal_length))]
fn print_refusal(out: &mut [u8], place: usize) -> Result<usize, Fault>
    ensures { Runs (refusal_line place) (panel_of result) out.old out.new }
{
    let needed = lines::refusal_line_to(&mut [], 0, place);
    check_room(out.len(), needed)?;
    lines::refusal_line_to(out, 0, place);
    Ok(needed)
}

// Runs a deposit sheet on a register and prints what document 01 says, each line ended by 0A.
#[tactic(auto, unfolding(crate::specs::Text::text_of))]
pub fn run_sheet(sheet: &[u8], out: &mut [u8]) -> Result<usize, Fault>
    ensures { Runs (text_of sheet.now) (panel_of result) out.old out.new }
{
    match layout::layout_of(sheet) {
        Ok(layout) => print(out, sheet, layout),
        Err(place) => print_refusal(out, place),
    }
}
