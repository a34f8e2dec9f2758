// The lines that a sheet prints: of a row, of an acknowledgement, of a refused sheet.
ghost use Rattle.std.specs.Prelude.{◌≡◌};
ghost use Rattle.answer.specs.Answers.{answered};
ghost use Rattle.text.specs.Printing.{Prints};
ghost use Rattle.sheet.specs.Lines.{field, standing_name, row_line, ack_line, refusal_line};

use answer::Asked;
use text::{byte_to, decimal_to, text_to};

// A space and a number.
fn field_to(out: &mut [u8], to: usize, n: u64) -> usize
    ensures { Prints (field n) to result out.old out.new }
{
    let here = byte_to(out, to, b' ');
    decimal_to(out, here, n)
}

// A space and a standing's name.
#[tactic(auto, unfolding(crate::specs::Lines::standing_name))]
fn standing_name(standing: u32) -> &'static [u8]
    ensures { result.now ≡ standing_name standing }
{
    match standing {
        0 => b" EMPTY",
        1 => b" BAD",
        2 => b" LOOP",
        3 => b" LEANS",
        _ => b" CLEAN",
    }
}

// The line of a row.
pub fn row_line_to(out: &mut [u8], to: usize, row: usize, asked: Asked) -> usize
    ensures { Prints (row_line row (answered asked)) to result out.old out.new }
{
    let named = decimal_to(out, to, row as u64);
    let stood = text_to(out, named, standing_name(asked.standing));
    let found = field_to(out, stood, asked.finding as u64);
    let placed = field_to(out, found, asked.place as u64);
    let marked = field_to(out, placed, asked.mark as u64);
    byte_to(out, marked, b'\n')
}

// The line of an acknowledgement: the row and the answer.
pub fn ack_line_to(out: &mut [u8], to: usize, row: u32, code: u32) -> usize
    ensures { Prints (ack_line row code) to result out.old out.new }
{
    let word = text_to(out, to, b"ack");
    let named = field_to(out, word, row as u64);
    let answered = field_to(out, named, code as u64);
    byte_to(out, answered, b'\n')
}

// The line of a refused sheet.
pub fn refusal_line_to(out: &mut [u8], to: usize, place: usize) -> usize
    ensures { Prints (refusal_line place) to result out.old out.new }
{
    let words = text_to(out, to, b"sheet refused at");
    let placed = field_to(out, words, place as u64);
    byte_to(out, placed, b'\n')
}
