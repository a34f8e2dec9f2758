// Acknowledging by standings that are known: what each acknowledgement answers, and the marks
// afterwards.
ghost use Rattle.std.specs.Prelude.{◌≡◌};
ghost use Rattle.answer.specs.Answers.{number_in};
ghost use Rattle.layout.specs.Layout.{acks_from};
ghost use Rattle.text.specs.Printing.{Prints};
ghost use Rattle.sheet.specs.Acks.{ack_row_code, ack_row_marks, acks_by, acked_marks};

use crate::lines::ack_line_to;
use crate::rows::Rows;
use answer::refusal::Refusal;
use answer::{check_acknowledgement, check_row, number_in};
use layout::Layout;
use number::checked::checked_at;
use register::MAX_SIZE;

impl Rows {
    // Marks a row, or answers why not.
    #[tactic(auto, using(answer::proofs::Admits::row_ok, answer::proofs::Numbers::not_done), unfolding(crate::specs::Acks::ack_row_code, crate::specs::Acks::ack_row_marks))]
    fn acknowledge(&self, marks: &mut [u8; MAX_SIZE], row: u32) -> Result<(), Refusal>
        ensures code { number_in result
            ≡ ack_row_code self.now.standings self.now.register.counts.specs marks.old row }
        ensures marks_after { marks.new
            ≡ ack_row_marks self.now.standings self.now.register.counts.specs marks.old row }
    {
        let row = row as usize;
        check_row(self.count(), row)?;
        let i = row - 1;
        check_acknowledgement(self.standings[i], marks[i])?;
        marks[i] = 1;
        Ok(())
    }

    // The lines of the sheet's acknowledgements, each of which may mark its row.
    #[tactic(auto, using(layout::proofs::Lists::list_none, layout::proofs::Lists::list_cut, text::proofs::Laying::prints_none), unfolding(crate::specs::Acks::acks_by, crate::specs::Acks::acked_marks))]
    pub fn acks_to(
        &self,
        out: &mut [u8],
        to: usize,
        s: &[u8],
        layout: Layout,
        marks: &mut [u8; MAX_SIZE],
    ) -> usize
        ensures prints { Prints
            (acks_by self.now.standings self.now.register.counts.specs marks.old
            (acks_from layout.acknowledged s.now layout.starts.acks))
            to result out.old out.new }
        ensures marks_after { marks.new
            ≡ acked_marks self.now.standings self.now.register.counts.specs marks.old
            (acks_from layout.acknowledged s.now layout.starts.acks) }
    {
        let mut at = layout.starts.acks;
        let mut here = to;
        for _ in 0..layout.acknowledged {
            let Ok(row) = checked_at(s, at) else {
                return here;
            };
            let told = self.acknowledge(marks, row.value);
            here = ack_line_to(out, here, row.value, number_in(&told));
            at = row.next;
        }
        here
    }
}
