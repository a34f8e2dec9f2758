// The register of an accepted sheet: opened with the sheet's counts, all blobs filed.
ghost use Rattle.std.specs.Prelude.{◌≡◌};
ghost use Rattle.layout.specs.Layout.{blobs_from};
ghost use Rattle.register.specs.Calls.{holding};
ghost use Rattle.sheet.specs.Filed.{file_all, register_of};

use layout::Layout;
use number::blob::blob_at;
use register::Register;

// Files the sheet's blobs, from row 1 on.
#[tactic(auto, using(layout::proofs::Lists::list_none, layout::proofs::Lists::list_cut), unfolding(crate::specs::Filed::file_all))]
fn file_all(register: &mut Register, sets: &mut [u32], s: &[u8], layout: Layout)
    ensures { holding register.new sets.new
        ≡ file_all (holding register.old sets.old) 1
        (blobs_from layout.rows s.now layout.starts.blobs) }
{
    let mut at = layout.starts.blobs;
    for i in 0..layout.rows as usize {
        let Ok(blob) = blob_at(s, at) else {
            return;
        };
        let start = blob.next - blob.value as usize;
        let _ = register.file(i + 1, &s[start..blob.next], sets);
        at = blob.next;
    }
}

// The register of an accepted sheet, with words that are lent for its sets.
#[tactic(auto, unfolding(crate::specs::Filed::register_of))]
pub fn register_of(sets: &mut [u32], s: &[u8], layout: Layout) -> Register
    ensures { holding result sets.new ≡ register_of s.now layout sets.old }
{
    let counts = layout::counts_of(s, layout);
    let (mut register, _) = Register::open(counts, sets);
    file_all(&mut register, sets, s, layout);
    register
}
