// The sections of a deposit sheet: whether it is one, and where its items stand.
#![tactic(auto)]

ghost use Rattle.std.specs.Prelude.{◌≡◌};
ghost use Rattle.layout.specs.Layout.{section_count, item_at, note_of, sections_of, layout_of, counts_of};

use answer::MAX_SIZE;
use answer::refusal::Refusal;
use grammar::MAX_ROWS;
use number::Number;
use number::blob::blob_at;
use number::checked::{checked_at, count_at};
use number::token::{Counts, no_counts, row_counts};

// The most bytes of a sheet.
pub const MAX_SHEET: usize = 65536;

// What a sheet lists: its table counts, its blobs and its acknowledgements.
#[derive(Clone, Copy, Debug, PartialEq, Eq)]
enum Section {
    Counts,
    Blobs,
    Acks,
}

// The sections in their order.
const SECTIONS: [Section; 3] = [Section::Counts, Section::Blobs, Section::Acks];

// The offsets at which the items of each section begin.
#[derive(Clone, Copy, Debug, Default, PartialEq, Eq)]
pub struct Starts {
    pub counts: usize,
    pub blobs: usize,
    pub acks: usize,
}

// Where the items begin, how many blobs there are, which is the number of rows, and how many acknowledgements.
#[derive(Clone, Copy, Debug, Default, PartialEq, Eq)]
pub struct Layout {
    pub starts: Starts,
    pub rows: u32,
    pub acknowledged: u32,
}

// The count of a section.
#[tactic(auto, unfolding(crate::specs::Layout::section_count))]
fn section_count(s: &[u8], section: Section, at: usize) -> Result<Number, Refusal>
    ensures { result ≡ section_count section s.now at }
{
    match section {
        Section::Counts => count_at(s, at, 2, 2),
        Section::Blobs => count_at(s, at, 1, MAX_SIZE as u32),
        Section::Acks => checked_at(s, at),
    }
}

// An item of a section: its number and the offset after it.
#[tactic(auto, unfolding(crate::specs::Layout::item_at))]
fn item_at(s: &[u8], section: Section, at: usize) -> Result<Number, Refusal>
    ensures { result ≡ item_at section s.now at }
{
    match section {
        Section::Counts => count_at(s, at, 0, MAX_ROWS),
        Section::Blobs => blob_at(s, at),
        Section::Acks => checked_at(s, at),
    }
}

// Notes where the items of a section begin, and how many there are.
#[tactic(auto, unfolding(crate::specs::Layout::note_of))]
fn note(layout: Layout, section: Section, count: Number) -> Layout
    ensures { result ≡ note_of section count.value count.next layout }
{
    let mut l = layout;
    match section {
        Section::Counts => l.starts.counts = count.next,
        Section::Blobs => {
            l.starts.blobs = count.next;
            l.rows = count.value;
        }
        Section::Acks => {
            l.starts.acks = count.next;
            l.acknowledged = count.value;
        }
    }
    l
}

// Reads the sections in their order. Kept: two loops in one function, since a label leaves both with the place of the first fault
// (docs/DECISIONS.md).
fn sections_of(s: &[u8]) -> Result<Layout, usize>
    ensures { result ≡ sections_of s.now }
{
    let mut layout = Layout::default();
    let mut at = 0;
    let place = 'sheet: {
        for section in SECTIONS {
            match section_count(s, section, at) {
                Ok(count) => {
                    layout = note(layout, section, count);
                    at = count.next;
                    for _ in 0..count.value {
                        match item_at(s, section, at) {
                            Ok(item) => at = item.next,
                            Err(_) => break 'sheet at,
                        }
                    }
                }
                Err(_) => break 'sheet at,
            }
        }
        if at < s.len() {
            break 'sheet at;
        }
        return Ok(layout);
    };
    Err(place)
}

// The layout of a sheet, or the place of its first fault.
#[tactic(auto, unfolding(crate::specs::Layout::layout_of))]
pub fn layout_of(s: &[u8]) -> Result<Layout, usize>
    ensures { result ≡ layout_of s.now }
{
    if MAX_SHEET < s.len() {
        return Err(MAX_SHEET);
    }
    sections_of(s)
}

// The table counts of an accepted sheet.
#[tactic(auto, unfolding(crate::specs::Layout::counts_of))]
pub fn counts_of(s: &[u8], layout: Layout) -> Counts
    ensures { result ≡ counts_of s.now layout }
{
    if let Ok(defs) = checked_at(s, layout.starts.counts)
        && let Ok(refs) = checked_at(s, defs.next)
    {
        return row_counts(defs.value, refs.value, layout.rows);
    }
    no_counts()
}
