// The text of what was written in free gaps, line by line.
use crate::lines::Lines;
use fb_bgwrite::{SpillRun, spill_piece, spill_pieces};
use fb_report::Bytes;
use fb_units::NoMemory;
use std::alloc::Global;

/// The lines of the text of what was written in free gaps.
#[derive(Clone, Copy)]
pub struct SpillLines<'a> {
    /// What was written.
    pub spill: &'a SpillRun,
    /// The size of a sector in bytes, a multiple of 16.
    pub sector_bytes: u32,
    /// How the bytes that were written are shown.
    pub bytes: Bytes,
}

impl Lines for SpillLines<'_> {
    ghost use Rattle.std.specs.Prelude.{◌≡◌, ◌%◌};
    ghost use Rattle.std.specs.List.{AllByRecursion};
    ghost use Rattle.fb_bgwrite.specs.Text.{HasRange, spill_lines};
    ghost use Rattle.fb_report.specs.Grammar.{fore_grammar};

    ghost lines = { λ t. spill_lines t.sector_bytes t.bytes t.spill.now };

    ghost can_be_told = { λ t. (t.sector_bytes % 16 ≡ 0) × AllByRecursion HasRange t.spill.now.items };

    ghost grammar = { λ t. fore_grammar };

    // No reader reads this text.
    ghost can_be_read = { λ t. ⊥ };

    fn count(&self) -> u64 {
        spill_pieces(self.spill)
    }

    fn line(&self, alloc: Global, index: u64) -> Result<Vec<u8>, NoMemory> {
        spill_piece(alloc, self.spill, self.sector_bytes, self.bytes, index)
    }
}
