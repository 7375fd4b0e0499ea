// Texts that are made line by line.
ghost use Rattle.std.specs.Prelude.{◌≡◌, ℕ, ◌<◌, ◌≤◌, List, Some, length, slice_get, IfOk};
ghost use Rattle.fb_report.specs.Grammar.{Grammar};
ghost use Rattle.fb_report.specs.Printed.{IsLine, is_in_place};
ghost use Rattle.fb_streams.specs.Called.{EndsLine};

use fb_report::{Bytes, back_piece, back_pieces, fore_piece, fore_pieces};
use fb_rows::Run;
use fb_script::Names;
use fb_units::NoMemory;
use std::alloc::Global;

/// A text in lines, each of which is made only when it is asked for.
pub trait Lines {
    /// The lines in order.
    ghost lines: { Self → List (List ℕ) };

    /// What must hold so that each line can be made.
    ghost can_be_told: { Self → Type 0 };

    /// The grammar of the text.
    ghost grammar: { Self → Grammar };

    /// What must hold so that each line is in its place by the grammar.
    ghost can_be_read: { Self → Type 0 };

    /// How many lines there are; a first and a last are among them.
    fn count(&self) -> u64
        requires told { can_be_told self.now }
        ensures value { result ≡ length (lines self.now) }
        ensures ends { 2 ≤ result };

    /// The line at this index, counted from 0, with its line feed.
    ///
    /// The only error is out of memory.
    fn line(&self, alloc: Global, index: u64) -> Result<Vec<u8>, NoMemory>
        requires told { can_be_told self.now }
        requires inside { index < length (lines self.now) }
        ensures value { IfOk result (λ line. slice_get (lines self.now) index ≡ Some line.items) }
        ensures ends { IfOk result (λ line. EndsLine line.items) }
        ensures form { IfOk result
            (λ line. can_be_read self.now → IsLine (is_in_place (grammar self.now) (length (lines self.now)) index) line.items) };
}

/// The lines of the foreground report.
#[derive(Clone, Copy)]
pub struct ForeLines<'a> {
    /// The run that the report tells of.
    pub run: &'a Run,
    /// The size of a sector in bytes, a multiple of 16.
    pub sector_bytes: u32,
    /// How the bytes of reads are shown.
    pub bytes: Bytes,
}

impl Lines for ForeLines<'_> {
    ghost use Rattle.std.specs.Prelude.{◌≡◌, ◌%◌, ◌<◌};
    ghost use Rattle.std.specs.List.{AllByRecursion};
    ghost use Rattle.fb_report.specs.Fore.{fore_lines};
    ghost use Rattle.fb_report.specs.Grammar.{fore_grammar};
    ghost use Rattle.fb_report.specs.Printed.{ReadsSectors};

    ghost lines = { λ t. fore_lines t.sector_bytes t.bytes t.run.now };

    ghost can_be_told = { λ t. t.sector_bytes % 16 ≡ 0 };

    ghost grammar = { λ t. fore_grammar };

    ghost can_be_read = { λ t. (0 < t.sector_bytes) × AllByRecursion ReadsSectors t.run.now.fore };

    fn count(&self) -> u64 {
        fore_pieces(self.run)
    }

    fn line(&self, alloc: Global, index: u64) -> Result<Vec<u8>, NoMemory> {
        fore_piece(alloc, self.run, self.sector_bytes, self.bytes, index)
    }
}

/// The lines of the background report.
#[derive(Clone, Copy)]
pub struct BackLines<'a> {
    /// The run that the report tells of.
    pub run: &'a Run,
    /// The names of the tasks, in order of opening.
    pub names: &'a Names,
    /// The size of a sector in bytes, a multiple of 16.
    pub sector_bytes: u32,
    /// How the bytes of deliveries are shown.
    pub bytes: Bytes,
}

impl Lines for BackLines<'_> {
    ghost use Rattle.std.specs.Prelude.{◌≡◌, ◌%◌, ◌<◌};
    ghost use Rattle.std.specs.List.{AllByRecursion};
    ghost use Rattle.fb_rows.specs.Tasks.{HasTaskBelow};
    ghost use Rattle.fb_report.specs.Back.{back_lines};
    ghost use Rattle.fb_report.specs.Grammar.{back_grammar};
    ghost use Rattle.fb_report.specs.Printed.{AreNames, CountsSectors};

    ghost lines = { λ t. back_lines t.names.now t.sector_bytes t.bytes t.run.now };

    ghost can_be_told = { λ t. (t.sector_bytes % 16 ≡ 0) × AllByRecursion (HasTaskBelow (length t.names.now)) t.run.now.back };

    ghost grammar = { λ t. back_grammar };

    ghost can_be_read = { λ t. (0 < t.sector_bytes) × AreNames t.names.now × AllByRecursion CountsSectors t.run.now.back };

    fn count(&self) -> u64 {
        back_pieces(self.run)
    }

    fn line(&self, alloc: Global, index: u64) -> Result<Vec<u8>, NoMemory> {
        back_piece(
            alloc,
            self.run,
            self.names,
            self.sector_bytes,
            self.bytes,
            index,
        )
    }
}
