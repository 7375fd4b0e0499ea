// The grammars of the two reports.
ghost use Rattle.std.specs.Prelude.{◌≡◌, [], map, MatchOption};
ghost use Rattle.std.specs.List.{list_any};
ghost use Rattle.fb_report.specs.Forms.{fields_left, fits, grammar_of, listed, written};
ghost use Rattle.fb_report.specs.Grammar.{have_forms, may_end, may_follow, report_fields};

use crate::TextLines;
use crate::forms::Form::{self, Bytes, Number, OneOf, Request, Task, Track, Word};
use crate::forms::split_once;
use fb_desk::Input;

/// The forms of the lines of a report.
#[derive(Clone, Copy)]
pub struct Table {
    /// The first line.
    pub first: &'static [Form],
    /// The lines that may stand between.
    pub rows: &'static [&'static [Form]],
    /// The last line.
    pub last: &'static [Form],
}

const FORE: Table = Table {
    first: &[Word(b"freeblock"), Word(b"fore"), Word(b"1")],
    rows: &[
        &[
            Request,
            Word(b"R"),
            Number,
            Number,
            Number,
            Number,
            Number,
            Number,
            Number,
            Bytes,
        ],
        &[
            Request,
            Word(b"W"),
            Number,
            Number,
            Number,
            Number,
            Number,
            Number,
            Word(b"0"),
            Word(b"-"),
        ],
    ],
    last: &[Word(b"end"), Number, Number],
};

const BACK: Table = Table {
    first: &[Word(b"freeblock"), Word(b"back"), Word(b"1")],
    rows: &[
        &[
            Word(b"gap"),
            Request,
            Track,
            Track,
            Number,
            Number,
            Word(b"direct"),
            Number,
        ],
        &[
            Word(b"gap"),
            Request,
            Track,
            Track,
            Number,
            Number,
            Word(b"detour"),
            Track,
            Number,
        ],
        &[Word(b"idle"), Track, Number, Number],
        &[
            Word(b"got"),
            Task,
            Number,
            Number,
            Number,
            Number,
            Number,
            OneOf(&[b"gap", b"idle", b"ride"]),
            Number,
            Bytes,
        ],
        &[Word(b"bad"), Task, Number],
        &[Word(b"seal"), Task, Number, Number, Bytes],
        &[Word(b"seg"), Task, Number, Number, Number, Bytes],
        &[Word(b"done"), Task, Number],
        &[
            Word(b"task"),
            Task,
            OneOf(&[b"plain", b"backup", b"scrub", b"clean"]),
            Number,
            Number,
            Number,
            Number,
            OneOf(&[b"complete", b"open"]),
        ],
    ],
    last: &[Word(b"end"), Number],
};

/// The forms of the lines of this report.
pub fn table_of(report: Input) -> Table
    ensures { written result ≡ grammar_of report }
{
    match report {
        Input::ForeReport => FORE,
        _ => BACK,
    }
}

impl Table {
    /// Whether a line may stand behind these lines of a report, and isn't the last one.
    pub fn may_follow(&self, lines: &TextLines<'_>, line: &[u8]) -> bool
        ensures { result ≡ may_follow (written self.now) lines.now (report_fields line.now) }
    {
        let fields = Fields::of(line);
        if lines.len() == 0 {
            fields.have_forms(self.first)
        } else {
            fields.are_row(self.rows)
        }
    }

    /// Whether a line may end a report that begins with these lines.
    pub fn may_end(&self, lines: &TextLines<'_>, line: &[u8]) -> bool
        ensures { result ≡ may_end (written self.now) lines.now (report_fields line.now) }
    {
        lines.len() > 0 && Fields::of(line).have_forms(self.last)
    }
}

// The first field of a line, and what stands behind the space that ends it.
#[derive(Clone, Copy)]
struct Fields<'a> {
    first: &'a [u8],
    rest: Option<&'a [u8]>,
}

impl<'a> Fields<'a> {
    fn of(line: &'a [u8]) -> Fields<'a>
        ensures { listed result ≡ report_fields line.now }
    {
        match split_once(line, b' ') {
            Some((first, rest)) => Fields {
                first,
                rest: Some(rest),
            },
            None => Fields {
                first: line,
                rest: None,
            },
        }
    }

    // The fields behind the first one.
    fn behind(self) -> Option<Fields<'a>>
        ensures { MatchOption result (fields_left self.entry.rest ≡ []) (λ fields. fields_left self.entry.rest ≡ listed fields) }
    {
        match self.rest {
            Some(rest) => Some(Fields::of(rest)),
            None => None,
        }
    }

    // Whether these fields are what the forms ask for, one for each.
    #[tactic(auto, using(crate::proofs::Rows::too_few, crate::proofs::Cuts::listed_left))]
    fn have_forms(self, forms: &[Form]) -> bool
        ensures { result ≡ have_forms (map fits forms.now) (listed self.entry) }
    {
        let mut left = Some(self);
        for form in forms {
            let Some(fields) = left else {
                return false;
            };
            if !form.fits(fields.first) {
                return false;
            }
            left = fields.behind();
        }
        left.is_none()
    }

    // Whether these fields are what one of the rows asks for.
    fn are_row(self, rows: &[&[Form]]) -> bool
        ensures { result ≡ list_any (λ row. have_forms (map fits row.now) (listed self.entry)) rows.now }
    {
        rows.iter().any(|row| self.have_forms(row))
    }
}
