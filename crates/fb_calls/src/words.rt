// The words for verbs and kinds.
ghost use Rattle.std.specs.Prelude.{◌≡◌, map};
ghost use Rattle.fb_calls.specs.Words.{verb_of, kind_of, fields_behind, meaning};

use fb_script::Kind;

/// The verb of a call.
#[derive(Clone, Copy, PartialEq, Eq)]
pub enum Verb {
    /// Opens a task.
    Open,
    /// Wants a range of sectors.
    Want,
    /// Aborts the blocks of a range.
    Abort,
    /// Reads a range in the foreground.
    Promote,
    /// Suspends the task.
    Suspend,
    /// Resumes the task.
    Resume,
    /// Closes the task.
    Close,
    /// Adds a log segment.
    Segment,
}

// The words for the verbs.
const VERBS: &[(&[u8], Verb)] = &[
    (b"open", Verb::Open),
    (b"want", Verb::Want),
    (b"abort", Verb::Abort),
    (b"promote", Verb::Promote),
    (b"suspend", Verb::Suspend),
    (b"resume", Verb::Resume),
    (b"close", Verb::Close),
    (b"segment", Verb::Segment),
];

// The words for the kinds of tasks.
const KINDS: &[(&[u8], Kind)] = &[
    (b"plain", Kind::Plain),
    (b"backup", Kind::Backup),
    (b"scrub", Kind::Scrub),
    (b"clean", Kind::Clean),
];

/// The verb for which a word stands, if it is known.
#[tactic(auto, unfolding(crate::specs::Words::verb_of))]
pub fn verb_of(name: &[u8]) -> Option<Verb>
    ensures { result ≡ verb_of name.now }
{
    meaning(VERBS, name)
}

/// The kind of task for which a word stands, if it is known.
#[tactic(auto, unfolding(crate::specs::Words::kind_of))]
pub fn kind_of(name: &[u8]) -> Option<Kind>
    ensures { result ≡ kind_of name.now }
{
    meaning(KINDS, name)
}

// What a word stands for according to these words, if it is one of them.
fn meaning<T: Copy>(names: &[(&[u8], T)], word: &[u8]) -> Option<T>
    ensures { result ≡ meaning (map (λ name. (name.0.now, name.1)) names.now) word.now }
{
    for (name, meant) in names {
        if *name == word {
            return Some(*meant);
        }
    }
    None
}

/// How many fields follow the name of the task.
pub fn fields_behind(verb: Verb) -> usize
    ensures { result ≡ fields_behind verb }
{
    match verb {
        Verb::Open => 3,
        Verb::Want | Verb::Abort | Verb::Promote => 2,
        Verb::Suspend | Verb::Resume | Verb::Close => 0,
        Verb::Segment => 4,
    }
}
