// Where the foreground requests of a replay are kept.
ghost use Rattle.std.specs.Prelude.{◌≡◌};
ghost use Rattle.fb_decide.specs.Kept.{kept_items};

use fb_units::Request;
use std::marker::Model;

// The list itself.
#[derive(Drop)]
pub enum Kept<'a> {
    // Requests of the trace, where it keeps them.
    Traced(&'a [Request]),
    // Requests of the trace among reads that calls promote.
    Merged(Vec<Request>),
}

/// The foreground requests of a replay, in order of arrival.
///
/// Where calls promote no read these are the trace's own, and nothing is copied.
#[derive(Drop)]
pub struct Requests<'a> {
    kept: Kept<'a>,
}

impl<'a> Model for Requests<'a> {
    ghost use Rattle.std.specs.Prelude.{List};
    ghost use Rattle.fb_units.specs.declared.types.Request.{Request};
    ghost use Rattle.fb_decide.specs.Kept.{kept_items};

    ghost Value = { List Request };

    ghost view = { λ r. kept_items r.kept };
}

impl<'a> Requests<'a> {
    /// The requests of a trace alone.
    pub fn traced(requests: &'a [Request]) -> Requests<'a>
        ensures { result ≡ requests.now }
    {
        Requests {
            kept: Kept::Traced(requests),
        }
    }

    /// A list of its own.
    pub fn merged(requests: Vec<Request>) -> Requests<'a>
        ensures { result ≡ requests.items }
    {
        Requests {
            kept: Kept::Merged(requests),
        }
    }

    /// All of them.
    pub fn as_slice(&self) -> &[Request]
        ensures value { result.now ≡ self.now }
    {
        match &self.kept {
            Kept::Traced(requests) => requests,
            Kept::Merged(requests) => requests.as_slice(),
        }
    }
}
