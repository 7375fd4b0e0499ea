// Calls that are to fail.
ghost use Rattle.std.specs.Prelude.{◌≡◌, [], ◌∷◌, ◌++◌, OnOk, OnErr};
ghost use Rattle.fb_desk.specs.Calls.{one_more};
ghost use Rattle.fb_desk.specs.FailingCalls.{FailingNumbers, fails_next};

use fb_units::NoMemory;
use std::alloc::Global;
use std::marker::Model;

/// Which calls are to fail, by their numbers from 1, and how many calls were made.
#[derive(Drop)]
pub struct FailingCalls {
    numbers: Vec<u64>,
    made: u64,
}

impl Model for FailingCalls {
    ghost use Rattle.fb_desk.specs.FailingCalls.{FailingNumbers};

    ghost Value = { FailingNumbers };

    ghost view = { λ f. record { numbers = f.numbers.items; made = f.made } };
}

impl FailingCalls {
    /// No call is to fail, and none was made.
    pub fn new(alloc: Global) -> FailingCalls
        ensures { result ≡ record { numbers = []; made = 0 } }
    {
        FailingCalls {
            numbers: Vec::new(alloc),
            made: 0,
        }
    }

    /// Adds the number of a call that is to fail, from 1. Out of memory, it returns `NoMemory` and
    /// nothing has changed.
    pub fn add(&mut self, number: u64) -> Result<(), NoMemory>
        ensures ok { OnOk result
            (self.new ≡ record self.old { numbers = self.old.numbers ++ number ∷ [] }) }
        ensures err { OnErr result (self.new ≡ self.old) }
    {
        self.numbers.push(number)?;
        Ok(())
    }

    /// Counts a call, and returns whether it is to fail. The count stops at the last value of a
    /// u64.
    pub fn next(&mut self) -> bool
        ensures fails { result ≡ fails_next self.old }
        ensures counted { self.new ≡ record self.old { made = one_more self.old.made } }
    {
        // Whether one of the numbers is that of the call that is being made.
        let fails = self
            .numbers
            .iter()
            .any(|number| number.checked_sub(self.made) == Some(1));
        self.made = self.made.saturating_add(1);
        fails
    }
}
