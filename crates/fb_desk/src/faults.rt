// Counts of failed calls.
ghost use Rattle.std.specs.Prelude.{◌≡◌, ◌≢◌, ◌≤◌};
ghost use Rattle.fb_desk.specs.Each.{of_input, of_output};
ghost use Rattle.fb_desk.specs.Calls.{one_more};
ghost use Rattle.fb_desk.specs.declared.desk.Input.{Input};
ghost use Rattle.fb_desk.specs.declared.desk.Output.{Output};

use crate::each::{EachInput, EachOutput};
use crate::{Failed, Input, Output};

/// How many calls of each input and of each output failed. A count stops at the last value of a
/// u64.
#[derive(Drop)]
pub struct Faults {
    /// How many calls of each input failed.
    pub inputs: EachInput<u64>,
    /// How many calls of each output failed.
    pub outputs: EachOutput<u64>,
}

impl Faults {
    /// No call has failed.
    pub fn none() -> Faults
        ensures inputs { (which : Input) → of_input result.inputs which ≡ 0 }
        ensures outputs { (which : Output) → of_output result.outputs which ≡ 0 }
    {
        Faults {
            inputs: EachInput::all(0),
            outputs: EachOutput::all(0),
        }
    }

    /// Counts a failed call of an input.
    pub fn failed_input(&mut self, which: Input) -> Failed
        ensures here { of_input self.new.inputs which ≡ one_more (of_input self.old.inputs which) }
        ensures later { of_input self.old.inputs which ≤ of_input self.new.inputs which }
        ensures others { (other : Input) → other ≢ which
            → of_input self.new.inputs other ≡ of_input self.old.inputs other }
        ensures outputs { self.new.outputs ≡ self.old.outputs }
    {
        let faults = self.inputs.of_mut(which);
        *faults = faults.saturating_add(1);
        Failed
    }

    /// Counts a failed call of an output.
    pub fn failed_output(&mut self, which: Output) -> Failed
        ensures here { of_output self.new.outputs which ≡ one_more (of_output self.old.outputs which) }
        ensures later { of_output self.old.outputs which ≤ of_output self.new.outputs which }
        ensures others { (other : Output) → other ≢ which
            → of_output self.new.outputs other ≡ of_output self.old.outputs other }
        ensures inputs { self.new.inputs ≡ self.old.inputs }
    {
        let faults = self.outputs.of_mut(which);
        *faults = faults.saturating_add(1);
        Failed
    }
}
