// One value for each input, and one for each output.
ghost use Rattle.std.specs.Prelude.{◌≡◌};
ghost use Rattle.std.specs.Borrow.{sem};
ghost use Rattle.fb_desk.specs.declared.desk.Input.{Input};
ghost use Rattle.fb_desk.specs.declared.desk.Output.{Output};
ghost use Rattle.fb_desk.specs.Each.{of_input, lends_input, of_output, lends_output};

use crate::{Input, Output};

/// One value for each input.
#[derive(Drop)]
pub struct EachInput<T> {
    /// That of the parameter file.
    pub params: T,
    /// That of the trace.
    pub trace: T,
    /// That of the call script.
    pub calls: T,
    /// That of the file of background writes.
    pub puts: T,
    /// That of the printed foreground report.
    pub fore_report: T,
    /// That of the printed background report.
    pub back_report: T,
}

impl<T: Copy> EachInput<T> {
    /// The same value for each input.
    pub fn all(thing: T) -> EachInput<T>
        ensures { (which : Input) → of_input result which ≡ thing }
    {
        EachInput {
            params: thing,
            trace: thing,
            calls: thing,
            puts: thing,
            fore_report: thing,
            back_report: thing,
        }
    }
}

impl<T> EachInput<T> {
    /// The value of an input.
    pub fn of(&self, which: Input) -> &T
        ensures { result.now ≡ of_input self.now which }
    {
        match which {
            Input::Params => &self.params,
            Input::Trace => &self.trace,
            Input::Calls => &self.calls,
            Input::Puts => &self.puts,
            Input::ForeReport => &self.fore_report,
            Input::BackReport => &self.back_report,
        }
    }

    /// The value of an input, to be changed.
    pub fn of_mut(&mut self, which: Input) -> &mut T
        ensures* writes_back { sem 𝓛 (lends_input T.row self.entry which result) }
        ensures value { result.now ≡ of_input self.old which }
    {
        match which {
            Input::Params => &mut self.params,
            Input::Trace => &mut self.trace,
            Input::Calls => &mut self.calls,
            Input::Puts => &mut self.puts,
            Input::ForeReport => &mut self.fore_report,
            Input::BackReport => &mut self.back_report,
        }
    }
}

/// One value for each output.
#[derive(Drop)]
pub struct EachOutput<T> {
    /// That of the foreground report, or the summary.
    pub fore: T,
    /// That of the background report.
    pub back: T,
    /// That of the text of what was written in free gaps.
    pub spill: T,
    /// That of the note.
    pub note: T,
    /// That of the generated trace.
    pub made_trace: T,
    /// That of the generated call script.
    pub made_calls: T,
    /// That of the text of the replacement of a lost disk.
    pub copied: T,
}

impl<T: Copy> EachOutput<T> {
    /// The same value for each output.
    pub fn all(thing: T) -> EachOutput<T>
        ensures { (which : Output) → of_output result which ≡ thing }
    {
        EachOutput {
            fore: thing,
            back: thing,
            spill: thing,
            note: thing,
            made_trace: thing,
            made_calls: thing,
            copied: thing,
        }
    }
}

impl<T> EachOutput<T> {
    /// The value of an output.
    pub fn of(&self, which: Output) -> &T
        ensures { result.now ≡ of_output self.now which }
    {
        match which {
            Output::Fore => &self.fore,
            Output::Back => &self.back,
            Output::Spill => &self.spill,
            Output::Note => &self.note,
            Output::MadeTrace => &self.made_trace,
            Output::MadeCalls => &self.made_calls,
            Output::Copied => &self.copied,
        }
    }

    /// The value of an output, to be changed.
    pub fn of_mut(&mut self, which: Output) -> &mut T
        ensures* writes_back { sem 𝓛 (lends_output T.row self.entry which result) }
        ensures value { result.now ≡ of_output self.old which }
    {
        match which {
            Output::Fore => &mut self.fore,
            Output::Back => &mut self.back,
            Output::Spill => &mut self.spill,
            Output::Note => &mut self.note,
            Output::MadeTrace => &mut self.made_trace,
            Output::MadeCalls => &mut self.made_calls,
            Output::Copied => &mut self.copied,
        }
    }
}
