// Why inputs are not all accepted.
use fb_calls::CallsFault;
use fb_desk::Input;
use fb_params::ParamsFault;
use fb_puts::PutsFault;
use fb_report::ReportsFault;
use fb_trace::TraceFault;

/// Why the inputs of a command are not all accepted: what is wrong with the first that isn't.
#[derive(Drop)]
pub enum InputsError {
    /// The parameter file is refused.
    Params(ParamsFault),
    /// The trace is refused.
    Trace(TraceFault),
    /// The call script is refused.
    Calls(CallsFault),
    /// The puts file is refused.
    Puts(PutsFault),
    /// A printed report is refused: a line of it isn't in its place.
    Reports(ReportsFault),
    /// The input has more bytes than its limit.
    TooLong(Input),
    /// A call that reads the input failed.
    ReadFault(Input),
    /// Out of memory.
    NoMemory,
}
