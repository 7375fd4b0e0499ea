//! A judge of printed reports.
//!
//! Whoever has two printed reports, whatever program printed them, can have them judged. Its
//! contract gives the layer above a verdict: yes says that the reports are the texts of the full
//! run of the inputs; no names the first line that is wrong, the first field in it, and the rule
//! that the due line keeps. It makes one decision after another (`fb_decide`) and holds no whole
//! run. It promises nothing of the time that it takes.
#![tactic(auto)]

mod comparing;
mod fields;
mod judging;
mod lines;
mod printing;
mod verdict;

pub use judging::{Printed, judge, judge_printed};
pub use lines::PrintedLines;
pub use printing::{runs_can_be_printed, scripts_name_tasks};
pub use verdict::{Mismatch, Rule, Verdict};
