//! Small runs worked out by hand, which the definitions of `fb_model` give as well.
//!
//! Nothing here runs. Each function's contract says what the definitions give for disks of four
//! cylinders and two heads, and its proof is the computation. They show that the definitions mean
//! what they should; no other layer takes anything from them.
#![tactic(auto)]

mod accepted;
mod backups;
mod cleaning;
mod foreground;
mod gaps;
mod idle;
mod known;
mod made;
mod passages;
mod sessions;
mod written;
mod wrong;

pub use accepted::accepted_inputs;
pub use backups::worked_backups;
pub use cleaning::worked_segments;
pub use foreground::foreground_texts;
pub use gaps::worked_gaps;
pub use idle::worked_dwells;
pub use known::runs_known_in_part;
pub use made::made_runs;
pub use passages::worked_passages;
pub use sessions::worked_sessions;
pub use written::worked_contents;
pub use wrong::{wrong_plans, wrong_runs};
