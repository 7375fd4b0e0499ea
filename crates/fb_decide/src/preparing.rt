// What happens at a decision before the head acts: calls take effect, and each task that was touched
// chooses segments and is tested, which would change nothing for any other.
ghost use Rattle.std.specs.Prelude.{◌≡◌, ◌+◌, ◌≤◌, ◌<◌, length, IfOk, OnOk, IfSome, slice_get};
ghost use Rattle.std.specs.List.{fold};
ghost use Rattle.fb_model.specs.History.{Past};
ghost use Rattle.fb_model.specs.Steps.{take_call, calls_due};
ghost use Rattle.fb_tasks.specs.Telling.{Tells};
ghost use Rattle.fb_decide.specs.Calls.{IsScriptOf, IsCalled, HasPrepared};

use crate::background::Background;
use fb_script::Calls;
use fb_service::Disk;
use fb_units::{NoMemory, Ns};

impl Background {
    // Lets the calls up to now take effect; returns how many calls have taken effect by then.
    fn apply_calls(
        &mut self,
        disk: &Disk,
        calls: &Calls,
        next: usize,
        now: Ns,
    ) -> Result<usize, NoMemory>
        requires script { IsScriptOf disk.now.map calls.now.calls.items }
        requires called { (past : Past) × IsCalled disk.now.map calls.now.calls.items past next
            × Tells disk.now.map past self.old.sessions self.old.blocks }
        ensures tells { OnOk result ((past : Past) → IsCalled disk.now.map calls.now.calls.items past next
            → Tells disk.now.map past self.old.sessions self.old.blocks
            → Tells disk.now.map (fold (take_call disk.now.map) past (calls_due calls.now.calls.items past now)) self.new.sessions
            self.new.blocks) }
        ensures called { IfOk result (λ later. (past : Past) → IsCalled disk.now.map calls.now.calls.items past next
            → Tells disk.now.map past self.old.sessions self.old.blocks
            → IsCalled disk.now.map calls.now.calls.items
            (fold (take_call disk.now.map) past (calls_due calls.now.calls.items past now)) later) }
        ensures ahead { IfOk result (λ later. IfSome (slice_get calls.now.calls.items later) (λ call. now < call.instant)) }
        ensures rows { OnOk result (self.new.rows ≡ self.old.rows) }
    {
        let mut next = next;
        while next < calls.calls.len() && calls.calls[next].instant <= now {
            self.sessions
                .apply(&disk.map, &mut self.blocks, &calls.calls[next])?;
            next += 1;
        }
        Ok(next)
    }

    /// Lets the calls up to now take effect; then each task that was touched chooses segments and is
    /// tested.
    ///
    /// Returns how many calls have taken effect by then. The only error is out of memory.
    pub fn prepare(
        &mut self,
        disk: &Disk,
        calls: &Calls,
        next: usize,
        now: Ns,
    ) -> Result<usize, NoMemory>
        requires script { IsScriptOf disk.now.map calls.now.calls.items }
        requires called { (past : Past) × IsCalled disk.now.map calls.now.calls.items past next
            × Tells disk.now.map past self.old.sessions self.old.blocks }
        ensures { IfOk result (λ later. (past : Past) → IsCalled disk.now.map calls.now.calls.items past next
            → Tells disk.now.map past self.old.sessions self.old.blocks
            → HasPrepared disk.now.map calls.now.calls.items past now later self.old.rows self.new) }
    {
        let next = self.apply_calls(disk, calls, next, now)?;
        self.sessions
            .settle(&disk.map, &mut self.blocks, now, &mut self.rows)?;
        Ok(next)
    }
}
