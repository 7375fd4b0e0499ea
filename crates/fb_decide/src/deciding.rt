// A replay, one decision after another.
ghost use Rattle.std.specs.Prelude.{◌≡◌, ℕ, ◌-◌, ◌*◌, ◌<◌, ◌≤◌, ◌^◌, ◌++◌, List, [], Bool, true, false, length, Some, IfOk, OnOk};
ghost use Rattle.std.specs.Prelude.{slice_get};
ghost use Rattle.std.specs.List.{AllByRecursion};
ghost use Rattle.fb_geometry.specs.Shape.{IsTrackOf};
ghost use Rattle.fb_script.specs.Allowed.{tasks};
ghost use Rattle.fb_model.specs.Inputs.{Inputs};
ghost use Rattle.fb_model.specs.Accepted.{IsAccepted, IsRequestOf};
ghost use Rattle.fb_model.specs.Decisions.{decisions, run_end};
ghost use Rattle.fb_model.specs.History.{Past};
ghost use Rattle.fb_model.specs.Steps.{Step, history, task_rows};
ghost use Rattle.fb_model.specs.PlainReplay.{first_least};
ghost use Rattle.fb_tasks.specs.Telling.{Tells};
ghost use Rattle.fb_decide.specs.RunInputs.{inputs_of};
ghost use Rattle.fb_decide.specs.RunState.{state_by, state_of};
ghost use Rattle.fb_decide.specs.Waiting.{IsWaiting};
ghost use Rattle.fb_decide.specs.Calls.{IsCalled};
ghost use Rattle.fb_decide.specs.Deliveries.{TellsUpToDate};
ghost use Rattle.fb_decide.specs.Deciding.{IsInitial, MayDecide, next_of, HasServedNext, HasStayed, HasActed, HasDecided};
ghost use Rattle.fb_decide.specs.Making.{HasMade, HasMadeOne};
ghost use Rattle.fb_rows.specs.Tasks.{HasTaskBelow};

use crate::background::Background;
use crate::foreground::foreground;
use crate::joining::join_arrived;
use crate::laws::disk_is_sound;
use crate::requests::Requests;
use crate::run_inputs::RunInputs;
use crate::serving::serve_request;
use crate::start::Start;
use fb_model::foreground_lists_ascend;
use fb_plan::Planner;
use fb_queue::Queue;
use fb_rows::{BackRows, Dwell, ForeRows};
use fb_script::Calls;
use fb_service::Disk;
use fb_store::Store;
use fb_tasks::Sessions;
use fb_trace::Trace;
use fb_units::{NoMemory, Ns, Request, Track};
use fb_wanted::Wanted;
use std::alloc::Global;
use std::mem;

// How far a replay has come between two decisions, but for the requests that wait.
#[derive(Drop)]
struct Course {
    store: Store,
    background: Background,
    fore: ForeRows,
    // How many requests have joined the queue.
    joined: usize,
    // How many calls have taken effect.
    called: usize,
    // The track on which the head is.
    head: Track,
    // The instant of the next decision, in ns.
    now: Ns,
}

/// A replay between two decisions, with those of its rows that haven't been taken yet.
#[derive(Drop)]
pub struct Decider<'a, Q: Queue> {
    inputs: RunInputs<'a>,
    requests: Requests<'a>,
    queue: Q,
    course: Course,
}

/// Rows of both reports, each in the order of its report.
#[derive(Drop)]
pub struct Rows {
    /// Foreground rows, in order of service.
    pub fore: ForeRows,
    /// Background rows.
    pub back: BackRows,
}

impl<'a, Q: Queue> Decider<'a, Q> {
    /// A replay before its first decision.
    ///
    /// The queue must be new: empty, and never used. The only error is out of memory.
    pub fn new(alloc: Global, inputs: RunInputs<'a>, queue: Q) -> Result<Decider<'a, Q>, NoMemory>
        requires empty { Q.pending queue ≡ [] }
        requires fresh { Q.joined queue ≡ 0 }
        requires accepted { IsAccepted (inputs_of inputs Q.key) }
        ensures inputs { IfOk result (λ decider. decider.inputs ≡ inputs.entry) }
        ensures made { IfOk result (λ decider. HasMade (inputs_of decider.inputs Q.key) true [] (state_of Q.pending Q.joined decider)) }
        ensures no_fore { IfOk result (λ decider. decider.course.fore ≡ []) }
        ensures no_back { IfOk result (λ decider. decider.course.background.rows ≡ []) }
        ensures fits { IfOk result (λ decider. Q.fits decider.queue decider.inputs.disk.now) }
    {
        foreground_lists_ascend();
        disk_is_sound(inputs.disk);
        let requests = foreground(alloc, inputs.trace.requests.as_slice(), inputs.calls)?;
        let course = initial_course(alloc, inputs.latent)?;
        Ok(Decider {
            inputs,
            requests,
            queue,
            course,
        })
    }

    /// Makes the next decision and adds its rows; returns whether another decision follows.
    ///
    /// A request that is served has the best plan for its gap. After it has returned `false` it
    /// must not be called again. The only error is out of memory, after which nothing is promised
    /// of the decider.
    pub fn decide<P: Planner>(&mut self, alloc: Global, planner: &P) -> Result<bool, NoMemory>
        requires made { (steps : List Step) × HasMade (inputs_of self.old.inputs Q.key) true steps (state_of Q.pending Q.joined self.old) }
        requires fits { Q.fits self.old.queue self.old.inputs.disk.now }
        ensures decided { IfOk result (λ goes_on. (steps : List Step)
            → HasMade (inputs_of self.old.inputs Q.key) true steps (state_of Q.pending Q.joined self.old)
            → HasMadeOne (inputs_of self.old.inputs Q.key) steps goes_on (state_of Q.pending Q.joined self.old)
            (state_of Q.pending Q.joined self.new)) }
        ensures inputs { self.new.inputs ≡ self.old.inputs }
        ensures requests { OnOk result (self.new.requests ≡ self.old.requests) }
        ensures fits { OnOk result (Q.fits self.new.queue self.new.inputs.disk.now) }
    {
        advance(
            alloc,
            self.inputs,
            self.requests.as_slice(),
            planner,
            &mut self.queue,
            &mut self.course,
        )
    }

    /// Adds the row of each task, as it stands at the end.
    ///
    /// It is called once, when no decision follows. The only error is out of memory.
    pub fn add_task_rows(&mut self) -> Result<(), NoMemory>
        requires { (inputs : Inputs) × (steps : List Step) × HasMade inputs false steps (state_of Q.pending Q.joined self.old) }
        ensures rows { OnOk result ((inputs : Inputs) (steps : List Step)
            → HasMade inputs false steps (state_of Q.pending Q.joined self.old)
            → self.new.course.background.rows ≡ self.old.course.background.rows ++ task_rows (history inputs steps)) }
        ensures fits { (inputs : Inputs) (steps : List Step)
            → HasMade inputs false steps (state_of Q.pending Q.joined self.old)
            → AllByRecursion (HasTaskBelow (length (tasks inputs.calls))) (task_rows (history inputs steps)) }
        ensures fore { OnOk result (self.new.course.fore ≡ self.old.course.fore) }
        ensures inputs { self.new.inputs ≡ self.old.inputs }
        ensures made { (inputs : Inputs) (steps : List Step)
            → HasMade inputs false steps (state_of Q.pending Q.joined self.old)
            → HasMade inputs false steps (state_of Q.pending Q.joined self.new) }
    {
        self.course.background.sessions.task_rows(
            &self.course.background.blocks,
            &mut self.course.background.rows,
        )
    }

    /// The instant, in ns, at which the next decision is made, or at which the replay has ended.
    pub fn instant(&self) -> Ns
        ensures now { result ≡ self.now.course.now }
        ensures end { (inputs : Inputs) (steps : List Step)
            → HasMade inputs false steps (state_of Q.pending Q.joined self.now)
            → result ≡ run_end (decisions inputs) }
        ensures early { (inputs : Inputs) (steps : List Step)
            → HasMade inputs false steps (state_of Q.pending Q.joined self.now)
            → result ≤ 9 * 10 ^ 18 }
    {
        self.course.now
    }

    /// The inputs of the replay.
    pub fn inputs(&self) -> RunInputs<'a>
        ensures { result ≡ self.now.inputs }
    {
        self.inputs
    }

    /// Takes out the rows that were added since the last call, or since `new`.
    pub fn take_rows(&mut self, alloc: Global) -> Rows
        ensures fore { result.fore ≡ self.old.course.fore }
        ensures back { result.back ≡ self.old.course.background.rows }
        ensures no_fore { self.new.course.fore ≡ [] }
        ensures no_back { self.new.course.background.rows ≡ [] }
        ensures inputs { self.new.inputs ≡ self.old.inputs }
        ensures queue { self.new.queue ≡ self.old.queue }
        ensures made { (inputs : Inputs) (more : Bool) (steps : List Step)
            → HasMade inputs more steps (state_of Q.pending Q.joined self.old)
            → HasMade inputs more steps (state_of Q.pending Q.joined self.new) }
    {
        Rows {
            fore: mem::replace(&mut self.course.fore, ForeRows::new(alloc)),
            back: mem::replace(&mut self.course.background.rows, BackRows::new(alloc)),
        }
    }
}

// The course in which nothing has happened yet. The only error is out of memory.
fn initial_course(alloc: Global, latent: &[u64]) -> Result<Course, NoMemory>
    ensures initial { IfOk result (λ course. IsInitial latent.now course) }
    ensures no_fore { IfOk result (λ course. course.fore ≡ []) }
    ensures no_back { IfOk result (λ course. course.background.rows ≡ []) }
{
    Ok(Course {
        store: Store::new(alloc, latent)?,
        background: Background {
            sessions: Sessions::new(alloc),
            blocks: Wanted::new(alloc),
            rows: BackRows::new(alloc),
        },
        fore: ForeRows::new(alloc),
        joined: 0,
        called: 0,
        head: Track {
            cylinder: 0,
            head: 0,
        },
        now: 0,
    })
}

// One decision: calls take effect, tasks choose and are tested, requests join, and then the head
// acts. Returns whether another decision follows.
fn advance<Q: Queue, P: Planner>(
    alloc: Global,
    inputs: RunInputs<'_>,
    requests: &[Request],
    planner: &P,
    queue: &mut Q,
    course: &mut Course,
) -> Result<bool, NoMemory>
    requires may_decide { MayDecide (inputs_of inputs Q.key) (state_by Q.pending Q.joined requests.now course.old queue.old) }
    requires fits { Q.fits queue.old inputs.disk.now }
    requires called { (past : Past) × IsCalled inputs.disk.now.map inputs.calls.now.calls.items past course.old.called
        × Tells inputs.disk.now.map past course.old.background.sessions course.old.background.blocks }
    ensures decided { IfOk result
        (λ goes_on. (past : Past) → IsCalled inputs.entry.disk.now.map inputs.entry.calls.now.calls.items past course.old.called
        → Tells inputs.entry.disk.now.map past course.old.background.sessions course.old.background.blocks
        → HasDecided (inputs_of inputs.entry Q.key) past (state_by Q.pending Q.joined requests.now course.old queue.old) goes_on
        (state_by Q.pending Q.joined requests.now course.new queue.new)) }
    ensures waiting { IfOk result (λ goes_on. goes_on ≡ true
        → IsWaiting inputs.entry.disk.now (state_by Q.pending Q.joined requests.now course.new queue.new)) }
    ensures fits { OnOk result (Q.fits queue.new inputs.entry.disk.now) }
{
    let now = course.now;
    course.called = course
        .background
        .prepare(inputs.disk, inputs.calls, course.called, now)?;
    course.joined = join_arrived(requests, queue, course.joined, now)?;
    act(alloc, inputs, requests, planner, queue, course)
}

// Serves a request of those that wait, or, where none waits, lets the head stay until something
// happens or the end is reached. Returns whether another decision follows.
fn act<Q: Queue, P: Planner>(
    alloc: Global,
    inputs: RunInputs<'_>,
    requests: &[Request],
    planner: &P,
    queue: &mut Q,
    course: &mut Course,
) -> Result<bool, NoMemory>
    requires waiting { IsWaiting inputs.disk.now (state_by Q.pending Q.joined requests.now course.old queue.old) }
    requires fits { Q.fits queue.old inputs.disk.now }
    requires head { IsTrackOf inputs.disk.now.map course.old.head }
    requires now { course.old.now ≤ 9 * 10 ^ 18 - 10 ^ 15 }
    requires current { (past : Past) × TellsUpToDate inputs.disk.now.map past course.old.background }
    ensures acted { IfOk result (λ goes_on. HasActed (inputs_of inputs.entry Q.key)
        (state_by Q.pending Q.joined requests.now course.old queue.old) goes_on
        (state_by Q.pending Q.joined requests.now course.new queue.new)) }
    ensures waiting { IfOk result (λ goes_on. goes_on ≡ true
        → IsWaiting inputs.entry.disk.now (state_by Q.pending Q.joined requests.now course.new queue.new)) }
    ensures fits { OnOk result (Q.fits queue.new inputs.entry.disk.now) }
{
    if !queue.is_empty() {
        serve_next(alloc, inputs.disk, planner, queue, course)?;
        return Ok(true);
    }
    match next_instant(requests, inputs.calls, course.joined, course.called) {
        Some(instant) => {
            stay_until(alloc, inputs.disk, course, instant)?;
            Ok(true)
        }
        None => {
            if course.now < inputs.until {
                stay_until(alloc, inputs.disk, course, inputs.until)?;
            }
            Ok(false)
        }
    }
}

// The next instant at which a request arrives or a call takes effect, in ns.
fn next_instant(requests: &[Request], calls: &Calls, joined: usize, called: usize) -> Option<Ns>
    ensures { result ≡ next_of (slice_get requests.now joined) (slice_get calls.now.calls.items called) }
{
    match (requests.get(joined), calls.calls.get(called)) {
        (Some(request), Some(call)) => Some(request.arrival.min(call.instant)),
        (Some(request), None) => Some(request.arrival),
        (None, Some(call)) => Some(call.instant),
        (None, None) => None,
    }
}

// Serves the request that the queue chooses.
fn serve_next<Q: Queue, P: Planner>(
    alloc: Global,
    disk: &Disk,
    planner: &P,
    queue: &mut Q,
    course: &mut Course,
) -> Result<(), NoMemory>
    requires some { 0 < length (Q.pending queue.old) }
    requires fits { Q.fits queue.old disk.now }
    requires on_disk { AllByRecursion (IsRequestOf disk.now.map) (Q.pending queue.old) }
    requires head { IsTrackOf disk.now.map course.old.head }
    requires now { course.old.now ≤ 9 * 10 ^ 18 - 10 ^ 15 }
    requires current { (past : Past) × TellsUpToDate disk.now.map past course.old.background }
    ensures served { OnOk result ((request : Request)
        × (first_least (Q.key disk.now course.old.head course.old.now) (Q.pending queue.old) ≡ Some (request, Q.pending queue.new))
        × HasServedNext disk.now request course.old course.new) }
    ensures counted { OnOk result (Q.joined queue.new ≡ Q.joined queue.old) }
    ensures fits { OnOk result (Q.fits queue.new disk.now) }
{
    let request = queue.take(disk, course.head, course.now);
    let start = Start {
        head: course.head,
        instant: course.now,
        request,
    };
    let serving = serve_request(
        alloc,
        disk,
        planner,
        &mut course.store,
        &mut course.background,
        start,
    )?;
    course.head = serving.head;
    course.now = serving.row.finish;
    course.fore.push(serving.row)?;
    Ok(())
}

// The head stays on its track until an instant, in ns.
fn stay_until(alloc: Global, disk: &Disk, course: &mut Course, instant: Ns) -> Result<(), NoMemory>
    requires current { (past : Past) × TellsUpToDate disk.now.map past course.old.background }
    requires early { course.old.now ≤ 9 * 10 ^ 18 }
    ensures { OnOk result (HasStayed disk.now instant course.old course.new) }
{
    let dwell = Dwell {
        track: course.head,
        begin: course.now,
        end: instant,
    };
    course
        .background
        .deliver_idle(alloc, disk, &course.store, dwell)?;
    course.now = instant;
    Ok(())
}
