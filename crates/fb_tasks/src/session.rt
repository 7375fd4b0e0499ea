// One session.
ghost use Rattle.std.specs.Prelude.{◌≡◌, ℕ, [], ◌&&◌, not, None, true, false, ◌+◌, ◌<◌, ◌≤◌, ◌^◌};
ghost use Rattle.fb_script.specs.Sessions.{is_backup};
ghost use Rattle.fb_store.specs.Ranges.{held_at};
ghost use Rattle.fb_tasks.specs.Keeping.{complete_by};
ghost use Rattle.fb_tasks.specs.Nearby.{IsAmong, chunk_of};

use crate::near::{Chunks, chunks_in, no_chunks};
use fb_backup::Image;
use fb_clean::Segments;
use fb_script::Kind;
use fb_units::Ns;
use fb_wanted::Counts;
use std::alloc::Global;

/// What a task was opened with, and how far it has come.
#[derive(Drop)]
pub struct Session {
    /// What the task is for.
    pub kind: Kind,
    /// The weight of each sector of its blocks, 1 to 1,000.
    pub weight: u32,
    /// The block size in sectors, 1 to 2,048.
    pub block: u32,
    /// Whether its blocks are held back.
    pub suspended: bool,
    /// Whether a close has taken effect.
    pub closed: bool,
    /// Whether it was complete at the last test.
    pub complete: bool,
    /// Whether a backup's seal row was given.
    pub sealed: bool,
    /// Whether it was touched since tasks last chose and were tested: these pass over the others.
    pub touched: bool,
    /// The chunks in which the blocks of an open backup begin.
    pub chunks: Chunks,
    /// What the delivered blocks of a backup hold.
    pub image: Image,
    /// The segments that a clean session was given.
    pub log: Segments,
}

/// Of which task, and of which instant, a row of the background tells.
#[derive(Clone, Copy)]
pub struct Stamp {
    /// The task.
    pub task: u32,
    /// The instant, in ns.
    pub instant: Ns,
}

impl Session {
    /// A session that has just been opened.
    pub fn new(alloc: Global, kind: Kind, weight: u32, block: u32) -> Session
        ensures terms { (result.kind ≡ kind) × (result.weight ≡ weight) × (result.block ≡ block) }
        ensures state { (result.suspended ≡ false) × (result.closed ≡ false) × (result.complete ≡ false) × (result.sealed ≡ false) }
        ensures touched { result.touched ≡ false }
        ensures chunks { (chunk : ℕ) → IsAmong result.chunks chunk → ⊥ }
        ensures image { (lbn : ℕ) → held_at result.image lbn ≡ None }
        ensures log { result.log ≡ record { block = block; segments = []; unfinished = None; taken = [] } }
    {
        Session {
            kind,
            weight,
            block,
            suspended: false,
            closed: false,
            complete: false,
            sealed: false,
            touched: false,
            chunks: no_chunks(),
            image: Image::new(alloc),
            log: Segments::new(alloc, block),
        }
    }

    /// Whether the task is complete, by what has become of its blocks.
    pub fn is_complete(&self, counts: Counts) -> bool
        requires { counts.delivered + counts.aborted < 2 ^ 32 }
        ensures { result ≡ complete_by self.now counts }
    {
        match self.kind {
            Kind::Clean => {
                self.log.len() > 0
                    && (self.closed || (self.log.unfinished().is_none() && !self.log.has_rest()))
            }
            Kind::Plain | Kind::Backup | Kind::Scrub => {
                counts.registered > 0 && counts.delivered + counts.aborted == counts.registered
            }
        }
    }

    /// Whether this is a backup that has not been sealed.
    pub fn is_open_backup(&self) -> bool
        ensures { result ≡ (is_backup self.now.kind && not self.now.sealed) }
    {
        match self.kind {
            Kind::Backup => !self.sealed,
            Kind::Plain | Kind::Scrub | Kind::Clean => false,
        }
    }

    /// The chunks in which the blocks of a range begin that the session wants, if it is an open backup;
    /// no other one is noted.
    pub fn chunks_wanted(&self, first: u64, count: u64) -> Chunks
        requires { first + count ≤ 10 ^ 12 }
        ensures { (is_backup self.now.kind && not self.now.sealed) ≡ true → (lbn : ℕ) → first ≤ lbn → lbn < first + count
            → IsAmong result (chunk_of lbn) }
    {
        if self.is_open_backup() {
            chunks_in(first, count)
        } else {
            no_chunks()
        }
    }

    /// Takes the chunks from a session that is no open backup any more.
    pub fn take_sealed_chunks(&mut self) -> Chunks
        ensures session { self.new ≡ record self.old { chunks = self.new.chunks } }
        ensures taken { (is_backup self.old.kind && not self.old.sealed) ≡ false → result ≡ self.old.chunks }
        ensures stays { (is_backup self.old.kind && not self.old.sealed) ≡ true → self.new.chunks ≡ self.old.chunks }
        ensures others { (chunk : ℕ) → IsAmong self.new.chunks chunk → IsAmong self.old.chunks chunk × (IsAmong result chunk → ⊥) }
    {
        if self.is_open_backup() {
            return no_chunks();
        }
        let chunks = self.chunks;
        self.chunks = no_chunks();
        chunks
    }
}
