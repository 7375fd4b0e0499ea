// The choice of segments.
ghost use Rattle.std.specs.Prelude.{◌≡◌, ℕ, List, ◌&&◌, not, true, false, ◌++◌, OnOk, OnErr, IfOk};
ghost use Rattle.fb_script.specs.Sessions.{is_clean};
ghost use Rattle.fb_model.specs.History.{Past};
ghost use Rattle.fb_model.specs.Segments.{choose_once, choose_in};
ghost use Rattle.fb_tasks.specs.Leaving.{HasBegunUpTo, by_calls};
ghost use Rattle.fb_tasks.specs.Standing.{MayChoose, HasChosenUpTo};

use crate::session::{Session, Stamp};
use crate::wanting::want_live;
use fb_rows::BackRows;
use fb_script::Kind;
use fb_sectormap::SectorMap;
use fb_store::Contents;
use fb_units::NoMemory;
use fb_wanted::Wanted;
use std::alloc::Global;

impl Session {
    /// Chooses segments until one has live blocks or none is left; one without live blocks is finished at once.
    ///
    /// If memory runs out, all rows and blocks that stood before are unchanged, and at most the first of those
    /// that were due follow.
    pub fn choose(
        &mut self,
        alloc: Global,
        map: &SectorMap,
        wanted: &mut Wanted,
        stamp: Stamp,
        rows: &mut BackRows,
    ) -> Result<(), NoMemory>
        requires { (past : Past) × MayChoose map.now past stamp.task self.old wanted.old }
        ensures chosen { OnOk result ((past : Past) → MayChoose map.now past stamp.task self.old wanted.old
            → HasChosenUpTo map.now past (choose_in map.now past stamp.task) stamp.task stamp.instant self.new wanted.new
            rows.old rows.new) }
        ensures same { (by_calls self.new ≡ by_calls self.old) × (self.new.touched ≡ self.old.touched) }
        ensures chunks { self.new.chunks ≡ self.old.chunks }
        ensures begun { OnErr result ((past : Past) → MayChoose map.now past stamp.task self.old wanted.old
            → HasBegunUpTo past (choose_in map.now past stamp.task) stamp.task stamp.instant wanted.old wanted.new rows.old rows.new) }
    {
        if !self.may_choose() {
            return Ok(());
        }
        for _choice in 0..self.log.len() {
            if !self.choose_one(alloc, map, wanted, stamp, rows)? {
                return Ok(());
            }
        }
        Ok(())
    }

    // Whether the session is one that chooses segments.
    fn may_choose(&self) -> bool
        ensures { result ≡ (is_clean self.now.kind && not self.now.closed) }
    {
        match self.kind {
            Kind::Clean => !self.closed,
            Kind::Plain | Kind::Backup | Kind::Scrub => false,
        }
    }

    // Chooses a segment, if none is unfinished and one is left. Tells whether one was chosen.
    fn choose_one(
        &mut self,
        alloc: Global,
        map: &SectorMap,
        wanted: &mut Wanted,
        stamp: Stamp,
        rows: &mut BackRows,
    ) -> Result<bool, NoMemory>
        requires cleans { (is_clean self.old.kind ≡ true) × (self.old.closed ≡ false) }
        requires may { (past : Past) × MayChoose map.now past stamp.task self.old wanted.old }
        ensures chosen { IfOk result (λ some. (past : Past) → MayChoose map.now past stamp.task self.old wanted.old
            → HasChosenUpTo map.now past (choose_once map.now stamp.task past) stamp.task stamp.instant self.new wanted.new
            rows.old rows.new) }
        ensures same { (by_calls self.new ≡ by_calls self.old) × (self.new.touched ≡ self.old.touched) }
        ensures chunks { self.new.chunks ≡ self.old.chunks }
        ensures begun { OnErr result ((past : Past) → MayChoose map.now past stamp.task self.old wanted.old
            → HasBegunUpTo past (choose_once map.now stamp.task past) stamp.task stamp.instant wanted.old wanted.new
            rows.old rows.new) }
        ensures none { IfOk result (λ some. some ≡ false → (past : Past) → MayChoose map.now past stamp.task self.old wanted.old
            → choose_once map.now stamp.task past ≡ past) }
    {
        // A disk has at most 10^12 sectors.
        let _sectors = map.count();
        match self.log.choose() {
            Some(segment) => {
                want_live(map, wanted, self, stamp.task, segment)?;
                if self.log.live_count(segment) == 0 {
                    self.finish(
                        stamp.task,
                        segment,
                        stamp.instant,
                        Contents::new(alloc),
                        rows,
                    )?;
                }
                Ok(true)
            }
            None => Ok(false),
        }
    }
}
