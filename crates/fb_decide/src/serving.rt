// The service of a request: its row, and what it leaves on the disk.
ghost use Rattle.std.specs.Prelude.{◌≡◌, ℕ, ◌+◌, ◌*◌, ◌<◌, ◌≤◌, ◌^◌, IfOk, OnOk};
ghost use Rattle.std.specs.List.{AllByRecursion, sum_by};
ghost use Rattle.fb_geometry.specs.Shape.{IsTrackOf};
ghost use Rattle.fb_store.specs.Ranges.{content_in};
ghost use Rattle.fb_model.specs.History.{Past};
ghost use Rattle.fb_model.specs.PlainReplay.{last_track};
ghost use Rattle.fb_decide.specs.Contents.{found_in, left_by, IsRowOf};
ghost use Rattle.fb_decide.specs.Deliveries.{TellsUpToDate, HasServed};
ghost use Rattle.fb_decide.specs.Start.{IsStartOn, IsServiceOf, served_from};

use crate::background::Background;
use crate::start::Start;
use fb_plan::Planner;
use fb_rows::ForeRow;
use fb_service::{Disk, Service, serve};
use fb_store::{Contents, Store, writer_of};
use fb_units::{NoMemory, Request, Track};
use std::alloc::Global;

/// A served request.
#[derive(Drop)]
pub struct Serving {
    /// Its foreground row.
    pub row: ForeRow,
    /// The track on which the head then is.
    pub head: Track,
}

/// Serves a request from its start on.
///
/// The only error is out of memory.
pub fn serve_request<P: Planner>(
    alloc: Global,
    disk: &Disk,
    planner: &P,
    store: &mut Store,
    background: &mut Background,
    start: Start,
) -> Result<Serving, NoMemory>
    requires start { IsStartOn disk.now start }
    requires current { (past : Past) × TellsUpToDate disk.now.map past background.old }
    ensures row { IfOk result (λ serving. IsRowOf store.old (served_from disk.now start) serving.row) }
    ensures contents { OnOk result ((lbn : ℕ) → content_in store.new lbn ≡ left_by start.request lbn (content_in store.old lbn)) }
    ensures head { IfOk result (λ serving. serving.head ≡ last_track disk.now (served_from disk.now start)) }
    ensures on_disk { IfOk result (λ serving. IsTrackOf disk.now.map serving.head) }
    ensures each { OnOk result (AllByRecursion (λ passage. passage.begin < passage.end) (served_from disk.now start).passages) }
    ensures later { IfOk result (λ serving. start.instant < serving.row.finish) }
    ensures soon { IfOk result (λ serving. serving.row.finish ≤ start.instant + 2048 * (4 * 10 ^ 9)) }
    ensures served { OnOk result ((past : Past) → TellsUpToDate disk.now.map past background.old
        → HasServed disk.now store.old past (served_from disk.now start) background.old.rows background.new) }
{
    let request = start.request;
    let Request {
        lbn,
        count,
        write,
        ..
    } = request;
    let service = serve(alloc, disk, start.head, start.instant, lbn, count, write)?;
    // Before the request writes: what the gap delivers was on the disk before that.
    background.deliver_around(alloc, disk, planner, store, start, &service)?;
    let row = row_of(alloc, store, start, &service)?;
    write_sectors(store, request)?;
    background.after_service(request);
    Ok(Serving {
        row,
        head: service.last_track,
    })
}

// The row of a request that had this service, with what it finds on the disk. The only error is out of memory.
fn row_of(
    alloc: Global,
    store: &Store,
    start: Start,
    service: &Service,
) -> Result<ForeRow, NoMemory>
    requires few { start.request.count ≤ 2048 }
    requires range { start.request.lbn + start.request.count ≤ 10 ^ 12 }
    ensures { IfOk result (λ row. (disk : Disk) → IsServiceOf disk start service.now → IsRowOf store.now (served_from disk start) row) }
{
    let content = found(alloc, store, start.request)?;
    Ok(ForeRow {
        request: start.request,
        start: start.instant,
        media: service.media,
        finish: service.finish,
        bad: content.bad() as u32,
        content,
    })
}

// What a read finds on the disk; a write finds nothing. The only error is out of memory.
fn found(alloc: Global, store: &Store, request: Request) -> Result<Contents, NoMemory>
    requires few { request.count ≤ 2048 }
    requires range { request.lbn + request.count ≤ 10 ^ 12 }
    ensures content { IfOk result (λ content. content ≡ found_in store.now request) }
    ensures few { IfOk result (λ content. sum_by (λ run. run.count) content ≤ 2048) }
{
    if request.write {
        return Ok(Contents::new(alloc));
    }
    Ok(store.runs(alloc, request.lbn, request.count)?)
}

// Leaves on the disk what the request writes. The only error is out of memory.
fn write_sectors(store: &mut Store, request: Request) -> Result<(), NoMemory>
    requires { request.lbn + request.count ≤ 10 ^ 12 }
    ensures { OnOk result ((lbn : ℕ) → content_in store.new lbn ≡ left_by request lbn (content_in store.old lbn)) }
{
    if !request.write {
        return Ok(());
    }
    store.write_range(request.lbn, request.count, writer_of(request.name))?;
    Ok(())
}
