// Requests by the cylinder of their first sector.
ghost use Rattle.fb_model.specs.Accepted.{IsRequestOf};
ghost use Rattle.fb_fastq.specs.Spots.{IsCylinderOf};

use fb_service::Disk;
use fb_units::Request;

/// The cylinder of a request's first sector.
pub fn cylinder_of(disk: &Disk, request: &Request) -> u64
    requires { IsRequestOf disk.now.map request.now }
    ensures { IsCylinderOf disk.now request.now result }
{
    disk.map.place(request.lbn).track.cylinder as u64
}
