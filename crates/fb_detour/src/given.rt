// What the search for the best plan of a gap goes by.

use crate::parts::LateParts;
use fb_rows::Gap;
use fb_service::Disk;
use fb_wanted::Wanted;

// A gap on its disk, the registered blocks, and what the target can still give.
#[derive(Clone, Copy)]
pub struct Search<'a> {
    pub disk: &'a Disk,
    pub wanted: &'a Wanted,
    pub gap: &'a Gap,
    pub late: &'a LateParts,
}
