use fb_geometry::Cylinder;

/// All sectors of a cylinder, looked up once for the places of many of them.
#[derive(Clone, Copy)]
pub struct CylinderRun {
    /// The cylinder.
    pub on: Cylinder,
    /// The LBN of its first sector.
    pub first: u64,
    /// The LBN behind that of its last sector.
    pub end: u64,
}
