//! The geometry of a disk: zones, skews, spares, defects and angles.
//!
//! The layers above may rely on this: `Geometry::new` accepts exactly the outlines without a fault
//! and names the first fault of any other; a geometry gives the place of each sector of a cylinder,
//! the sector of a slot, and the angle at which a slot begins and ends; no two sectors share a
//! slot, and none is on a bad one. Only `new` allocates. Sectors are counted within their cylinder
//! here; LBNs are the business of the crate above. Serpentine layouts are not modelled.
#![tactic(auto)]

mod cylinder;
mod fault;
mod geometry;
mod layout;
mod marks;
mod outline;
mod stretch;
mod zone;

pub use cylinder::Cylinder;
pub use fault::{GeometryError, GeometryFault};
pub use geometry::Geometry;
pub use layout::Layout;
pub use stretch::Stretch;
pub use zone::Zone;
