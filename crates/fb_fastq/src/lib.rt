//! The order in which pending requests are served, found without a look at all that is pending.
//!
//! These queues keep the law of the plain ones: a queue takes the first request of least key, in
//! order of joining. They keep a ring, or a map in which each request has a spot, and those at one
//! spot stand in order of joining.
//!
//! For `SstfMap` and `ClookMap` the spot is the cylinder, so that the first request of the nearest
//! one or of the next one is found at once. For `SptfBuckets` all tracks are laid end to end, each
//! once for reads and once for writes, since a write has to settle. The spot is how far along these
//! lanes the request's first sector begins, which is all that its wait depends on.
//!
//! `SptfBuckets` keeps a row for each cylinder, and a set of those whose rows have requests. Rows are
//! looked at from the head's cylinder upwards and then downwards, until the seek alone takes longer
//! than the shortest wait found, and of a row's requests only those are valued that could be sooner.
//! What a row has no room for waits in the map, where in each lane the next request from the angle
//! of arrival on is found by a search. On a disk whose arm comes to any cylinder in a small part of
//! a turn, all requests wait in a map by angle instead, and are looked at as their angles pass.
#![tactic(auto)]

mod angles;
mod arrival;
mod by_angle;
mod by_spot;
mod choice;
mod cylinder_map;
mod cylinders;
mod lanes;
mod late_placing;
mod nearest;
mod placing;
mod ray;
mod ring;
mod row_buckets;
mod rows;
mod side;
mod soonest;
mod sptf;
mod upwards;
mod visit;

pub use choice::Choice;
pub use cylinder_map::CylinderMap;
pub use late_placing::LatePlacing;
pub use nearest::SstfMap;
pub use placing::Placing;
pub use ring::FcfsRing;
pub use sptf::{Buckets, SptfBuckets};
pub use upwards::ClookMap;
