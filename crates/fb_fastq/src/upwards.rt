// The circular elevator.
ghost use Rattle.fb_model.specs.PlainReplay.{clook};

use crate::by_spot::next_round;
use crate::{Choice, CylinderMap, LatePlacing};
use fb_queue::Upwards;
use fb_service::Disk;
use fb_units::{Ns, Request, Track};
use std::collections::BTreeMap;

/// The circular elevator, over a map by cylinder.
pub type ClookMap = LatePlacing<CylinderMap<Upwards>>;

impl Choice for Upwards {
    fn choose(
        &self,
        waiting: &BTreeMap<(u64, u64), Request>,
        disk: &Disk,
        head: Track,
        _now: Ns,
    ) -> (u64, u64) {
        let cylinders = disk.map.geometry().cylinders() as u64;
        match next_round(waiting, 0, cylinders, head.cylinder as u64) {
            Some((key, _)) => key,
            None => unreachable!(),
        }
    }
}
