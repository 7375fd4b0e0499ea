// How sectors are numbered: zone by zone, and in each zone cylinder by cylinder.
ghost use Rattle.std.specs.Prelude.{◌≡◌, ◌+◌, ◌-◌, ◌*◌, ◌/◌, ◌%◌, ◌^◌, ◌<◌, ◌≤◌};

// The first sector of a zone, and how many sectors each of its cylinders has.
#[derive(Clone, Copy)]
pub struct ZoneStart {
    // The first cylinder of the zone.
    pub cylinder: u32,
    // The first sector on it.
    pub lbn: u64,
    // The number of sectors of each cylinder of the zone.
    pub cylinder_sectors: u32,
}

// A sector, named by its cylinder and by how many of the cylinder's sectors come before it.
#[derive(Clone, Copy)]
pub struct CylinderSector {
    // The cylinder.
    pub cylinder: u32,
    // Which of its sectors it is, counted from 0.
    pub sector: u32,
}

impl ZoneStart {
    // The first sector of a cylinder of the zone, or of the cylinder behind it.
    pub fn first_of(&self, cylinder: u32) -> u64
        requires from { self.now.cylinder ≤ cylinder }
        requires few { self.now.lbn + (cylinder - self.now.cylinder) * self.now.cylinder_sectors ≤ 10 ^ 12 }
        ensures { result ≡ self.now.lbn + (cylinder - self.now.cylinder) * self.now.cylinder_sectors }
    {
        self.lbn + (cylinder - self.cylinder) as u64 * self.cylinder_sectors as u64
    }

    // The cylinder of a sector of the zone, and which of the cylinder's sectors it is.
    pub fn sector(&self, lbn: u64) -> CylinderSector
        requires from { self.now.lbn ≤ lbn }
        requires some { 0 < self.now.cylinder_sectors }
        requires few { self.now.cylinder + (lbn - self.now.lbn) / self.now.cylinder_sectors ≤ 10 ^ 6 }
        ensures cylinder { result.cylinder ≡ self.now.cylinder + (lbn - self.now.lbn) / self.now.cylinder_sectors }
        ensures sector { result.sector ≡ (lbn - self.now.lbn) % self.now.cylinder_sectors }
    {
        let behind = lbn - self.lbn;
        let sectors = self.cylinder_sectors as u64;
        CylinderSector {
            cylinder: self.cylinder + (behind / sectors) as u32,
            sector: (behind % sectors) as u32,
        }
    }
}
