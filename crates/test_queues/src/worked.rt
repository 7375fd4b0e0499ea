// Gaps whose best plans were worked out by hand, on a disk of four cylinders with two heads and
// twelve slots a track.
use crate::gaps::{LINEAR, STEEP, Setting, Wish, answers};
use fb_rows::{Gap, Plan};
use fb_units::{Ns, Track};
use std::alloc::Global;
use std::process::Abort;
use std::test::Fail;

// A gap on a disk, what is wanted there, the best plan, and what its dwells catch.
struct Worked {
    shows: &'static str,
    setting: Setting<'static>,
    wishes: &'static [Wish],
    plan: Plan,
    passages: &'static [(u64, Ns, Ns)],
}

const OWN: Track = Track {
    cylinder: 0,
    head: 0,
};

// A gap whose target is the track where the head stands.
const AT_HOME: Gap = Gap {
    source: OWN,
    target: OWN,
    now: 0,
    deadline: 500,
    write: false,
};

// A gap before a request on the next cylinder.
const TO_NEXT: Gap = Gap {
    target: Track {
        cylinder: 1,
        head: 0,
    },
    now: 600,
    deadline: 1200,
    ..AT_HOME
};

const STAY: Setting = Setting {
    seek: LINEAR,
    last_cylinder: 3,
    track_skew: 0,
    gap: AT_HOME,
};

const NEXT: Setting = Setting {
    gap: TO_NEXT,
    ..STAY
};

// A gap before a request two cylinders away.
const FAR: Setting = Setting {
    seek: STEEP,
    gap: Gap {
        source: OWN,
        target: Track {
            cylinder: 2,
            head: 0,
        },
        now: 0,
        deadline: 1500,
        write: false,
    },
    ..STAY
};

const SIX: Wish = Wish {
    lbn: 6,
    count: 1,
    weight: 1,
    suspended: false,
};

const SEVEN: Wish = Wish { lbn: 7, ..SIX };

const BEHIND: Wish = Wish { lbn: 35, ..SIX };

const THREE: &[Wish] = &[SIX, SEVEN, BEHIND];

const HELD: &[Wish] = &[
    Wish {
        suspended: true,
        ..SIX
    },
    Wish {
        suspended: true,
        ..SEVEN
    },
    Wish {
        suspended: true,
        ..BEHIND
    },
];

const PLANS: &[Worked] = &[
    Worked {
        shows: "a gap that ends too soon",
        setting: STAY,
        wishes: THREE,
        plan: Plan::Direct { leave: 0 },
        passages: &[],
    },
    Worked {
        shows: "blocks on both tracks",
        setting: NEXT,
        wishes: THREE,
        plan: Plan::Direct { leave: 800 },
        passages: &[(6, 600, 700), (7, 700, 800), (35, 1100, 1200)],
    },
    Worked {
        shows: "a block on a detour",
        setting: NEXT,
        wishes: &[Wish { lbn: 20, ..SIX }],
        plan: Plan::Detour {
            track: Track {
                cylinder: 0,
                head: 1,
            },
            leave: 900,
        },
        passages: &[(20, 800, 900)],
    },
    Worked {
        shows: "no time to settle behind it",
        setting: Setting {
            gap: Gap {
                write: true,
                ..TO_NEXT
            },
            ..NEXT
        },
        wishes: &[Wish { lbn: 20, ..SIX }],
        plan: Plan::Direct { leave: 600 },
        passages: &[],
    },
    Worked {
        shows: "a detour on the way",
        setting: FAR,
        wishes: &[Wish { lbn: 25, ..SIX }],
        plan: Plan::Detour {
            track: Track {
                cylinder: 1,
                head: 0,
            },
            leave: 200,
        },
        passages: &[(25, 100, 200)],
    },
    Worked {
        shows: "a detour over nothing",
        setting: FAR,
        wishes: &[Wish { lbn: 51, ..SIX }],
        plan: Plan::Detour {
            track: Track {
                cylinder: 1,
                head: 0,
            },
            leave: 100,
        },
        passages: &[(51, 300, 400)],
    },
    Worked {
        shows: "nothing wanted",
        setting: NEXT,
        wishes: &[],
        plan: Plan::Direct { leave: 600 },
        passages: &[],
    },
    Worked {
        shows: "a block that has passed",
        setting: Setting {
            gap: Gap {
                now: 599,
                ..TO_NEXT
            },
            ..NEXT
        },
        wishes: &[Wish { lbn: 5, ..SIX }],
        plan: Plan::Direct { leave: 599 },
        passages: &[],
    },
    Worked {
        shows: "a block round the end of the track",
        setting: Setting {
            track_skew: 11,
            gap: Gap {
                target: Track {
                    cylinder: 0,
                    head: 1,
                },
                deadline: 1300,
                ..AT_HOME
            },
            ..STAY
        },
        wishes: &[Wish {
            lbn: 12,
            count: 2,
            ..SIX
        }],
        plan: Plan::Direct { leave: 0 },
        passages: &[(12, 1100, 1300)],
    },
    Worked {
        shows: "one block on each track",
        setting: NEXT,
        wishes: &[SIX, BEHIND],
        plan: Plan::Direct { leave: 700 },
        passages: &[(6, 600, 700), (35, 1100, 1200)],
    },
    Worked {
        shows: "a gap without length",
        setting: Setting {
            gap: Gap {
                now: 1700,
                deadline: 1700,
                ..AT_HOME
            },
            ..STAY
        },
        wishes: &[Wish { lbn: 7, ..SIX }, Wish { lbn: 8, ..SIX }],
        plan: Plan::Direct { leave: 1700 },
        passages: &[],
    },
    Worked {
        shows: "nothing wanted before a write",
        setting: Setting {
            gap: Gap {
                now: 700,
                deadline: 1800,
                write: true,
                ..AT_HOME
            },
            ..STAY
        },
        wishes: &[],
        plan: Plan::Direct { leave: 700 },
        passages: &[],
    },
    Worked {
        shows: "suspended blocks",
        setting: NEXT,
        wishes: HELD,
        plan: Plan::Direct { leave: 600 },
        passages: &[],
    },
    Worked {
        shows: "a heavy block",
        setting: NEXT,
        wishes: &[
            SIX,
            SEVEN,
            Wish {
                lbn: 33,
                weight: 5,
                ..SIX
            },
        ],
        plan: Plan::Direct { leave: 600 },
        passages: &[(33, 900, 1000)],
    },
];

// Checks that both planners choose the plan, and that its dwells catch what they should.
fn check_plan(rt: &impl Abort, alloc: Global, row: &Worked) -> Result<(), Fail> {
    let shows = row.shows;
    match answers(alloc, &row.setting, row.wishes)? {
        Some(answers) => {
            assert_eq!(rt; answers.slow, row.plan, "{shows}");
            assert_eq!(rt; answers.indexed, row.plan, "{shows}");
            assert_eq!(rt; answers.passages.as_slice(), row.passages, "{shows}");
        }
        None => assert!(rt; false, "refused: {shows}"),
    }
    Ok(())
}

#[test]
fn best_plans(rt: HostRuntime) -> Result<(), Fail> {
    for row in PLANS {
        check_plan(&rt, rt.alloc(), row)?;
    }
    Ok(())
}
