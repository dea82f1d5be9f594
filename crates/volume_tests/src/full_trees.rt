//! Tests of small trees in which none of the steps that compaction tries fits, although another choice of steps would.
use crate::requests::{SMALL, answers, new_volume};
use std::alloc::Global;
use test_support::{ExpectedReply, SampleCall};
use volume::Volume;

/// Files that are created, and the number of compaction steps that follow.
struct Arrival {
    files: &'static [&'static str],
    steps: u32,
}

const ARRIVALS: &[Arrival] = &[
    Arrival {
        files: &[
            "/f014", "/g785", "/f016", "/g623", "/f018", "/g461", "/g380", "/g299", "/g218",
            "/f023", "/f046", "/g193", "/f048",
        ],
        steps: 5,
    },
    Arrival {
        files: &["/f049", "/g950", "/g869", "/f052"],
        steps: 2,
    },
    Arrival {
        files: &[
            "/g707", "/g626", "/f055", "/f062", "/f063", "/g816", "/f065", "/g654", "/f067",
            "/f079", "/g520", "/f081", "/f082", "/f083", "/g196", "/g115", "/f086", "/g953",
            "/g872", "/g791", "/g710", "/g489",
        ],
        steps: 55,
    },
];

/// Does that many compaction steps, or fewer if nothing is pending.
fn relieve(alloc: Global, volume: &mut Volume, steps: u32) {
    for _ in 0..steps {
        if volume.compact_step(alloc).is_none() {
            return;
        }
    }
}

/// Whether all these files are created.
fn arrive(alloc: Global, volume: &mut Volume, arrival: &Arrival) -> bool {
    for file in arrival.files {
        if !answers(alloc, volume, SampleCall::Create(file), ExpectedReply::Done) {
            return false;
        }
    }
    relieve(alloc, volume, arrival.steps);
    true
}

/// Whether all files are created and then one is renamed, and a few hundred steps then flush everything that is pending.
fn becomes_idle(alloc: Global, volume: &mut Volume) -> bool {
    for arrival in ARRIVALS {
        if !arrive(alloc, volume, arrival) {
            return false;
        }
    }
    let moved = SampleCall::Rename("/g710", "/a");
    let is_done = answers(alloc, volume, moved, ExpectedReply::Done);
    relieve(alloc, volume, 400);
    is_done && volume.compact_step(alloc).is_none()
}

/// The same in a new volume.
fn rests(alloc: Global) -> bool {
    match new_volume(alloc, SMALL) {
        Ok(mut volume) => becomes_idle(alloc, &mut volume),
        Err(_) => false,
    }
}

#[test]
fn relief_ends_in_a_full_small_tree(rt: HostRuntime) {
    assert!(rt; rests(rt.alloc()));
}
