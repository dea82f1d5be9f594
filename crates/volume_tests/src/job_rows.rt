//! Tests of jobs: the answers to taking and finishing them, with calls, snapshots and steps between.
ghost use Rattle.volume.specs.Jobs.{DoneFits};
ghost use Rattle.volume.specs.Volumes.{live_of};

use crate::requests::{SMALL, Snap, answers, new_volume};
use crate::runs::{Turn, follows};
use jobs::Ticket;
use node::StepKind;
use pathkey::Errno;
use reference::Kind;
use std::alloc::Global;
use test_support::{ExpectedReply, SampleCall};
use volume::{Done, FinishAnswer, Index, InstallReply, TakeAnswer, TakeReply, Volume};

/// Takes a job at the first slot of the metadata's root, where none can be taken.
const TAKES_NOTHING: Turn<'static> = Turn::Take(Index::Meta, 0, TakeAnswer::NotThere);

/// Takes the first job at the first slot of the metadata's root.
const TAKES: Turn<'static> = Turn::Take(Index::Meta, 0, TakeAnswer::Taken(Ticket { number: 0 }));

/// Takes the second job there.
const TAKES_AGAIN: Turn<'static> = Turn::Take(
    Index::Meta,
    0,
    TakeAnswer::Taken(Ticket { number: 1 }),
);

/// Finishes the first job.
const INSTALLS: Turn<'static> = Turn::Finish(0, FinishAnswer::Installed);

/// Finishes the first job, whose mark was removed.
const IS_STALE: Turn<'static> = Turn::Finish(0, FinishAnswer::Stale);

/// Finishes the first job, which the run does not hold.
const HAS_NO_JOB: Turn<'static> = Turn::Finish(0, FinishAnswer::NotThere);

/// A snapshot of only the root; then five directories, all flushed below a root with one slot over an inner node, and a sixth that
/// is pending there. A leaf receives four messages at once, so the second flush brings down the last of five.
const OPENING: &[Turn<'static>] = &[
    Turn::Snap(Snap::Keep("s"), None),
    Turn::Live(SampleCall::Mkdir("/a"), ExpectedReply::Done),
    Turn::Live(SampleCall::Mkdir("/b"), ExpectedReply::Done),
    Turn::Live(SampleCall::Mkdir("/c"), ExpectedReply::Done),
    Turn::Live(SampleCall::Mkdir("/d"), ExpectedReply::Done),
    Turn::Live(SampleCall::Mkdir("/e"), ExpectedReply::Done),
    Turn::Step(Index::Meta, StepKind::FlushLeaf, 4, 4),
    Turn::Step(Index::Meta, StepKind::FlushLeaf, 1, 1),
    Turn::Flush(Index::Meta, false),
    Turn::Flush(Index::Meta, false),
    Turn::Flush(Index::Meta, false),
    Turn::Flush(Index::Meta, false),
    Turn::Step(Index::Meta, StepKind::RootUp, 0, 0),
    Turn::Live(SampleCall::Mkdir("/f"), ExpectedReply::Done),
];

/// A file of five blocks, all flushed below a root with one slot over an inner node, and a sixth that is pending there.
pub const BLOCKS: &[Turn<'static>] = &[
    Turn::Live(SampleCall::Create("/x"), ExpectedReply::Done),
    Turn::Live(SampleCall::Write("/x", 0, b"\xa0"), ExpectedReply::Count(1)),
    Turn::Live(
        SampleCall::Write("/x", 4_096, b"\xa1"),
        ExpectedReply::Count(1),
    ),
    Turn::Live(
        SampleCall::Write("/x", 8_192, b"\xa2"),
        ExpectedReply::Count(1),
    ),
    Turn::Live(
        SampleCall::Write("/x", 12_288, b"\xa3"),
        ExpectedReply::Count(1),
    ),
    Turn::Live(
        SampleCall::Write("/x", 16_384, b"\xa4"),
        ExpectedReply::Count(1),
    ),
    Turn::Step(Index::Block, StepKind::FlushLeaf, 4, 4),
    Turn::Step(Index::Block, StepKind::FlushLeaf, 1, 1),
    Turn::Step(Index::Block, StepKind::RootUp, 0, 0),
    Turn::Live(
        SampleCall::Write("/x", 20_480, b"\xa5"),
        ExpectedReply::Count(1),
    ),
];

/// The entries of the root after the opening.
const SIX: ExpectedReply<'static> = ExpectedReply::Names(&[
    (Kind::Dir, "a"),
    (Kind::Dir, "b"),
    (Kind::Dir, "c"),
    (Kind::Dir, "d"),
    (Kind::Dir, "e"),
    (Kind::Dir, "f"),
]);

/// The entries of the root after one more call.
const SEVEN: ExpectedReply<'static> = ExpectedReply::Names(&[
    (Kind::Dir, "a"),
    (Kind::Dir, "b"),
    (Kind::Dir, "c"),
    (Kind::Dir, "d"),
    (Kind::Dir, "e"),
    (Kind::Dir, "f"),
    (Kind::Dir, "g"),
]);

/// The runs of a new volume, one after the other.
type Row = &'static [&'static [Turn<'static>]];

const ROWS: &[Row] = &[
    // no job is taken if the child is a leaf
    &[&[TAKES_NOTHING]],
    // what is appended after the job was taken remains pending, and the slot has one mark
    &[
        OPENING,
        &[
            TAKES,
            TAKES_NOTHING,
            Turn::Live(SampleCall::Mkdir("/g"), ExpectedReply::Done),
            INSTALLS,
            HAS_NO_JOB,
            Turn::Live(SampleCall::Readdir("/"), SEVEN),
        ],
    ],
    // what a call removes does not reappear with the job
    &[
        OPENING,
        &[
            TAKES,
            Turn::Live(SampleCall::Rmdir("/f"), ExpectedReply::Done),
            INSTALLS,
            Turn::Live(SampleCall::Stat("/f"), ExpectedReply::Fault(Errno::ENOENT)),
        ],
    ],
    // the restored tree is not the one from which the job was taken
    &[
        OPENING,
        &[
            TAKES,
            Turn::Snap(Snap::Restore("s"), None),
            IS_STALE,
            Turn::Live(SampleCall::Readdir("/"), ExpectedReply::Names(&[])),
        ],
    ],
    // a step at the slot of the mark makes the job stale
    &[
        OPENING,
        &[
            TAKES,
            Turn::Step(Index::Meta, StepKind::FlushInner, 1, u32::MAX),
            IS_STALE,
        ],
    ],
    // jobs flush all messages, and one more job has none
    &[
        OPENING,
        &[
            TAKES,
            INSTALLS,
            TAKES_NOTHING,
            Turn::Live(SampleCall::Readdir("/"), SIX),
        ],
    ],
    // a job that is left at the end of a run has no mark any more, and its ticket is not given again
    &[
        OPENING,
        &[TAKES],
        &[
            HAS_NO_JOB,
            TAKES_AGAIN,
            HAS_NO_JOB,
            Turn::Finish(1, FinishAnswer::Installed),
            Turn::Live(SampleCall::Readdir("/"), SIX),
        ],
    ],
    // tickets count over both indexes, and of two jobs the later may be installed first
    &[
        OPENING,
        BLOCKS,
        &[
            Turn::Take(Index::Block, 0, TakeAnswer::Taken(Ticket { number: 0 })),
            TAKES_AGAIN,
            Turn::Live(
                SampleCall::Write("/x", 20_480, b"\xb5\xb6"),
                ExpectedReply::Count(2),
            ),
            Turn::Finish(1, FinishAnswer::Installed),
            Turn::Live(SampleCall::Stat("/x"), ExpectedReply::File(20_482)),
            INSTALLS,
            Turn::Live(SampleCall::Stat("/x"), ExpectedReply::File(20_482)),
            Turn::Live(
                SampleCall::Read("/x", 20_480, 4),
                ExpectedReply::Data(b"\xb5\xb6"),
            ),
            Turn::Live(
                SampleCall::Read("/x", 16_384, 2),
                ExpectedReply::Data(b"\xa4\0"),
            ),
        ],
    ],
    // a new root makes only the jobs of its own index stale
    &[
        OPENING,
        BLOCKS,
        &[
            Turn::Take(Index::Block, 0, TakeAnswer::Taken(Ticket { number: 0 })),
            TAKES_AGAIN,
            Turn::Step(Index::Block, StepKind::RootDown, 0, 0),
            IS_STALE,
            Turn::Finish(1, FinishAnswer::Installed),
            Turn::Live(
                SampleCall::Read("/x", 20_479, 4),
                ExpectedReply::Data(b"\0\xa5"),
            ),
        ],
    ],
    // the other index has no job there, nor does a slot that does not exist
    &[
        OPENING,
        &[
            Turn::Take(Index::Block, 0, TakeAnswer::NotThere),
            Turn::Take(Index::Meta, 1, TakeAnswer::NotThere),
            Turn::Take(Index::Meta, u8::MAX, TakeAnswer::NotThere),
            TAKES,
        ],
    ],
];

/// Whether each run has the expected answers.
fn are_followed(alloc: Global, volume: &mut Volume, row: Row) -> bool {
    for turns in row {
        if !follows(alloc, volume, turns) {
            return false;
        }
    }
    true
}

/// Whether each run in a new volume has the expected answers.
fn is_followed(alloc: Global, row: Row) -> bool {
    match new_volume(alloc, SMALL) {
        Ok(mut volume) => are_followed(alloc, &mut volume, row),
        Err(_) => false,
    }
}

#[test]
fn jobs_are_answered_as_each_row_says(rt: HostRuntime) {
    for (number, row) in ROWS.iter().enumerate() {
        assert!(rt; is_followed(rt.alloc(), row), "row {number}");
    }
}

/// A request to a volume by its own calls.
#[derive(Clone, Copy)]
enum Act {
    /// Takes a job at the first slot of the metadata's root, with the ticket that is given, if one is.
    Take(Option<u64>),
    /// Removes the mark of this ticket.
    Cancel(u64),
    /// Removes all marks.
    CancelAll,
}

const ACTS: &[Act] = &[
    Act::Take(Some(0)),
    Act::Take(None),
    Act::Cancel(1),
    Act::Take(None),
    Act::Cancel(0),
    Act::Take(Some(1)),
    Act::Cancel(0),
    Act::Take(None),
    Act::CancelAll,
    Act::Take(Some(2)),
];

/// The ticket of a job that is taken at the first slot of the metadata's root, if its child can have one more owner. All is
/// dropped.
fn taken(alloc: Global, volume: &mut Volume) -> Option<u64> {
    match volume.take_job(alloc, Index::Meta, 0) {
        TakeReply::Taken(job) => job.subtree().is_some().then_some(job.ticket().number),
        _ => None,
    }
}

/// Whether an operation has its expected result.
fn is_done(alloc: Global, volume: &mut Volume, act: Act) -> bool {
    match act {
        Act::Take(wanted) => taken(alloc, volume) == wanted,
        Act::Cancel(number) => {
            volume.cancel(Ticket::of(number));
            true
        }
        Act::CancelAll => {
            volume.cancel_all();
            true
        }
    }
}

/// The number of operations with their expected results, before the first that fails.
fn count_done(alloc: Global, volume: &mut Volume) -> usize {
    let mut count = 0usize;
    for act in ACTS {
        if !is_done(alloc, volume, *act) {
            return count;
        }
        count = count.saturating_add(1);
    }
    count
}

/// The number of operations after the opening with their expected results, before the first that fails.
fn count_behind_opening(alloc: Global, volume: &mut Volume) -> usize {
    if !follows(alloc, volume, OPENING) {
        return 0;
    }
    count_done(alloc, volume)
}

/// The number of operations in a new volume, after the opening, with their expected results, before the first that
/// fails.
fn count_in_new(alloc: Global) -> usize {
    match new_volume(alloc, SMALL) {
        Ok(mut volume) => count_behind_opening(alloc, &mut volume),
        Err(_) => 0,
    }
}

#[test]
fn marks_are_cancelled(rt: HostRuntime) {
    assert_eq!(rt; count_in_new(rt.alloc()), ACTS.len());
}

/// The reply to installing: whether it was done, or the mark was removed.
fn installed(volume: &mut Volume, done: Done) -> FinishAnswer
    requires { DoneFits done (live_of volume.old) }
{
    match volume.install(done) {
        InstallReply::Installed => FinishAnswer::Installed,
        InstallReply::Stale => FinishAnswer::Stale,
        InstallReply::NoMemory(_) => FinishAnswer::NoMemory,
    }
}

/// Takes a job of this slot of the metadata's root, builds it and installs it; its mark is cancelled before on request.
fn take_and_install(alloc: Global, volume: &mut Volume, cancelled: bool) -> FinishAnswer {
    let TakeReply::Taken(job) = volume.take_job(alloc, Index::Meta, 0) else {
        return FinishAnswer::NotThere;
    };
    let Ok(done) = job.build(alloc) else {
        return FinishAnswer::NoMemory;
    };
    if cancelled {
        volume.cancel(done.ticket());
    }
    installed(volume, done)
}

/// Whether of two jobs in turn the first is cancelled, the second is installed, and there are six directories then.
fn installs(alloc: Global, volume: &mut Volume) -> bool {
    take_and_install(alloc, volume, true) == FinishAnswer::Stale
        && take_and_install(alloc, volume, false) == FinishAnswer::Installed
        && take_and_install(alloc, volume, false) == FinishAnswer::NotThere
        && answers(alloc, volume, SampleCall::Readdir("/"), SIX)
}

/// Whether in a new volume, after the opening, the first of two jobs is cancelled and the second is installed.
fn installs_behind_opening(alloc: Global) -> bool {
    match new_volume(alloc, SMALL) {
        Ok(mut volume) => { follows(alloc, &mut volume, OPENING) && installs(alloc, &mut volume) }
        Err(_) => false,
    }
}

#[test]
fn job_is_installed(rt: HostRuntime) {
    assert!(rt; installs_behind_opening(rt.alloc()));
}
