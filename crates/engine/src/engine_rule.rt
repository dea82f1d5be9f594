//! The table of an engine: its rule (`Sits`), the four kinds of step on its words, and how views are split and joined.
//! Every step and every split or join of seats preserves the rule.
ghost use Rattle.std.specs.Prelude.{◌≡◌};
ghost use Rattle.atomic_table.specs.Seated.{TableId};

use crate::view::View;
use atomic_table::{Join, Play, Seat as TableSeat, Shared, Split, Table, TableRule};
use std::alloc::Global;
use std::marker::{Brand, PhantomData};
use volume::Volume;

/// Names one engine: its table, the volume that it was opened with, and how many clients it has.
pub trait EngineId {
    ghost use Rattle.atomic_table.specs.Seated.{TableId};
    ghost use Rattle.std.specs.Prelude.{ℕ};
    ghost use Rattle.volume.specs.Volumes.{PVolume};

    /// The engine's table.
    ghost table: { TableId };

    /// The volume that the engine was opened with.
    ghost opening: { PVolume };

    /// The number of its clients.
    ghost clients: { ℕ };
}

impl EngineId for Brand {
    ghost use Rattle.engine.specs.Named.{no_table, no_volume};

    ghost table = { no_table };

    ghost opening = { no_volume };

    ghost clients = { 0 };
}

/// One call and its answer, for proofs.
pub trait RecordedCall {
    ghost use Rattle.reference.specs.Worlds.{Event, Answer};

    ghost event: { Event };

    ghost answer: { Answer };
}

impl RecordedCall for Brand {
    ghost use Rattle.std.specs.Prelude.{[], Ok};
    ghost use Rattle.reference.specs.Worlds.{TakeSnapshot, Settled};

    ghost event = { TakeSnapshot [] };

    ghost answer = { Settled (Ok tt) };
}

/// One job, for proofs.
pub trait Taking {
    ghost use Rattle.volume.specs.declared.job.Job.{Job};

    ghost job: { Job };
}

impl Taking for Brand {
    ghost use Rattle.engine.specs.Named.{no_job};

    ghost job = { no_job };
}

/// The rule of the table. Its two words count the calls and the taken jobs.
pub struct EngineRule;

impl TableRule<(), View, Volume> for EngineRule {
    ghost use Rattle.std.specs.Prelude.{[]};
    ghost use Rattle.engine.specs.Rule.{Kept};
    ghost use Rattle.engine.specs.Views.{keeper};

    ghost holds = { Kept };

    ghost first = { λ o. keeper o 0 [] [] };
}

/// A client announces a call.
pub struct AnnounceStep;

impl Play<(), View> for AnnounceStep {
    ghost use Rattle.engine.specs.Rule.{Announced};

    ghost then = { Announced };
}

/// The engine records a call of the client whose seat is joined.
pub struct RecordStep<E> {
    of: PhantomData<E>,
}

impl<E: RecordedCall> Play<(), View> for RecordStep<E> {
    ghost use Rattle.engine.specs.Rule.{Recorded};

    ghost then = { Recorded E.event E.answer };
}

/// The engine records that a job was taken.
pub struct TakeStep<E> {
    of: PhantomData<E>,
}

impl<E: Taking> Play<(), View> for TakeStep<E> {
    ghost use Rattle.engine.specs.Rule.{Took};

    ghost then = { Took E.job };
}

/// A client or a flusher has seen what was reported to its seat.
pub struct LearnStep;

impl Play<(), View> for LearnStep {
    ghost use Rattle.engine.specs.Rule.{Learned};

    ghost then = { Learned };
}

/// The engine's seat is split into itself and a new client's seat.
pub struct SplitClientSeat;

impl Split<View> for SplitClientSeat {
    ghost use Rattle.engine.specs.Views.{one_more, new_guest};

    ghost left = { one_more };

    ghost right = { new_guest };
}

/// A seat that has seen nothing is split into itself and a flusher's seat.
pub struct SplitFlusherSeat;

impl Split<View> for SplitFlusherSeat {
    ghost use Rattle.engine.specs.Views.{new_watcher};

    ghost left = { λ v. v };

    ghost right = { new_watcher };
}

/// The engine's seat is joined with another one and split again. The history and the takings are then reported to the other.
pub struct SyncSeats;

impl Split<View> for SyncSeats {
    ghost use Rattle.engine.specs.Views.{without_guest, reported_guest};

    ghost left = { without_guest };

    ghost right = { reported_guest };
}

impl Join<View> for SyncSeats {
    ghost use Rattle.engine.specs.Views.{with_guest, spent_view};

    ghost both = { with_guest };

    ghost spent = { spent_view };
}

/// The part of the table that threads share.
pub type SharedCounters = Shared<(), View, Volume, EngineRule>;

/// The table.
pub type CallTable = Table<(), View, Volume, EngineRule, Global>;

/// A seat of the table.
pub type Seat = TableSeat<(), View>;
