//! What is done with a volume: a run of events, an entry that is planted, and calls that allocate nothing.
use crate::harness::OomCase;
use crate::runs::{AT, run};
use crate::standing::{put_measures, show_volume};
use crate::window;
use jobs::Ticket;
use pathkey::Path;
use reference::Meta;
use std::alloc::Global;
use std::io::Write;
use volume::{Event, Index, Volume};

/// What is done with it.
#[derive(Drop)]
pub enum Deed {
    /// Events are run.
    Run(Vec<Event>),
    /// An entry is planted.
    Plant(Path, Meta),
    /// Marks are cancelled, and the indexes measured.
    Free,
}

/// A volume, and what is done with it.
#[derive(Drop)]
pub struct OnVolume {
    /// The volume.
    pub volume: Volume,
    /// What is done with it.
    pub deed: Deed,
}

/// Plants an entry between the two lines.
fn plant<R: Print>(
    rt: &R,
    alloc: Global,
    volume: &mut Volume,
    path: &Path,
    meta: Meta,
    out: &mut Vec<u8>,
) {
    window::open(rt);
    let told = volume.plant_entry(alloc, path, meta);
    window::close(rt);
    let _ = writeln!(out, "{told:?}");
}

/// Cancels marks and takes measures between the two lines. What is printed has room.
fn free<R: Print>(rt: &R, volume: &mut Volume, out: &mut Vec<u8>) {
    let _ = out.reserve(1_000);
    window::open(rt);
    volume.cancel(Ticket::of(0));
    volume.cancel_all();
    put_measures(volume, Index::Meta, out);
    put_measures(volume, Index::Block, out);
    window::close(rt);
}

impl OomCase for OnVolume {
    fn show(&mut self, alloc: Global, out: &mut Vec<u8>) {
        show_volume(alloc, &self.volume, out);
    }

    fn ask<R: Print>(&mut self, rt: &R, alloc: Global, out: &mut Vec<u8>) {
        match &self.deed {
            Deed::Run(events) => run(rt, alloc, &mut self.volume, events.as_slice(), out),
            Deed::Plant(path, meta) => plant(rt, alloc, &mut self.volume, path, *meta, out),
            Deed::Free => free(rt, &mut self.volume, out),
        }
    }
}

/// What is planted: a directory for `d`, or a file of a number of bytes.
pub fn meta_of(word: &str) -> Option<Meta> {
    if word == "d" {
        return Some(Meta::Dir { modified: AT });
    }
    Some(Meta::File {
        len: word.parse::<u64>().ok()?,
        modified: AT,
    })
}
