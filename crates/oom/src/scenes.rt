//! The scenes by their words.
use crate::clients::Wish;
use crate::engines::{Scene, over};
use crate::harness::ask;
use crate::opening::open;
use crate::runs::{AT, events_of};
use crate::volumes::{Deed, OnVolume, meta_of};
use crate::{cases, small};
use pathkey::SnapName;
use reference::Call;
use shell::read_request;
use std::alloc::Global;
use std::sync::Wait;
use test_support::SampleCall;
use test_support::ask::path;
use volume::Volume;

/// The word at this index.
fn word_at<'a>(words: &'a [&'a str], at: usize) -> Option<&'a str> {
    words.get(at).copied()
}

/// The deed that words name.
fn deed_of(alloc: Global, name: &str, words: &[&str]) -> Option<Deed> {
    match name {
        "run" => Some(Deed::Run(events_of(alloc, words)?)),
        "plant" => {
            let meta = meta_of(word_at(words, 1)?)?;
            Some(Deed::Plant(path(alloc, word_at(words, 0)?).ok()?, meta))
        }
        "free" => Some(Deed::Free),
        _ => None,
    }
}

/// Does a deed on a volume.
fn on_volume<R: Print>(
    rt: &R,
    alloc: Global,
    volume: Volume,
    deed: Option<Deed>,
    out: &mut Vec<u8>,
) -> bool {
    match deed {
        Some(deed) => {
            ask(rt, alloc, &mut OnVolume { volume, deed }, out);
            true
        }
        None => false,
    }
}

/// The calls of the list that is done whole or not at all.
const CALLS: [SampleCall<'static>; 5] = [
    SampleCall::Mkdir("/x"),
    SampleCall::Create("/x/y"),
    SampleCall::Write("/x/y", 4_090, b"0123456789"),
    SampleCall::Rename("/x", "/z"),
    SampleCall::Stat("/z/y"),
];

/// Adds a call; returns whether that succeeded.
fn add(alloc: Global, calls: &mut Vec<(Call, u64)>, ask: SampleCall<'static>) -> bool {
    match ask.call(alloc) {
        Ok(call) => calls.push((call, AT)).is_ok(),
        Err(_) => false,
    }
}

/// The calls of the list.
fn listed_calls(alloc: Global) -> Vec<(Call, u64)> {
    let mut calls = Vec::new(alloc);
    for ask in CALLS {
        if !add(alloc, &mut calls, ask) {
            return calls;
        }
    }
    calls
}

/// The scene of an engine that words name, with a snapshot; `None` if they name none.
fn scene_of<'a>(words: &'a [&'a str], name: &'a SnapName) -> Option<Scene<'a>> {
    match word_at(words, 0)? {
        "room" => Some(Scene::Room),
        "engine" => Some(Scene::Open),
        "flusher" => Some(Scene::Flusher),
        "close" => Some(Scene::Close),
        "turn" => Some(Scene::Turn(word_at(words, 1)?.parse::<u32>().ok()?, None)),
        "stale_turn" => Some(Scene::Turn(0, Some(name))),
        "client_freeze" => Some(Scene::Client(Wish::Freeze)),
        "client_frozen" => Some(Scene::Client(Wish::Frozen(name))),
        "client_made" => Some(Scene::Client(Wish::Made)),
        _ => None,
    }
}

/// What a client does.
fn by_client<R: Print + Wait>(
    rt: &R,
    alloc: Global,
    volume: Volume,
    wish: Wish<'_>,
    out: &mut Vec<u8>,
) -> bool {
    over(rt, alloc, volume, Scene::Client(wish), out)
}

/// A client does what a line asks for.
fn line<R: Print + Wait>(
    rt: &R,
    alloc: Global,
    volume: Volume,
    text: &str,
    out: &mut Vec<u8>,
) -> bool {
    let request = read_request(alloc, text.as_bytes());
    by_client(rt, alloc, volume, Wish::Line(&request), out)
}

/// A client does the calls of the list.
fn transact<R: Print + Wait>(rt: &R, alloc: Global, volume: Volume, out: &mut Vec<u8>) -> bool {
    let calls = listed_calls(alloc);
    by_client(rt, alloc, volume, Wish::Transact(calls.as_slice()), out)
}

/// What is done behind a script.
fn behind<R: Print + Wait>(
    rt: &R,
    alloc: Global,
    words: &[&str],
    text: &[u8],
    out: &mut Vec<u8>,
) -> Option<bool> {
    let volume = open(alloc, text, out)?;
    let (name, others) = words.split_first()?;
    match *name {
        "run" | "plant" | "free" => {
            Some(on_volume(rt, alloc, volume, deed_of(alloc, name, others), out))
        }
        "client" => Some(line(rt, alloc, volume, word_at(others, 0)?, out)),
        "client_transact" => Some(transact(rt, alloc, volume, out)),
        _ => on_engine(rt, alloc, volume, words, out),
    }
}

/// What is done with an engine, and with the snapshot of the second word.
fn on_engine<R: Print + Wait>(
    rt: &R,
    alloc: Global,
    volume: Volume,
    words: &[&str],
    out: &mut Vec<u8>,
) -> Option<bool> {
    let named = word_at(words, 1).unwrap_or("s");
    match SnapName::parse(alloc, named.as_bytes()) {
        Ok(name) => Some(over(rt, alloc, volume, scene_of(words, &name)?, out)),
        Err(_) => None,
    }
}

/// Does the scene that the words name, over what was read. None where they name none, or the opening cannot be had.
pub fn play<R: Print + Wait>(
    rt: &R,
    alloc: Global,
    words: &[&str],
    text: &[u8],
    out: &mut Vec<u8>,
) -> Option<bool> {
    let (name, others) = words.split_first()?;
    match *name {
        "small" => Some(small::scene(rt, alloc, out)),
        "list_costs" => {
            let count = word_at(others, 1)?.parse::<u32>().ok()?;
            Some(cases::scene(rt, alloc, word_at(others, 0)?, count, out).is_ok())
        }
        _ => behind(rt, alloc, words, text, out),
    }
}
