//! A volume on one page: a file is written, kept by a snapshot, written over, read as it is and as it was, and brought back.
#![tactic(auto)]

use images::print_image;
use std::alloc::Global;
use std::str;
use volume::{Errno, Path, Shape, SnapName, Volume};

fn make(alloc: Global, volume: &mut Volume) -> Result<(), Errno> {
    volume.mkdir(alloc, &Path::parse(alloc, b"/notes")?, 1)?;
    volume.create(alloc, &Path::parse(alloc, b"/notes/today")?, 1)
}

fn write(alloc: Global, volume: &mut Volume, text: &[u8], at: u64) -> Result<u64, Errno> {
    let path = Path::parse(alloc, b"/notes/today")?;
    volume.write(alloc, &path, 0, text, at)
}

fn keep(alloc: Global, volume: &mut Volume) -> Result<(), Errno> {
    volume.snapshot(alloc, &SnapName::parse(alloc, b"monday")?)
}

fn bring_back(alloc: Global, volume: &mut Volume) -> Result<(), Errno> {
    volume.restore(&SnapName::parse(alloc, b"monday")?)
}

fn read(alloc: Global, volume: &Volume) -> Result<Vec<u8>, Errno> {
    volume.read(alloc, &Path::parse(alloc, b"/notes/today")?, 0, 1_000)
}

fn read_kept(alloc: Global, volume: &Volume) -> Result<Vec<u8>, Errno> {
    let monday = volume.frozen(&SnapName::parse(alloc, b"monday")?)?;
    monday.try_read(alloc, &Path::parse(alloc, b"/notes/today")?, 0, 1_000)
}

fn image(alloc: Global, volume: &Volume) -> anyhow::Result<Vec<u8>> {
    let mut text = Vec::new(alloc);
    print_image(alloc, &volume.freeze()?, &mut text)?;
    Ok(text)
}

fn print(rt: &impl Print, when: &str, bytes: Vec<u8>) -> anyhow::Result<()> {
    let text = str::from_utf8(bytes.as_slice()).unwrap_or("no text");
    println!(rt; "{when}: {text}")?;
    Ok(())
}

fn main(rt: HostRuntime) -> anyhow::Result<()> {
    let alloc = rt.alloc();
    let mut volume = Volume::new(alloc, Shape::USUAL)?;
    make(alloc, &mut volume)?;
    write(alloc, &mut volume, b"first words", 2)?;
    keep(alloc, &mut volume)?;
    write(alloc, &mut volume, b"other", 3)?;
    print(&rt, "now", read(alloc, &volume)?)?;
    print(&rt, "kept", read_kept(alloc, &volume)?)?;
    bring_back(alloc, &mut volume)?;
    print(&rt, "back", image(alloc, &volume)?)
}
