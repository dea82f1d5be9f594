//! `oom SCENE [WORDS]`: makes one call behind an opening that it reads, and prints what stood before, what was answered and
//! what stands behind it.
//!
//! It prints a line `asked` before the call and a line `told` behind it, and nothing else between them: so another program knows
//! which requests for memory are the call's, and can refuse them (`tests/oom/run` at the top).
#![tactic(auto)]

pub mod cases;
pub mod clients;
pub mod engines;
pub mod harness;
pub mod lists;
pub mod opening;
pub mod runs;
pub mod scenes;
pub mod small;
pub mod standing;
pub mod volumes;
pub mod window;

use crate::scenes::play;
use std::alloc::Global;
use std::io::{Read, Write};
use std::process::ExitCode;
use std::rt::Env;
use std::sync::Wait;
use std::{env, io};

fn main(rt: HostRuntime) -> ExitCode {
    let ended = run(&rt, &mut rt.reader(), &mut io::writer(&rt));
    ExitCode::from(match ended {
        Ok(true) => 0,
        Ok(false) | Err(_) => 1,
    })
}

/// Does the scene that the words of the command line name; whether it came to its end.
fn run<H, R: Read, W: Write>(rt: &H, input: &mut R, output: &mut W) -> io::Result<bool>
where
    H: Alloc<A = Global> + Env + Wait + Print,
{
    let alloc = rt.alloc();
    let arguments: Vec<String> = env::args(rt)?.collect(alloc)?;
    let mut words: Vec<&str> = Vec::new(alloc);
    for argument in arguments.iter() {
        words.push(argument.as_str())?;
    }
    play_words(rt, alloc, words.as_slice(), input, output)
}

/// Does the scene that these words name behind the program's name; whether it came to its end.
fn play_words<H: Wait + Print, R: Read, W: Write>(
    rt: &H,
    alloc: Global,
    words: &[&str],
    input: &mut R,
    output: &mut W,
) -> io::Result<bool> {
    let mut text = Vec::new(alloc);
    input.read_to_end(&mut text)?;
    let mut out = Vec::new(alloc);
    let ended = match words.split_first() {
        Some((_, others)) => play(rt, alloc, others, text.as_slice(), &mut out),
        None => None,
    };
    output.write_all(out.as_slice())?;
    Ok(ended == Some(true))
}
