//! A program for timing: its words say what is done and how often, it prints a number that the work left, and the scripts in
//! bench/ time it.
//!
//! - `KERNEL LANES BYTES TIMES` takes that many turns of a kernel over vectors of that many bytes, each on what the turn
//!   before left, and prints the sum of all symbols as four hexadecimal digits. KERNEL is add_scaled, scale, dot or xor, and
//!   LANES 8, 16 or 32.
//! - `decode PIECE TIMES` reads a stream, decodes it that often from pieces of that many bytes, and prints the number of
//!   frames of all turns.
//! - `offers plain K S COUNT TIMES` makes that many packets and offers them all to a plain basis, that often, each time to a
//!   new one, and prints the number of records of all of them.
//! - `offers shared K S COUNT PASSES TIMES` does so with a shared basis: the packets are dealt to that many passes in turn, each
//!   pass in a thread of its own. A second line tells how many exchanges the passes tried, and how many of these were lost to
//!   another caller's record.
//! - `table K S PASSES TIMES` makes that many tables of such a basis, and prints the number of their words.
//! - `zeros BYTES TIMES` writes zeros over that many bytes, that often, and prints their sum.
#![tactic(auto)]

mod decoding;
mod exchanges;
mod job;
mod kernel;
mod offers;
mod shared;
mod tables;
#[cfg(test)]
mod tests;
mod work;
mod zeros;

use anyhow::{Context, Result, bail};
use decoding::Decoding;
use gf16::Memory;
use job::Job;
use linear_spec::Words;
use packet_wire::FeedError;
use shared::Outcome;
use std::alloc::Global;
use std::env;
use std::rt::Env;
use swarm_io::{Source, StdSource, read_all};

/// The most bytes that a stream may have.
const MAX_STREAM: u64 = 67_108_864;

fn main(rt: HostRuntime) -> Result<()> {
    let words = words_of(&rt)?;
    let job = Job::named(&words).context(
        "the words are KERNEL LANES BYTES TIMES, decode PIECE TIMES, offers plain K S COUNT TIMES, \
         offers shared K S COUNT PASSES TIMES, table K S PASSES TIMES or zeros BYTES TIMES",
    )?;
    match job {
        Job::Kernel(work) => {
            let sum = work.sum_after(rt.alloc())?;
            println!(rt; "{sum:04X}")?;
        }
        Job::Decode(decoding) => {
            let mut input = StdSource::new(rt.stdin());
            let frames = frames_of(rt.alloc(), &decoding, &mut input)?;
            println!(rt; "{frames}")?;
        }
        Job::OffersPlain(offers) => {
            let records = offers.records_of_plain(rt.alloc())?;
            println!(rt; "{records}")?;
        }
        Job::OffersShared(shared) => {
            let Outcome { records, exchanges } = shared.outcome(&rt, rt.alloc())?;
            println!(rt; "{records}")?;
            println!(rt; "tried {} lost {}", exchanges.tried, exchanges.lost)?;
        }
        Job::Table(tables) => {
            let words = tables.words_made(rt.alloc())?;
            println!(rt; "{words}")?;
        }
        Job::Zeros(zeros) => {
            let sum = zeros.sum_after(rt.alloc())?;
            println!(rt; "{sum}")?;
        }
    }
    Ok(())
}

/// The number of frames that the decoding of an input gives.
fn frames_of<I: Source>(alloc: Global, decoding: &Decoding, input: &mut I) -> Result<u64> {
    let bytes = read_all(alloc, input, MAX_STREAM)?;
    match decoding.frames_given(alloc, bytes.as_slice()) {
        Ok(frames) => Ok(frames),
        Err(FeedError::Memory) => Err(Memory)?,
        Err(FeedError::Fault(fault)) => bail!("the stream is bad at byte {}", fault.offset),
    }
}

/// The words after the program's name.
fn words_of<R: Env + AllocGlobal>(rt: &R) -> Result<Words> {
    let mut words = Words::new(rt.alloc());
    for word in env::args(rt)?.skip(1) {
        words.push(word.as_str())?;
    }
    Ok(words)
}
