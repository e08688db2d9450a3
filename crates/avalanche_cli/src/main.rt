//! `avalanche`: the program, and its top call `run`.
#![tactic(auto)]

mod delivery;
mod end;
mod fetch;
pub mod laws;
mod line;
mod outcome;
mod program;
mod reading;
mod reception;
mod relay;
mod room;
mod seed;
mod sending;
mod stream;
mod trace;

use avalanche_args::WordClass;
pub use end::End;
use line::write_line;
use linear_spec::Words;
pub use outcome::Outcome;
pub use program::run;
use receive_pass::NoGate;
use std::env;
use std::io::{self, ErrorKind};
use std::process::ExitCode;
use std::rt::Env;
use swarm_io::{StdSink, StdSource};
pub use trace::{SendEntry, Trace};

fn main(rt: HostRuntime) -> ExitCode {
    let mut errors = StdSink::new(rt.stderr());
    let end = match words_of(&rt) {
        Ok(words) => {
            let mut input = StdSource::new(rt.stdin());
            let mut output = StdSink::new(rt.stdout());
            run(
                &rt,
                rt.alloc(),
                &NoGate,
                &words,
                &mut input,
                &mut output,
                &mut errors,
            )
            .end
        }
        Err(end) => {
            write_line(&end, &mut errors);
            end
        }
    };
    ExitCode::from(end.status())
}

/// The words after the program's name. Where one is no text they are bad words.
fn words_of<R: Env + AllocGlobal>(rt: &R) -> Result<Words, End> {
    let mut words = Words::new(rt.alloc());
    for word in env::args(rt).map_err(|error| end_of_words(&error))?.skip(1) {
        words.push(word.as_str())?;
    }
    Ok(words)
}

fn end_of_words(error: &io::Error) -> End {
    match error.kind() {
        ErrorKind::OutOfMemory => End::Memory,
        _ => End::Usage(WordClass::BadWords),
    }
}

#[cfg(test)]
mod reception_tests;
#[cfg(test)]
mod tests;
