//! `dapi`: a JSON document service.
#![tactic(auto)]

mod note;
mod seed;
#[cfg(test)]
mod tests;
mod top;
mod words;

use keeper_mem::MemKeeper;
use outside_io::{RealClock, RealSink, RealSource};
use std::env;
use std::io::ErrorKind;
use std::process::ExitCode;
use words::WordFault;

// The words after the program's name. One that isn't UTF-8 is of no command.
fn words_of(rt: HostRuntime) -> Result<Vec<String>, WordFault> {
    let all = match env::args(&rt) {
        Ok(all) => all,
        Err(error) if error.kind() == ErrorKind::InvalidData => return Err(WordFault::Usage),
        Err(_) => return Err(WordFault::NoMemory),
    };
    let mut words = Vec::new(rt.alloc());
    for word in all.skip(1) {
        let Ok(()) = words.push(word) else {
            return Err(WordFault::NoMemory);
        };
    }
    Ok(words)
}

fn main(rt: HostRuntime) -> ExitCode {
    let mut notes = RealSink::new(rt.stderr());
    let words = match words_of(rt) {
        Ok(words) => words,
        Err(fault) => return ExitCode::from(top::refuse_words(&mut notes, fault)),
    };
    let seed = match seed::seed_from(&rt) {
        Ok(seed) => seed,
        Err(_) => return ExitCode::from(top::refuse_seed(&mut notes)),
    };
    let mut source = RealSource::new(rt.stdin());
    let mut sink = RealSink::new(rt.stdout());
    let mut clock = RealClock::new(rt);
    let keeper = MemKeeper::new(rt.alloc(), Vec::new(rt.alloc()), 0);
    let (status, _keeper) = top::dapi(
        rt.alloc(),
        words.as_slice(),
        &mut source,
        &mut sink,
        &mut notes,
        keeper,
        &mut clock,
        &seed,
    );
    ExitCode::from(status)
}
