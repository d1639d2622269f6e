//! The program: a session script becomes a picture with the session's history in its comments.
#![tactic(auto)]

mod ends;
mod forms;
#[cfg(test)]
mod gate_tests;
mod loads;
mod program;
#[cfg(test)]
mod tests;

use program::top;
use qws_base::{NoGate, StdSink, StdSource};
use std::alloc::Global;
use std::process::ExitCode;
use std::rt::Env;
use std::{env, io};

// The words behind the program's name; none where they are no text or there is no memory for them.
fn words_of<R: Env + AllocGlobal>(rt: &R, alloc: Global) -> Vec<String> {
    let mut words = Vec::new(alloc);
    let Ok(args) = env::args(rt) else {
        return words;
    };
    for word in args.skip(1) {
        if words.push(word).is_err() {
            return Vec::new(alloc);
        }
    }
    words
}

fn main(rt: HostRuntime) -> ExitCode {
    let alloc = rt.alloc();
    let words = words_of(&rt, alloc);
    let mut source = StdSource::new(rt.reader());
    let mut sink = StdSink::new(io::writer(&rt));
    let mut kept = None;
    let status = top(
        &rt,
        alloc,
        &words,
        &mut source,
        &mut sink,
        &NoGate,
        &mut kept,
    );
    ExitCode::from(status)
}
