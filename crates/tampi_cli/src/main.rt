//! The program: hands its words, the standard input and the standard output to the top call, and ends with the status.
#![tactic(auto)]

use rt_base::{OpenGate, StdinSource, StdoutSink};
use std::alloc::{AllocError, Global};
use std::env;
use std::io::ErrorKind;
use std::process::ExitCode;
use std::rt::Env;
use tampi_top::tampi;

// The exit status of a program that has no memory for its words.
const NO_MEMORY: u8 = 6;

// One empty word, which gives no command.
fn no_command(alloc: Global) -> Result<Vec<String>, AllocError> {
    let mut words = Vec::new(alloc);
    words.push(String::new(alloc))?;
    Ok(words)
}

// The words behind the program's name. Where one of them is no UTF-8, none of them is to be had, and they give no command.
fn words_of<R: Env + AllocGlobal>(rt: &R) -> Result<Vec<String>, AllocError> {
    match env::args(rt) {
        Ok(mut words) => {
            let _ = words.next();
            words.collect(rt.alloc())
        }
        Err(error) => match error.kind() {
            ErrorKind::OutOfMemory => Err(AllocError),
            _ => no_command(rt.alloc()),
        },
    }
}

fn main(rt: HostRuntime) -> ExitCode {
    match words_of(&rt) {
        Ok(words) => {
            let mut input = StdinSource::new(rt.stdin());
            let mut out = StdoutSink::new(rt.stdout());
            let outcome = tampi(
                &rt,
                rt.alloc(),
                words.as_slice(),
                &mut input,
                &mut out,
                &OpenGate,
            );
            ExitCode::from(outcome.status)
        }
        Err(_) => ExitCode::from(NO_MEMORY),
    }
}
