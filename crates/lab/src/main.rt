//! A verifier for trials, or a registry for trials on a port of this machine, as the words of the command line say.
#![tactic(auto)]

mod registry;

use lab_registry::{Task, answer_question, read_task};
use registry::run_registry;
use std::process::ExitCode;
use std::rt::Env;
use std::{env, io};

/// The words that are known, beside none.
const KNOWN: &str = "lab registry PORT COUNT";

/// The words of the command line, without the program's name.
fn read_words<R: Env + AllocGlobal>(rt: &R) -> io::Result<Vec<String>> {
    let mut words = Vec::new(rt.alloc());
    for word in env::args(rt)?.skip(1) {
        words.push(word)?;
    }
    Ok(words)
}

fn main(rt: HostRuntime) -> ExitCode {
    let words = match read_words(&rt) {
        Ok(words) => words,
        Err(error) => {
            let _ = eprintln!(rt; "lab: {error}");
            return ExitCode::from(1);
        }
    };
    match read_task(&words) {
        Some(Task::Verifier) => {
            match answer_question(rt.alloc(), &mut rt.stdin(), &mut rt.stdout()) {
                Ok(()) => ExitCode::SUCCESS,
                Err(why) => {
                    let _ = eprintln!(rt; "lab: {why}");
                    ExitCode::from(1)
                }
            }
        }
        Some(Task::Registry(port, count)) => match run_registry(&rt, port, count) {
            Ok(()) => ExitCode::SUCCESS,
            Err(error) => {
                let _ = eprintln!(rt; "lab: 127.0.0.1:{port}: {error}");
                ExitCode::from(1)
            }
        },
        None => {
            let _ = eprintln!(rt; "lab: known are no words, and: {KNOWN}");
            ExitCode::from(2)
        }
    }
}
