//! Rows as data: each line of the input is a call on policies, and is printed with what that call answers.
#![tactic(auto)]

mod gates;
mod policies;
mod questions;
mod replies;
mod rules;
mod scopes;

use skopeo_outside::{Memory, Text};
use std::alloc::Global;
use std::io;

/// What a call on payloads, verifiers or gates answers, and a dash for what is no call.
fn gate_answer(alloc: Global, call: &str, input: &str) -> Result<Text, Memory> {
    match call {
        "payload" => questions::payload(alloc, input),
        "ask" => questions::ask_once(alloc, input),
        "input" => questions::input(alloc, input),
        "gate" => gates::gate(alloc, input),
        _ => Text::from_str(alloc, "-"),
    }
}

/// What the call of a row answers.
fn answer(alloc: Global, call: &str, input: &str) -> Result<Text, Memory> {
    match call {
        "policy" => policies::policy(alloc, input.as_bytes()),
        "policy-bytes" => policies::policy_bytes(alloc, input),
        "lists" => policies::lists(alloc, input),
        "choice" => scopes::choice(alloc, input),
        "compared" => scopes::compared(alloc, input),
        "scopes" => scopes::scopes(alloc, input),
        "rule" => rules::rule(alloc, input),
        _ => gate_answer(alloc, call, input),
    }
}

/// Prints a row `CALL | REASON | INPUT` with its answer behind it, and any other line as it is.
fn print_row<R: Print + AllocGlobal>(rt: &R, row: &str) -> io::Result<()> {
    let Some((call, rest)) = row.split_once(" | ") else {
        return rt.println(row);
    };
    let Some((_, input)) = rest.split_once(" | ") else {
        return rt.println(row);
    };
    match answer(rt.alloc(), call, input) {
        Ok(answer) => println!(rt; "{row} | {}", answer.as_str()),
        Err(_) => println!(rt; "memory was wanting"),
    }
}

fn main(rt: HostRuntime) -> io::Result<()> {
    for line in rt.lines(rt.alloc()) {
        print_row(&rt, line?.as_str())?;
    }
    Ok(())
}
