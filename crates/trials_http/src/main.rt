//! Rows as data: each line of the input is a message, an exchange or a request, and is printed with what it comes to.
#![tactic(auto)]

mod bodies;
mod exchanges;
mod labs;
mod messages;
mod outcomes;
mod registry;
mod requests;
mod script;
mod spelling;

use skopeo_outside::{Memory, Text};
use std::alloc::Global;
use std::io;

/// What a call on bodies or on what is in memory answers. A call that is none of these is the method of a request.
fn body_answer(alloc: Global, call: &str, input: &str) -> Result<Text, Memory> {
    match call {
        "body" => bodies::body(alloc, input),
        "calls" => bodies::calls(alloc, input),
        "filled" => bodies::filled(alloc, input),
        "registry" => registry::registry(alloc, input),
        "connection" => labs::connection(alloc, input),
        "task" => labs::task(alloc, input),
        "judge" => labs::judge(alloc, input),
        method => exchanges::exchanged(alloc, method, input),
    }
}

/// What the call of a row answers.
fn answer(alloc: Global, call: &str, input: &str) -> Result<Text, Memory> {
    match call {
        "head" => messages::head(alloc, input),
        "line" => messages::chunk_line(alloc, input),
        "trailer" => messages::trailer(alloc, input),
        "ends" => messages::ends(alloc, input),
        "request" => requests::request(alloc, input),
        "unlimited" => exchanges::unlimited(alloc, input),
        "first" => exchanges::first(alloc, input),
        "cuts" => exchanges::cuts(alloc, input),
        "upload" => exchanges::upload(alloc, input),
        _ => body_answer(alloc, call, input),
    }
}

/// A row is `CALL | REASON | INPUT`, and is printed with its answer behind it. Any other line is printed as it is.
fn print_row<R: Print + AllocGlobal>(rt: &R, row: &str) -> io::Result<()> {
    let Some((call, rest)) = row.split_once(" | ") else {
        return rt.println(row);
    };
    let Some((_, input)) = rest.split_once(" | ") else {
        return rt.println(row);
    };
    match answer(rt.alloc(), call, input) {
        Ok(answer) => println!(rt; "{row} | {}", answer.as_str()),
        Err(_) => println!(rt; "memory was wanting"),
    }
}

fn main(rt: HostRuntime) -> io::Result<()> {
    for line in rt.lines(rt.alloc()) {
        print_row(&rt, line?.as_str())?;
    }
    Ok(())
}
