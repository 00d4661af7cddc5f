//! Rows as data: each line of the input is a step at a registry that answers by a script, and is printed with what it comes to.
#![tactic(auto)]

mod manifests;
mod pages;
mod script;
mod sites;
mod told;
mod uploads;

use skopeo_outside::{Memory, Text};
use std::alloc::Global;
use std::io;

/// What a step on manifests or pages comes to, and a dash for what is no step.
fn manifest_answer(alloc: Global, step: &str, input: &str) -> Result<Text, Memory> {
    match step {
        "manifest" => manifests::manifest(alloc, input),
        "put" => manifests::put(alloc, input),
        "delete" => manifests::delete(alloc, input),
        "tags" => pages::tags(alloc, input),
        "signatures" => pages::signatures(alloc, input),
        "base" => pages::base(alloc, input),
        _ => Text::from_str(alloc, "-"),
    }
}

/// What the step of a row comes to.
fn answer(alloc: Global, step: &str, input: &str) -> Result<Text, Memory> {
    match step {
        "have" => uploads::have(alloc, input),
        "mount" => uploads::mount(alloc, input),
        "uploaded" => uploads::upload(alloc, input),
        "blob" => manifests::blob(alloc, input),
        _ => manifest_answer(alloc, step, input),
    }
}

/// A row is `STEP | REASON | INPUT`, and is printed with its answer behind it. Any other line is printed as it is.
fn print_row<R: Print + AllocGlobal>(rt: &R, row: &str) -> io::Result<()> {
    let Some((step, rest)) = row.split_once(" | ") else {
        return rt.println(row);
    };
    let Some((_, input)) = rest.split_once(" | ") else {
        return rt.println(row);
    };
    match answer(rt.alloc(), step, input) {
        Ok(answer) => println!(rt; "{row} | {}", answer.as_str()),
        Err(_) => println!(rt; "memory was wanting"),
    }
}

fn main(rt: HostRuntime) -> io::Result<()> {
    for line in rt.lines(rt.alloc()) {
        print_row(&rt, line?.as_str())?;
    }
    Ok(())
}
