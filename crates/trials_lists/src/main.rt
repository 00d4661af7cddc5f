//! Rows as data: each line of the input is a call on conversions or lists, and is printed with what that call answers.
#![tactic(auto)]

mod changes;
mod lists;

use skopeo_outside::{Memory, Text};
use std::alloc::Global;
use std::io;

/// What the call of a row answers, and a dash for what is no call.
fn answer(alloc: Global, call: &str, input: &str) -> Result<Text, Memory> {
    match call {
        "convert" => changes::converted(alloc, input),
        "written" => changes::written(alloc, input),
        "back" => changes::back(alloc, input),
        "list" => lists::list(alloc, input),
        "choose" => lists::choose(alloc, input),
        "convert-list" => lists::convert(alloc, input),
        _ => Text::from_str(alloc, "-"),
    }
}

/// Prints a row `CALL | REASON | INPUT` with its answer behind it, and any other line as it is.
fn print_row<R: Print + AllocGlobal>(rt: &R, row: &str) -> io::Result<()> {
    let Some((call, rest)) = row.split_once(" | ") else {
        return rt.println(row);
    };
    let Some((_, input)) = rest.split_once(" | ") else {
        return rt.println(row);
    };
    match answer(rt.alloc(), call, input) {
        Ok(answer) => println!(rt; "{row} | {}", answer.as_str()),
        Err(_) => println!(rt; "memory was wanting"),
    }
}

fn main(rt: HostRuntime) -> io::Result<()> {
    for line in rt.lines(rt.alloc()) {
        print_row(&rt, line?.as_str())?;
    }
    Ok(())
}
