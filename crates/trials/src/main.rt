//! Rows as data: each line of the input is a call on names, images or registries.conf, and is printed with what that call answers.
#![tactic(auto)]

mod confs;
mod images;
mod names;
mod shorts;
mod sources;
mod sums;
mod trees;
mod words;

use skopeo_outside::{Memory, Text};
use std::alloc::Global;
use std::io;

/// What a call on registries.conf answers, and a dash for what is no call.
fn conf_answer(alloc: Global, call: &str, input: &str) -> Result<Text, Memory> {
    match call {
        "read" => confs::read(alloc, input),
        "settings" => confs::settings(alloc, input),
        "prefix" => sources::prefix(alloc, input),
        "sources" => sources::sources(alloc, input),
        "insecure" => sources::insecure(alloc, input),
        "short" => shorts::short(alloc, input),
        "is-short" => shorts::is_short_name(alloc, input),
        _ => Text::from_str(alloc, "-"),
    }
}

/// What a call on manifests, trees or digests answers, or one of those above.
fn image_answer(alloc: Global, call: &str, input: &str) -> Result<Text, Memory> {
    match call {
        "image" => images::image(alloc, input.as_bytes()),
        "image-bytes" => images::image_bytes(alloc, input),
        "oci" => images::oci(alloc, input),
        "any" => images::any(alloc, input),
        "written" => images::written(alloc, input),
        "copied" => images::copied(alloc, input),
        "kind" => images::kind(alloc, input),
        "blobs" => images::blobs(alloc, input),
        "tree" => trees::tree(alloc, input),
        "made" => trees::made(alloc, input),
        "sum" => sums::sum(alloc, input.as_bytes()),
        "sum-bytes" => sums::sum_bytes(alloc, input),
        "pieces" => sums::pieces(alloc, input),
        _ => conf_answer(alloc, call, input),
    }
}

/// What the call of a row answers.
fn answer(alloc: Global, call: &str, input: &str) -> Result<Text, Memory> {
    match call {
        "name" => names::name(alloc, input),
        "named" => names::named(alloc, input),
        "repository" => names::repository(alloc, input),
        "digest" => names::digest(alloc, input),
        "digests" => names::digests(alloc, input),
        "path" => names::path(alloc, input),
        "place" => names::place(alloc, input),
        "words" => words::words(alloc, input),
        "page" => words::page(alloc, input),
        _ => image_answer(alloc, call, input),
    }
}

/// Prints a row `CALL | REASON | INPUT` with its answer behind it, and any other line as it is.
fn print_row<R: Print + AllocGlobal>(rt: &R, row: &str) -> io::Result<()> {
    let Some((call, rest)) = row.split_once(" | ") else {
        return rt.println(row);
    };
    let Some((_, input)) = rest.split_once(" | ") else {
        return rt.println(row);
    };
    match answer(rt.alloc(), call, input) {
        Ok(answer) => println!(rt; "{row} | {}", answer.as_str()),
        Err(_) => println!(rt; "memory was wanting"),
    }
}

fn main(rt: HostRuntime) -> io::Result<()> {
    for line in rt.lines(rt.alloc()) {
        print_row(&rt, line?.as_str())?;
    }
    Ok(())
}
