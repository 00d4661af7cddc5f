//! Rows as data: each line of the input is a command at registries that answer by a script, and is printed with what it comes to.
#![tactic(auto)]

mod script;
mod told;

use image_ref::{ImageRef, RefFault, parse_docker, parse_named};
use registries_conf::{Conf, ConfFault, read_conf};
use registry_commands::{delete, list_tags};
use script::{Line, wire_to};
use skopeo_outside::{Lane, Many, MemFiles, Memory, Text};
use std::alloc::Global;
use std::io;
use told::{deleted_text, listed_text};

/// The configuration of a column, in which `~` stands for a line feed; `None` where it is none.
fn conf_of(alloc: Global, column: &str) -> Result<Option<Conf>, Memory> {
    let mut bytes = Many::new(alloc);
    for (at, line) in column.split('~').enumerate() {
        if at > 0 {
            bytes.extend(b"\n")?;
        }
        bytes.extend(line.as_bytes())?;
    }
    match read_conf(alloc, bytes.as_slice()) {
        Ok(conf) => Ok(Some(conf)),
        Err(ConfFault::Memory) => Err(Memory),
        Err(_) => Ok(None),
    }
}

/// A reading, where there is one.
fn found(read: Result<ImageRef, RefFault>) -> Result<Option<ImageRef>, Memory> {
    match read {
        Ok(image) => Ok(Some(image)),
        Err(RefFault::Memory) => Err(Memory),
        Err(_) => Ok(None),
    }
}

/// Whether TLS is verified, where a column says so.
fn tls_of(word: &str) -> Option<bool> {
    match word {
        "verify" => Some(true),
        "plain" => Some(false),
        _ => None,
    }
}

/// A lane without files, both of whose wires lead to these answers.
fn lane_to(alloc: Global, answers: &str) -> Result<Lane<Line, MemFiles>, Memory> {
    Ok(Lane {
        from: wire_to(alloc, answers)?,
        to: wire_to(alloc, answers)?,
        files: MemFiles::new(alloc, Vec::new(alloc)),
        number: 0,
    })
}

/// What a command came to, and behind it what was asked on each wire.
fn ended(alloc: Global, lane: &Lane<Line, MemFiles>, found: &str) -> Result<Text, Memory> {
    let from = lane.from.line.peer().noted.as_str();
    let to = lane.to.line.peer().noted.as_str();
    Ok(Text::from_string(format!(in alloc; "{found} from:{from} to:{to}")?))
}

/// A deletion of the image that is named.
fn deletion(
    alloc: Global,
    conf: &Conf,
    named: &str,
    tls: Option<bool>,
    answers: &str,
) -> Result<Text, Memory> {
    let Some(image) = found(parse_docker(alloc, named))? else {
        return Text::from_str(alloc, "no image");
    };
    let mut lane = lane_to(alloc, answers)?;
    let end = delete(alloc, conf, &image, tls, &mut lane);
    ended(alloc, &lane, deleted_text(alloc, &end)?.as_str())
}

/// The tags of the repository that is named.
fn listing(
    alloc: Global,
    conf: &Conf,
    named: &str,
    tls: Option<bool>,
    answers: &str,
) -> Result<Text, Memory> {
    let Some(repository) = found(parse_named(alloc, named))? else {
        return Text::from_str(alloc, "no repository");
    };
    let mut lane = lane_to(alloc, answers)?;
    let end = list_tags(alloc, conf, &repository, tls, &mut lane);
    ended(alloc, &lane, listed_text(alloc, &end)?.as_str())
}

/// What a command comes to. Its input is `NAME OPTION | CONFIGURATION | ANSWERS`.
fn answer(alloc: Global, command: &str, input: &str) -> Result<Text, Memory> {
    let (names, rest) = input.split_once(" | ").unwrap_or((input, ""));
    let (column, answers) = rest.split_once(" | ").unwrap_or((rest, ""));
    let (named, word) = names.split_once(" ").unwrap_or((names, ""));
    let Some(conf) = conf_of(alloc, column)? else {
        return Text::from_str(alloc, "no configuration");
    };
    let tls = tls_of(word);
    match command {
        "delete" => deletion(alloc, &conf, named, tls, answers),
        _ => listing(alloc, &conf, named, tls, answers),
    }
}

/// A row is `COMMAND | REASON | INPUT`, and is printed with its answer behind it. Any other line is printed as it is.
fn print_row<R: Print + AllocGlobal>(rt: &R, row: &str) -> io::Result<()> {
    let Some((command, rest)) = row.split_once(" | ") else {
        return rt.println(row);
    };
    let Some((_, input)) = rest.split_once(" | ") else {
        return rt.println(row);
    };
    match answer(rt.alloc(), command, input) {
        Ok(answer) => println!(rt; "{row} | {}", answer.as_str()),
        Err(_) => println!(rt; "memory was wanting"),
    }
}

fn main(rt: HostRuntime) -> io::Result<()> {
    for line in rt.lines(rt.alloc()) {
        print_row(&rt, line?.as_str())?;
    }
    Ok(())
}
