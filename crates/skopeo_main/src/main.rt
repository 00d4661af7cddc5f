//! The program: real files, connections and streams behind the traits, sixteen lanes, and the command's status as its own.
#![tactic(auto)]

ghost use Rattle.std.specs.Prelude.{◌≡◌, ◌≤◌, IfOk};
ghost use Rattle.skopeo_outside.specs.Seen.{AreLanes};

mod begin;
mod notes;
mod stream;

use begin::{Unbegun, begin, refuse};
use notes::explain;
use real_files::{Disk, Progress, RealFiles};
use real_helper::RealHelper;
use real_wires::RealWire;
use skopeo_app::skopeo;
use skopeo_outside::Lane;
use skopeo_words::{Command, read_words};
use std::alloc::{AllocError, Global};
use std::io::IsTerminal;
use std::net::Net;
use std::process::ExitCode;
use stream::Stream;

/// The lanes of a copy.
const LANES: u32 = 16;

/// Sixteen lanes over real connections and files, each numbered by its place.
#[tactic(auto, using(skopeo_app::proofs::NumberLemmas::one_more, skopeo_app::proofs::NumberLemmas::are_lanes))]
fn make_lanes<'r, R: Disk + Net>(
    alloc: Global,
    rt: &'r R,
    progress: &'r Progress<'r, R>,
) -> Result<Vec<Lane<RealWire<'r, R>, RealFiles<'r, R>>>, AllocError>
    ensures { IfOk result (λ lanes. AreLanes lanes.items) }
{
    let mut lanes = Vec::new(alloc);
    for number in 0..LANES {
        lanes.push(Lane {
            from: RealWire::new(rt),
            to: RealWire::new(rt),
            files: RealFiles::new(rt, progress),
            number,
        })?;
    }
    Ok(lanes)
}

/// Whether a copy is asked for that may write other lines than those of a refusal.
fn may_show(alloc: Global, words: &[String]) -> bool {
    match read_words(alloc, words) {
        Ok(Command::Copy { quiet, .. }) => !quiet,
        _ => false,
    }
}

fn main(rt: HostRuntime) -> ExitCode {
    let alloc = rt.alloc();
    let begin = match begin(&rt) {
        Ok(begin) => begin,
        Err(why) => return ExitCode::from(refuse(&rt, &why)),
    };
    let is_watched = rt.stderr().is_terminal() && may_show(alloc, &begin.words);
    let progress = Progress::new(&rt, is_watched);
    let mut lanes = match make_lanes(alloc, &rt, &progress) {
        Ok(lanes) => lanes,
        Err(_) => return ExitCode::from(refuse(&rt, &Unbegun::Memory)),
    };
    let mut helper = RealHelper::new(&rt);
    let mut out = Stream::new(rt.stdout(), &progress);
    let mut err = Stream::new(rt.stderr(), &progress);
    let status = skopeo(
        &rt,
        alloc,
        &begin.words,
        begin.home.as_str(),
        begin.cwd.as_str(),
        &mut lanes,
        &mut helper,
        &mut out,
        &mut err,
    );
    explain(&rt, status, lanes.as_slice(), &out);
    ExitCode::from(status)
}
