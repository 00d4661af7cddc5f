// The top call.
ghost use Rattle.std.specs.Prelude.{map};
ghost use Rattle.std.specs.String.{string_bytes};
ghost use Rattle.skopeo_outside.specs.Seen.{AreLanes, KeepsFrom, seen};
ghost use Rattle.skopeo_app.specs.Sinks.{sink_told};
ghost use Rattle.skopeo_app.specs.Task.{task_of, lanes_of};
ghost use Rattle.skopeo_app.specs.Asks.{AsksAt};
ghost use Rattle.skopeo_app.specs.Headline.{Headline};
ghost use Rattle.skopeo_app.specs.Stops.{Leaves};
ghost use Rattle.skopeo_app.specs.Answer.{told_by, CommandEnds};
ghost use Rattle.skopeo_app.specs.Runs.{Tells, Finishes};

use crate::lines::refusal_line;
use crate::refusal::CommandRefusal;
use crate::run::{Done, run};
use skopeo_outside::{Files, Helper, Lane, Sink, Wire};
use std::alloc::Global;
use std::thread::Threads;

/// Writes a refusal's line and answers its status. A line that cannot be written changes neither.
#[tactic(auto, using(crate::proofs::TellingLemmas::gained))]
fn tell<E: Sink>(alloc: Global, err: &mut E, refusal: &CommandRefusal) -> u8
    ensures { Tells refusal.now result (sink_told E.written E.faults E.wants err.old)
        (sink_told E.written E.faults E.wants err.new) }
{
    match refusal_line(alloc, refusal) {
        Ok(line) => {
            let _ = err.write(line.text.as_str().as_bytes());
            line.status
        }
        Err(_) => {
            let _ = err.write(b"skopeo: 4 OutOfMemory\n");
            4
        }
    }
}

/// Tells how the command ended, and answers its status.
#[tactic(auto, using(crate::proofs::TellingLemmas::finished, crate::proofs::TellingLemmas::refused))]
fn finish<E: Sink>(alloc: Global, err: &mut E, ended: &Result<Done, CommandRefusal>) -> u8
    ensures { Finishes ended.now result (sink_told E.written E.faults E.wants err.old)
        (sink_told E.written E.faults E.wants err.new) }
{
    match ended {
        Ok(_) => 0,
        Err(refusal) => tell(alloc, err, refusal),
    }
}

/// Does what the words say, and answers the exit status: 0 where it was done, 1 where a place, the policy, the source or a
/// blob is at fault, 2 for words, 3 where an object failed, and 4 for want of memory. Blobs are carried on as many first
/// lanes as `--lanes` says, all else is done on the first. Signatures are asked of the program that the words name, and the
/// helper is asked for nothing else. `home` is the folder of the user, or empty, and `cwd` an absolute path.
pub fn skopeo<R: Threads + Sync, W: Wire + Send, F: Files + Send, H: Helper, O: Sink, E: Sink>(
    rt: &R,
    alloc: Global,
    words: &[String],
    home: &str,
    cwd: &str,
    lanes: &mut Vec<Lane<W, F>>,
    helper: &mut H,
    out: &mut O,
    err: &mut E,
) -> u8
    requires lanes { AreLanes lanes.old.items }
    ensures headline { Headline (map string_bytes words.now) home.now cwd.now
        (seen lanes.old.items (H.runs helper.old) (H.faults helper.old))
        (seen lanes.new.items (H.runs helper.new) (H.faults helper.new)) }
    ensures leaves { Leaves (map string_bytes words.now) home.now cwd.now
        (seen lanes.old.items (H.runs helper.old) (H.faults helper.old))
        (seen lanes.new.items (H.runs helper.new) (H.faults helper.new)) }
    ensures rest { KeepsFrom (lanes_of (task_of (map string_bytes words.now) cwd.now)) lanes.old.items lanes.new.items }
    ensures asks { AsksAt (task_of (map string_bytes words.now) cwd.now) (H.runs helper.old) (H.runs helper.new) }
    ensures ends { CommandEnds (map string_bytes words.now) home.now cwd.now
        (told_by lanes.old.items (H.runs helper.old) (H.faults helper.old) (sink_told O.written O.faults O.wants out.old))
        (told_by lanes.new.items (H.runs helper.new) (H.faults helper.new) (sink_told O.written O.faults O.wants out.new))
        (sink_told E.written E.faults E.wants err.old)
        (sink_told E.written E.faults E.wants err.new)
        result }
{
    let ended = run(rt, alloc, words, home, cwd, lanes, helper, out);
    finish(alloc, err, &ended)
}
