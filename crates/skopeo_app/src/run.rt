// The steps of the command.
ghost use Rattle.std.specs.Prelude.{◌≡◌, ℕ, map};
ghost use Rattle.std.specs.String.{string_bytes};
ghost use Rattle.skopeo_outside.specs.Helper.{Runs};
ghost use Rattle.skopeo_outside.specs.Seen.{AreLanes, seen};
ghost use Rattle.skopeo_app.specs.Sinks.{sink_told};
ghost use Rattle.skopeo_app.specs.Plan.{IsSoundPlan};
ghost use Rattle.skopeo_app.specs.Ending.{copy_done, page_done};
ghost use Rattle.skopeo_app.specs.Answer.{told_by};
ghost use Rattle.skopeo_app.specs.Reads.{ReadsFirst};
ghost use Rattle.skopeo_app.specs.Copies.{CopiesImage, CopiesTask, IsCopyAnswer};
ghost use Rattle.skopeo_app.specs.Prints.{Prints, IsPageAnswer};
ghost use Rattle.skopeo_app.specs.Runs.{IsRun};

use crate::lines::print_lines;
use crate::refusal::CommandRefusal;
use crate::rules::{Rules, read_rules};
use crate::task::{CopyTask, Task, read_task};
use copy_engine::{Copied, CopiedRow, CopyPlan, copy_image};
use skopeo_outside::{Files, Helper, Lane, Many, Sink, Text, Wire};
use std::alloc::Global;
use std::thread::Threads;

/// What was done: the rows of the image that was copied, if any, and the text that was printed.
#[derive(Debug, Drop)]
pub struct Done {
    pub rows: Option<Many<CopiedRow>>,
    pub lines: Text,
}

/// The policy and the configuration that count for a task, by the files of the first lane.
fn read_rules_first<W: Wire, F: Files>(
    alloc: Global,
    home: &str,
    cwd: &str,
    task: &CopyTask,
    lanes: &mut Vec<Lane<W, F>>,
) -> Result<Rules, CommandRefusal>
    requires lanes { AreLanes lanes.old.items }
    ensures lanes { AreLanes lanes.new.items }
    ensures reads { (runs : Runs) (faults : ℕ) → ReadsFirst home.now cwd.now task.now
        (seen lanes.old.items runs faults) (seen lanes.new.items runs faults) result }
{
    read_rules(alloc, &mut lanes[0], home, cwd, task)
}

/// Copies the image of a plan.
fn copy_plan<R: Threads + Sync, W: Wire + Send, F: Files + Send, H: Helper>(
    rt: &R,
    alloc: Global,
    plan: &CopyPlan,
    rules: &Rules,
    lanes: &mut Vec<Lane<W, F>>,
    helper: &mut H,
) -> Result<Copied, CommandRefusal>
    requires plan { IsSoundPlan plan.now }
    requires lanes { AreLanes lanes.old.items }
    ensures copies { CopiesImage rules.now plan.now
        (seen lanes.old.items (H.runs helper.old) (H.faults helper.old))
        (seen lanes.new.items (H.runs helper.new) (H.faults helper.new)) result }
{
    match copy_image(rt, alloc, plan, &rules.policy, &rules.conf, lanes, helper) {
        Ok(copied) => Ok(copied),
        Err(refusal) => Err(CommandRefusal::Image(refusal)),
    }
}

/// Copies the image of a task, under the policy and the configuration that count.
fn copy_named<R: Threads + Sync, W: Wire + Send, F: Files + Send, H: Helper>(
    rt: &R,
    alloc: Global,
    home: &str,
    cwd: &str,
    task: &CopyTask,
    lanes: &mut Vec<Lane<W, F>>,
    helper: &mut H,
) -> Result<Copied, CommandRefusal>
    requires plan { IsSoundPlan task.now.plan }
    requires lanes { AreLanes lanes.old.items }
    ensures copies { CopiesTask home.now cwd.now task.now
        (seen lanes.old.items (H.runs helper.old) (H.faults helper.old))
        (seen lanes.new.items (H.runs helper.new) (H.faults helper.new)) result }
{
    let rules = read_rules_first(alloc, home, cwd, task, lanes)?;
    copy_plan(rt, alloc, &task.plan, &rules, lanes, helper)
}

/// What is told of an image: nothing where that is asked for.
fn done_of(alloc: Global, quiet: bool, copied: Copied) -> Done
    ensures { result ≡ copy_done quiet copied }
{
    let Copied { rows, lines } = copied;
    let lines = if quiet { Text::new(alloc) } else { lines };
    Done {
        rows: Some(rows),
        lines,
    }
}

/// One copy, and the lines of what was copied. After the image nothing wants memory but a write to the output.
fn run_copy<R: Threads + Sync, W: Wire + Send, F: Files + Send, H: Helper, O: Sink>(
    rt: &R,
    alloc: Global,
    home: &str,
    cwd: &str,
    task: &CopyTask,
    lanes: &mut Vec<Lane<W, F>>,
    helper: &mut H,
    out: &mut O,
) -> Result<Done, CommandRefusal>
    requires plan { IsSoundPlan task.now.plan }
    requires lanes { AreLanes lanes.old.items }
    ensures copy { IsCopyAnswer home.now cwd.now task.now
        (told_by lanes.old.items (H.runs helper.old) (H.faults helper.old) (sink_told O.written O.faults O.wants out.old))
        (told_by lanes.new.items (H.runs helper.new) (H.faults helper.new) (sink_told O.written O.faults O.wants out.new))
        result }
{
    let copied = copy_named(rt, alloc, home, cwd, task, lanes, helper)?;
    let done = done_of(alloc, task.quiet, copied);
    print_lines(out, done.lines.as_str())?;
    Ok(done)
}

/// Prints a text.
fn print_page<O: Sink>(out: &mut O, text: Text) -> Result<Done, CommandRefusal>
    ensures page { IsPageAnswer text (sink_told O.written O.faults O.wants out.old)
        (sink_told O.written O.faults O.wants out.new) result }
{
    print_lines(out, text.as_str())?;
    Ok(Done {
        rows: None,
        lines: text,
    })
}

/// Does what the words ask for.
pub fn run<R: Threads + Sync, W: Wire + Send, F: Files + Send, H: Helper, O: Sink>(
    rt: &R,
    alloc: Global,
    words: &[String],
    home: &str,
    cwd: &str,
    lanes: &mut Vec<Lane<W, F>>,
    helper: &mut H,
    out: &mut O,
) -> Result<Done, CommandRefusal>
    requires lanes { AreLanes lanes.old.items }
    ensures run { IsRun (map string_bytes words.now) home.now cwd.now
        (told_by lanes.old.items (H.runs helper.old) (H.faults helper.old) (sink_told O.written O.faults O.wants out.old))
        (told_by lanes.new.items (H.runs helper.new) (H.faults helper.new) (sink_told O.written O.faults O.wants out.new))
        result }
{
    match read_task(alloc, words, cwd) {
        Err(refusal) => Err(refusal),
        Ok(Task::Page(text)) => print_page(out, text),
        Ok(Task::Copy(task)) => run_copy(rt, alloc, home, cwd, &task, lanes, helper, out),
    }
}
