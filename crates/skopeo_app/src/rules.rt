// What a copy is judged by.
ghost use Rattle.skopeo_app.specs.Rules.{rules_end};
ghost use Rattle.skopeo_app.specs.Reads.{ReadsAs};

use crate::conf::read_conf_for;
use crate::policy::read_policy_for;
use crate::refusal::CommandRefusal;
use crate::task::CopyTask;
use policy_file::Policy;
use registries_conf::Conf;
use skopeo_outside::{Files, Lane, Wire};
use std::alloc::Global;

/// The policy, and the configuration of the registries.
#[derive(Debug, Drop)]
pub struct Rules {
    pub policy: Policy,
    pub conf: Conf,
}

/// The policy that counts for a task, and then the configuration that does.
pub fn read_rules<W: Wire, F: Files>(
    alloc: Global,
    lane: &mut Lane<W, F>,
    home: &str,
    cwd: &str,
    task: &CopyTask,
) -> Result<Rules, CommandRefusal>
    ensures reads { ReadsAs (rules_end home.now cwd.now task.now) lane.old lane.new result }
{
    let policy = read_policy_for(alloc, lane, home, cwd, &task.policy)?;
    let conf = read_conf_for(alloc, lane, home, cwd, &task.conf)?;
    Ok(Rules { policy, conf })
}
