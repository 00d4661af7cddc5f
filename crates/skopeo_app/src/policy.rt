// The policy that counts.
ghost use Rattle.std.specs.Prelude.{◌≡◌};
ghost use Rattle.skopeo_outside.specs.Steps.{Says};
ghost use Rattle.policy_file.specs.PolicyOf.{policy_in};
ghost use Rattle.skopeo_app.specs.Courses.{lane_course};
ghost use Rattle.skopeo_app.specs.Usual.{usual_path};
ghost use Rattle.skopeo_app.specs.Policy.{policy_name, or_invalid, policy_from, policy_file, policy_end};
ghost use Rattle.skopeo_app.specs.Reads.{ReadsAs, by_files};

use crate::files::{stopped, usual_path};
use crate::refusal::CommandRefusal;
use crate::task::PolicyChoice;
use copy_engine::Refusal;
use layouts::{Limited, read_limited};
use policy_file::{Policy, PolicyFault, read_policy};
use skopeo_outside::{Files, Lane, Text, Wire};
use std::alloc::Global;

/// The policy that bytes are.
#[tactic(auto, unfolding(skopeo_outside::specs::Steps::Says, crate::specs::Courses::lane_course))]
fn policy_in(alloc: Global, path: &str, bytes: &[u8]) -> Result<Policy, CommandRefusal>
    ensures says { Says lane_course (or_invalid path.now (policy_in bytes.now)) result }
{
    match read_policy(alloc, bytes) {
        Ok(policy) => Ok(policy),
        Err(PolicyFault::Memory) => Err(CommandRefusal::Image(Refusal::Memory)),
        Err(PolicyFault::Refused { fault, member }) => Err(CommandRefusal::PolicyInvalid(
            Text::copy_of(alloc, path)?,
            fault,
            member,
        )),
    }
}

/// The policy that a file says.
#[tactic(auto, unfolding(skopeo_outside::specs::Steps::Says, crate::specs::Courses::lane_course, crate::specs::Policy::policy_from))]
fn policy_from(alloc: Global, path: &str, file: &Limited) -> Result<Policy, CommandRefusal>
    ensures says { Says lane_course (policy_from path.now file.now) result }
{
    match file {
        Limited::Absent => Err(CommandRefusal::PolicyMissing(Text::copy_of(alloc, path)?)),
        Limited::TooLong => Err(CommandRefusal::PolicyTooLarge),
        Limited::Whole(bytes) => policy_in(alloc, path, bytes.as_slice()),
    }
}

/// The policy of the file at a path.
fn read_policy_file<W: Wire, F: Files>(
    alloc: Global,
    lane: &mut Lane<W, F>,
    path: &str,
) -> Result<Policy, CommandRefusal>
    ensures reads { ReadsAs (by_files (λ t. policy_file t path.now)) lane.old lane.new result }
{
    match read_limited(alloc, &mut lane.files, path) {
        Err(stop) => return Err(stopped(stop, lane.files.faults())),
        Ok(file) => policy_from(alloc, path, &file),
    }
}

/// The policy of the user where there is one, else that of the system.
fn read_usual<W: Wire, F: Files>(
    alloc: Global,
    lane: &mut Lane<W, F>,
    home: &str,
    cwd: &str,
) -> Result<Policy, CommandRefusal>
    ensures reads { ReadsAs (by_files (λ t. policy_file t (usual_path t home.now cwd.now policy_name))) lane.old lane.new result }
{
    let path = usual_path(alloc, lane, home, cwd, "policy.json")?;
    read_policy_file(alloc, lane, path.as_str())
}

/// The policy that is asked for.
pub fn read_policy_for<W: Wire, F: Files>(
    alloc: Global,
    lane: &mut Lane<W, F>,
    home: &str,
    cwd: &str,
    choice: &PolicyChoice,
) -> Result<Policy, CommandRefusal>
    ensures reads { ReadsAs (policy_end home.now cwd.now choice.now) lane.old lane.new result }
{
    match choice {
        PolicyChoice::Anything => Ok(Policy::accept_all(alloc)?),
        PolicyChoice::Named(path) => read_policy_file(alloc, lane, path.as_str()),
        PolicyChoice::Usual => read_usual(alloc, lane, home, cwd),
    }
}
