// The configuration of the registries that counts.
ghost use Rattle.std.specs.Prelude.{◌≡◌, false, IfOk};
ghost use Rattle.skopeo_outside.specs.Steps.{Says};
ghost use Rattle.registries_conf.specs.ConfOf.{conf_in};
ghost use Rattle.skopeo_app.specs.Courses.{lane_course};
ghost use Rattle.skopeo_app.specs.Usual.{usual_path};
ghost use Rattle.skopeo_app.specs.Conf.{conf_name, no_conf, invalid_conf, or_bad, absent_conf, conf_from, conf_file, conf_end};
ghost use Rattle.skopeo_app.specs.Reads.{ReadsAs, by_files};

use crate::files::{stopped, usual_path};
use crate::refusal::CommandRefusal;
use crate::task::ConfChoice;
use copy_engine::Refusal;
use layouts::{Limited, read_limited};
use registries_conf::{Conf, ConfFault, read_conf};
use skopeo_outside::{Files, Lane, Memory, Text, Wire};
use std::alloc::Global;

/// The refusal that a fault of the file at a path is.
fn invalid_conf(path: Text, fault: ConfFault) -> CommandRefusal
    ensures { result ≡ invalid_conf path fault }
{
    match fault {
        ConfFault::NotToml => CommandRefusal::ConfInvalid(path, ConfFault::NotToml),
        ConfFault::Shape(key) => CommandRefusal::ConfInvalid(path, ConfFault::Shape(key)),
        ConfFault::V1 => CommandRefusal::ConfInvalid(path, ConfFault::V1),
        ConfFault::BadPrefix(table) => {
            CommandRefusal::ConfInvalid(path, ConfFault::BadPrefix(table))
        }
        ConfFault::MirrorClash(table) => {
            CommandRefusal::ConfInvalid(path, ConfFault::MirrorClash(table))
        }
        ConfFault::Memory => CommandRefusal::Image(Refusal::Memory),
    }
}

/// The configuration that bytes are.
#[tactic(auto, using(crate::proofs::ConfLemmas::value_said, crate::proofs::ConfLemmas::fault_said, crate::proofs::ConfLemmas::want_said))]
fn conf_in(alloc: Global, path: &str, bytes: &[u8]) -> Result<Conf, CommandRefusal>
    ensures says { Says lane_course (or_bad path.now (conf_in bytes.now)) result }
{
    match read_conf(alloc, bytes) {
        Ok(conf) => Ok(conf),
        Err(fault) => Err(invalid_conf(Text::copy_of(alloc, path)?, fault)),
    }
}

/// The configuration that says nothing: that of no bytes.
#[tactic(auto, using(crate::proofs::ConfLemmas::no_bytes))]
fn no_conf(alloc: Global) -> Result<Conf, Memory>
    ensures { IfOk result (λ conf. conf ≡ no_conf) }
{
    match read_conf(alloc, "".as_bytes()) {
        Ok(conf) => Ok(conf),
        Err(_) => Err(Memory),
    }
}

/// What a file that is absent says.
#[tactic(auto, unfolding(skopeo_outside::specs::Steps::Says, crate::specs::Courses::lane_course))]
fn absent_conf(alloc: Global, named: bool, path: &str) -> Result<Conf, CommandRefusal>
    ensures says { Says lane_course (absent_conf named path.now) result }
{
    if named {
        return Err(CommandRefusal::ConfMissing(Text::copy_of(alloc, path)?));
    }
    Ok(no_conf(alloc)?)
}

/// The configuration that a file says.
#[tactic(auto, unfolding(skopeo_outside::specs::Steps::Says, crate::specs::Courses::lane_course, crate::specs::Conf::conf_from))]
fn conf_from(alloc: Global, named: bool, path: &str, file: &Limited) -> Result<Conf, CommandRefusal>
    ensures says { Says lane_course (conf_from named path.now file.now) result }
{
    match file {
        Limited::Absent => absent_conf(alloc, named, path),
        Limited::TooLong => Err(CommandRefusal::ConfTooLarge),
        Limited::Whole(bytes) => conf_in(alloc, path, bytes.as_slice()),
    }
}

/// The configuration of the file at a path, which was named or is the usual one.
fn read_conf_file<W: Wire, F: Files>(
    alloc: Global,
    lane: &mut Lane<W, F>,
    named: bool,
    path: &str,
) -> Result<Conf, CommandRefusal>
    ensures reads { ReadsAs (by_files (λ t. conf_file named t path.now)) lane.old lane.new result }
{
    match read_limited(alloc, &mut lane.files, path) {
        Err(stop) => return Err(stopped(stop, lane.files.faults())),
        Ok(file) => conf_from(alloc, named, path, &file),
    }
}

/// The configuration of the user where there is one, else that of the system, else the one that says nothing.
fn read_usual<W: Wire, F: Files>(
    alloc: Global,
    lane: &mut Lane<W, F>,
    home: &str,
    cwd: &str,
) -> Result<Conf, CommandRefusal>
    ensures reads { ReadsAs (by_files (λ t. conf_file false t (usual_path t home.now cwd.now conf_name))) lane.old lane.new result }
{
    let path = usual_path(alloc, lane, home, cwd, "registries.conf")?;
    read_conf_file(alloc, lane, false, path.as_str())
}

/// The configuration that is asked for.
pub fn read_conf_for<W: Wire, F: Files>(
    alloc: Global,
    lane: &mut Lane<W, F>,
    home: &str,
    cwd: &str,
    choice: &ConfChoice,
) -> Result<Conf, CommandRefusal>
    ensures reads { ReadsAs (conf_end home.now cwd.now choice.now) lane.old lane.new result }
{
    match choice {
        ConfChoice::Unread => Ok(no_conf(alloc)?),
        ConfChoice::Named(path) => read_conf_file(alloc, lane, true, path.as_str()),
        ConfChoice::Usual => read_usual(alloc, lane, home, cwd),
    }
}
