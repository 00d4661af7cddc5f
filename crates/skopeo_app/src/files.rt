// The files of a user and of the system.
ghost use Rattle.std.specs.Prelude.{◌≡◌, IfOk, IfErr, Ok, length};
ghost use Rattle.transports.specs.declared.refusal.Refusal.TheVariants as image;
ghost use Rattle.skopeo_app.specs.declared.refusal.CommandRefusal.TheVariants as refusal;
ghost use Rattle.skopeo_app.specs.Usual.{user_path, system_path, usual_path};
ghost use Rattle.skopeo_app.specs.Reads.{ReadsAs, by_files, stopped};

use crate::refusal::CommandRefusal;
use copy_engine::Refusal;
use image_ref::clean_path;
use skopeo_outside::{Files, Lane, Memory, Stop, Text, Wire};
use std::alloc::Global;

/// The refusal that a stopped call of the files is.
pub fn stopped(stop: Stop, faults: u64) -> CommandRefusal
    ensures { result ≡ stopped stop faults }
{
    match stop {
        Stop::Fault => CommandRefusal::Image(Refusal::Files(faults)),
        Stop::Memory => CommandRefusal::Image(Refusal::Memory),
    }
}

/// The user's file of a name.
fn user_path(alloc: Global, home: &str, cwd: &str, name: &str) -> Result<Text, Memory>
    ensures { IfOk result (λ path. path ≡ user_path home.now cwd.now name.now) }
{
    let mut path = Text::copy_of(alloc, home)?;
    path.push_str("/.config/containers/")?;
    path.push_str(name)?;
    clean_path(alloc, cwd, path.as_str())
}

/// The system's.
fn system_path(alloc: Global, name: &str) -> Result<Text, Memory>
    ensures { IfOk result (λ path. path ≡ system_path name.now) }
{
    let mut path = Text::copy_of(alloc, "/etc/containers/")?;
    path.push_str(name)?;
    Ok(path)
}

/// The same as an answer of the command.
fn system_file(alloc: Global, name: &str) -> Result<Text, CommandRefusal>
    ensures path { IfOk result (λ path. path ≡ system_path name.now) }
    ensures memory { IfErr result (λ e. e ≡ refusal.Image image.Memory) }
{
    match system_path(alloc, name) {
        Ok(path) => Ok(path),
        Err(_) => Err(CommandRefusal::Image(Refusal::Memory)),
    }
}

/// The user's at home where it is there, else the system's.
fn path_at_home<W: Wire, F: Files>(
    alloc: Global,
    lane: &mut Lane<W, F>,
    home: &str,
    cwd: &str,
    name: &str,
) -> Result<Text, CommandRefusal>
    requires some { length home.now ≡ 0 → ⊥ }
    ensures reads { ReadsAs (by_files (λ t. Ok (usual_path t home.now cwd.now name.now))) lane.old lane.new result }
{
    let path = user_path(alloc, home, cwd, name)?;
    match lane.files.size(path.as_str()) {
        Err(stop) => return Err(stopped(stop, lane.files.faults())),
        Ok(Some(_)) => return Ok(path),
        Ok(None) => system_file(alloc, name),
    }
}

/// The user's where it is there, else the system's.
pub fn usual_path<W: Wire, F: Files>(
    alloc: Global,
    lane: &mut Lane<W, F>,
    home: &str,
    cwd: &str,
    name: &str,
) -> Result<Text, CommandRefusal>
    ensures reads { ReadsAs (by_files (λ t. Ok (usual_path t home.now cwd.now name.now))) lane.old lane.new result }
{
    if home.is_empty() {
        return system_file(alloc, name);
    }
    path_at_home(alloc, lane, home, cwd, name)
}
