// The keys of a requirement.
ghost use Rattle.std.specs.Prelude.{◌≡◌, ◌<◌, ◌^◌, IfOk, IfSome, IsErrOf};
ghost use Rattle.skopeo_outside.specs.Outside.{HasCause};
ghost use Rattle.policy_gate.specs.KeyFiles.{most_key_bytes, own_key, keys_at, seen_from, AreRead, AreFiles, Adds};
ghost use Rattle.layouts.specs.Bounds.{limited};

use image_ref::clean_path;
use layouts::{Limited, limit, read_limited};
use policy_file::Keys;
use skopeo_outside::{Files, Many, Memory, Stop, Text, What};
use std::alloc::Global;

/// The keys of a requirement, or why there are none.
#[derive(Debug, Drop)]
pub enum KeysRead {
    /// A key file is absent.
    Absent,
    /// What is too long, and one past its limit.
    TooLarge(What, u64),
    Read(Many<Many<u8>>),
}

/// The most bytes that the keys of one requirement may have: 67,108,864.
#[tactic(auto, unfolding(crate::specs::KeyFiles::most_key_bytes))]
fn most_key_bytes() -> usize
    ensures is { result ≡ most_key_bytes }
    ensures small { result < 2 ^ 32 }
{
    67_108_864
}

/// The file at a path that is seen from a folder.
fn read_key<F: Files>(alloc: Global, files: &mut F, cwd: &str, path: &str) -> Result<Limited, Stop>
    ensures bytes { IfSome (F.tree files.old) (λ t. IfOk result (λ file. file ≡ limited (seen_from cwd.now t path.now))) }
    ensures same { F.tree files.new ≡ F.tree files.old }
    ensures cause { HasCause (F.faults files.old) (F.faults files.new) result }
{
    let path = clean_path(alloc, cwd, path)?;
    read_limited(alloc, files, path.as_str())
}

/// Adds a key, for which so much room is left, or says why it can't be.
fn add_key(
    file: Limited,
    found: &mut Many<Many<u8>>,
    room: &mut usize,
) -> Result<Option<KeysRead>, Memory>
    ensures { IfOk result (λ stop. Adds file found.old found.new room.old room.new stop) }
{
    match file {
        Limited::Absent => Ok(Some(KeysRead::Absent)),
        Limited::TooLong => Ok(Some(KeysRead::TooLarge(What::Key, limit() as u64 + 1))),
        Limited::Whole(key) => {
            if *room < key.len() {
                return Ok(Some(KeysRead::TooLarge(What::Keys, most_key_bytes() as u64 + 1)));
            }
            *room -= key.len();
            found.push(key)?;
            Ok(None)
        }
    }
}

/// The keys at some paths, in order.
fn read_paths<F: Files>(
    alloc: Global,
    files: &mut F,
    cwd: &str,
    paths: &[Text],
) -> Result<KeysRead, Stop>
    ensures keys { IfSome (F.tree files.old) (λ t. IfOk result (λ keys. keys ≡ keys_at (seen_from cwd.now t) paths.now most_key_bytes)) }
    ensures same { F.tree files.new ≡ F.tree files.old }
    ensures cause { HasCause (F.faults files.old) (F.faults files.new) result }
{
    let mut found = Many::new(alloc);
    let mut room = most_key_bytes();
    for path in paths {
        let file = read_key(alloc, files, cwd, path.as_str())?;
        if let Some(stop) = add_key(file, &mut found, &mut room)? {
            return Ok(stop);
        }
    }
    Ok(KeysRead::Read(found))
}

/// The one key of these bytes.
fn own_key(alloc: Global, key: &[u8]) -> Result<KeysRead, Memory>
    ensures { IfOk result (λ keys. keys ≡ own_key key.now) }
{
    if most_key_bytes() < key.len() {
        return Ok(KeysRead::TooLarge(What::Keys, most_key_bytes() as u64 + 1));
    }
    let mut bytes = Many::new(alloc);
    bytes.extend(key)?;
    let mut keys = Many::new(alloc);
    keys.push(bytes)?;
    Ok(KeysRead::Read(keys))
}

/// The keys of a requirement. Paths are seen from a folder.
pub(crate) fn read_keys<F: Files>(
    alloc: Global,
    files: &mut F,
    cwd: &str,
    keys: &Keys,
) -> Result<KeysRead, Stop>
    ensures keys { IfOk result (λ read. AreRead cwd.now (F.tree files.old) keys.now read) }
    ensures files { IsErrOf result Stop.Fault → AreFiles keys.now }
    ensures same { F.tree files.new ≡ F.tree files.old }
    ensures cause { HasCause (F.faults files.old) (F.faults files.new) result }
{
    match keys {
        Keys::Paths(paths) => read_paths(alloc, files, cwd, paths.as_slice()),
        Keys::Bytes(key) => Ok(own_key(alloc, key.as_slice())?),
    }
}
