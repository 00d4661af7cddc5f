ghost use Rattle.std.specs.Prelude.{◌≡◌, ◌++◌, ◌∷◌, [], OnOk, IfOk, map, List, ℕ};
ghost use Rattle.std.specs.List.{fold};
ghost use Rattle.image_ref.specs.Characters.{slash};
ghost use Rattle.image_ref.specs.Path.{keep, parts_of, parts_from, is_absolute, path_text, behind_slashes, cleaned, IsClean};

use crate::cut::cut_at;
use skopeo_outside::{Memory, Text};
use std::alloc::Global;

fn keep_part<'t>(kept: &mut Vec<&'t str>, part: &'t str) -> Result<(), Memory>
    ensures { let before = map (λ x. x.now) kept.old.items in
        OnOk result (map (λ x. x.now) kept.new.items ≡ keep before part.now) }
{
    if part.is_empty() || part == "." {
        return Ok(());
    }
    if part == ".." {
        kept.pop();
        return Ok(());
    }
    kept.push(part)?;
    Ok(())
}

fn keep_parts<'t>(kept: &mut Vec<&'t str>, path: &'t str) -> Result<(), Memory>
    ensures { let before = map (λ x. x.now) kept.old.items in
        OnOk result (map (λ x. x.now) kept.new.items ≡ fold keep before (parts_of path.now)) }
{
    let mut rest = path;
    loop {
        let (part, more) = cut_at(rest, '/');
        keep_part(kept, part)?;
        match more {
            None => return Ok(()),
            Some(more) => rest = more,
        }
    }
}

fn push_parts(text: &mut Text, kept: &[&str]) -> Result<(), Memory>
    ensures { OnOk result (text.new ≡ text.old ++ behind_slashes (map (λ x. x.now) kept.now)) }
{
    for part in kept {
        text.push_str("/")?;
        text.push_str(part)?;
    }
    Ok(())
}

fn write_path(alloc: Global, kept: &[&str]) -> Result<Text, Memory>
    ensures { IfOk result (λ t. t ≡ path_text (map (λ x. x.now) kept.now)) }
{
    let mut text = Text::new(alloc);
    if kept.is_empty() {
        text.push_str("/")?;
        return Ok(text);
    }
    push_parts(&mut text, kept)?;
    Ok(text)
}

/// The absolute path that a path names, seen from a folder, without empty parts, `.` and `..`. No
/// file is looked at. Its error is want of memory. The grammar stands at the head of `specs/Path.antt`.
#[tactic(auto, unfolding(crate::specs::Path::cleaned))]
pub fn clean_path(alloc: Global, cwd: &str, path: &str) -> Result<Text, Memory>
    ensures { IfOk result (λ t. t ≡ cleaned cwd.now path.now) }
{
    let mut kept = Vec::new(alloc);
    if !path.starts_with('/') {
        keep_parts(&mut kept, cwd)?;
    }
    keep_parts(&mut kept, path)?;
    write_path(alloc, kept.as_slice())
}

/// What was cleaned is clean, and a clean path stays as it is, seen from any folder.
pub fn clean_once()
    ensures clean { (cwd path : List ℕ) → IsClean (cleaned cwd path) }
    ensures stays { (cwd path : List ℕ) → IsClean path → cleaned cwd path ≡ path }
{}
