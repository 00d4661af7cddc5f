// Lists: what is read and written of them, the instance that is chosen, and their conversion.
ghost use Rattle.std.specs.Prelude.{◌≡◌, ◌<◌, IsTrue, true, length};
ghost use Rattle.manifest_v2s2.specs.Media.{is_list};

use crate::changes::{fault_text, shown, text_of};
use digest_reader::digest_of;
use list_change::{Written, convert_list};
use manifest_list::{List, choose_instance, read_any_list, write_list};
use manifest_v2s2::Kind;
use skopeo_outside::{Many, Memory, Text};
use std::alloc::Global;

fn kind_named(name: &str) -> Kind {
    match name {
        "V2s2List" => Kind::V2s2List,
        "OciIndex" => Kind::OciIndex,
        "Oci" => Kind::Oci,
        _ => Kind::V2s2,
    }
}

fn list_kind_named(name: &str) -> Kind
    ensures { is_list result ≡ true }
{
    if name == "OciIndex" {
        Kind::OciIndex
    } else {
        Kind::V2s2List
    }
}

fn has_few_entries(list: &List) -> bool
    ensures { IsTrue result → length list.now.entries < 100 }
{
    list.entries.len() < 100
}

/// The list of a kind that a text is, written again.
pub fn list(alloc: Global, row: &str) -> Result<Text, Memory> {
    let (kind, text) = row.split_once(" | ").unwrap_or(("", row));
    match read_any_list(alloc, text.as_bytes(), kind_named(kind)) {
        Ok(list) => shown(alloc, write_list(alloc, &list)?.as_slice()),
        Err(fault) => fault_text(alloc, &fault),
    }
}

fn place_text(alloc: Global, place: Option<u32>) -> Result<Text, Memory> {
    match place {
        Some(place) => Ok(Text::from_string(format!(in alloc; "{place}")?)),
        None => Text::from_str(alloc, "none"),
    }
}

fn chosen(alloc: Global, list: &List, asked: &str) -> Result<Text, Memory> {
    if !has_few_entries(list) {
        return Text::from_str(alloc, "too many entries for a row");
    }
    let (os, rest) = asked.split_once("/").unwrap_or((asked, ""));
    match rest.split_once("/") {
        Some((arch, variant)) => {
            place_text(alloc, choose_instance(list, os, arch, Some(variant)))
        }
        None => place_text(alloc, choose_instance(list, os, rest, None)),
    }
}

/// The place of the instance that is chosen for `OS/ARCH` or `OS/ARCH/VARIANT`.
pub fn choose(alloc: Global, row: &str) -> Result<Text, Memory> {
    let (asked, rest) = row.split_once(" | ").unwrap_or(("", row));
    let (kind, text) = rest.split_once(" | ").unwrap_or(("", rest));
    match read_any_list(alloc, text.as_bytes(), kind_named(kind)) {
        Ok(list) => chosen(alloc, &list, asked),
        Err(fault) => fault_text(alloc, &fault),
    }
}

/// The digests and sizes of instances, whose texts stand with a space between them.
fn written_in(alloc: Global, texts: &str) -> Result<Many<Written>, Memory> {
    let mut all = Many::new(alloc);
    for text in texts.split(' ') {
        all.push(Written {
            digest: digest_of(text.as_bytes()),
            size: text.len() as u64,
        })?;
    }
    Ok(all)
}

fn is_one_each(list: &List, written: &[Written]) -> bool
    ensures { IsTrue result → length written.now ≡ length list.now.entries }
{
    written.len() == list.entries.len()
}

fn converted(alloc: Global, list: &List, to: Kind, written: &[Written]) -> Result<Text, Memory>
    requires { is_list to ≡ true }
{
    if !has_few_entries(list) {
        return Text::from_str(alloc, "too many entries for a row");
    }
    if !is_one_each(list, written) {
        return Text::from_str(alloc, "not one instance for each entry");
    }
    text_of(alloc, convert_list(alloc, list, to, written))
}

/// The conversion of a list, whose instances are written as these texts.
pub fn convert(alloc: Global, row: &str) -> Result<Text, Memory> {
    let (kinds, rest) = row.split_once(" | ").unwrap_or(("", row));
    let (texts, text) = rest.split_once(" | ").unwrap_or(("", rest));
    let (from, to) = kinds.split_once(" ").unwrap_or(("", kinds));
    let written = written_in(alloc, texts)?;
    match read_any_list(alloc, text.as_bytes(), kind_named(from)) {
        Ok(list) => converted(alloc, &list, list_kind_named(to), written.as_slice()),
        Err(fault) => fault_text(alloc, &fault),
    }
}
