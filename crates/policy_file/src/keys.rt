// The keys of a `signedBy`.
ghost use Rattle.std.specs.Prelude.{◌≡◌, ℕ, List, Option, Some, None, option_map, IfOk, Bool};
ghost use Rattle.serde_json.specs.View.{view, items_view};
ghost use Rattle.policy_file.specs.Judged.{Judges};
ghost use Rattle.policy_file.specs.Keys.{texts_from, some_texts, texts_of, base64_of, keys_from, is_gpg, keys_of};

use crate::fault::PolicyKind;
use crate::refusal::{Refusal, refused};
use crate::requirement::Keys;
use base64::DecodeAllocError;
use base64::engine::general_purpose::STANDARD;
use serde_json::Value;
use skopeo_outside::{Many, Memory, Text};
use std::alloc::Global;

fn decoded(alloc: Global, text: &str) -> Result<Option<Many<u8>>, Memory>
    ensures { IfOk result (λ o. o ≡ base64_of text.now) }
{
    match STANDARD.decode(alloc, text.as_bytes()) {
        Ok(bytes) => Ok(Some(Many::from_vec(bytes))),
        Err(DecodeAllocError::OutOfMemory) => Err(Memory),
        Err(DecodeAllocError::DecodeError(_)) => Ok(None),
    }
}

fn texts_from(alloc: Global, items: &[Value]) -> Result<Option<Many<Text>>, Memory>
    ensures { IfOk result (λ o. o ≡ texts_from (items_view items.now)) }
{
    let mut texts = Many::new(alloc);
    for item in items {
        match item.as_str() {
            Some(text) => texts.push(Text::from_str(alloc, text)?)?,
            None => return Ok(None),
        }
    }
    Ok(Some(texts))
}

fn some_texts(alloc: Global, items: &[Value]) -> Result<Option<Many<Text>>, Memory>
    ensures { IfOk result (λ o. o ≡ some_texts (items_view items.now)) }
{
    if items.is_empty() {
        return Ok(None);
    }
    texts_from(alloc, items)
}

fn texts_in(alloc: Global, value: &Value) -> Result<Option<Many<Text>>, Memory>
    ensures { IfOk result (λ o. o ≡ texts_of (view value.now)) }
{
    match value {
        Value::Array(items) => some_texts(alloc, items.as_slice()),
        _ => Ok(None),
    }
}

fn path_keys(alloc: Global, path: &Value) -> Result<Option<Keys>, Memory>
    ensures { IfOk result (λ o. o ≡ keys_from (Some (view path.now)) None None) }
{
    match path.as_str() {
        Some(text) => {
            let mut paths = Many::new(alloc);
            paths.push(Text::from_str(alloc, text)?)?;
            Ok(Some(Keys::Paths(paths)))
        }
        None => Ok(None),
    }
}

fn paths_keys(alloc: Global, paths: &Value) -> Result<Option<Keys>, Memory>
    ensures { IfOk result (λ o. o ≡ keys_from None (Some (view paths.now)) None) }
{
    match texts_in(alloc, paths)? {
        Some(texts) => Ok(Some(Keys::Paths(texts))),
        None => Ok(None),
    }
}

fn data_keys(alloc: Global, bytes: &Value) -> Result<Option<Keys>, Memory>
    ensures { IfOk result (λ o. o ≡ keys_from None None (Some (view bytes.now))) }
{
    match bytes.as_str() {
        Some(text) => match decoded(alloc, text)? {
            Some(bytes) => Ok(Some(Keys::Bytes(bytes))),
            None => Ok(None),
        },
        None => Ok(None),
    }
}

/// The keys, where exactly one member has them.
fn some_keys(
    alloc: Global,
    path: Option<&Value>,
    paths: Option<&Value>,
    bytes: Option<&Value>,
) -> Result<Option<Keys>, Memory>
    ensures { IfOk result (λ o. o ≡ keys_from (option_map (λ v. view v.now) path.entry)
        (option_map (λ v. view v.now) paths.entry) (option_map (λ v. view v.now) bytes.entry)) }
{
    match (path, paths, bytes) {
        (Some(path), None, None) => path_keys(alloc, path),
        (None, Some(paths), None) => paths_keys(alloc, paths),
        (None, None, Some(bytes)) => data_keys(alloc, bytes),
        _ => Ok(None),
    }
}

fn is_gpg(value: Option<&Value>) -> bool
    ensures { result ≡ is_gpg (option_map (λ v. view v.now) value.entry) }
{
    match value {
        Some(Value::String(word)) => word.as_str() == "GPGKeys",
        _ => false,
    }
}

/// The keys of a `signedBy`.
#[tactic(auto, unfolding(crate::specs::Keys::keys_of))]
pub(crate) fn keys_in(alloc: Global, value: &Value) -> Result<Keys, Refusal>
    ensures { Judges result (keys_of (view value.now)) }
{
    if !is_gpg(value.get("keyType")) {
        return Err(refused(alloc, PolicyKind::BadKeys));
    }
    let keys = some_keys(
        alloc,
        value.get("keyPath"),
        value.get("keyPaths"),
        value.get("keyData"),
    )?;
    match keys {
        Some(keys) => Ok(keys),
        None => Err(refused(alloc, PolicyKind::BadKeys)),
    }
}
