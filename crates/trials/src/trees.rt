// Trees of JSON: readings by small parts, and what is made of texts.
use json_tree::{
    Fault, at, both, list_value, pairs_value, read_optional_list, read_optional_object, read_text,
    read_tree, read_whole, text_value,
};
use serde_json::Value;
use skopeo_outside::{Many, Memory, Pair, Text};
use std::alloc::Global;

/// A list of whole numbers at `n`, and an object of texts at `t`.
fn read_both(alloc: Global, tree: &Value) -> Result<(Many<u64>, Many<Text>), Fault> {
    let numbers = read_optional_list(alloc, tree.get("n"), |value| read_whole(alloc, value));
    let texts = read_optional_object(alloc, tree.get("t"), |_, value| read_text(alloc, value));
    both(at(alloc, "n", numbers), at(alloc, "t", texts))
}

/// The numbers and the texts, or the pointer of the first bad member.
fn reading(alloc: Global, tree: &Value) -> Result<Text, Memory> {
    match read_both(alloc, tree) {
        Ok(read) => Ok(Text::from_string(format!(in alloc; "{read:?}")?)),
        Err(Fault::Memory) => Err(Memory),
        Err(Fault::Member(path)) => {
            let pointer = path.pointer(alloc)?;
            Ok(Text::from_string(format!(in alloc; "{pointer:?}")?))
        }
    }
}

/// What is read of the tree that a text is.
pub fn tree(alloc: Global, text: &str) -> Result<Text, Memory> {
    match read_tree(alloc, text.as_bytes())? {
        Some(tree) => reading(alloc, &tree),
        None => Text::from_str(alloc, "no tree"),
    }
}

/// The pairs `NAME=TEXT` of a row.
fn pairs_in(alloc: Global, row: &str) -> Result<Many<Pair>, Memory> {
    let mut pairs = Many::new(alloc);
    for word in row.split(' ') {
        let (name, value) = word.split_once("=").unwrap_or((word, ""));
        pairs.push(Pair {
            name: Text::copy_of(alloc, name)?,
            value: Text::copy_of(alloc, value)?,
        })?;
    }
    Ok(pairs)
}

/// The list of the texts of some pairs, and the object of the pairs.
pub fn made(alloc: Global, row: &str) -> Result<Text, Memory> {
    let pairs = pairs_in(alloc, row)?;
    let pairs = pairs.as_slice();
    let texts = list_value(alloc, pairs, |pair| text_value(alloc, &pair.value))?;
    let object = pairs_value(alloc, pairs)?;
    Ok(Text::from_string(format!(in alloc; "{texts} {object}")?))
}
