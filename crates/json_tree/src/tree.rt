ghost use Rattle.std.specs.Prelude.{◌≡◌, IfOk, option_map};
ghost use Rattle.serde_json.specs.View.{view};
ghost use Rattle.json_tree.specs.Tree.{tree};
ghost use Rattle.json_tree.specs.Parsed.{tree_of};

use serde_json::Value;
use skopeo_outside::Memory;
use std::alloc::Global;

/// The tree that the bytes are, if they are JSON in UTF-8.
pub fn read_tree(alloc: Global, bytes: &[u8]) -> Result<Option<Value>, Memory>
    ensures { IfOk result (λ v. option_map view v ≡ tree bytes.now) }
{
    match Value::from_slice(alloc, bytes) {
        Ok(value) => Ok(Some(value)),
        Err(fault) if fault.is_memory() => Err(Memory),
        Err(_) => Ok(None),
    }
}

/// The tree that some bytes are, if they are one: they are parsed once, and may be looked at often.
#[derive(Drop)]
pub struct Parsed {
    root: Option<Value>,
}

impl Parsed {
    /// Parses the bytes.
    pub fn of(alloc: Global, bytes: &[u8]) -> Result<Parsed, Memory>
        ensures { IfOk result (λ p. tree_of p ≡ tree bytes.now) }
    {
        let root = read_tree(alloc, bytes)?;
        Ok(Parsed { root })
    }

    /// The tree's root. It takes no memory.
    pub fn root(&self) -> Option<&Value>
        ensures { option_map (λ v. view v.now) result ≡ tree_of self.now }
    {
        self.root.as_ref()
    }
}
