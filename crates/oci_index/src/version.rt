// The text of the file `oci-layout`.
ghost use Rattle.std.specs.Prelude.{◌≡◌, option_map};
ghost use Rattle.serde_json.specs.View.{view};
ghost use Rattle.json_tree.specs.Parsed.{tree_of};
ghost use Rattle.oci_index.specs.Version.{is_version_text, says_version};

use json_tree::Parsed;
use serde_json::Value;

/// What is written into it.
pub const LAYOUT: &[u8] = b"{\"imageLayoutVersion\":\"1.0.0\"}";

fn is_version_text(value: Option<&Value>) -> bool
    ensures { result ≡ is_version_text (option_map (λ v. view v.now) value.entry) }
{
    match value {
        Some(Value::String(text)) => text.as_str() == "1.0.0",
        _ => false,
    }
}

/// Whether parsed bytes are an object whose `imageLayoutVersion` is `1.0.0`.
pub fn says_version(parsed: &Parsed) -> bool
    ensures version { result ≡ says_version (tree_of parsed.now) }
{
    match parsed.root() {
        None => false,
        Some(value) => is_version_text(value.get("imageLayoutVersion")),
    }
}
