ghost use Rattle.std.specs.Prelude.{◌≡◌, ◌++◌, codes, IfOk};
ghost use Rattle.policy_scope.specs.Scopes.{wildcards};

use image_ref::cut_at;
use skopeo_outside::{Many, Memory, Text};
use std::alloc::Global;

/// `*.` and what follows a dot.
fn wildcard(alloc: Global, rest: &str) -> Result<Text, Memory>
    ensures { IfOk result (λ t. t ≡ codes "*." ++ rest.now) }
{
    let mut text = Text::from_str(alloc, "*.")?;
    text.push_str(rest)?;
    Ok(text)
}

/// The scopes with `*.` of a host, which is looked at without its port.
pub(crate) fn wildcards_in(alloc: Global, host: &str) -> Result<Many<Text>, Memory>
    ensures { IfOk result (λ names. names ≡ wildcards host.now) }
{
    let mut names = Many::new(alloc);
    let (mut rest, _) = cut_at(host, ':');
    loop {
        let (_, after) = cut_at(rest, '.');
        match after {
            None => return Ok(names),
            Some(after) => {
                names.push(wildcard(alloc, after)?)?;
                rest = after;
            }
        }
    }
}
