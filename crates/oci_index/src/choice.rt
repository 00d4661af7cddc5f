// Which entry of an index is asked for.
ghost use Rattle.std.specs.Prelude.{◌≡◌, option_map, IfOk, filter};
ghost use Rattle.oci_index.specs.Chosen.{ref_key, value_of, is_text, fits, chosen, one_of, Chooses};
ghost use Rattle.oci_index.specs.declared.choice.ChoiceFault.TheVariants as fault;

use manifest_v2s2::Descriptor;
use skopeo_outside::{Many, Memory, Pair};
use std::alloc::Global;

/// Why no entry of an index was chosen.
#[derive(Debug, Drop)]
pub enum ChoiceFault {
    /// None fits.
    Absent,
    /// So many fit.
    Ambiguous(u32),
    /// Memory was wanting.
    Memory,
}

impl From<Memory> for ChoiceFault {
    ghost from_gives = { λ _ e. e ≡ fault.Memory };

    fn from(_: Memory) -> Self {
        ChoiceFault::Memory
    }
}

/// The annotation that names an entry.
pub const REF_KEY: &str = "org.opencontainers.image.ref.name";

fn value_of<'a>(name: &str, pairs: &'a [Pair]) -> Option<&'a str>
    ensures { option_map (λ t. t.now) result ≡ value_of name.now pairs.now }
{
    for pair in pairs {
        if pair.name.as_str() == name {
            return Some(pair.value.as_str());
        }
    }
    None
}

fn is_text(name: &str, text: Option<&str>) -> bool
    ensures { result ≡ is_text name.now (option_map (λ t. t.now) text.entry) }
{
    match text {
        None => false,
        Some(text) => text == name,
    }
}

fn fits(name: Option<&str>, entry: &Descriptor) -> bool
    ensures { result ≡ fits (option_map (λ t. t.now) name.entry) entry.now }
{
    match name {
        None => true,
        Some(name) => is_text(name, value_of(REF_KEY, entry.annotations.as_slice())),
    }
}

/// Copies of the entries that fit.
#[tactic(auto, using(crate::proofs::ChosenLemmas::found_more, crate::proofs::ChosenLemmas::found_same, crate::proofs::ChosenLemmas::found_all))]
fn fitting(
    alloc: Global,
    name: Option<&str>,
    entries: &[Descriptor],
) -> Result<Many<Descriptor>, Memory>
    ensures { IfOk result (λ found. found ≡ filter (fits (option_map (λ t. t.now) name.entry)) entries.now) }
{
    let mut found = Many::new(alloc);
    for entry in entries {
        if fits(name, entry) {
            found.push(entry.copy(alloc)?)?;
        }
    }
    Ok(found)
}

#[tactic(auto, using(crate::proofs::ChosenLemmas::one_none, crate::proofs::ChosenLemmas::one_one, crate::proofs::ChosenLemmas::one_several))]
fn one_of(alloc: Global, found: &[Descriptor]) -> Result<Descriptor, ChoiceFault>
    ensures { Chooses result (one_of found.now) }
{
    if found.len() == 0 {
        return Err(ChoiceFault::Absent);
    }
    if found.len() == 1 {
        return Ok(found[0].copy(alloc)?);
    }
    Err(ChoiceFault::Ambiguous(found.len().min(4_294_967_295) as u32))
}

/// The one entry of a ref name, or the one entry where no name is asked for. Absent where none fits, and ambiguous where
/// several do.
pub fn choose(
    alloc: Global,
    name: Option<&str>,
    entries: &[Descriptor],
) -> Result<Descriptor, ChoiceFault>
    ensures chosen { Chooses result (chosen (option_map (λ t. t.now) name.entry) entries.now) }
{
    let found = fitting(alloc, name, entries)?;
    one_of(alloc, found.as_slice())
}
