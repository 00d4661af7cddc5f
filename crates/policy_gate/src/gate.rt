// The walk over a list of requirements.
ghost use Rattle.std.specs.Prelude.{◌≡◌, ◌⊎◌, ◌<◌, ◌-◌, ◌^◌, length, IfOk, option_map};
ghost use Rattle.policy_gate.specs.Gate.{Ends};
ghost use Rattle.policy_gate.specs.Calls.{subject_of, case_of, IsReadEnd, IsJudged, Gained, GateCause, HelperCause};

use crate::fault::{GateFault, Why};
use crate::keys::{KeysRead, read_keys};
use crate::reason::Judged;
use crate::verify::{Asked, verify};
use policy_file::{IdentityRule, Keys, Requirement};
use skopeo_outside::{Files, Helper, Many, Memory, Stop, Text};
use std::alloc::Global;

/// What the requirements of one list are put to.
#[derive(Clone, Copy)]
pub(crate) struct Gate<'a> {
    pub(crate) judged: Judged<'a>,
    pub(crate) signatures: &'a [Many<u8>],
    pub(crate) cwd: &'a str,
    pub(crate) program: Option<&'a str>,
}

/// How a `signedBy` ends by what was read of its keys.
fn judge_read<H: Helper>(
    alloc: Global,
    read: KeysRead,
    rule: &IdentityRule,
    gate: &Gate<'_>,
    program: &str,
    helper: &mut H,
) -> Result<Option<Why>, GateFault>
    ensures ends { let subject = subject_of gate.now.judged in Gained (H.runs helper.old) (H.runs helper.new)
        (IsReadEnd subject rule.now gate.now.signatures.now program.now read result) }
    ensures cause { HelperCause (H.faults helper.old) (H.faults helper.new) result }
{
    match read {
        KeysRead::Absent => Ok(Some(Why::KeyAbsent)),
        KeysRead::TooLarge(what, length) => Err(GateFault::TooLarge(what, length)),
        KeysRead::Read(keys) => {
            let asked = Asked {
                program,
                keys: keys.as_slice(),
            };
            match verify(alloc, rule, &gate.judged, &asked, gate.signatures, helper) {
                Ok(None) => Ok(None),
                Ok(Some(reasons)) => Ok(Some(Why::Signatures(reasons))),
                Err(fault) => Err(fault),
            }
        }
    }
}

/// Whether a `signedBy` holds, or its first reason.
fn judge_signed<F: Files, H: Helper>(
    alloc: Global,
    keys: &Keys,
    rule: &IdentityRule,
    gate: &Gate<'_>,
    files: &mut F,
    helper: &mut H,
) -> Result<Option<Why>, GateFault>
    ensures ends { Gained (H.runs helper.old) (H.runs helper.new)
        (IsJudged (case_of gate.now (F.tree files.old)) (Requirement.SignedBy keys.now rule.now) result) }
    ensures same { F.tree files.new ≡ F.tree files.old }
    ensures cause { GateCause (F.faults files.old) (F.faults files.new) (H.faults helper.old) (H.faults helper.new) result }
{
    if gate.signatures.is_empty() {
        return Ok(Some(Why::NoSignature));
    }
    let Some(program) = gate.program else {
        return Ok(Some(Why::NoVerifier));
    };
    match read_keys(alloc, files, gate.cwd, keys) {
        Ok(read) => judge_read(alloc, read, rule, gate, program, helper),
        Err(Stop::Fault) => Err(GateFault::Files),
        Err(Stop::Memory) => Err(GateFault::Memory),
    }
}

/// Whether a requirement holds, or its first reason.
fn judge<F: Files, H: Helper>(
    alloc: Global,
    requirement: &Requirement,
    gate: &Gate<'_>,
    files: &mut F,
    helper: &mut H,
) -> Result<Option<Why>, GateFault>
    ensures ends { Gained (H.runs helper.old) (H.runs helper.new)
        (IsJudged (case_of gate.now (F.tree files.old)) requirement.now result) }
    ensures same { F.tree files.new ≡ F.tree files.old }
    ensures cause { GateCause (F.faults files.old) (F.faults files.new) (H.faults helper.old) (H.faults helper.new) result }
{
    match requirement {
        Requirement::Accept => Ok(None),
        Requirement::Reject => Ok(Some(Why::Reject)),
        Requirement::SignedBy(keys, rule) => judge_signed(alloc, keys, rule, gate, files, helper),
        Requirement::Sigstore => Ok(Some(Why::Sigstore)),
    }
}

/// The scope of a list.
fn scope_text(alloc: Global, scope: Option<&str>) -> Result<Option<Text>, Memory>
    ensures { IfOk result (λ text. text ≡ option_map (λ s. s.now) scope.entry) }
{
    match scope {
        Some(scope) => Ok(Some(Text::copy_of(alloc, scope)?)),
        None => Ok(None),
    }
}

/// That the requirement at a place does not hold.
fn rejected(alloc: Global, scope: Option<&str>, place: u32, why: Why) -> GateFault
    ensures { let scope = option_map (λ s. s.now) scope.entry in
        (result ≡ GateFault.Memory) ⊎ (result ≡ GateFault.Rejected scope place why) }
{
    match scope_text(alloc, scope) {
        Ok(scope) => GateFault::Rejected { scope, place, why },
        Err(_) => GateFault::Memory,
    }
}

/// Judges each requirement of a list in order, up to the first that does not hold.
pub(crate) fn walk<F: Files, H: Helper>(
    alloc: Global,
    scope: Option<&str>,
    list: &[Requirement],
    gate: &Gate<'_>,
    files: &mut F,
    helper: &mut H,
) -> Result<(), GateFault>
    requires few { length list.now < 2 ^ 32 - 16 }
    ensures ends { Gained (H.runs helper.old) (H.runs helper.new)
        (Ends (case_of gate.now (F.tree files.old)) (option_map (λ s. s.now) scope.entry) list.now result) }
    ensures same { F.tree files.new ≡ F.tree files.old }
    ensures cause { GateCause (F.faults files.old) (F.faults files.new) (H.faults helper.old) (H.faults helper.new) result }
{
    for (place, requirement) in list.iter().enumerate() {
        match judge(alloc, requirement, gate, files, helper) {
            Err(fault) => return Err(fault),
            Ok(None) => {}
            Ok(Some(why)) => return Err(rejected(alloc, scope, place as u32 + 1, why)),
        }
    }
    Ok(())
}
