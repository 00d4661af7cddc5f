// The one maker of an admitted manifest.
ghost use Rattle.std.specs.Prelude.{◌≡◌, ◌<◌, ◌-◌, ◌^◌, length, IfOk, option_map};
ghost use Rattle.digest_reader.specs.Digests.{digest};
ghost use Rattle.policy_gate.specs.Gate.{Ends};
ghost use Rattle.policy_gate.specs.Calls.{Gained, GateCause};
ghost use Rattle.policy_gate.specs.Questions.{AskOnly};
ghost use Rattle.policy_gate.specs.Admission.{submitted_of, case_with, gate_case, scope_in, done, IsOf, IsAdmitted};

use crate::fault::GateFault;
use crate::gate::{Gate, walk};
use crate::reason::Judged;
use digest_reader::digest_of;
use image_ref::Digest;
use policy_scope::{Chosen, Identity};
use skopeo_outside::{Files, Helper, Many};
use std::alloc::Global;
use std::marker::Model;
use std::snapshot::Snapshot;

/// What is put to the gate with a manifest.
#[derive(Clone, Copy)]
pub struct Submitted<'a> {
    /// The list that counts for the image, and its scope.
    pub chosen: Chosen<'a>,
    /// The image as the user named it.
    pub identity: &'a Identity,
    pub signatures: &'a [Many<u8>],
    /// The folder that key paths are seen from.
    pub cwd: &'a str,
    /// The program that judges signatures.
    pub program: Option<&'a str>,
}

/// The bytes of a manifest of which every requirement of its list holds. Only `admit` makes one.
#[derive(Drop)]
pub struct Admitted<'a, F: Files, H: Helper> {
    bytes: Many<u8>,
    digest: Digest,
    submitted: Snapshot<Submitted<'a>>,
    files: Snapshot<F>,
    before: Snapshot<H>,
    after: Snapshot<H>,
}

impl<'a, F: Files, H: Helper> Model for Admitted<'a, F, H> {
    ghost use Rattle.policy_gate.specs.Admission.{Admission, IsAdmitted};

    ghost Value = { Admission F H };

    ghost view = { λ a. record { bytes = a.bytes; digest = a.digest; submitted = a.submitted.value; files = a.files.value; before = a.before.value; after = a.after.value } };

    ghost invariant = { λ a. IsAdmitted F.tree H.runs (record { bytes = a.bytes; digest = a.digest; submitted = a.submitted.value; files = a.files.value; before = a.before.value; after = a.after.value }) };
}

impl<'a, F: Files, H: Helper> Admitted<'a, F, H> {
    /// The manifest's bytes.
    pub fn bytes(&self) -> &[u8]
        ensures value { result.now ≡ self.now.bytes }
        ensures admitted { IsAdmitted F.tree H.runs self.now }
    {
        self.bytes.as_slice()
    }

    /// The manifest's bytes, which are moved.
    pub fn into_bytes(self) -> Many<u8>
        ensures value { result ≡ self.entry.bytes }
        ensures admitted { IsAdmitted F.tree H.runs self.entry }
    {
        let Admitted {
            bytes,
            digest: _,
            submitted: _,
            files: _,
            before: _,
            after: _,
        } = self;
        bytes
    }

    /// The SHA-256 digest of the bytes.
    pub fn digest(&self) -> &Digest
        ensures value { result.now ≡ digest self.now.bytes }
    {
        &self.digest
    }
}

/// Judges a manifest of a digest by the list that counts for its image.
fn judge_digest<F: Files, H: Helper>(
    alloc: Global,
    submitted: &Submitted<'_>,
    digest: &Digest,
    files: &mut F,
    helper: &mut H,
) -> Result<(), GateFault>
    requires few { length submitted.now.chosen.list.now < 2 ^ 32 - 16 }
    ensures ends { let s = submitted.now in Gained (H.runs helper.old) (H.runs helper.new)
        (Ends (case_with s digest.now (F.tree files.old)) (scope_in s) s.chosen.list.now result) }
    ensures same { F.tree files.new ≡ F.tree files.old }
    ensures cause { GateCause (F.faults files.old) (F.faults files.new) (H.faults helper.old) (H.faults helper.new) result }
{
    let text = digest.write_digest(alloc)?;
    let gate = Gate {
        judged: Judged {
            named: submitted.identity.named(),
            digest: text.as_str(),
        },
        signatures: submitted.signatures,
        cwd: submitted.cwd,
        program: submitted.program,
    };
    walk(
        alloc,
        submitted.chosen.scope,
        submitted.chosen.list,
        &gate,
        files,
        helper,
    )
}

/// Judges a manifest by what is put to the gate with it.
fn admit_submitted<'a, F: Files, H: Helper>(
    alloc: Global,
    submitted: &Submitted<'a>,
    manifest: Many<u8>,
    files: &mut F,
    helper: &mut H,
) -> Result<Admitted<'a, F, H>, GateFault>
    requires few { length submitted.now.chosen.list.now < 2 ^ 32 - 16 }
    ensures ends { let s = submitted.now in Gained (H.runs helper.old) (H.runs helper.new)
        (Ends (gate_case s manifest (F.tree files.old)) (scope_in s) s.chosen.list.now (done result)) }
    ensures admitted { IfOk result (λ a. IsOf a submitted.now manifest files.old helper.old helper.new) }
    ensures same { F.tree files.new ≡ F.tree files.old }
    ensures cause { GateCause (F.faults files.old) (F.faults files.new) (H.faults helper.old) (H.faults helper.new) result }
{
    let entry = Snapshot::of(&*files);
    let before = Snapshot::of(&*helper);
    let digest = digest_of(manifest.as_slice());
    match judge_digest(alloc, submitted, &digest, files, helper) {
        Err(fault) => Err(fault),
        Ok(()) => Ok(Admitted {
            bytes: manifest,
            digest,
            submitted: Snapshot::of(submitted),
            files: entry,
            before,
            after: Snapshot::of(&*helper),
        }),
    }
}

/// Judges a manifest by the list that counts for its image, up to the first requirement that does not hold. Signatures
/// are asked of the program in order, and key paths are seen from a folder.
pub fn admit<'a, F: Files, H: Helper>(
    alloc: Global,
    chosen: &Chosen<'a>,
    identity: &'a Identity,
    manifest: Many<u8>,
    signatures: &'a [Many<u8>],
    files: &mut F,
    cwd: &'a str,
    helper: &mut H,
    program: Option<&'a str>,
) -> Result<Admitted<'a, F, H>, GateFault>
    requires few { length chosen.now.list.now < 2 ^ 32 - 16 }
    ensures ends { let s = submitted_of chosen.now identity.entry signatures.entry cwd.entry program.entry in
        Gained (H.runs helper.old) (H.runs helper.new)
        (Ends (gate_case s manifest (F.tree files.old)) (scope_in s) s.chosen.list.now (done result)) }
    ensures admitted { let s = submitted_of chosen.now identity.entry signatures.entry cwd.entry program.entry in
        IfOk result (λ a. IsOf a s manifest files.old helper.old helper.new) }
    ensures asked { let s = submitted_of chosen.now identity.entry signatures.entry cwd.entry program.entry in
        Gained (H.runs helper.old) (H.runs helper.new) (AskOnly (gate_case s manifest (F.tree files.old))) }
    ensures same { F.tree files.new ≡ F.tree files.old }
    ensures cause { GateCause (F.faults files.old) (F.faults files.new) (H.faults helper.old) (H.faults helper.new) result }
{
    let submitted = Submitted {
        chosen: *chosen,
        identity,
        signatures,
        cwd,
        program,
    };
    admit_submitted(alloc, &submitted, manifest, files, helper)
}
