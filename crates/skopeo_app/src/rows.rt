// Refusals as rows.
ghost use Rattle.std.specs.Prelude.{◌≡◌, IfOk};
ghost use Rattle.std.specs.String.{string_bytes};
ghost use Rattle.skopeo_app.specs.Words.{unbuilt_word, part_word, conf_word, conf_member};
ghost use Rattle.skopeo_app.specs.Rows.{words_row, memory_row, reference_row, short_row, missing_row, policy_row, conf_row, blocked_row, sources_row, digest_row, rewrite_row, tls_row, scope_field, rejected_row, manifest_row, mismatch_row, absent_row, dest_row, folder_row, same_row, garbled_row, large_row, answer_row, lookaside_row, source_row, encoded_row, redirects_row, unbuilt_row, wire_row, files_row, helper_row, output_row, cause_row, attempt_row, job_row, image_row, row_of};
ghost use Rattle.skopeo_app.specs.Lines.{json_text, field_text, as_printed, printed, printed_in_job};

use crate::refusal::CommandRefusal;
use crate::words::{
    conf_member, conf_word, part_word, place_offset, place_word, policy_word, step_word,
    unbuilt_word, what_word, why_word, words_word,
};
use copy_engine::{AttemptCause, BlobMismatch, Cause, Refusal, Why};
use image_ref::{Digest, PlaceFault};
use policy_file::PolicyKind;
use registries_conf::ConfFault;
use serde_json::Value;
use skopeo_outside::{Memory, Step, Text, What};
use skopeo_words::WordsKind;
use std::alloc::Global;

/// A row as it is printed: its number, its name, and its fields up to the end of the line.
#[derive(Debug, Drop)]
pub struct Printed {
    pub number: u32,
    pub name: Text,
    pub fields: Text,
}

/// A text as a JSON text (RFC 8259, section 7).
#[tactic(auto, unfolding(crate::specs::Lines::json_text))]
pub fn json_text(alloc: Global, text: &str) -> Result<String, Memory>
    ensures { IfOk result (λ s. string_bytes s ≡ json_text text.now) }
{
    let value = Value::String(String::from_str(alloc, text)?);
    Ok(value.to_string(alloc)?)
}

/// A row of these fields.
fn row(alloc: Global, number: u32, name: &str, fields: String) -> Result<Printed, Memory>
    ensures { IfOk result (λ p. p ≡ as_printed number name.now (string_bytes fields)) }
{
    let name = Text::copy_of(alloc, name)?;
    Ok(Printed {
        number,
        name,
        fields: Text::from_string(fields),
    })
}

#[tactic(auto, unfolding(crate::specs::Lines::printed))]
fn words_row(alloc: Global, place: u32, kind: WordsKind) -> Result<Printed, Memory>
    ensures { IfOk result (λ p. p ≡ printed (words_row place kind)) }
{
    let kind = words_word(kind);
    row(
        alloc,
        2,
        "BadWords",
        format!(in alloc; " place={place} kind={kind}\n")?,
    )
}

#[tactic(auto, unfolding(crate::specs::Lines::printed))]
fn memory_row(alloc: Global) -> Result<Printed, Memory>
    ensures { IfOk result (λ p. p ≡ printed memory_row) }
{
    row(alloc, 4, "OutOfMemory", String::from_str(alloc, "\n")?)
}

#[tactic(auto, unfolding(crate::specs::Lines::printed))]
fn reference_row(alloc: Global, text: &str, fault: PlaceFault) -> Result<Printed, Memory>
    ensures { IfOk result (λ p. p ≡ printed (reference_row text.now fault)) }
{
    let text = json_text(alloc, text)?;
    let word = place_word(fault);
    let at = place_offset(fault);
    row(
        alloc,
        10,
        "BadReference",
        format!(in alloc; " text={text} fault={word} at={at}\n")?,
    )
}

#[tactic(auto, unfolding(crate::specs::Lines::printed))]
fn short_row(alloc: Global, text: &str, count: u32) -> Result<Printed, Memory>
    ensures { IfOk result (λ p. p ≡ printed (short_row text.now count)) }
{
    let text = json_text(alloc, text)?;
    row(
        alloc,
        11,
        "ShortName",
        format!(in alloc; " text={text} count={count}\n")?,
    )
}

#[tactic(auto, unfolding(crate::specs::Lines::printed))]
fn missing_row(alloc: Global, path: &str) -> Result<Printed, Memory>
    ensures { IfOk result (λ p. p ≡ printed (missing_row path.now)) }
{
    let path = json_text(alloc, path)?;
    row(
        alloc,
        12,
        "PolicyMissing",
        format!(in alloc; " path={path}\n")?,
    )
}

#[tactic(auto, unfolding(crate::specs::Lines::printed))]
fn policy_row(alloc: Global, path: &str, kind: PolicyKind, member: &str) -> Result<Printed, Memory>
    ensures { IfOk result (λ p. p ≡ printed (policy_row path.now kind member.now)) }
{
    let path = json_text(alloc, path)?;
    let word = policy_word(kind);
    let member = json_text(alloc, member)?;
    row(
        alloc,
        13,
        "PolicyInvalid",
        format!(in alloc; " path={path} fault={word} member={member}\n")?,
    )
}

#[tactic(auto, unfolding(crate::specs::Lines::printed))]
fn conf_row(alloc: Global, path: &str, word: &str, member: &str) -> Result<Printed, Memory>
    ensures { IfOk result (λ p. p ≡ printed (conf_row path.now word.now member.now)) }
{
    let path = json_text(alloc, path)?;
    let member = json_text(alloc, member)?;
    row(
        alloc,
        14,
        "ConfInvalid",
        format!(in alloc; " path={path} fault={word} member={member}\n")?,
    )
}

#[tactic(auto, unfolding(crate::specs::Lines::printed))]
fn blocked_row(alloc: Global, table: u32) -> Result<Printed, Memory>
    ensures { IfOk result (λ p. p ≡ printed (blocked_row table)) }
{
    row(alloc, 15, "Blocked", format!(in alloc; " table={table}\n")?)
}

#[tactic(auto, unfolding(crate::specs::Lines::printed))]
fn sources_row(alloc: Global, count: usize) -> Result<Printed, Memory>
    ensures { IfOk result (λ p. p ≡ printed (sources_row count)) }
{
    row(
        alloc,
        17,
        "NoSource",
        format!(in alloc; " attempts={count}\n")?,
    )
}

#[tactic(auto, unfolding(crate::specs::Lines::printed))]
fn digest_row(alloc: Global, expected: &Digest, found: &Digest) -> Result<Printed, Memory>
    ensures { IfOk result (λ p. p ≡ printed (digest_row expected.now found.now)) }
{
    let expected = expected.write_digest(alloc)?;
    let found = found.write_digest(alloc)?;
    let expected = expected.as_str();
    let found = found.as_str();
    row(
        alloc,
        20,
        "ManifestDigest",
        format!(in alloc; " expected={expected} found={found}\n")?,
    )
}

#[tactic(auto, unfolding(crate::specs::Lines::printed))]
fn rewrite_row(alloc: Global, text: &str) -> Result<Printed, Memory>
    ensures { IfOk result (λ p. p ≡ printed (rewrite_row text.now)) }
{
    let text = json_text(alloc, text)?;
    row(
        alloc,
        38,
        "BadRewrite",
        format!(in alloc; " text={text}\n")?,
    )
}

#[tactic(auto, unfolding(crate::specs::Lines::printed))]
fn tls_row(alloc: Global, host: &str) -> Result<Printed, Memory>
    ensures { IfOk result (λ p. p ≡ printed (tls_row host.now)) }
{
    let host = json_text(alloc, host)?;
    row(
        alloc,
        16,
        "TlsRequired",
        format!(in alloc; " host={host}\n")?,
    )
}

fn scope_text(alloc: Global, scope: &Option<Text>) -> Result<String, Memory>
    ensures { IfOk result (λ s. string_bytes s ≡ field_text (scope_field scope.now)) }
{
    match scope {
        None => Ok(String::from_str(alloc, "default")?),
        Some(scope) => json_text(alloc, scope.as_str()),
    }
}

#[tactic(auto, unfolding(crate::specs::Lines::printed))]
fn rejected_row(
    alloc: Global,
    scope: &Option<Text>,
    place: u32,
    why: &Why,
) -> Result<Printed, Memory>
    ensures { IfOk result (λ p. p ≡ printed (rejected_row scope.now place why.now)) }
{
    let scope = scope_text(alloc, scope)?;
    let why = why_word(why);
    row(
        alloc,
        18,
        "Rejected",
        format!(in alloc; " scope={scope} place={place} why={why}\n")?,
    )
}

#[tactic(auto, unfolding(crate::specs::Lines::printed))]
fn manifest_row(alloc: Global, member: &str) -> Result<Printed, Memory>
    ensures { IfOk result (λ p. p ≡ printed (manifest_row member.now)) }
{
    let member = json_text(alloc, member)?;
    row(
        alloc,
        19,
        "ManifestInvalid",
        format!(in alloc; " member={member}\n")?,
    )
}

#[tactic(auto, unfolding(crate::specs::Lines::printed))]
fn mismatch_row(alloc: Global, m: &BlobMismatch) -> Result<Printed, Memory>
    ensures { IfOk result (λ p. p ≡ printed (mismatch_row m.now)) }
{
    let expected = m.expected.write_digest(alloc)?;
    let found = m.found.write_digest(alloc)?;
    let expected = expected.as_str();
    let found = found.as_str();
    let size = m.size;
    let length = m.length;
    row(
        alloc,
        26,
        "BlobMismatch",
        format!(in alloc; " expected={expected} size={size} found={found} length={length}\n")?,
    )
}

#[tactic(auto, unfolding(crate::specs::Lines::printed))]
fn absent_row(alloc: Global, digest: &Digest) -> Result<Printed, Memory>
    ensures { IfOk result (λ p. p ≡ printed (absent_row digest.now)) }
{
    let digest = digest.write_digest(alloc)?;
    let digest = digest.as_str();
    row(
        alloc,
        27,
        "BlobAbsent",
        format!(in alloc; " digest={digest}\n")?,
    )
}

#[tactic(auto, unfolding(crate::specs::Lines::printed))]
fn dest_row(alloc: Global, step: Step, status: u16) -> Result<Printed, Memory>
    ensures { IfOk result (λ p. p ≡ printed (dest_row step status)) }
{
    let step = step_word(step);
    row(
        alloc,
        28,
        "DestRefused",
        format!(in alloc; " step={step} status={status}\n")?,
    )
}

#[tactic(auto, unfolding(crate::specs::Lines::printed))]
fn folder_row(alloc: Global, path: &str) -> Result<Printed, Memory>
    ensures { IfOk result (λ p. p ≡ printed (folder_row path.now)) }
{
    let path = json_text(alloc, path)?;
    row(
        alloc,
        29,
        "NotAnImageDir",
        format!(in alloc; " path={path}\n")?,
    )
}

#[tactic(auto, unfolding(crate::specs::Lines::printed))]
fn same_row(alloc: Global, path: &str) -> Result<Printed, Memory>
    ensures { IfOk result (λ p. p ≡ printed (same_row path.now)) }
{
    let path = json_text(alloc, path)?;
    row(alloc, 29, "SamePlace", format!(in alloc; " path={path}\n")?)
}

#[tactic(auto, unfolding(crate::specs::Lines::printed))]
fn garbled_row(alloc: Global, status: i32, bytes: &[u8]) -> Result<Printed, Memory>
    ensures { IfOk result (λ p. p ≡ printed (garbled_row status bytes.now)) }
{
    let bytes = hex::encode(alloc, bytes)?;
    row(
        alloc,
        30,
        "Garbled",
        format!(in alloc; " status={status} bytes={bytes}\n")?,
    )
}

#[tactic(auto, unfolding(crate::specs::Lines::printed))]
fn large_row(alloc: Global, what: What, length: u64) -> Result<Printed, Memory>
    ensures { IfOk result (λ p. p ≡ printed (large_row what length)) }
{
    let what = what_word(what);
    row(
        alloc,
        31,
        "TooLarge",
        format!(in alloc; " what={what} length={length}\n")?,
    )
}

#[tactic(auto, unfolding(crate::specs::Lines::printed))]
fn answer_row(alloc: Global, step: Step, bytes: &[u8]) -> Result<Printed, Memory>
    ensures { IfOk result (λ p. p ≡ printed (answer_row step bytes.now)) }
{
    let step = step_word(step);
    let bytes = hex::encode(alloc, bytes)?;
    row(
        alloc,
        32,
        "BadAnswer",
        format!(in alloc; " step={step} bytes={bytes}\n")?,
    )
}

#[tactic(auto, unfolding(crate::specs::Lines::printed))]
fn lookaside_row(alloc: Global, signature: u32, status: u16) -> Result<Printed, Memory>
    ensures { IfOk result (λ p. p ≡ printed (lookaside_row signature status)) }
{
    row(
        alloc,
        33,
        "LookasideRefused",
        format!(in alloc; " signature={signature} status={status}\n")?,
    )
}

#[tactic(auto, unfolding(crate::specs::Lines::printed))]
fn source_row(alloc: Global, step: Step, status: u16) -> Result<Printed, Memory>
    ensures { IfOk result (λ p. p ≡ printed (source_row step status)) }
{
    let step = step_word(step);
    row(
        alloc,
        34,
        "SourceRefused",
        format!(in alloc; " step={step} status={status}\n")?,
    )
}

#[tactic(auto, unfolding(crate::specs::Lines::printed))]
fn encoded_row(alloc: Global, step: Step) -> Result<Printed, Memory>
    ensures { IfOk result (λ p. p ≡ printed (encoded_row step)) }
{
    let step = step_word(step);
    row(alloc, 35, "Encoded", format!(in alloc; " step={step}\n")?)
}

#[tactic(auto, unfolding(crate::specs::Lines::printed))]
fn redirects_row(alloc: Global, step: Step) -> Result<Printed, Memory>
    ensures { IfOk result (λ p. p ≡ printed (redirects_row step)) }
{
    let step = step_word(step);
    row(
        alloc,
        36,
        "TooManyRedirects",
        format!(in alloc; " step={step}\n")?,
    )
}

#[tactic(auto, unfolding(crate::specs::Lines::printed))]
fn unbuilt_row(alloc: Global, word: &str) -> Result<Printed, Memory>
    ensures { IfOk result (λ p. p ≡ printed (unbuilt_row word.now)) }
{
    row(alloc, 39, "NotBuilt", format!(in alloc; " what={word}\n")?)
}

#[tactic(auto, unfolding(crate::specs::Lines::printed))]
fn wire_row(alloc: Global, count: u64) -> Result<Printed, Memory>
    ensures { IfOk result (λ p. p ≡ printed (wire_row count)) }
{
    row(alloc, 40, "Wire", format!(in alloc; " faults={count}\n")?)
}

#[tactic(auto, unfolding(crate::specs::Lines::printed))]
fn files_row(alloc: Global, count: u64) -> Result<Printed, Memory>
    ensures { IfOk result (λ p. p ≡ printed (files_row count)) }
{
    row(alloc, 41, "Files", format!(in alloc; " faults={count}\n")?)
}

#[tactic(auto, unfolding(crate::specs::Lines::printed))]
fn helper_row(alloc: Global, count: u64) -> Result<Printed, Memory>
    ensures { IfOk result (λ p. p ≡ printed (helper_row count)) }
{
    row(alloc, 42, "Helper", format!(in alloc; " faults={count}\n")?)
}

#[tactic(auto, unfolding(crate::specs::Lines::printed))]
fn output_row(alloc: Global, count: u64) -> Result<Printed, Memory>
    ensures { IfOk result (λ p. p ≡ printed (output_row count)) }
{
    row(alloc, 43, "Output", format!(in alloc; " faults={count}\n")?)
}

/// Why a job failed.
#[tactic(auto, unfolding(crate::specs::Rows::cause_row))]
fn cause_row(alloc: Global, cause: &Cause) -> Result<Printed, Memory>
    ensures { IfOk result (λ p. p ≡ printed (cause_row cause.now)) }
{
    match cause {
        Cause::TlsRequired(host) => tls_row(alloc, host.as_str()),
        Cause::BlobMismatch(m) => mismatch_row(alloc, m),
        Cause::BlobAbsent(digest) => absent_row(alloc, digest),
        Cause::DestRefused(step, status) => dest_row(alloc, *step, *status),
        Cause::TooLarge(what, length) => large_row(alloc, *what, *length),
        Cause::BadAnswer(step, bytes) => answer_row(alloc, *step, bytes.as_slice()),
        Cause::SourceRefused(step, status) => source_row(alloc, *step, *status),
        Cause::Encoded(step) => encoded_row(alloc, *step),
        Cause::TooManyRedirects(step) => redirects_row(alloc, *step),
        Cause::Wire(count) => wire_row(alloc, *count),
        Cause::Files(count) => files_row(alloc, *count),
        Cause::Memory => memory_row(alloc),
    }
}

/// Why a source gave no manifest.
#[tactic(auto, unfolding(crate::specs::Rows::attempt_row))]
pub fn attempt_row(alloc: Global, cause: &AttemptCause) -> Result<Printed, Memory>
    ensures { IfOk result (λ p. p ≡ printed (attempt_row cause.now)) }
{
    match cause {
        AttemptCause::Blocked(table) => blocked_row(alloc, *table),
        AttemptCause::TlsRequired(host) => tls_row(alloc, host.as_str()),
        AttemptCause::ManifestDigest(expected, found) => digest_row(alloc, expected, found),
        AttemptCause::TooLarge(what, length) => large_row(alloc, *what, *length),
        AttemptCause::BadAnswer(step, bytes) => answer_row(alloc, *step, bytes.as_slice()),
        AttemptCause::SourceRefused(step, status) => source_row(alloc, *step, *status),
        AttemptCause::Encoded(step) => encoded_row(alloc, *step),
        AttemptCause::TooManyRedirects(step) => redirects_row(alloc, *step),
        AttemptCause::BadRewrite(text) => rewrite_row(alloc, text.as_str()),
        AttemptCause::Wire(count) => wire_row(alloc, *count),
    }
}

/// What comes from a job has the job's number first, but for want of memory.
fn in_job(alloc: Global, job: u32, failed: Printed) -> Result<Printed, Memory>
    ensures { IfOk result (λ p. p ≡ printed_in_job job failed) }
{
    if failed.number == 4 {
        return Ok(failed);
    }
    let Printed {
        number,
        name,
        fields,
    } = failed;
    let mut text = Text::copy_of(alloc, " job=")?;
    text.push_number(job as usize)?;
    text.push_str(fields.as_str())?;
    Ok(Printed {
        number,
        name,
        fields: text,
    })
}

#[tactic(auto, using(crate::proofs::RowLemmas::job_printed))]
fn job_row(alloc: Global, job: u32, cause: &Cause) -> Result<Printed, Memory>
    ensures { IfOk result (λ p. p ≡ printed (job_row job (cause_row cause.now))) }
{
    let failed = cause_row(alloc, cause)?;
    in_job(alloc, job, failed)
}

/// Why a copy ended.
#[tactic(auto, unfolding(crate::specs::Rows::image_row))]
fn image_row(alloc: Global, refusal: &Refusal) -> Result<Printed, Memory>
    ensures { IfOk result (λ p. p ≡ printed (image_row refusal.now)) }
{
    match refusal {
        Refusal::NotBuilt(part) => unbuilt_row(alloc, part_word(*part)),
        Refusal::Rejected(scope, place, why) => rejected_row(alloc, scope, *place, why),
        Refusal::NotAnImageDir(path) => folder_row(alloc, path.as_str()),
        Refusal::TooLarge(what, length) => large_row(alloc, *what, *length),
        Refusal::ManifestInvalid(member) => manifest_row(alloc, member.as_str()),
        Refusal::Job(job, cause) => job_row(alloc, *job, cause),
        Refusal::TlsRequired(host) => tls_row(alloc, host.as_str()),
        Refusal::Garbled(status, bytes) => garbled_row(alloc, *status, bytes.as_slice()),
        Refusal::BadAnswer(step, bytes) => answer_row(alloc, *step, bytes.as_slice()),
        Refusal::LookasideRefused(number, status) => lookaside_row(alloc, *number, *status),
        Refusal::Encoded(step) => encoded_row(alloc, *step),
        Refusal::TooManyRedirects(step) => redirects_row(alloc, *step),
        Refusal::Files(count) => files_row(alloc, *count),
        Refusal::Wire(count) => wire_row(alloc, *count),
        Refusal::Helper(count) => helper_row(alloc, *count),
        Refusal::BadReference(text, fault) => {
            reference_row(alloc, text.as_str(), PlaceFault::Reference(*fault))
        }
        Refusal::ShortName(text, count) => short_row(alloc, text.as_str(), *count),
        Refusal::Blocked(table) => blocked_row(alloc, *table),
        Refusal::NoSource(attempts) => sources_row(alloc, attempts.as_slice().len()),
        Refusal::Memory => memory_row(alloc),
    }
}

fn invalid_row(alloc: Global, path: &str, fault: &ConfFault) -> Result<Printed, Memory>
    ensures { IfOk result (λ p. p ≡ printed (conf_row path.now (conf_word fault.now) (conf_member fault.now))) }
{
    let member = conf_member(alloc, fault)?;
    conf_row(alloc, path, conf_word(fault), member.as_str())
}

/// Why the command ended.
#[tactic(auto, unfolding(crate::specs::Rows::row_of))]
pub fn row_of(alloc: Global, refusal: &CommandRefusal) -> Result<Printed, Memory>
    ensures { IfOk result (λ p. p ≡ printed (row_of refusal.now)) }
{
    match refusal {
        CommandRefusal::Words(place, kind) => words_row(alloc, *place, *kind),
        CommandRefusal::Reference(text, fault) => reference_row(alloc, text.as_str(), *fault),
        CommandRefusal::SamePlace(path) => same_row(alloc, path.as_str()),
        CommandRefusal::NotBuilt(what) => unbuilt_row(alloc, unbuilt_word(*what)),
        CommandRefusal::PolicyMissing(path) => missing_row(alloc, path.as_str()),
        CommandRefusal::PolicyInvalid(path, kind, member) => {
            policy_row(alloc, path.as_str(), *kind, member.as_str())
        }
        CommandRefusal::PolicyTooLarge => large_row(alloc, What::Policy, 4194305),
        CommandRefusal::ConfMissing(path) => conf_row(alloc, path.as_str(), "Absent", ""),
        CommandRefusal::ConfInvalid(path, fault) => invalid_row(alloc, path.as_str(), fault),
        CommandRefusal::ConfTooLarge => large_row(alloc, What::Conf, 4194305),
        CommandRefusal::Image(refusal) => image_row(alloc, refusal),
        CommandRefusal::Output(count) => output_row(alloc, *count),
    }
}
