// The lines that the command writes.
ghost use Rattle.std.specs.Prelude.{◌≡◌, ◌++◌, IfOk, OnOk};
ghost use Rattle.skopeo_app.specs.Lines.{row_text, attempts_in, attempts_of, attempt_line, attempt_lines, reasons_by, reasons_in, reasons_of, signature_line, signature_lines, refusal_line, status_of_number, status_of_refusal};
ghost use Rattle.skopeo_app.specs.Sinks.{sink_told};
ghost use Rattle.skopeo_app.specs.Prints.{Prints};

use crate::refusal::CommandRefusal;
use crate::rows::{Printed, attempt_row, json_text, row_of};
use crate::words::{reason_text, reason_word};
use copy_engine::{Attempt, Reason, Refusal, Why};
use skopeo_outside::{Memory, Sink, Stop, Text};
use std::alloc::Global;

/// The lines of a refusal, and its status.
#[derive(Debug, Drop)]
pub struct Line {
    pub text: Text,
    pub status: u8,
}

/// Adds number, name and fields, up to the end of the line.
fn push_row(text: &mut Text, row: &Printed) -> Result<(), Memory>
    ensures { OnOk result (text.new ≡ text.old ++ row_text row.now) }
{
    text.push_number(row.number as usize)?;
    text.push_str(" ")?;
    text.push_str(row.name.as_str())?;
    text.push_str(row.fields.as_str())
}

/// The status of a row.
fn status_of_number(number: u32) -> u8
    ensures { result ≡ status_of_number number }
{
    if number == 2 {
        2
    } else if number == 4 {
        4
    } else if number >= 40 {
        3
    } else {
        1
    }
}

/// The sources that were asked in vain.
fn attempts_in(refusal: &Refusal) -> &[Attempt]
    ensures { result.now ≡ attempts_in refusal.now }
{
    match refusal {
        Refusal::NotBuilt(_) => &[],
        Refusal::Rejected(_, _, _) => &[],
        Refusal::NotAnImageDir(_) => &[],
        Refusal::TooLarge(_, _) => &[],
        Refusal::ManifestInvalid(_) => &[],
        Refusal::Job(_, _) => &[],
        Refusal::Files(_) => &[],
        Refusal::Wire(_) => &[],
        Refusal::BadReference(_, _) => &[],
        Refusal::ShortName(_, _) => &[],
        Refusal::Blocked(_) => &[],
        Refusal::NoSource(attempts) => attempts.as_slice(),
        Refusal::BadAnswer(_, _) => &[],
        Refusal::Encoded(_) => &[],
        Refusal::Garbled(_, _) => &[],
        Refusal::Helper(_) => &[],
        Refusal::LookasideRefused(_, _) => &[],
        Refusal::TlsRequired(_) => &[],
        Refusal::TooManyRedirects(_) => &[],
        Refusal::Memory => &[],
    }
}

fn attempts_of(refusal: &CommandRefusal) -> &[Attempt]
    ensures { result.now ≡ attempts_of refusal.now }
{
    match refusal {
        CommandRefusal::Words(_, _) => &[],
        CommandRefusal::Reference(_, _) => &[],
        CommandRefusal::SamePlace(_) => &[],
        CommandRefusal::NotBuilt(_) => &[],
        CommandRefusal::PolicyMissing(_) => &[],
        CommandRefusal::PolicyInvalid(_, _, _) => &[],
        CommandRefusal::PolicyTooLarge => &[],
        CommandRefusal::ConfMissing(_) => &[],
        CommandRefusal::ConfInvalid(_, _) => &[],
        CommandRefusal::ConfTooLarge => &[],
        CommandRefusal::Image(refusal) => attempts_in(refusal),
        CommandRefusal::Output(_) => &[],
    }
}

/// The line of one, by its number.
#[tactic(auto, unfolding(crate::specs::Lines::attempt_line))]
fn attempt_line(alloc: Global, number: usize, attempt: &Attempt) -> Result<Text, Memory>
    ensures { IfOk result (λ text. text ≡ attempt_line number attempt.now) }
{
    let source = json_text(alloc, attempt.source.as_str())?;
    let row = attempt_row(alloc, &attempt.cause)?;
    let mut text = Text::from_string(format!(in alloc; "attempt {number} source={source} ")?);
    push_row(&mut text, &row)?;
    Ok(text)
}

/// The lines of all.
fn attempt_lines(alloc: Global, attempts: &[Attempt]) -> Result<Text, Memory>
    ensures { IfOk result (λ text. text ≡ attempt_lines 1 attempts.now) }
{
    let mut text = Text::new(alloc);
    for (place, attempt) in attempts.iter().enumerate() {
        let line = attempt_line(alloc, place + 1, attempt)?;
        text.push_str(line.as_str())?;
    }
    Ok(text)
}

/// The signatures of which none was accepted, and why not.
fn reasons_by(why: &Why) -> &[Reason]
    ensures { result.now ≡ reasons_by why.now }
{
    match why {
        Why::Reject => &[],
        Why::Sigstore => &[],
        Why::NoSignature => &[],
        Why::NoVerifier => &[],
        Why::KeyAbsent => &[],
        Why::Signatures(reasons) => reasons.as_slice(),
    }
}

fn reasons_in(refusal: &Refusal) -> &[Reason]
    ensures { result.now ≡ reasons_in refusal.now }
{
    match refusal {
        Refusal::NotBuilt(_) => &[],
        Refusal::Rejected(_, _, why) => reasons_by(why),
        Refusal::NotAnImageDir(_) => &[],
        Refusal::TooLarge(_, _) => &[],
        Refusal::ManifestInvalid(_) => &[],
        Refusal::Job(_, _) => &[],
        Refusal::Files(_) => &[],
        Refusal::Wire(_) => &[],
        Refusal::BadReference(_, _) => &[],
        Refusal::ShortName(_, _) => &[],
        Refusal::Blocked(_) => &[],
        Refusal::NoSource(_) => &[],
        Refusal::BadAnswer(_, _) => &[],
        Refusal::Encoded(_) => &[],
        Refusal::Garbled(_, _) => &[],
        Refusal::Helper(_) => &[],
        Refusal::LookasideRefused(_, _) => &[],
        Refusal::TlsRequired(_) => &[],
        Refusal::TooManyRedirects(_) => &[],
        Refusal::Memory => &[],
    }
}

fn reasons_of(refusal: &CommandRefusal) -> &[Reason]
    ensures { result.now ≡ reasons_of refusal.now }
{
    match refusal {
        CommandRefusal::Words(_, _) => &[],
        CommandRefusal::Reference(_, _) => &[],
        CommandRefusal::SamePlace(_) => &[],
        CommandRefusal::NotBuilt(_) => &[],
        CommandRefusal::PolicyMissing(_) => &[],
        CommandRefusal::PolicyInvalid(_, _, _) => &[],
        CommandRefusal::PolicyTooLarge => &[],
        CommandRefusal::ConfMissing(_) => &[],
        CommandRefusal::ConfInvalid(_, _) => &[],
        CommandRefusal::ConfTooLarge => &[],
        CommandRefusal::Image(refusal) => reasons_in(refusal),
        CommandRefusal::Output(_) => &[],
    }
}

/// The line of one, by its number.
#[tactic(auto, unfolding(crate::specs::Lines::signature_line))]
fn signature_line(alloc: Global, number: usize, reason: &Reason) -> Result<Text, Memory>
    ensures { IfOk result (λ text. text ≡ signature_line number reason.now) }
{
    let word = reason_word(reason);
    let told = json_text(alloc, reason_text(reason))?;
    let line = format!(in alloc; "signature {number} {word} {told}\n")?;
    Ok(Text::from_string(line))
}

/// The lines of all.
fn signature_lines(alloc: Global, reasons: &[Reason]) -> Result<Text, Memory>
    ensures { IfOk result (λ text. text ≡ signature_lines 1 reasons.now) }
{
    let mut text = Text::new(alloc);
    for (place, reason) in reasons.iter().enumerate() {
        let line = signature_line(alloc, place + 1, reason)?;
        text.push_str(line.as_str())?;
    }
    Ok(text)
}

/// The lines behind that of a refusal.
fn push_more(alloc: Global, text: &mut Text, refusal: &CommandRefusal) -> Result<(), Memory>
    ensures { OnOk result (text.new ≡ text.old ++ (attempt_lines 1 (attempts_of refusal.now) ++ signature_lines 1 (reasons_of refusal.now))) }
{
    let mut more = attempt_lines(alloc, attempts_of(refusal))?;
    more.push_str(signature_lines(alloc, reasons_of(refusal))?.as_str())?;
    text.push_str(more.as_str())
}

/// The line of a refusal, one for each source that was asked in vain and for each signature that was not accepted, and its
/// status.
#[tactic(auto, unfolding(crate::specs::Lines::refusal_line, crate::specs::Lines::printed))]
pub fn refusal_line(alloc: Global, refusal: &CommandRefusal) -> Result<Line, Memory>
    ensures text { IfOk result (λ line. line.text ≡ refusal_line refusal.now) }
    ensures status { IfOk result (λ line. line.status ≡ status_of_refusal refusal.now) }
{
    let row = row_of(alloc, refusal)?;
    let mut text = Text::copy_of(alloc, "skopeo: ")?;
    push_row(&mut text, &row)?;
    push_more(alloc, &mut text, refusal)?;
    Ok(Line {
        text,
        status: status_of_number(row.number),
    })
}

/// Writes a text to the output. It takes no memory of its own.
pub fn print_lines<O: Sink>(out: &mut O, lines: &str) -> Result<(), CommandRefusal>
    ensures prints { Prints lines.now (sink_told O.written O.faults O.wants out.old)
        (sink_told O.written O.faults O.wants out.new) result }
{
    match out.write(lines.as_bytes()) {
        Ok(()) => Ok(()),
        Err(Stop::Fault) => Err(CommandRefusal::Output(out.faults())),
        Err(Stop::Memory) => Err(CommandRefusal::Image(Refusal::Memory)),
    }
}
