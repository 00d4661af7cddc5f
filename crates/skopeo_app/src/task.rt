// What the words ask for.
ghost use Rattle.std.specs.Prelude.{◌≡◌, false, true, IfOk, IfErr, Err, map};
ghost use Rattle.std.specs.String.{string_bytes};
ghost use Rattle.skopeo_outside.specs.Steps.{Says};
ghost use Rattle.skopeo_app.specs.Refusals.{is_output};
ghost use Rattle.skopeo_app.specs.Courses.{command_course};
ghost use Rattle.skopeo_app.specs.Plan.{place_at, is_folder, is_registry, folder_in, are_same, apart, lanes_for, hostless, short_for, verifier_for, plan_between, plan_of};
ghost use Rattle.skopeo_app.specs.Task.{asks_more, are_built, built, by_path, choice_of, by_conf_path, conf_choice_of, chosen, copy_of, unbuilt_at, unbuilt_sync, task_in, IsSound, task_of};

use crate::refusal::{CommandRefusal, Unbuilt};
use copy_engine::{CopyPlan, Refusal};
use image_ref::{Place, PlaceFault, RefFault, clean_path, parse_named, parse_place};
use registries_conf::is_short;
use skopeo_outside::{Memory, Text};
use skopeo_words::{
    Command, Common, Passing, SyncEnd, WordsFault, help_text, read_words, version_text,
};
use std::alloc::Global;

/// Which policy counts.
#[derive(Debug, Drop)]
pub enum PolicyChoice {
    /// The one that accepts every image.
    Anything,
    /// That of the file at this path.
    Named(Text),
    /// That of the user where there is one, else that of the system.
    Usual,
}

/// Which configuration of the registries counts.
#[derive(Debug, Drop)]
pub enum ConfChoice {
    /// The one that says nothing, since no registry is named.
    Unread,
    /// That of the file at this path.
    Named(Text),
    /// That of the user where there is one, else that of the system, else the one that says nothing.
    Usual,
}

/// One copy that is asked for.
#[derive(Debug, Drop)]
pub struct CopyTask {
    pub policy: PolicyChoice,
    pub conf: ConfChoice,
    pub quiet: bool,
    pub plan: CopyPlan,
}

/// What is asked for.
#[derive(Debug, Drop)]
pub enum Task {
    /// This text is to be printed.
    Page(Text),
    Copy(CopyTask),
}

/// The place of a text. Relative paths count from `cwd`.
#[tactic(auto, unfolding(skopeo_outside::specs::Steps::Says, crate::specs::Courses::command_course, crate::specs::Plan::place_at))]
fn place_at(alloc: Global, cwd: &str, text: &str) -> Result<Place, CommandRefusal>
    ensures says { Says command_course (place_at cwd.now text.now) result }
    ensures other { IfErr result (λ e. is_output e ≡ false) }
{
    match parse_place(alloc, text, cwd) {
        Ok(place) => Ok(place),
        Err(PlaceFault::Memory) => Err(CommandRefusal::Image(Refusal::Memory)),
        Err(fault) => Err(CommandRefusal::Reference(Text::copy_of(alloc, text)?, fault)),
    }
}

fn is_folder(place: &Place) -> bool
    ensures { result ≡ is_folder place.now }
{
    match place {
        Place::Docker(_) => false,
        Place::Dir(_) => true,
        Place::Oci(_, _) => false,
    }
}

fn is_registry(place: &Place) -> bool
    ensures { result ≡ is_registry place.now }
{
    match place {
        Place::Docker(_) => true,
        Place::Dir(_) => false,
        Place::Oci(_, _) => false,
    }
}

/// The folder of a place of the transport `dir`, and the empty text of any other.
fn folder_in(place: &Place) -> &str
    ensures { result.now ≡ folder_in place.now }
{
    match place {
        Place::Docker(_) => "",
        Place::Dir(path) => path.as_str(),
        Place::Oci(_, _) => "",
    }
}

fn are_same(plan: &CopyPlan) -> bool
    ensures { result ≡ are_same plan.now }
{
    is_folder(&plan.source)
        && is_folder(&plan.dest)
        && folder_in(&plan.source) == folder_in(&plan.dest)
}

#[tactic(auto, unfolding(skopeo_outside::specs::Steps::Says, crate::specs::Courses::command_course))]
fn apart(alloc: Global, plan: CopyPlan) -> Result<CopyPlan, CommandRefusal>
    ensures apart { IfOk result (λ p. are_same p ≡ false) }
    ensures lanes { IfOk result (λ p. p.lanes ≡ plan.lanes) }
    ensures says { Says command_course (apart plan) result }
    ensures other { IfErr result (λ e. is_output e ≡ false) }
{
    if are_same(&plan) {
        let path = Text::copy_of(alloc, folder_in(&plan.source))?;
        return Err(CommandRefusal::SamePlace(path));
    }
    Ok(plan)
}

/// On how many first lanes blobs are carried.
fn lanes_for(common: &Common) -> u32
    ensures { result ≡ lanes_for common.now }
{
    common.lanes.max(1)
}

/// A text that names no host.
fn hostless(alloc: Global, text: &str) -> Result<Option<Text>, Memory>
    ensures { IfOk result (λ short. short ≡ hostless text.now) }
{
    if !is_short(text) {
        return Ok(None);
    }
    Ok(Some(Text::copy_of(alloc, text)?))
}

/// The short name that a source is.
fn short_for(
    alloc: Global,
    short_names: bool,
    from: &Place,
    text: &str,
) -> Result<Option<Text>, Memory>
    ensures { IfOk result (λ short. short ≡ short_for short_names from.now text.now) }
{
    if !short_names {
        return Ok(None);
    }
    match from {
        Place::Docker(_) => match text.strip_prefix("docker://") {
            Some(rest) => hostless(alloc, rest),
            None => Ok(None),
        },
        Place::Dir(_) => Ok(None),
        Place::Oci(_, _) => Ok(None),
    }
}

/// The program that judges signatures, where one is named.
fn verifier_for(alloc: Global, cwd: &str, passing: &Passing) -> Result<Option<Text>, Memory>
    ensures { IfOk result (λ verifier. verifier ≡ verifier_for cwd.now passing.now) }
{
    match &passing.verifier {
        Some(path) => Ok(Some(clean_path(alloc, cwd, path.as_str())?)),
        None => Ok(None),
    }
}

/// The store of signatures, where one is named.
fn lookaside_for(alloc: Global, passing: &Passing) -> Result<Option<Text>, Memory>
    ensures { IfOk result (λ lookaside. lookaside ≡ passing.now.lookaside) }
{
    match &passing.lookaside {
        Some(base) => Ok(Some(Text::copy_of(alloc, base.as_str())?)),
        None => Ok(None),
    }
}

/// The plan of a copy between two places, with what its options say.
fn plan_between(
    alloc: Global,
    cwd: &str,
    lanes: u32,
    passing: &Passing,
    short: Option<Text>,
    from: Place,
    to: Place,
) -> Result<CopyPlan, Memory>
    ensures { IfOk result (λ p. p ≡ plan_between cwd.now lanes passing.now short from to) }
{
    let lookaside = lookaside_for(alloc, passing)?;
    let verifier = verifier_for(alloc, cwd, passing)?;
    Ok(CopyPlan {
        source: from,
        short,
        dest: to,
        lanes,
        src_tls: passing.src_tls,
        lookaside,
        verifier,
        cwd: Text::copy_of(alloc, cwd)?,
    })
}

/// The places of a copy, its lanes, its short name, and what its options say.
#[tactic(auto, using(crate::proofs::TaskLemmas::then_says, crate::proofs::TaskLemmas::then_refuses, crate::proofs::TaskLemmas::says_memory), unfolding(crate::specs::Plan::plan_of))]
fn plan_of(
    alloc: Global,
    cwd: &str,
    lanes: u32,
    passing: &Passing,
    short_names: bool,
    source: &str,
    dest: &str,
) -> Result<CopyPlan, CommandRefusal>
    ensures apart { IfOk result (λ p. are_same p ≡ false) }
    ensures lanes { IfOk result (λ p. p.lanes ≡ lanes) }
    ensures says { Says command_course (plan_of cwd.now lanes passing.now short_names source.now dest.now) result }
    ensures other { IfErr result (λ e. is_output e ≡ false) }
{
    let from = place_at(alloc, cwd, source)?;
    let to = place_at(alloc, cwd, dest)?;
    let short = short_for(alloc, short_names, &from, source)?;
    let plan = plan_between(alloc, cwd, lanes, passing, short, from, to)?;
    apart(alloc, plan)
}

fn asks_more(common: &Common, passing: &Passing) -> bool
    ensures { result ≡ asks_more common.now passing.now }
{
    common.location_cache.is_some()
        || common.os.is_some()
        || common.arch.is_some()
        || common.variant.is_some()
        || passing.all
        || passing.preserve
        || passing.remove_signatures
        || passing.format.is_some()
        || passing.dest_tls.is_some()
}

fn are_built(plan: &CopyPlan) -> bool
    ensures { result ≡ are_built plan.now }
{
    (is_folder(&plan.source) || is_registry(&plan.source)) && is_folder(&plan.dest)
}

/// Refuses options and places that are not built yet.
#[tactic(auto, unfolding(skopeo_outside::specs::Steps::Says, crate::specs::Courses::command_course))]
fn require_built(common: &Common, passing: &Passing, plan: &CopyPlan) -> Result<(), CommandRefusal>
    ensures built { IfOk result (λ _. are_built plan.now ≡ true) }
    ensures says { Says command_course (built common.now passing.now plan.now) result }
    ensures other { IfErr result (λ e. is_output e ≡ false) }
{
    if asks_more(common, passing) {
        return Err(CommandRefusal::NotBuilt(Unbuilt::Option));
    }
    if !are_built(plan) {
        return Err(CommandRefusal::NotBuilt(Unbuilt::Place));
    }
    Ok(())
}

/// The policy that the options ask for.
fn choice_of(alloc: Global, cwd: &str, common: &Common) -> Result<PolicyChoice, Memory>
    ensures { IfOk result (λ choice. choice ≡ choice_of cwd.now common.now) }
{
    if common.insecure_policy {
        return Ok(PolicyChoice::Anything);
    }
    match &common.policy {
        Some(path) => Ok(PolicyChoice::Named(clean_path(alloc, cwd, path.as_str())?)),
        None => Ok(PolicyChoice::Usual),
    }
}

/// The configuration of the registries that the options ask for, where a registry is named.
fn conf_choice_of(
    alloc: Global,
    cwd: &str,
    common: &Common,
    source: &Place,
) -> Result<ConfChoice, Memory>
    ensures { IfOk result (λ choice. choice ≡ conf_choice_of cwd.now common.now source.now) }
{
    if !is_registry(source) {
        return Ok(ConfChoice::Unread);
    }
    match &common.registries_conf {
        Some(path) => Ok(ConfChoice::Named(clean_path(alloc, cwd, path.as_str())?)),
        None => Ok(ConfChoice::Usual),
    }
}

/// The copy of a plan, with what its options choose.
fn chosen(
    alloc: Global,
    cwd: &str,
    common: &Common,
    quiet: bool,
    plan: CopyPlan,
) -> Result<CopyTask, Memory>
    ensures { IfOk result (λ task. task ≡ chosen cwd.now common.now quiet plan) }
{
    let policy = choice_of(alloc, cwd, common)?;
    let conf = conf_choice_of(alloc, cwd, common, &plan.source)?;
    Ok(CopyTask {
        policy,
        conf,
        quiet,
        plan,
    })
}

/// A copy that is asked for with a command's options.
#[tactic(auto, using(crate::proofs::TaskLemmas::then_says, crate::proofs::TaskLemmas::then_refuses, crate::proofs::TaskLemmas::says_value, crate::proofs::TaskLemmas::says_memory, crate::proofs::TaskLemmas::sound), unfolding(crate::specs::Task::copy_of))]
fn copy_of(
    alloc: Global,
    cwd: &str,
    common: &Common,
    passing: &Passing,
    quiet: bool,
    short_names: bool,
    source: &str,
    dest: &str,
) -> Result<Task, CommandRefusal>
    ensures folders { IfOk result IsSound }
    ensures says { Says command_course (copy_of cwd.now common.now passing.now quiet short_names source.now dest.now) result }
    ensures other { IfErr result (λ e. is_output e ≡ false) }
{
    let plan = plan_of(
        alloc,
        cwd,
        lanes_for(common),
        passing,
        short_names,
        source,
        dest,
    )?;
    require_built(common, passing, &plan)?;
    let task = chosen(alloc, cwd, common, quiet, plan)?;
    Ok(Task::Copy(task))
}

/// Reads the place of a command that is not built, and refuses it.
#[tactic(auto, using(crate::proofs::TaskLemmas::then_says, crate::proofs::TaskLemmas::then_refuses, crate::proofs::TaskLemmas::says_refusal), unfolding(crate::specs::Task::unbuilt_at))]
fn unbuilt_at(alloc: Global, cwd: &str, text: &str) -> CommandRefusal
    ensures says { Says {A = Task} command_course (unbuilt_at cwd.now text.now) (Err result) }
    ensures other { is_output result ≡ false }
{
    match place_at(alloc, cwd, text) {
        Ok(_) => CommandRefusal::NotBuilt(Unbuilt::Command),
        Err(refusal) => refusal,
    }
}

/// The refusal of a text that is no reference.
fn bad_name(alloc: Global, text: &str, fault: RefFault) -> Result<CommandRefusal, Memory>
    ensures { IfOk result (λ e. e ≡ CommandRefusal.Reference text.now (PlaceFault.Reference fault)) }
{
    let text = Text::copy_of(alloc, text)?;
    Ok(CommandRefusal::Reference(text, PlaceFault::Reference(fault)))
}

/// Reads the source of `sync`, and refuses the command.
#[tactic(auto, unfolding(skopeo_outside::specs::Steps::Says, crate::specs::Courses::command_course, crate::specs::Task::unbuilt_sync))]
fn unbuilt_sync(alloc: Global, from: SyncEnd, text: &str) -> CommandRefusal
    ensures says { Says {A = Task} command_course (unbuilt_sync from text.now) (Err result) }
    ensures other { is_output result ≡ false }
{
    let SyncEnd::Docker = from else {
        return CommandRefusal::NotBuilt(Unbuilt::Command);
    };
    match parse_named(alloc, text) {
        Ok(_) => CommandRefusal::NotBuilt(Unbuilt::Command),
        Err(RefFault::Memory) => CommandRefusal::Image(Refusal::Memory),
        Err(fault) => match bad_name(alloc, text, fault) {
            Ok(refusal) => refusal,
            Err(_) => CommandRefusal::Image(Refusal::Memory),
        },
    }
}

#[tactic(auto, unfolding(skopeo_outside::specs::Steps::Says, crate::specs::Courses::command_course, crate::specs::Task::task_in))]
fn task_in(alloc: Global, cwd: &str, command: &Command) -> Result<Task, CommandRefusal>
    ensures folders { IfOk result IsSound }
    ensures says { Says command_course (task_in cwd.now command.now) result }
    ensures other { IfErr result (λ e. is_output e ≡ false) }
{
    match command {
        Command::Copy {
            common,
            passing,
            quiet,
            short_names,
            source,
            dest,
        } => copy_of(
            alloc,
            cwd,
            common,
            passing,
            *quiet,
            *short_names,
            source.as_str(),
            dest.as_str(),
        ),
        Command::Sync { from, source, .. } => Err(unbuilt_sync(alloc, *from, source.as_str())),
        Command::Inspect { image, .. } => Err(unbuilt_at(alloc, cwd, image.as_str())),
        Command::ListTags { repository, .. } => Err(unbuilt_at(alloc, cwd, repository.as_str())),
        Command::Delete { image, .. } => Err(unbuilt_at(alloc, cwd, image.as_str())),
        Command::MakeImages { .. } => Err(CommandRefusal::NotBuilt(Unbuilt::Command)),
        Command::Help(topic) => Ok(Task::Page(Text::copy_of(alloc, help_text(*topic))?)),
        Command::Version => Ok(Task::Page(Text::copy_of(alloc, version_text())?)),
    }
}

/// What the words ask for. Words are read first, then places, and then what is not built is refused.
#[tactic(auto, unfolding(skopeo_outside::specs::Steps::Says, crate::specs::Courses::command_course, crate::specs::Task::task_of))]
pub fn read_task(alloc: Global, words: &[String], cwd: &str) -> Result<Task, CommandRefusal>
    ensures folders { IfOk result IsSound }
    ensures says { Says command_course (task_of (map string_bytes words.now) cwd.now) result }
    ensures other { IfErr result (λ e. is_output e ≡ false) }
{
    match read_words(alloc, words) {
        Ok(command) => task_in(alloc, cwd, &command),
        Err(WordsFault::At(place, kind)) => Err(CommandRefusal::Words(place, kind)),
        Err(WordsFault::Memory) => Err(CommandRefusal::Image(Refusal::Memory)),
    }
}
