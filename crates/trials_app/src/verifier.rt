// Programs that judge signatures, by their paths, and programs that fail at it.
ghost use Rattle.std.specs.Prelude.{None};

use crate::question::{Judgement, judge};
use skopeo_outside::{Ended, Helper, Idle, Many, Memory, Reply, Stop, SureHelper, Text};
use std::alloc::Global;

/// The end of a run with a text.
fn ended(alloc: Global, status: i32, text: &str) -> Result<Ended, Memory> {
    let mut answer = Many::new(alloc);
    answer.extend(text.as_bytes())?;
    Ok(Ended { status, answer })
}

/// The end of a run with so many zero bytes.
fn ended_with_zeros(alloc: Global, status: i32, count: usize) -> Result<Ended, Memory> {
    let zeros = vec![in alloc; 0u8; count]?;
    Ok(Ended {
        status,
        answer: Many::from_vec(zeros),
    })
}

/// The end of a verifier's run: a signature `KEY:PAYLOAD` is good where KEY is one of the keys. What
/// is no question has status 2.
fn verified(alloc: Global, input: &[u8]) -> Result<Ended, Memory> {
    match judge(alloc, input)? {
        Judgement::NoQuestion => ended(alloc, 2, ""),
        Judgement::NoKey => ended(alloc, 0, "bad no key\n"),
        Judgement::Good(payload) => {
            let head = format!(in alloc; "good {}\n", payload.len())?;
            let mut end = ended(alloc, 0, head.as_str())?;
            end.answer.extend(payload)?;
            Ok(end)
        }
    }
}

/// The status and the text of a program that looks at no question; none where it cannot be started.
fn told(program: &str) -> Option<(i32, &'static str)> {
    match program {
        "/w/killed" => Some((-1, "")),
        "/w/killed-late" => Some((-1, "bad no key\n")),
        "/w/one" => Some((1, "")),
        "/w/three" => Some((
            3,
            "no keyring: the first sixty-four bytes of this answer are told, and no more",
        )),
        "/w/three-good" => Some((3, "good 2\n{}")),
        "/w/mute" => Some((0, "")),
        "/w/chatty" => Some((0, "gpgv: Signature made today\ngood 2\n{}")),
        "/w/twice" => Some((0, "bad no key\nbad no key\n")),
        "/w/more" => Some((0, "good 2\n{}x")),
        "/w/less" => Some((0, "good 3\n{}")),
        "/w/zeros" => Some((0, "good 02\n{}")),
        "/w/no-end" => Some((0, "bad no key")),
        "/w/no-reason" => Some((0, "bad \n")),
        "/w/tab" => Some((0, "bad no\tkey\n")),
        "/w/two-braces" => Some((0, "good 2\n{}")),
        "/w/quotes" => Some((0, "bad \"no\" \\ key ~\n")),
        _ => None,
    }
}

/// How a run of a program ends, and none where it cannot be started. `/w/once` cannot be started again.
fn end_of(
    alloc: Global,
    program: &str,
    input: &[u8],
    again: bool,
) -> Result<Option<Ended>, Memory> {
    match program {
        "/w/v" => Ok(Some(verified(alloc, input)?)),
        "/w/once" => {
            if again {
                return Ok(None);
            }
            Ok(Some(verified(alloc, input)?))
        }
        "/w/most" => Ok(Some(ended_with_zeros(alloc, 0, 4_194_368)?)),
        "/w/long" => Ok(Some(ended_with_zeros(alloc, 3, 4_194_369)?)),
        other => match told(other) {
            Some((status, text)) => Ok(Some(ended(alloc, status, text)?)),
            None => Ok(None),
        },
    }
}

/// A helper in memory that ends so, whatever it is asked.
fn helper_of(alloc: Global, program: &str, input: &[u8], end: Ended) -> Result<SureHelper, Memory> {
    let Ended { status, answer } = end;
    let mut question = Many::new(alloc);
    question.extend(input)?;
    let mut replies = Many::new(alloc);
    replies.push(Reply {
        program: Text::copy_of(alloc, program)?,
        input: question,
        status,
        answer,
    })?;
    Ok(SureHelper::new(alloc, replies))
}

/// The programs, with a count of the runs, and one that cannot be started.
#[derive(Drop)]
pub struct Programs {
    alloc: Global,
    asked: u64,
    failing: Idle,
}

impl Programs {
    /// None was run yet.
    pub fn new(alloc: Global) -> Self {
        Programs {
            alloc,
            asked: 0,
            failing: Idle::new(),
        }
    }
}

impl Helper for Programs {
    ghost runs = { λ _. None };

    ghost faults = { λ p. p.failing.count };

    fn run(
        &mut self,
        program: &str,
        input: &[u8],
        limit: usize,
        answer: &mut Many<u8>,
    ) -> Result<i32, Stop> {
        let again = self.asked > 0;
        self.asked = self.asked.saturating_add(1);
        let Some(end) = end_of(self.alloc, program, input, again)? else {
            return self.failing.run(program, input, limit, answer);
        };
        let mut helper = helper_of(self.alloc, program, input, end)?;
        match helper.run(program, input, limit, answer) {
            Ok(status) => Ok(status),
            Err(_) => Err(Stop::Memory),
        }
    }

    fn faults(&self) -> u64 {
        self.failing.count
    }
}
