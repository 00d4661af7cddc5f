// One child of this process: how it is started, asked and waited for.
ghost use Rattle.std.specs.Prelude.{◌≡◌, ◌≤◌, ◌<◌, ◌+◌, length};

use skopeo_outside::Many;
use std::io;
use std::io::{ErrorKind, Read, Write};
use std::process::{Child, Command, OpenProcess, Processes, Stdio};

/// The status that is told of a program that a signal ended.
const KILLED: i32 = -1;

/// The most bytes of one read.
const PIECE: usize = 8192;

/// Starts the program at an absolute path, without arguments and through no shell. Its input and output are pipes, its
/// standard error and its environment are this program's, and it has no other open file.
pub fn start<R: Processes + AllocGlobal>(rt: &R, program: &str) -> io::Result<Child<R::Started>> {
    if !program.starts_with("/") {
        return Err(io::Error::new(
            ErrorKind::InvalidInput,
            "a program is named by its absolute path",
        ));
    }
    let mut command = Command::new(rt.alloc(), program)?;
    command.stdin(Stdio::piped());
    command.stdout(Stdio::piped());
    command.spawn(rt)
}

/// Writes the whole input. A program that reads no more of it is no fault: what it answers counts.
fn write_input<S: Write>(to: &mut S, input: &[u8]) -> io::Result<()> {
    match to.write_all(input) {
        Ok(()) => Ok(()),
        Err(error) => {
            if error.kind() == ErrorKind::BrokenPipe {
                return Ok(());
            }
            Err(error)
        }
    }
}

/// Adds one piece of the output, for which so much room is left, and says whether more may come.
fn read_piece<S: Read>(from: &mut S, room: usize, answer: &mut Many<u8>) -> io::Result<bool>
    ensures kept { length answer.new ≤ length answer.old + room }
{
    let mut piece = [0u8; PIECE];
    let most = room.min(PIECE);
    match from.read(&mut piece[..most]) {
        Ok(count) => {
            if answer.extend(&piece[..count]).is_err() {
                return Err(io::Error::from(ErrorKind::OutOfMemory));
            }
            Ok(count > 0)
        }
        Err(error) => {
            if error.kind() == ErrorKind::Interrupted {
                return Ok(true);
            }
            Err(error)
        }
    }
}

/// Reads the output up to its end, or up to so many bytes.
fn read_output<S: Read>(from: &mut S, most: usize, answer: &mut Many<u8>) -> io::Result<()>
    requires room { length answer.old ≤ most }
    ensures kept { length answer.new ≤ most }
{
    for _ in 0..u64::MAX {
        let room = most - answer.len();
        if room == 0 {
            return Ok(());
        }
        if !read_piece(from, room, answer)? {
            return Ok(());
        }
    }
    Err(io::Error::from(ErrorKind::TimedOut))
}

/// Gives a child its input, and closes it.
fn give<P: OpenProcess>(child: &mut Child<P>, input: &[u8]) -> io::Result<()> {
    match child.stdin.take() {
        Some(mut to) => write_input(&mut to, input),
        None => Ok(()),
    }
}

/// Takes a child's output, up to so many bytes, and closes it.
fn take<P: OpenProcess>(child: &mut Child<P>, most: usize, answer: &mut Many<u8>) -> io::Result<()>
    requires room { length answer.old ≤ most }
    ensures kept { length answer.new ≤ most }
{
    match child.stdout.take() {
        Some(mut from) => read_output(&mut from, most, answer),
        None => Ok(()),
    }
}

/// Input and output of a child.
fn talk<P: OpenProcess>(
    child: &mut Child<P>,
    input: &[u8],
    most: usize,
    answer: &mut Many<u8>,
) -> io::Result<()>
    requires room { length answer.old ≤ most }
    ensures kept { length answer.new ≤ most }
{
    give(child, input)?;
    take(child, most, answer)
}

/// Gives a child its input, takes its output up to so many bytes, and waits for its status. One that cannot be spoken to
/// is killed.
pub fn ask<P: OpenProcess + Drop>(
    mut child: Child<P>,
    input: &[u8],
    most: usize,
    answer: &mut Many<u8>,
) -> io::Result<i32>
    requires room { length answer.old ≤ most }
    ensures kept { length answer.new ≤ most }
{
    if let Err(error) = talk(&mut child, input, most, answer) {
        let _ = child.kill();
        let _ = child.wait();
        return Err(error);
    }
    let status = child.wait()?;
    Ok(status.code().unwrap_or(KILLED))
}
