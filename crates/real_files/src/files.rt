// Real files behind the trait. They tell no tree.
ghost use Rattle.std.specs.Prelude.{◌≡◌, ◌≤◌, ◌<◌, ◌↔◌, ℕ, None, Ok, OnOk, IfOk, IfSome, IsSome, IsErrOf, length};
ghost use Rattle.skopeo_outside.specs.Outside.{HasCause, Rose};
ghost use Rattle.real_files.specs.Counted.{one_more};

use crate::calls::{found, list_of, remove_at, size_of};
use crate::disk::Disk;
use crate::known::Known;
use crate::note::{Call, Note};
use crate::opened::{Part, Source, make_empty, open_end};
use crate::progress::Progress;
use skopeo_outside::{Entry, Files, Many, Stop};
use std::io::ErrorKind;
use std::marker::Model;
use std::{fs, io};

/// Real files, with a count of the calls that failed and a note of the first. The file that is read and the part that is
/// appended to stay open between calls.
#[derive(Drop)]
pub struct RealFiles<'r, R: Disk> {
    rt: &'r R,
    source: Option<Source<R::File>>,
    part: Option<Part<R::File>>,
    /// The path that `size` last found a file at, and empty once it may be none.
    sized: String,
    known: Known,
    faults: u64,
    note: Option<Note>,
    progress: &'r Progress<'r, R>,
}

/// Seen as the count of faults. There is a note exactly where there was a fault.
impl<'r, R: Disk> Model for RealFiles<'r, R> {
    ghost use Rattle.std.specs.Prelude.{◌↔◌, ◌<◌, ℕ, IsSome};

    ghost Value = { ℕ };

    ghost view = { λ f. f.faults };

    ghost invariant = { λ f. IsSome f.note ↔ (0 < f.faults) };
}

impl<'r, R: Disk> RealFiles<'r, R> {
    /// No file is open and no call has failed. What is written is added to the progress.
    pub fn new(rt: &'r R, progress: &'r Progress<'r, R>) -> Self
        ensures { result ≡ 0 }
    {
        RealFiles {
            rt,
            source: None,
            part: None,
            sized: String::new(rt.alloc()),
            known: Known::new(rt.alloc()),
            faults: 0,
            note: None,
            progress,
        }
    }

    /// The first call that failed.
    pub fn note(&self) -> Option<&Note>
        ensures { IsSome result ↔ (0 < self.now) }
    {
        self.note.as_ref()
    }

    /// Counts a fault, and notes the first.
    fn count(&mut self, call: Call, path: &str, error: &io::Error)
        ensures exact { self.new ≡ one_more self.old }
        ensures later { self.old ≤ self.new }
        ensures rose { Rose self.old self.new }
    {
        let faults = self.faults.saturating_add(1);
        if self.note.is_none() {
            self.note = Some(Note::new(self.rt.alloc(), call, path, error));
        }
        self.faults = faults;
    }

    /// What a call answers for what the system answered: want of memory is no fault.
    fn answer<T>(&mut self, call: Call, path: &str, answer: io::Result<T>) -> Result<T, Stop>
        ensures value { IfOk result (λ value. answer ≡ Ok value) }
        ensures calm { OnOk result (self.new ≡ self.old) }
        ensures memory { IsErrOf result Stop.Memory → self.new ≡ self.old }
        ensures fault { IsErrOf result Stop.Fault → self.new ≡ one_more self.old }
        ensures cause { HasCause self.old self.new result }
    {
        match answer {
            Ok(value) => Ok(value),
            Err(error) => {
                if error.kind() == ErrorKind::OutOfMemory {
                    return Err(Stop::Memory);
                }
                self.count(call, path, &error);
                Err(Stop::Fault)
            }
        }
    }

    /// Closes the part.
    fn close_part(&mut self) -> Result<(), Stop>
        ensures calm { OnOk result (self.new ≡ self.old) }
        ensures cause { HasCause self.old self.new result }
    {
        match self.part.take() {
            Some(part) => {
                let (path, file) = part.into_parts();
                let closed = self.rt.close(file);
                self.answer(Call::Close, path.as_str(), closed)
            }
            None => Ok(()),
        }
    }

    fn writes(&self, path: &str) -> bool {
        match &self.part {
            Some(part) => part.is_at(path),
            None => false,
        }
    }

    fn reads(&self, path: &str) -> bool {
        match &self.source {
            Some(source) => source.is_at(path),
            None => false,
        }
    }

    /// Closes the part where it has this path.
    fn close_at(&mut self, path: &str) -> Result<(), Stop>
        ensures calm { OnOk result (self.new ≡ self.old) }
        ensures cause { HasCause self.old self.new result }
    {
        if self.writes(path) {
            return self.close_part();
        }
        Ok(())
    }

    /// Forgets what is open to be read at a path whose file will change, and what was told of its size.
    fn forget(&mut self, path: &str)
        ensures { self.new ≡ self.old }
    {
        if self.sized.as_str() == path {
            self.sized.clear();
        }
        if self.reads(path) {
            self.source = None;
        }
    }

    /// Closes what is open at a path whose file will change.
    fn let_go(&mut self, path: &str) -> Result<(), Stop>
        ensures calm { OnOk result (self.new ≡ self.old) }
        ensures cause { HasCause self.old self.new result }
    {
        self.forget(path);
        self.close_at(path)
    }

    /// Whether a file stands at the path, which is not asked again where `size` has just told it.
    fn is_file(&mut self, path: &str) -> io::Result<bool>
        ensures { self.new ≡ self.old }
    {
        if self.sized.as_str() == path {
            self.sized.clear();
            return Ok(true);
        }
        Ok(size_of(self.rt, path)?.is_some())
    }

    /// What `size` answers, and the path is kept where there is a file.
    fn size_file(&mut self, path: &str) -> io::Result<Option<u64>>
        ensures { self.new ≡ self.old }
    {
        self.sized.clear();
        let size = size_of(self.rt, path)?;
        if size.is_some() {
            self.sized.push_str(path)?;
        }
        Ok(size)
    }

    fn open_source(&mut self, path: &str) -> io::Result<Option<Source<R::File>>>
        ensures { self.new ≡ self.old }
    {
        if !self.is_file(path)? {
            return Ok(None);
        }
        let Some(file) = found(fs::open(self.rt, path))? else {
            return Ok(None);
        };
        self.known.note_read(self.rt, path)?;
        Ok(Some(Source::new(self.rt.alloc(), path, file)?))
    }

    /// The file that is open at the path, or, at its start, the one that stands there now.
    fn take_source(&mut self, path: &str, at: u64) -> io::Result<Option<Source<R::File>>>
        ensures { self.new ≡ self.old }
    {
        let goes_on = at != 0 && self.reads(path);
        match self.source.take() {
            Some(source) => {
                if goes_on {
                    Ok(Some(source))
                } else {
                    self.open_source(path)
                }
            }
            None => self.open_source(path),
        }
    }

    fn read_file(&mut self, path: &str, at: u64, into: &mut [u8]) -> io::Result<Option<usize>>
        ensures count { IfOk result (λ answer. IfSome answer (λ count. count ≤ length into.old)) }
        ensures same { self.new ≡ self.old }
    {
        let Some(mut source) = self.take_source(path, at)? else {
            return Ok(None);
        };
        let count = source.read_at(at, into);
        self.source = Some(source);
        Ok(Some(count?))
    }

    fn create_file(&mut self, path: &str) -> io::Result<()>
        ensures { self.new ≡ self.old }
    {
        self.known.check_change(self.rt, path)?;
        let file = make_empty(self.rt, path)?;
        self.part = Some(Part::new(self.rt.alloc(), path, file)?);
        Ok(())
    }

    fn open_part(&mut self, path: &str) -> io::Result<Part<R::File>>
        ensures { self.new ≡ self.old }
    {
        self.known.check_change(self.rt, path)?;
        let file = open_end(self.rt, path)?;
        Ok(Part::new(self.rt.alloc(), path, file)?)
    }

    /// Appends to the open part, or opens it.
    fn append_file(&mut self, path: &str, bytes: &[u8]) -> io::Result<()>
        ensures { self.new ≡ self.old }
    {
        let mut part = match self.part.take() {
            Some(part) => part,
            None => self.open_part(path)?,
        };
        let answer = part.append(bytes);
        self.part = Some(part);
        answer?;
        self.progress.add(bytes.len() as u64);
        Ok(())
    }

    /// Moves a file, or a link to one. The part that was open is a file.
    fn rename_file(&mut self, from: &str, to: &str, is_part: bool) -> io::Result<()>
        ensures { self.new ≡ self.old }
    {
        self.known.check_change(self.rt, from)?;
        self.known.check_change(self.rt, to)?;
        if !is_part && size_of(self.rt, from)?.is_none() {
            return Ok(());
        }
        fs::rename(self.rt, from, to)
    }

    fn remove_file(&mut self, path: &str) -> io::Result<()>
        ensures { self.new ≡ self.old }
    {
        self.known.check_change(self.rt, path)?;
        remove_at(self.rt, path)
    }
}

impl<'r, R: Disk> Files for RealFiles<'r, R> {
    ghost tree = { λ _. None };

    ghost faults = { λ s. s };

    fn size(&mut self, path: &str) -> Result<Option<u64>, Stop> {
        self.close_at(path)?;
        let answer = self.size_file(path);
        self.answer(Call::Size, path, answer)
    }

    fn read(&mut self, path: &str, at: u64, into: &mut [u8]) -> Result<Option<usize>, Stop> {
        self.close_at(path)?;
        let answer = self.read_file(path, at, into);
        self.answer(Call::Read, path, answer)
    }

    fn list(&mut self, path: &str, into: &mut Many<Entry>) -> Result<bool, Stop> {
        self.close_part()?;
        let answer = list_of(self.rt, path, into);
        self.answer(Call::List, path, answer)
    }

    fn make_dir(&mut self, path: &str) -> Result<(), Stop> {
        self.sized.clear();
        let answer = fs::create_dir_all(self.rt, path);
        self.answer(Call::MakeDir, path, answer)
    }

    fn create(&mut self, path: &str) -> Result<(), Stop> {
        self.let_go(path)?;
        self.close_part()?;
        let answer = self.create_file(path);
        self.answer(Call::Create, path, answer)
    }

    fn append(&mut self, path: &str, bytes: &[u8]) -> Result<(), Stop> {
        self.forget(path);
        if !self.writes(path) {
            self.close_part()?;
        }
        let answer = self.append_file(path, bytes);
        self.answer(Call::Append, path, answer)
    }

    fn rename(&mut self, from: &str, to: &str) -> Result<(), Stop> {
        let is_part = self.writes(from);
        self.let_go(from)?;
        self.let_go(to)?;
        let answer = self.rename_file(from, to, is_part);
        self.answer(Call::Rename, to, answer)
    }

    fn remove(&mut self, path: &str) -> Result<(), Stop> {
        self.let_go(path)?;
        let answer = self.remove_file(path);
        self.answer(Call::Remove, path, answer)
    }

    fn faults(&self) -> u64 {
        self.faults
    }
}
