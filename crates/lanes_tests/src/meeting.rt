// Files of lanes that meet.
ghost use Rattle.std.specs.Prelude.{◌≡◌};

use skopeo_outside::{Entry, Files, Many, Stop};
use std::sync::atomic::{AtomicU64, Ordering};

/// How many lanes have begun a blob, for how many each waits and how many turns, and how many have waited in vain.
#[derive(Drop)]
pub struct World {
    pub begun: AtomicU64,
    pub together: u64,
    pub turns: u32,
    pub in_vain: AtomicU64,
}

impl World {
    pub fn new(together: u32, turns: u32) -> Self {
        World {
            begun: AtomicU64::new(0),
            together: u64::from(together),
            turns,
            in_vain: AtomicU64::new(0),
        }
    }

    /// Waits until all lanes have begun a blob, within a limited number of turns.
    fn meet(&self) {
        self.begun.fetch_add(1, Ordering::SeqCst);
        for _ in 0..self.turns {
            if self.begun.load(Ordering::SeqCst) >= self.together {
                return;
            }
        }
        self.in_vain.fetch_add(1, Ordering::SeqCst);
    }
}

/// The files of one lane: its first bytes of a blob wait until all lanes have begun one.
#[derive(Drop)]
pub struct Meeting<'w, F: Files> {
    pub world: &'w World,
    pub has_met: bool,
    pub files: F,
}

impl<'w, F: Files> Meeting<'w, F> {
    /// Meets the other lanes where this is the first part of a blob.
    fn begin(&mut self, path: &str)
        ensures { self.new.files ≡ self.old.files }
    {
        if self.has_met || !path.contains(".part-") {
            return;
        }
        self.has_met = true;
        self.world.meet();
    }
}

impl<'w, F: Files> Files for Meeting<'w, F> {
    ghost tree = { λ m. F.tree m.files };

    ghost faults = { λ m. F.faults m.files };

    fn size(&mut self, path: &str) -> Result<Option<u64>, Stop> {
        self.files.size(path)
    }

    fn read(&mut self, path: &str, at: u64, into: &mut [u8]) -> Result<Option<usize>, Stop> {
        self.files.read(path, at, into)
    }

    fn list(&mut self, path: &str, into: &mut Many<Entry>) -> Result<bool, Stop> {
        self.files.list(path, into)
    }

    fn make_dir(&mut self, path: &str) -> Result<(), Stop> {
        self.files.make_dir(path)
    }

    fn create(&mut self, path: &str) -> Result<(), Stop> {
        self.files.create(path)
    }

    fn append(&mut self, path: &str, bytes: &[u8]) -> Result<(), Stop> {
        self.begin(path);
        self.files.append(path, bytes)
    }

    fn rename(&mut self, from: &str, to: &str) -> Result<(), Stop> {
        self.files.rename(from, to)
    }

    fn remove(&mut self, path: &str) -> Result<(), Stop> {
        self.files.remove(path)
    }

    fn faults(&self) -> u64 {
        self.files.faults()
    }
}
