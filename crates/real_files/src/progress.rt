// How far a copy is, for who looks on.
use std::io::Eprint;
use std::rt::Clock;
use std::sync::atomic::{AtomicU64, Ordering};
use std::time::Instant;

/// The milliseconds before the first line, and between two lines.
const FIRST: u64 = 1000;

const NEXT: u64 = 200;

/// The bytes that were written so far, which one line on standard error shows once a copy takes more than a second. The
/// lanes of a copy share it.
#[derive(Drop)]
pub struct Progress<'r, R> {
    rt: &'r R,
    began: Option<Instant>,
    bytes: AtomicU64,
    shown: AtomicU64,
}

impl<'r, R: Clock + Eprint> Progress<'r, R> {
    /// No bytes yet. Where nobody looks on no line is written.
    pub fn new(rt: &'r R, is_watched: bool) -> Self {
        let began = if is_watched {
            Instant::now(rt).ok()
        } else {
            None
        };
        Progress {
            rt,
            began,
            bytes: AtomicU64::new(0),
            shown: AtomicU64::new(0),
        }
    }

    fn milliseconds(&self) -> u64 {
        let Some(began) = &self.began else {
            return 0;
        };
        match began.elapsed(self.rt) {
            Ok(time) => u64::try_from(time.as_millis()).unwrap_or(0),
            Err(_) => 0,
        }
    }

    /// Adds bytes, and writes the line anew where it is old enough.
    pub fn add(&self, bytes: u64) {
        if self.began.is_none() {
            return;
        }
        let sum = self
            .bytes
            .fetch_add(bytes, Ordering::SeqCst)
            .wrapping_add(bytes);
        let now = self.milliseconds();
        let shown = self.shown.load(Ordering::SeqCst);
        if now < FIRST || now < shown.saturating_add(NEXT) {
            return;
        }
        if self
            .shown
            .compare_exchange(shown, now, Ordering::SeqCst, Ordering::SeqCst)
            .is_ok()
        {
            let _ = eprint!(self.rt; "\r{sum} bytes copied");
        }
    }

    /// Takes the line away, where there is one.
    pub fn clear(&self) {
        if self.shown.swap(0, Ordering::SeqCst) != 0 {
            let _ = eprint!(self.rt; "\r\x1b[K");
        }
    }
}
