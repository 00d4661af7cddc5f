use crate::disk::{Asked, SlowDisk};
use real_files::{Note, Progress, RealFiles};
use skopeo_outside::{Files, Stop};
use std::alloc::Global;
use std::sync::atomic::Ordering;
use std::test::Fail;

// A note as a text, and no text where there is none.
fn text_of(alloc: Global, note: Option<&Note>) -> Result<String, Fail> {
    match note {
        Some(note) => Ok(format!(in alloc; "{note}")?),
        None => Ok(String::new(alloc)),
    }
}

// A read that is interrupted is tried again, and a file that is read on is opened once.
#[test]
fn reads_on(rt: HostRuntime) -> Result<(), Fail> {
    let asked = Asked::new(0, true);
    let disk = SlowDisk {
        alloc: rt.alloc(),
        asked: &asked,
    };
    let progress = Progress::new(&disk, false);
    let mut files = RealFiles::new(&disk, &progress);
    let mut into = [0u8; 4];
    assert_eq!(rt; files.read("/a/b", 0, &mut into), Ok(Some(1)));
    assert_eq!(rt; files.read("/a/b", 1, &mut into), Ok(Some(1)));
    assert_eq!(rt; files.read("/a/b", 2, &mut into), Ok(Some(1)));
    assert_eq!(rt; asked.opens.load(Ordering::SeqCst), 1);
    assert_eq!(rt; asked.reads.load(Ordering::SeqCst), 6);
    assert_eq!(rt; files.read("/a/b", 0, &mut into), Ok(Some(1)));
    assert_eq!(rt; asked.opens.load(Ordering::SeqCst), 2);
    assert_eq!(rt; files.faults(), 0);
    Ok(())
}

// A write that is interrupted is tried again, a short one goes on, and the part is opened once.
#[test]
fn writes_on(rt: HostRuntime) -> Result<(), Fail> {
    let asked = Asked::new(10, true);
    let disk = SlowDisk {
        alloc: rt.alloc(),
        asked: &asked,
    };
    let progress = Progress::new(&disk, false);
    let mut files = RealFiles::new(&disk, &progress);
    assert_eq!(rt; files.create("/a/p"), Ok(()));
    assert_eq!(rt; files.append("/a/p", b"abcd"), Ok(()));
    assert_eq!(rt; files.append("/a/p", b"efg"), Ok(()));
    assert_eq!(rt; files.rename("/a/p", "/a/b"), Ok(()));
    assert_eq!(rt; asked.writes.load(Ordering::SeqCst), 14);
    assert_eq!(rt; asked.room.load(Ordering::SeqCst), 3);
    assert_eq!(rt; asked.opens.load(Ordering::SeqCst), 1);
    assert!(rt; files.note().is_none());
    Ok(())
}

// A disk that is full in the middle of a piece.
#[test]
fn tells_a_full_disk(rt: HostRuntime) -> Result<(), Fail> {
    let asked = Asked::new(2, true);
    let disk = SlowDisk {
        alloc: rt.alloc(),
        asked: &asked,
    };
    let progress = Progress::new(&disk, false);
    let mut files = RealFiles::new(&disk, &progress);
    assert_eq!(rt; files.append("/a/p", b"abcd"), Err(Stop::Fault));
    assert_eq!(rt; files.faults(), 1);
    let text = text_of(rt.alloc(), files.note())?;
    assert_eq!(rt; text.as_str(), "append \"/a/p\": no space left on device");
    Ok(())
}

// What was written may fail only when the file is closed, and then it is not named.
#[test]
fn tells_an_error_at_closing(rt: HostRuntime) -> Result<(), Fail> {
    let asked = Asked::new(9, false);
    let disk = SlowDisk {
        alloc: rt.alloc(),
        asked: &asked,
    };
    let progress = Progress::new(&disk, false);
    let mut files = RealFiles::new(&disk, &progress);
    assert_eq!(rt; files.append("/a/p", b"abcd"), Ok(()));
    assert_eq!(rt; files.rename("/a/p", "/a/b"), Err(Stop::Fault));
    assert_eq!(rt; files.rename("/a/p", "/a/b"), Ok(()));
    assert_eq!(rt; files.faults(), 1);
    let text = text_of(rt.alloc(), files.note())?;
    assert_eq!(rt; text.as_str(), "close \"/a/p\": input/output error");
    Ok(())
}
