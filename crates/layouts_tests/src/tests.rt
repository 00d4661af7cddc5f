// Image folders in memory of which calls fail in turn, and the files of an instance.
use digest_reader::Job;
use image_ref::{Digest, Place, read_digest};
use layouts::{DirImage, LayoutFault};
use skopeo_outside::{Many, MemFiles, Memory, Shelf, Text};
use std::alloc::Global;
use std::test::Fail;

// The digest of `abc`, as `sha256sum` prints it.
const ABC: &str = "sha256:ba7816bf8f01cfea414140de5dae2223b00361a396177a9cb410ff61f20015ad";

const BLOB: &str = "/w/d/ba7816bf8f01cfea414140de5dae2223b00361a396177a9cb410ff61f20015ad";

const PART: &str = "/w/d/ba7816bf8f01cfea414140de5dae2223b00361a396177a9cb410ff61f20015ad.part-7";

const INSTANCE: &str =
    "/w/d/ba7816bf8f01cfea414140de5dae2223b00361a396177a9cb410ff61f20015ad.manifest.json";

const SIGNED: &str =
    "/w/d/ba7816bf8f01cfea414140de5dae2223b00361a396177a9cb410ff61f20015ad.signature-1";

const VERSION: &[u8] = b"Directory Transport Version: 1.1\n";

fn open(alloc: Global) -> Result<DirImage, Memory> {
    let place = Place::Dir(Text::copy_of(alloc, "/w/d")?);
    DirImage::open(alloc, &place)
}

/// Files of which the call of this number fails, and none where that is 0.
fn failing(alloc: Global, call: u64) -> Result<MemFiles, Memory> {
    let mut calls = Vec::new(alloc);
    calls.push(call)?;
    Ok(MemFiles::new(alloc, calls))
}

/// Whether a call ended with the fault of the files.
fn is_files<T>(ended: &Result<T, LayoutFault>) -> bool {
    matches!(ended, Err(LayoutFault::Files))
}

/// Reads a manifest of three bytes in files of which a call fails.
fn read_by(alloc: Global, call: u64) -> Result<usize, LayoutFault> {
    let mut files = failing(alloc, call)?;
    files.shelf.add("/w/d/manifest.json", b"abc")?;
    let manifest = open(alloc)?.read_manifest(alloc, &mut files)?;
    Ok(manifest.bytes.len())
}

/// Two reads of a manifest, of which the second finds its end.
#[test]
fn tells_a_failing_read_of_a_manifest(rt: HostRuntime) -> Result<(), Fail> {
    assert!(rt; is_files(&read_by(rt.alloc(), 1)));
    assert!(rt; is_files(&read_by(rt.alloc(), 2)));
    assert_eq!(rt; read_by(rt.alloc(), 3).ok(), Some(3));
    let mut files = failing(rt.alloc(), 1)?;
    let absent = open(rt.alloc())?.read_manifest(rt.alloc(), &mut files);
    assert!(rt; is_files(&absent));
    Ok(())
}

/// Reads two signatures in files of which a call fails.
fn signatures_by(alloc: Global, call: u64) -> Result<usize, LayoutFault> {
    let mut files = failing(alloc, call)?;
    files.shelf.add("/w/d/signature-1", b"one")?;
    files.shelf.add("/w/d/signature-2", b"two")?;
    let signatures = open(alloc)?.read_signatures(alloc, &mut files, None)?;
    Ok(signatures.len())
}

/// Two reads for each of two signatures, and one that finds no third.
#[test]
fn tells_a_failing_read_of_a_signature(rt: HostRuntime) -> Result<(), Fail> {
    for call in 1..6u64 {
        assert!(rt; is_files(&signatures_by(rt.alloc(), call)), "{call}");
    }
    assert_eq!(rt; signatures_by(rt.alloc(), 6).ok(), Some(2));
    Ok(())
}

fn two(alloc: Global) -> Result<Vec<Many<u8>>, Memory> {
    let mut signatures = Vec::new(alloc);
    for bytes in [b"one", b"two"] {
        let mut signature = Many::new(alloc);
        signature.extend(bytes)?;
        signatures.push(signature)?;
    }
    Ok(signatures)
}

fn put_abc(
    alloc: Global,
    image: &DirImage,
    files: &mut MemFiles,
    job: &Job,
) -> Result<(), LayoutFault> {
    image.begin_blob(alloc, files, 7, job)?;
    image.add_piece(alloc, files, 7, job, b"abc")?;
    image.keep_blob(alloc, files, 7, job)
}

/// A blob, two signatures and a manifest: twelve calls of the files.
fn put_all(alloc: Global, files: &mut MemFiles, digest: Digest) -> Result<(), LayoutFault> {
    let image = open(alloc)?;
    let job = Job {
        number: 1,
        digest,
        size: 3,
    };
    put_abc(alloc, &image, files, &job)?;
    image.put_signatures(alloc, files, None, &two(alloc)?)?;
    image.put_manifest(alloc, files, None, "application/json", b"{}")
}

/// How many first files of an image stand whole.
fn whole(shelf: &Shelf) -> u64 {
    if shelf.get(BLOB) != Some(b"abc".as_slice()) {
        return 0;
    }
    if shelf.get("/w/d/signature-1") != Some(b"one".as_slice()) {
        return 1;
    }
    if shelf.get("/w/d/signature-2") != Some(b"two".as_slice()) {
        return 2;
    }
    if shelf.get("/w/d/manifest.json") != Some(b"{}".as_slice()) {
        return 3;
    }
    4
}

/// Each call fails in turn: the files before it stand, and the next is not named.
#[test]
fn names_each_file_where_it_is_whole(rt: HostRuntime) -> Result<(), Fail> {
    let digest = read_digest(ABC).ok_or("no digest")?;
    for call in 1..14u64 {
        let mut files = failing(rt.alloc(), call)?;
        let ended = put_all(rt.alloc(), &mut files, digest);
        assert_eq!(rt; is_files(&ended), call < 13, "{call}");
        assert_eq!(rt; whole(&files.shelf), (call - 1) / 3, "{call}");
    }
    Ok(())
}

/// A piece that was cut off stands under the part's name.
#[test]
fn leaves_a_part_where_a_piece_is_cut_off(rt: HostRuntime) -> Result<(), Fail> {
    let digest = read_digest(ABC).ok_or("no digest")?;
    let mut files = failing(rt.alloc(), 2)?;
    let ended = put_all(rt.alloc(), &mut files, digest);
    assert!(rt; is_files(&ended));
    assert_eq!(rt; files.shelf.get(PART), Some(b"a".as_slice()));
    Ok(())
}

/// Whether the files of an instance have its digits before their names.
fn are_named(shelf: &Shelf) -> bool {
    shelf.get(SIGNED) == Some(b"one".as_slice()) && shelf.get(INSTANCE) == Some(b"{}".as_slice())
}

/// Puts signatures and a manifest of an instance, and reads the signatures.
fn put_instance(
    alloc: Global,
    files: &mut MemFiles,
    digest: &Digest,
) -> Result<usize, LayoutFault> {
    let image = open(alloc)?;
    image.put_signatures(alloc, files, Some(digest), &two(alloc)?)?;
    image.put_manifest(alloc, files, Some(digest), "", b"{}")?;
    let signatures = image.read_signatures(alloc, files, Some(digest))?;
    Ok(signatures.len())
}

#[test]
fn names_the_files_of_an_instance(rt: HostRuntime) -> Result<(), Fail> {
    let digest = read_digest(ABC).ok_or("no digest")?;
    let mut files = failing(rt.alloc(), 0)?;
    let count = put_instance(rt.alloc(), &mut files, &digest).ok();
    assert_eq!(rt; count, Some(2));
    assert!(rt; are_named(&files.shelf));
    Ok(())
}

/// An old image with an instance and a blob.
fn add_old(shelf: &mut Shelf) -> Result<(), Memory> {
    for path in [BLOB, INSTANCE, "/w/d/manifest.json"] {
        shelf.add(path, b"old")?;
    }
    shelf.add("/w/d/version", VERSION)
}

/// Whether a manifest stands without the blob, or the image's without the instance's.
fn is_torn(shelf: &Shelf) -> bool {
    let blob = shelf.get(BLOB).is_some();
    let instance = shelf.get(INSTANCE).is_some();
    let image = shelf.get("/w/d/manifest.json").is_some();
    image && !instance || instance && !blob
}

/// Each of ten calls fails in turn: no manifest stands where the blob is gone, and the folder keeps its version.
#[test]
fn leaves_no_manifest_without_its_blobs(rt: HostRuntime) -> Result<(), Fail> {
    let image = open(rt.alloc())?;
    for call in 1..12u64 {
        let mut files = failing(rt.alloc(), call)?;
        add_old(&mut files.shelf)?;
        let ended = image.prepare(rt.alloc(), &mut files);
        assert_eq!(rt; is_files(&ended), call < 11, "{call}");
        assert!(rt; !is_torn(&files.shelf), "{call}");
        assert_eq!(rt; files.shelf.get("/w/d/version"), Some(VERSION));
    }
    Ok(())
}
