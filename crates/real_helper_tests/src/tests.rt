use real_helper::{Note, RealHelper};
use skopeo_outside::{Helper, Many, Stop};
use std::alloc::Global;
use std::test::Fail;

// A note as a text, and no text where there is none.
fn text_of(alloc: Global, note: Option<&Note>) -> Result<String, Fail> {
    match note {
        Some(note) => Ok(format!(in alloc; "{note}")?),
        None => Ok(String::new(alloc)),
    }
}

// Its input reaches a program whole, and its output is the answer; what an answer held before is gone.
#[test]
fn answers(rt: HostRuntime) -> Result<(), Fail> {
    let mut helper = RealHelper::new(&rt);
    let mut answer = Many::new(rt.alloc());
    assert_eq!(rt;
        helper.run("/bin/cat", b"one\ntwo", 100, &mut answer),
        Ok(0)
    );
    assert_eq!(rt; answer.as_slice(), b"one\ntwo".as_slice());
    assert_eq!(rt; helper.run("/bin/sh", b"exit 3\n", 100, &mut answer), Ok(3));
    assert_eq!(rt; answer.len(), 0);
    assert_eq!(rt; helper.faults(), 0);
    assert!(rt; helper.note().is_none());
    Ok(())
}

// What is no program by its path is a fault, and the first is noted. No folder is searched for a name.
#[test]
fn cannot_be_started(rt: HostRuntime) -> Result<(), Fail> {
    let mut helper = RealHelper::new(&rt);
    let mut answer = Many::new(rt.alloc());
    assert_eq!(rt;
        helper.run("/no/such/program", b"x", 9, &mut answer),
        Err(Stop::Fault)
    );
    assert_eq!(rt; helper.run("cat", b"x", 9, &mut answer), Err(Stop::Fault));
    assert_eq!(rt; helper.run("/bin", b"x", 9, &mut answer), Err(Stop::Fault));
    assert_eq!(rt; helper.faults(), 3);
    let text = text_of(rt.alloc(), helper.note())?;
    assert_eq!(rt;
        text.as_str(),
        "start \"/no/such/program\": no such file or directory"
    );
    Ok(())
}

// A program that a signal ended has the status -1, and that is no fault.
#[test]
fn is_killed(rt: HostRuntime) -> Result<(), Fail> {
    let mut helper = RealHelper::new(&rt);
    let mut answer = Many::new(rt.alloc());
    assert_eq!(rt;
        helper.run("/bin/sh", b"printf ab; kill -9 $$\n", 9, &mut answer),
        Ok(-1)
    );
    assert_eq!(rt; answer.as_slice(), b"ab".as_slice());
    assert_eq!(rt; helper.faults(), 0);
    Ok(())
}

// Of an output that is longer than the limit one byte more is kept, also where it never ends. How such a program then ends, by a signal
// or by itself, is the machine's matter.
#[test]
fn prints_more(rt: HostRuntime) -> Result<(), Fail> {
    let mut helper = RealHelper::new(&rt);
    let mut answer = Many::new(rt.alloc());
    assert_eq!(rt;
        helper.run("/bin/sh", b"printf 123456\n", 6, &mut answer),
        Ok(0)
    );
    assert_eq!(rt; answer.as_slice(), b"123456".as_slice());
    assert_eq!(rt;
        helper.run("/bin/sh", b"printf 123456\n", 3, &mut answer),
        Ok(0)
    );
    assert_eq!(rt; answer.as_slice(), b"1234".as_slice());
    let endless = helper.run("/usr/bin/yes", b"", 70_000, &mut answer);
    assert!(rt; endless.is_ok());
    assert_eq!(rt; answer.len(), 70_001);
    Ok(())
}

// A program that ends without reading its input answers by its output and status alone.
#[test]
fn reads_nothing(rt: HostRuntime) -> Result<(), Fail> {
    let mut helper = RealHelper::new(&rt);
    let mut answer = Many::new(rt.alloc());
    let input = vec![in rt.alloc(); b'x'; 1_000_000]?;
    assert_eq!(rt;
        helper.run("/bin/false", input.as_slice(), 9, &mut answer),
        Ok(1)
    );
    assert_eq!(rt; answer.len(), 0);
    assert_eq!(rt; helper.faults(), 0);
    Ok(())
}
