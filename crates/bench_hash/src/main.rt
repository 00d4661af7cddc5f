//! A program for measurements: it hashes the files that its words name, and writes nothing. Its status is 1 where one cannot be read.
#![tactic(auto)]

use sha2::{Digest, Sha256};
use std::io::Read;
use std::process::ExitCode;
use std::rt::Files;
use std::{env, fs, io};

const PIECE: usize = 65536;

/// Hashes a file in pieces.
fn hash<R: Files + AllocGlobal>(rt: &R, path: &str) -> io::Result<()> {
    let mut file = fs::open(rt, path)?;
    let mut piece = vec![in rt.alloc(); 0u8; PIECE]?;
    let mut hasher = Sha256::new();
    for _ in 0..u64::MAX {
        let count = file.read(&mut piece)?;
        if count == 0 {
            break;
        }
        hasher.update(&piece[..count]);
    }
    let _ = hasher.finalize();
    Ok(())
}

fn main(rt: HostRuntime) -> ExitCode {
    let Ok(words) = env::args(&rt) else {
        return ExitCode::from(1);
    };
    for path in words.skip(1) {
        if hash(&rt, path.as_str()).is_err() {
            return ExitCode::from(1);
        }
    }
    ExitCode::from(0)
}
