ghost use Rattle.std.specs.Prelude.{◌≡◌, ◌+◌, ◌<◌, ◌^◌, ◌↔◌, ◌++◌, ℕ, List, [], length, IsOk, IfErr};
ghost use Rattle.digest_reader.specs.Digests.{digest};
ghost use Rattle.digest_reader.specs.Fed.{HasFed, fed_count};

use image_ref::Digest;
use sha2::{Digest as _, Sha256};

/// SHA-256 (FIPS 180-4) of bytes that come in pieces, and their number.
#[derive(Drop)]
pub struct Digester {
    hasher: Sha256,
    length: u64,
}

/// The digest and the number of bytes that were found, where one of them was not the expected one.
#[derive(Clone, Copy, Debug, PartialEq, Eq)]
pub struct Mismatch {
    pub found: Digest,
    pub length: u64,
}

/// The SHA-256 digest (FIPS 180-4) of the bytes. It takes no memory.
#[tactic(auto, unfolding(crate::specs::Digests::digest))]
pub fn digest_of(bytes: &[u8]) -> Digest
    ensures { result ≡ digest bytes.now }
{
    Digest::from_bytes(<Sha256 as sha2::Digest>::digest(bytes))
}

impl Digester {
    /// A digester that was fed nothing. It takes no memory, and neither do its other calls.
    pub fn new() -> Digester
        ensures { HasFed result [] }
    {
        Digester {
            hasher: Sha256::new(),
            length: 0,
        }
    }

    /// Feeds one more piece. All pieces together must have fewer than 2^61 bytes.
    pub fn feed(&mut self, bytes: &[u8])
        requires room { fed_count self.old + length bytes.now < 2 ^ 61 }
        ensures { (fed : List ℕ) → HasFed self.old fed → HasFed self.new (fed ++ bytes.now) }
    {
        self.hasher.update(bytes);
        self.length += bytes.len() as u64;
    }

    /// Compares what was fed with a digest and a size in bytes; where either differs, answers what was found.
    #[tactic(auto, unfolding(crate::specs::Digests::digest))]
    pub fn finish(self, expected: &Digest, size: u64) -> Result<(), Mismatch>
        ensures ok { (fed : List ℕ) → HasFed self fed
            → IsOk result ↔ ((digest fed ≡ expected.now) × (length fed ≡ size)) }
        ensures found { (fed : List ℕ) → HasFed self fed → IfErr result (λ e. e.found ≡ digest fed) }
        ensures length { (fed : List ℕ) → HasFed self fed → IfErr result (λ e. e.length ≡ length fed) }
    {
        let Digester { hasher, length } = self;
        let found = Digest::from_bytes(hasher.finalize());
        if found == *expected && length == size {
            Ok(())
        } else {
            Err(Mismatch { found, length })
        }
    }
}
