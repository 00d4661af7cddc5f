// The repositories that a cache offers for a blob.
ghost use Rattle.std.specs.Prelude.{◌≡◌, length, slice_get};
ghost use Rattle.std.specs.Option.{option_map};
ghost use Rattle.location_cache.specs.Offers.{is_offered, candidates};

use crate::cache::CacheRow;
use image_ref::Digest;
use std::marker::Model;

/// The most repositories that are offered.
const MOST: usize = 4;

/// Repositories that a cache offers for a blob, newest first, at most 4. It borrows the cache. Contracts see the list.
#[derive(Drop)]
pub struct Candidates<'c> {
    found: [&'c str; MOST],
    count: usize,
}

impl<'c> Model for Candidates<'c> {
    ghost use Rattle.std.specs.Prelude.{◌≤◌, ℕ, List, map, take};

    ghost Value = { List (List ℕ) };

    ghost view = { λ c. take c.count (map (λ s. s.now) c.found) };

    ghost invariant = { λ c. c.count ≤ 4 };
}

impl<'c> Candidates<'c> {
    /// How many there are, at most 4.
    pub fn count(&self) -> usize
        ensures { result ≡ length self.now }
    {
        self.count
    }

    /// The one at a place, from 0.
    pub fn at(&self, place: usize) -> Option<&'c str>
        ensures { option_map (λ s. s.now) result ≡ slice_get self.now place }
    {
        if place < self.count {
            Some(self.found[place])
        } else {
            None
        }
    }
}

/// Whether a row is of this host and digest, and of another repository than one.
fn offers(row: &CacheRow, host: &str, digest: &Digest, except: &str) -> bool
    ensures { result ≡ is_offered host.now digest.now except.now row.now }
{
    row.host.as_str() == host && row.digest == *digest && row.repository.as_str() != except
}

/// The repositories that rows offer, from the newest row on.
pub(crate) fn offered<'c>(
    rows: &'c [CacheRow],
    host: &str,
    digest: &Digest,
    except: &str,
) -> Candidates<'c>
    ensures { result ≡ candidates host.now digest.now except.now rows.now }
{
    let mut found = [""; MOST];
    let mut count = 0;
    let mut left = rows.len();
    while left > 0 && count < MOST {
        left -= 1;
        let row = &rows[left];
        if offers(row, host, digest, except) {
            found[count] = row.repository.as_str();
            count += 1;
        }
    }
    Candidates { found, count }
}
