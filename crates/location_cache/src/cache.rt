// The location cache: where blobs were seen.
ghost use Rattle.std.specs.Prelude.{◌≡◌, ◌≤◌, ◌++◌, ◌∷◌, [], List, IfOk, OnOk, reverse, vec_capacity};
ghost use Rattle.location_cache.specs.declared.cache.CacheRow.{CacheRow};
ghost use Rattle.location_cache.specs.Rows.{most_rows, kept_rows, HasKept};
ghost use Rattle.location_cache.specs.Offers.{candidates};

use crate::candidates::{Candidates, offered};
use crate::learn::make_room;
use image_ref::Digest;
use skopeo_outside::{Many, Memory, Text};
use std::alloc::Global;
use std::collections::BTreeSet;
use std::marker::Model;

/// The most rows that a cache holds.
pub(crate) const MOST_ROWS: usize = 4096;

/// A blob was seen in a repository of a registry.
#[derive(Debug, Drop, PartialEq, Eq, PartialOrd, Ord)]
pub struct CacheRow {
    /// The registry, with its port where one was written.
    pub host: Text,
    /// The blob's.
    pub digest: Digest,
    /// A path at that registry.
    pub repository: Text,
}

/// Rows, oldest first, each once and at most 4,096, with the room for as many. Contracts see the list.
#[derive(Debug, Drop)]
pub struct Cache {
    pub(crate) rows: Vec<CacheRow>,
}

impl Model for Cache {
    ghost use Rattle.std.specs.Prelude.{◌≤◌, List, vec_capacity};
    ghost use Rattle.location_cache.specs.declared.cache.CacheRow.{CacheRow};
    ghost use Rattle.location_cache.specs.Rows.{most_rows, AreKept};

    ghost Value = { List CacheRow };

    ghost view = { λ c. c.rows.items };

    ghost invariant = { λ c. AreKept c.rows.items × (most_rows ≤ vec_capacity c.rows) };
}

fn copy_row(alloc: Global, row: &CacheRow) -> Result<CacheRow, Memory>
    ensures { IfOk result (λ r. r ≡ row.now) }
{
    Ok(CacheRow {
        host: Text::copy_of(alloc, row.host.as_str())?,
        digest: row.digest,
        repository: Text::copy_of(alloc, row.repository.as_str())?,
    })
}

/// Adds a row that is older than those so far, unless it was seen or the list is full.
fn add_older(
    alloc: Global,
    seen: &mut BTreeSet<CacheRow>,
    kept: &mut Vec<CacheRow>,
    row: CacheRow,
) -> Result<(), Memory>
    requires room { most_rows ≤ vec_capacity kept.old }
    ensures room { most_rows ≤ vec_capacity kept.new }
    ensures kept { (rows : List CacheRow) → HasKept seen.old kept.old.items rows
        → OnOk result (HasKept seen.new kept.new.items (row ∷ rows)) }
{
    let added = seen.insert(copy_row(alloc, &row)?)?;
    if !added {
        return Ok(());
    }
    if kept.len() >= MOST_ROWS {
        return Ok(());
    }
    kept.push(row)?;
    Ok(())
}

/// Turns rows round that stand newest first.
fn oldest_first(mut rows: Vec<CacheRow>) -> Vec<CacheRow>
    ensures rows { result.items ≡ reverse rows.items }
    ensures room { vec_capacity result ≡ vec_capacity rows }
{
    rows.as_mut_slice().reverse();
    rows
}

impl Cache {
    /// A cache of loaded rows: each once, at its last place, and of these the last 4,096. Its error is want of memory.
    pub fn new(alloc: Global, loaded: Many<CacheRow>) -> Result<Cache, Memory>
        ensures { IfOk result (λ c. c ≡ kept_rows loaded) }
    {
        let mut seen = BTreeSet::new(alloc);
        let mut rows = Vec::with_capacity(alloc, MOST_ROWS)?;
        let mut rest = loaded.into_vec();
        while let Some(row) = rest.pop() {
            add_older(alloc, &mut seen, &mut rows, row)?;
        }
        Ok(Cache {
            rows: oldest_first(rows),
        })
    }

    /// The row becomes the newest; where there are then more than 4,096 rows, the oldest goes. It takes no memory.
    pub fn learn(&mut self, row: CacheRow)
        ensures { self.new ≡ kept_rows (self.old ++ row ∷ []) }
    {
        make_room(&mut self.rows, &row);
        self.rows.push(row).unwrap();
    }

    /// The repositories of a registry where a blob was seen, newest first, at most 4, but for one. It takes no memory.
    pub fn candidates(&self, host: &str, digest: &Digest, except: &str) -> Candidates<'_>
        ensures { result ≡ candidates host.now digest.now except.now self.now }
    {
        offered(self.rows.as_slice(), host, digest, except)
    }
}
