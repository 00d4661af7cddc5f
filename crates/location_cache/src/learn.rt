// One row more in a cache.
ghost use Rattle.std.specs.Prelude.{◌≡◌, ◌<◌, ◌≤◌, ◌++◌, ◌∷◌, [], false, IfSome, IfNone, slice_index_or, length, vec_len, vec_capacity};
ghost use Rattle.location_cache.specs.Rows.{most_rows, has_row, kept_rows, AreKept};

use crate::cache::{CacheRow, MOST_ROWS};

/// Where a row stands.
fn place_of(rows: &[CacheRow], row: &CacheRow) -> Option<usize>
    ensures some { IfSome result (λ k. (k < length rows.now) × (slice_index_or rows.now k row.now ≡ row.now)) }
    ensures none { IfNone result (has_row rows.now row.now ≡ false) }
{
    for (place, other) in rows.iter().enumerate() {
        if other == row {
            return Some(place);
        }
    }
    None
}

/// Takes a row out of those that are kept, or else the oldest one where they are as many as may be.
pub(crate) fn make_room(rows: &mut Vec<CacheRow>, row: &CacheRow)
    requires kept { AreKept rows.old.items }
    requires room { most_rows ≤ vec_capacity rows.old }
    ensures rows { rows.new.items ++ row.now ∷ [] ≡ kept_rows (rows.old.items ++ row.now ∷ []) }
    ensures few { vec_len rows.new < most_rows }
    ensures room { most_rows ≤ vec_capacity rows.new }
{
    if let Some(place) = place_of(rows.as_slice(), row) {
        let _ = rows.remove(place);
        return;
    }
    if rows.len() >= MOST_ROWS {
        let _ = rows.remove(0);
    }
}
