// A desk under many threads, and caches of rows.
ghost use Rattle.std.specs.Prelude.{◌≡◌, ◌≤◌, ◌<◌, All, IfOk, vec_len};

use image_ref::Digest;
use location_cache::{Cache, CacheRow, Desk, DeskSeat, Jobs};
use skopeo_outside::{Many, Memory, Text};
use std::alloc::Global;
use std::marker::Brand;
use std::test::Fail;
use std::thread;
use std::thread::Threads;

const JOBS: u32 = 10_000;

/// A seat, and the jobs that it drew.
#[derive(Drop)]
struct Drawer<J: Jobs> {
    seat: DeskSeat<J>,
    drawn: Vec<u32>,
}

fn new_drawer<J: Jobs>(alloc: Global, seat: DeskSeat<J>) -> Result<Drawer<J>, Memory>
    ensures { IfOk result (λ d. d.seat ≡ seat) }
{
    let drawn = Vec::with_capacity(alloc, JOBS as usize)?;
    Ok(Drawer { seat, drawn })
}

/// Splits the first seat into so many.
fn make_drawers<J: Jobs>(
    alloc: Global,
    desk: &Desk<J>,
    first: DeskSeat<J>,
    count: u32,
) -> Result<Vec<Drawer<J>>, Memory>
    requires own { (first.desk ≡ desk.now) × (first.view.room ≡ 16) }
    requires count { (0 < count) × (count ≤ 16) }
    ensures own { IfOk result (λ ds. All (λ d. d.seat.desk ≡ desk.now) ds.items) }
    ensures some { IfOk result (λ ds. 0 < vec_len ds) }
{
    let mut drawers = Vec::with_capacity(alloc, count as usize)?;
    let mut seat = first;
    for _ in 1..count {
        let (kept, given) = desk.split(seat);
        seat = kept;
        drawers.push(new_drawer(alloc, given)?)?;
    }
    drawers.push(new_drawer(alloc, seat)?)?;
    Ok(drawers)
}

/// Draws until there is none.
fn draw_all<J: Jobs>(desk: &Desk<J>, drawer: &mut Drawer<J>)
    requires { drawer.old.seat.desk ≡ desk.now }
{
    for _ in 0..=JOBS {
        let Some(job) = desk.draw(&mut drawer.seat) else {
            return;
        };
        if drawer.drawn.push(job).is_err() {
            return;
        }
    }
}

/// The jobs that all threads drew, in order.
fn draw_together<R: Threads + Sync, J: Jobs + Send + Sync>(
    rt: &R,
    alloc: Global,
    count: u32,
) -> Result<Vec<u32>, Memory>
    requires jobs { J.jobs ≡ 10000 }
    requires count { (0 < count) × (count ≤ 16) }
{
    let mut all = Vec::new(alloc);
    let (desk, first) = Desk::<J>::new(alloc, JOBS)?;
    let mut drawers = make_drawers(alloc, &desk, first, count)?;
    let threads = drawers.len();
    thread::for_each_mut(
        rt,
        drawers.as_mut_slice(),
        threads,
        &|_, drawer: &mut Drawer<J>|
            requires { drawer.now.seat.desk ≡ desk }
        { draw_all(&desk, drawer) },
    );
    for drawer in drawers {
        let Drawer { seat: _, mut drawn } = drawer;
        all.append(&mut drawn)?;
    }
    all.sort_unstable();
    Ok(all)
}

/// Ten thousand jobs drawn by two and by sixteen threads: each number is drawn once, and none is left out.
#[test]
fn each_number_is_drawn_once(rt: HostRuntime) -> Result<(), Fail> {
    for count in [2, 16] {
        let all = draw_together::<HostRuntime, Brand>(&rt, rt.alloc(), count)?;
        let mut next = 1u64;
        for job in &all {
            assert_eq!(rt; u64::from(*job), next, "{count} threads");
            next = next.wrapping_add(1);
        }
        assert_eq!(rt; next, u64::from(JOBS) + 1, "{count} threads");
    }
    Ok(())
}

/// Two seats of one thread at a desk of three jobs: what each call answers, and how the desk ends.
fn walk<J: Jobs>(alloc: Global) -> Result<bool, Memory>
    requires { J.jobs ≡ 3 }
{
    let (desk, first) = Desk::<J>::new(alloc, 3)?;
    let (mut one, mut two) = desk.split(first);
    if desk.least(&mut one).is_some() || desk.draw(&mut one) != Some(1) {
        return Ok(false);
    }
    if desk.draw(&mut two) != Some(2) || desk.draw(&mut one) != Some(3) {
        return Ok(false);
    }
    desk.fail(&mut one, 3);
    if desk.least(&mut two) != Some(3) {
        return Ok(false);
    }
    desk.fail(&mut two, 2);
    if desk.least(&mut one) != Some(2) || desk.draw(&mut one).is_some() {
        return Ok(false);
    }
    let last = desk.join(one, two);
    desk.close(last);
    Ok(true)
}

#[test]
fn seats_share_a_desk(rt: HostRuntime) -> Result<(), Fail> {
    assert!(rt; walk::<Brand>(rt.alloc())?);
    Ok(())
}

fn row(alloc: Global, byte: u8, repository: &str) -> Result<CacheRow, Memory> {
    Ok(CacheRow {
        host: Text::from_str(alloc, "h")?,
        digest: Digest::from_bytes([byte; 32]),
        repository: Text::from_str(alloc, repository)?,
    })
}

/// Adds rows of the digest 7 in so many repositories, which count from 0.
fn push_rows(alloc: Global, rows: &mut Many<CacheRow>, count: usize) -> Result<(), Memory> {
    for k in 0..count {
        let mut name = Text::new(alloc);
        name.push_number(k)?;
        rows.push(row(alloc, 7, name.as_str())?)?;
    }
    Ok(())
}

/// The repositories that a cache offers for a digest of equal bytes, newest first, each behind a blank.
fn offered(alloc: Global, cache: &Cache, byte: u8, except: &str) -> Result<Text, Memory> {
    let offered = cache.candidates("h", &Digest::from_bytes([byte; 32]), except);
    let mut text = Text::new(alloc);
    for place in 0..5 {
        if let Some(repository) = offered.at(place) {
            text.push_str(" ")?;
            text.push_str(repository)?;
        }
    }
    Ok(text)
}

/// A row that comes again stands at its last place; another repository or digest makes another row.
#[test]
fn rows_stand_once_at_their_last_place(rt: HostRuntime) -> Result<(), Fail> {
    let alloc = rt.alloc();
    let mut rows = Many::new(alloc);
    for (byte, repository) in [(1, "x"), (2, "x"), (1, "y"), (1, "x")] {
        rows.push(row(alloc, byte, repository)?)?;
    }
    let cache = Cache::new(alloc, rows)?;
    assert_eq!(rt; offered(alloc, &cache, 1, "")?.as_str(), " x y");
    assert_eq!(rt; offered(alloc, &cache, 2, "")?.as_str(), " x");
    Ok(())
}

/// What a cache offers for the digest 8 of which a row stood before so many others, and was learnt where that is said.
fn offered_behind(alloc: Global, count: usize, twice: bool) -> Result<Text, Memory> {
    let mut rows = Many::new(alloc);
    rows.push(row(alloc, 8, "first")?)?;
    push_rows(alloc, &mut rows, count)?;
    if twice {
        push_rows(alloc, &mut rows, count)?;
    }
    offered(alloc, &Cache::new(alloc, rows)?, 8, "")
}

/// Of more than 4,096 rows the last ones are kept, and a row that comes twice counts once.
#[test]
fn the_last_rows_are_kept(rt: HostRuntime) -> Result<(), Fail> {
    let alloc = rt.alloc();
    for (count, twice, wanted) in [
        (4095, false, " first"),
        (4096, false, ""),
        (4095, true, " first"),
    ] {
        let found = offered_behind(alloc, count, twice)?;
        assert_eq!(rt; found.as_str(), wanted, "{count} {twice}");
    }
    Ok(())
}

/// Six repositories have a blob: the newest four but one are offered, and a learnt row becomes the newest.
#[test]
fn newest_repositories_are_offered(rt: HostRuntime) -> Result<(), Fail> {
    let alloc = rt.alloc();
    let mut rows = Many::new(alloc);
    push_rows(alloc, &mut rows, 6)?;
    let mut cache = Cache::new(alloc, rows)?;
    assert_eq!(rt; offered(alloc, &cache, 7, "")?.as_str(), " 5 4 3 2");
    assert_eq!(rt; offered(alloc, &cache, 7, "4")?.as_str(), " 5 3 2 1");
    assert_eq!(rt;
        offered(alloc, &cache, 8, "")?.as_str(),
        "",
        "another digest"
    );
    cache.learn(row(alloc, 7, "1")?);
    assert_eq!(rt; offered(alloc, &cache, 7, "")?.as_str(), " 1 5 4 3");
    Ok(())
}

/// Rows are offered for their own registry alone.
#[test]
fn another_host_has_no_rows(rt: HostRuntime) -> Result<(), Fail> {
    let mut rows = Many::new(rt.alloc());
    rows.push(row(rt.alloc(), 7, "x")?)?;
    let cache = Cache::new(rt.alloc(), rows)?;
    let digest = Digest::from_bytes([7; 32]);
    assert_eq!(rt; cache.candidates("h", &digest, "").count(), 1);
    assert_eq!(rt; cache.candidates("h:80", &digest, "").count(), 0);
    let none = Cache::new(rt.alloc(), Many::new(rt.alloc()))?;
    assert_eq!(rt; none.candidates("h", &digest, "").count(), 0);
    Ok(())
}

/// A full cache loses its oldest row where a new one is learnt, and none where the row is there.
#[test]
fn full_cache_loses_its_oldest_row(rt: HostRuntime) -> Result<(), Fail> {
    let alloc = rt.alloc();
    let mut rows = Many::new(alloc);
    rows.push(row(alloc, 8, "first")?)?;
    push_rows(alloc, &mut rows, 4095)?;
    let mut cache = Cache::new(alloc, rows)?;
    cache.learn(row(alloc, 7, "0")?);
    assert_eq!(rt; offered(alloc, &cache, 8, "")?.as_str(), " first");
    assert_eq!(rt;
        offered(alloc, &cache, 7, "")?.as_str(),
        " 0 4094 4093 4092"
    );
    cache.learn(row(alloc, 7, "new")?);
    assert_eq!(rt; offered(alloc, &cache, 8, "")?.as_str(), "");
    Ok(())
}
