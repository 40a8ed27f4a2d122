ghost use Rattle.std.specs.Prelude.{◌≡◌, ◌<◌, ◌≤◌, ◌↔◌, ◌^◌, IsTrue, MatchOption, length};
ghost use Rattle.meter_fabric.specs.Tails.{AreTails, IsAfter, IsClosedBy, IsLeastStray, Reaches};
ghost use Rattle.meter_fabric.specs.Closing.{AreThere, IsFirstMissing};

use meter_book::{Chapter, MeterBook};

/// How far the chapters of a site join.
#[derive(Clone, Copy)]
pub(crate) enum Tail {
    /// There is none.
    Fresh,
    /// Up to the last of them, at this index among the chapters of all sites.
    At(usize),
    /// One does not stand where it belongs.
    Broken,
}

/// How far the chapters of each site join, in one pass over them.
pub(crate) fn follow_all(chapters: &[Chapter], tails: &mut [Tail])
    ensures count { length tails.new ≡ length tails.old }
    ensures tails { AreTails chapters.now chapters.now tails.new }
{
    tails.fill(Tail::Fresh);
    for index in 0..chapters.len() {
        let site = chapters[index].site() as usize;
        if site < tails.len() {
            let tail = tails[site];
            tails[site] = after(chapters, tail, index);
        }
    }
}

/// How far they join with one more, at an index.
fn after(chapters: &[Chapter], tail: Tail, index: usize) -> Tail
    requires within { index < length chapters.now }
    requires reaches { Reaches chapters.now tail }
    ensures { IsAfter chapters.now tail index result }
{
    let chapter = &chapters[index];
    let joins = match tail {
        Tail::Fresh => chapter.opening().place == 0,
        Tail::At(before) => chapter.goes_on(&chapters[before]),
        Tail::Broken => false,
    };
    if joins { Tail::At(index) } else { Tail::Broken }
}

/// Whether what stands at a site goes on where the chapters of the site end; where there is no book, whether there is
/// no chapter.
pub(crate) fn is_closed(chapters: &[Chapter], tail: Tail, book: &Option<MeterBook>) -> bool
    requires { Reaches chapters.now tail }
    ensures { IsTrue result ↔ IsClosedBy chapters.now tail book.now }
{
    match (book, tail) {
        (None, Tail::Fresh) => true,
        (Some(book), Tail::Fresh) => book.opening().place == 0,
        (Some(book), Tail::At(last)) => book.goes_on(&chapters[last]),
        _ => false,
    }
}

/// The least site whose chapters do not join, with what stands there behind them, or of which there is a chapter and no
/// book. `tails` must say how far the chapters of each site join.
pub(crate) fn first_missing(
    chapters: &[Chapter],
    tails: &[Tail],
    books: &[Option<MeterBook>],
) -> Option<u32>
    requires few { length books.now ≤ 2 ^ 20 }
    requires count { length tails.now ≡ length books.now }
    requires tails { AreTails chapters.now chapters.now tails.now }
    ensures { MatchOption result (AreThere books.now chapters.now) (IsFirstMissing books.now chapters.now) }
{
    for site in 0..books.len() {
        if !is_closed(chapters, tails[site], &books[site]) {
            return Some(site as u32);
        }
    }
    first_stray(chapters, books.len())
}

/// The least site that is not there of which there is a chapter.
fn first_stray(chapters: &[Chapter], sites: usize) -> Option<u32>
    ensures { IsLeastStray chapters.now sites result }
{
    let mut least = None;
    for index in 0..chapters.len() {
        let site = chapters[index].site();
        if site as usize >= sites {
            least = Some(least.unwrap_or(site).min(site));
        }
    }
    least
}
