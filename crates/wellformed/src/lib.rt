// Whether the parts of a store's storage are well-formed: CHECK's tests. Every function is safe on any contents; what the `requires` ask of
// numbers and lengths is tested by the store, and only our own crates call them.
#![tactic(auto)]

ghost use Rattle.std.specs.Prelude.{◌≡◌, true, ◌+◌, ◌*◌, ◌/◌, ◌%◌, ◌≤◌, ◌<◌, length};
ghost use Rattle.rules.specs.Sizing.{settings_of};
ghost use Rattle.rules.specs.Figure3.{WellCache};
ghost use Rattle.written.specs.Bits.{written_at};
ghost use Rattle.written.specs.Steps.{Ordered};
ghost use Rattle.written.specs.Well.{TagsKnown, OnlyLive, WellBits};
ghost use Rattle.pages.specs.Table.{place_at, entries_of, AsksTable};
ghost use Rattle.pages.specs.Ring.{AsksRing, WellRing};
ghost use Rattle.pages.specs.Lines.{AsksArchive};
ghost use Rattle.pages.specs.Flags.{AsksFlag};
ghost use Rattle.cache.specs.Entries.{Sized, All};
ghost use Rattle.cache.specs.Shown.{shown};
ghost use Rattle.wellformed.specs.Decision.{Decides};
ghost use Rattle.wellformed.specs.Parts.{BackedIn, InOrder, PagedIn, AllPaged, SetWell, CollectedOrZero, WellArchive, RecentIn, Bytes, AsksBits, AsksRecent};

use cache::Cache;
use pages::Ring;
use written::Shape;

// Whether every group with a bit set has a tag up to the current one.
fn tags_known(groups: &[u32], count: u32, tag: u32) -> bool
    requires { count ≤ length groups.now }
    ensures { Decides result (TagsKnown count tag groups.now) }
{
    for &group in &groups[..count as usize] {
        if numbers::newest_bit(group, 0, 16).is_some() && tag < group / 65536 % 256 {
            return false;
        }
    }
    true
}

// Whether no used entry of the history is less deep than a newer one.
fn is_ordered(history: &[u16], tag: u32) -> bool
    requires { (tag < 256) × (256 ≤ length history.now) }
    ensures { Decides result (Ordered tag history.now) }
{
    history[..=tag as usize].is_sorted()
}

// Whether only live frames have effective bits.
fn only_live(groups: &[u32], history: &[u16], shape: Shape, live: u32) -> bool
    requires { AsksBits (written_at shape groups.now history.now) live }
    ensures { Decides result (OnlyLive (written_at shape groups.now history.now) live) }
{
    let end = shape.frames;
    (0..shape.lines / 8).all(|block| !written::block_has(groups, history, shape, block, live, end))
}

// Whether the written bits and the history are well-formed.
pub fn bits(groups: &[u32], history: &[u16], shape: Shape, tag: u32, live: u32) -> bool
    requires { AsksBits (written_at shape groups.now history.now) live }
    ensures { Decides result (WellBits (written_at shape groups.now history.now) tag live) }
{
    tag < 256
        && history[tag as usize] == 65535
        && is_ordered(history, tag)
        && tags_known(groups, shape.frames / 16 * shape.lines, tag)
        && only_live(groups, history, shape, live)
}

// Whether a page's owner is a needed place for which the table has the page.
#[tactic(auto, unfolding(crate::specs::Parts::BackedIn))]
fn is_backed(
    groups: &[u32],
    history: &[u16],
    table: &[u16],
    owners: &[u32],
    ring: Ring,
    page: u32,
) -> bool
    requires { (AsksTable (written_at ring.shape groups.now history.now) table.now) × (page < length owners.now) }
    ensures { Decides result (BackedIn (written_at ring.shape groups.now history.now) table.now owners.now page) }
{
    let shape = ring.shape;
    let owner = owners[page as usize];
    let frame = owner / 512;
    let block = owner % 512;
    if shape.frames <= frame || shape.lines / 8 <= block {
        return false;
    }
    pages::table::page_at(table, shape, frame, block) == page
        && written::needed(groups, history, shape, frame, block)
}

// Whether every page of the segment is backed, and the owners' indexes never fall along it.
fn in_order(groups: &[u32], history: &[u16], table: &[u16], owners: &[u32], ring: Ring) -> bool
    requires { (AsksTable (written_at ring.shape groups.now history.now) table.now) × (AsksRing ring.pages ring.first ring.used ring.shape.frames ring.shape.omf (length owners.now)) }
    ensures { Decides result (InOrder (written_at ring.shape groups.now history.now) ring.pages ring.first ring.used table.now owners.now) }
{
    let mut last = 0;
    for i in 0..ring.used {
        let page = frames::frame_at(ring.pages, ring.first, i);
        if !is_backed(groups, history, table, owners, ring, page) {
            return false;
        }
        let index = pages::segment::owner_index(ring.shape, owners[page as usize]);
        if index < last {
            return false;
        }
        last = index;
    }
    true
}

// Whether the place of an entry of the table, if it is needed, has a page of the segment, and owns it.
#[tactic(auto, unfolding(crate::specs::Parts::PagedIn))]
fn is_paged(
    groups: &[u32],
    history: &[u16],
    table: &[u16],
    owners: &[u32],
    ring: Ring,
    entry: u32,
) -> bool
    requires { (AsksTable (written_at ring.shape groups.now history.now) table.now) × (AsksRing ring.pages ring.first ring.used ring.shape.frames ring.shape.omf (length owners.now)) × (entry < entries_of (written_at ring.shape groups.now history.now)) }
    ensures { Decides result (PagedIn (written_at ring.shape groups.now history.now) ring.pages ring.first ring.used table.now owners.now (place_at (entry / (ring.shape.lines / 8)) (entry % (ring.shape.lines / 8)))) }
{
    let shape = ring.shape;
    let blocks = shape.lines / 8;
    let frame = entry / blocks;
    let block = entry % blocks;
    if !written::needed(groups, history, shape, frame, block) {
        return true;
    }
    let page = pages::table::page_at(table, shape, frame, block);
    pages::segment::is_own(owners, ring, page, frame * 512 + block)
}

// Whether every needed place has its page.
fn all_paged(groups: &[u32], history: &[u16], table: &[u16], owners: &[u32], ring: Ring) -> bool
    requires { (AsksTable (written_at ring.shape groups.now history.now) table.now) × (AsksRing ring.pages ring.first ring.used ring.shape.frames ring.shape.omf (length owners.now)) }
    ensures { Decides result (AllPaged (written_at ring.shape groups.now history.now) ring.pages ring.first ring.used table.now owners.now) }
{
    let shape = ring.shape;
    let entries = shape.frames * (shape.lines / 8);
    (0..entries).all(|entry| is_paged(groups, history, table, owners, ring, entry))
}

// Whether the needed pages are one segment of the pool's circle, in the order of their frames.
pub fn ring(groups: &[u32], history: &[u16], table: &[u16], owners: &[u32], ring: Ring) -> bool
    requires { (AsksTable (written_at ring.shape groups.now history.now) table.now) × (ring.pages ≤ 4096) × (ring.pages ≤ length owners.now) }
    ensures { Decides result (WellRing (written_at ring.shape groups.now history.now) ring.pages ring.first ring.used table.now owners.now) }
{
    if ring.pages <= ring.first || ring.pages < ring.used {
        return false;
    }
    in_order(groups, history, table, owners, ring)
        && all_paged(groups, history, table, owners, ring)
}

// Whether an entry, if it is valid, holds a line of its set and below L.
fn is_home(valid: u8, line: u32, set: u32, lines: u32) -> bool
    ensures { Decides result (valid ≡ 1 → (line % 16 ≡ set) × (line < lines)) }
{
    valid != 1 || line % 16 == set && line < lines
}

// Whether the two entries of a set are well-formed: each in its own set and below L, and not both with one line.
fn is_set_well(cache: Cache, lines: u32, set: u32) -> bool
    requires { set < 16 }
    ensures { Decides result (SetWell lines cache set) }
{
    let first = 2 * (set as usize);
    let second = first + 1;
    is_home(cache.valid[first], cache.held[first], set, lines)
        && is_home(cache.valid[second], cache.held[second], set, lines)
        && !(cache.valid[first] == 1
            && cache.valid[second] == 1
            && cache.held[first] == cache.held[second])
}

// Whether each valid entry of the cache is in its own set, once, and below L. (Of the settings only L matters.)
pub fn entries(cache: Cache, lines: u32) -> bool
    ensures { Decides result (WellCache (settings_of lines 0 0) (shown cache)) }
{
    (0..16).all(|set| is_set_well(cache, lines, set))
}

// Whether a line, if it was not collected, is zero in the archive.
#[tactic(auto, unfolding(crate::specs::Parts::CollectedOrZero))]
fn is_collected_or_zero(archive: &[u8], owners: &[u32], pages: u32, line: u32) -> bool
    requires { (AsksArchive line (length archive.now)) × (AsksFlag pages line (length owners.now)) }
    ensures { Decides result (CollectedOrZero pages archive.now owners.now line) }
{
    pages::flags::is_collected(owners, pages, line)
        || pages::lines::read_archive_line(archive, line) == [0; 16]
}

// Whether the archive is well-formed: every line is so.
pub fn archive(archive: &[u8], owners: &[u32], lines: u32, pages: u32) -> bool
    requires { (lines ≤ 4096) × (lines % 8 ≡ 0) × (pages ≤ 4096) × (16 * lines ≤ length archive.now) × (pages + lines ≤ length owners.now) }
    ensures { Decides result (WellArchive lines pages archive.now owners.now) }
{
    (0..lines).all(|line| is_collected_or_zero(archive, owners, pages, line))
}

// Whether an entry's line, frame and bytes are those of the line's most recent version in memory.
fn is_recent(
    archive: &[u8],
    pool: &[u8],
    groups: &[u32],
    table: &[u16],
    history: &[u16],
    shape: Shape,
    pages: u32,
    live: u32,
    line: u32,
    frame: u16,
    content: [u8; 16],
) -> bool
    requires { AsksRecent (written_at shape groups.now history.now) pages live archive.now pool.now table.now }
    ensures { Decides result (RecentIn (written_at shape groups.now history.now) pages live archive.now pool.now table.now line frame content) }
{
    if shape.lines <= line {
        return false;
    }
    let newest = versions::newest(
        archive, pool, groups, table, history, shape, pages, live, line,
    );
    newest.frame == frame && newest.content == content
}

// Whether every valid entry of the cache has its line's most recent frame and bytes.
pub fn coherent(
    cache: Cache,
    archive: &[u8],
    pool: &[u8],
    groups: &[u32],
    table: &[u16],
    history: &[u16],
    shape: Shape,
    pages: u32,
    live: u32,
) -> bool
    requires { AsksRecent (written_at shape groups.now history.now) pages live archive.now pool.now table.now }
    ensures decides { Decides result (All (RecentIn (written_at shape groups.now history.now) pages live archive.now pool.now table.now) cache) }
    ensures sized { Sized cache }
{
    for e in 0..32 {
        let at = e as usize;
        if cache.valid[at] == 1
            && !is_recent(
                archive,
                pool,
                groups,
                table,
                history,
                shape,
                pages,
                live,
                cache.held[at],
                cache.origins[at],
                cache::bytes_of(cache, e),
            )
        {
            return false;
        }
    }
    true
}

// That the first elements of a lent piece are bytes is in its type, and code that has the piece learns it here.
pub fn bytes(list: &[u8], count: u32)
    requires { count ≤ length list.now }
    ensures { Bytes count list.now }
{}
