// Versions of lines in lent memory: where the newest one stands and its bytes, folding versions into the archive, and putting a new one
// in its page. Every function is safe on any contents, but for `clear`, which comes behind `fold` and goes over the pages that this found;
// what the `requires` ask of numbers and lengths is tested by the store, and only our own crates call them.
#![tactic(auto)]

ghost use Rattle.std.specs.Prelude.{◌≡◌, ◌+◌, ◌*◌, ◌/◌, ◌%◌, ◌≤◌, ◌<◌, length, get_or};
ghost use Rattle.std.proofs.Math.ListN;
ghost use Rattle.frames.specs.Circle.{frame_at};
ghost use Rattle.written.specs.Bits.{written_at, place_of};
ghost use Rattle.written.specs.Steps.{with_written};
ghost use Rattle.pages.specs.Lines.{with_page_line};
ghost use Rattle.pages.specs.Table.{place_at, entry_at, AsksEntry};
ghost use Rattle.pages.specs.Ring.{index_at, Leads};
ghost use Rattle.pages.specs.Flags.{collected_at, AsksFlag};
ghost use Rattle.cache.specs.Entries.{AsksFound};
ghost use Rattle.versions.specs.Newest.{spot_of, content_of, newest_of, latest_from, is_empty, AsksSpot, AsksContent, AsksNewest};
ghost use Rattle.versions.specs.Steps.{zeroed, folded_line, folded_page, folded_pages, flagged_line, flagged_page, flagged_pages, cleared_page, cleared_pages, page_for, used_for, AsksPageFor, AsksPut, AsksCopy, AsksFold, AsksGone};

use pages::Ring;
use written::Shape;

// Where a read finds its line: in the cache, in the frame that lies so many marks back, in the archive, or nowhere: no surviving write has
// touched it.
#[derive(Clone, Copy)]
pub enum Origin {
    Cache,
    Frame(u32),
    Archive,
    Empty,
}

// The most recent version of a line: its bytes, the number of its frame as the cache has it, and its origin.
#[derive(Clone, Copy)]
pub struct Version {
    pub content: [u8; 16],
    pub frame: u16,
    pub origin: Origin,
}

// The page that a write goes to, if there is one, and how many pages are in use then.
#[derive(Clone, Copy)]
pub struct Choice {
    pub page: Option<u32>,
    pub used: u32,
}

// The page of the pool in which a version that a search found stands, or none if it stands in the archive.
#[tactic(auto, unfolding(crate::specs::Newest::spot_of, crate::specs::Newest::page_of))]
pub fn locate(table: &[u16], shape: Shape, pages: u32, line: u32, found: Option<u32>) -> Option<u32>
    requires { AsksSpot shape.lines shape.frames shape.omf line found (length table.now) }
    ensures { result ≡ spot_of shape.lines shape.frames shape.omf pages table.now line found }
{
    let frame = frames::frame_at(shape.frames, shape.omf, found?);
    let page = pages::table::page_at(table, shape, frame, line / 8);
    if page < pages { Some(page) } else { None }
}

// The 16 bytes of the version of a line that stands there.
#[tactic(auto, unfolding(crate::specs::Newest::content_of))]
pub fn content_at(archive: &[u8], pool: &[u8], line: u32, spot: Option<u32>) -> [u8; 16]
    requires { AsksContent line spot (length archive.now) (length pool.now) }
    ensures { result ≡ content_of archive.now pool.now line spot }
{
    match spot {
        Some(page) => pages::lines::read_page_line(pool, page, line % 8),
        None => pages::lines::read_archive_line(archive, line),
    }
}

// The most recent version of a line among the live frames and the archive, the cache apart.
#[tactic(auto, unfolding(crate::specs::Newest::newest_of, crate::specs::Newest::number_of, crate::specs::Newest::back_in, crate::specs::Newest::spot_of, crate::specs::Newest::content_of))]
pub fn newest(
    archive: &[u8],
    pool: &[u8],
    groups: &[u32],
    table: &[u16],
    history: &[u16],
    shape: Shape,
    pages: u32,
    live: u32,
    line: u32,
) -> Version
    requires { AsksNewest (written_at shape groups.now history.now) pages live line archive.now pool.now table.now }
    ensures { result ≡ newest_of (written_at shape groups.now history.now) pages live archive.now pool.now table.now line }
{
    let found = written::search(groups, history, shape, line, live - 1);
    match found {
        Some(i) => {
            let at = locate(table, shape, pages, line, found);
            let content = content_at(archive, pool, line, at);
            let frame = frames::frame_at(shape.frames, shape.omf, i) as u16;
            let back = live - 1 - i;
            Version {
                content,
                frame,
                origin: Origin::Frame(back),
            }
        }
        None => Version {
            content: pages::lines::read_archive_line(archive, line),
            frame: cache::ARCHIVE,
            origin: Origin::Archive,
        },
    }
}

// The same from the entry of the cache that was found for the line, if one was: frames and bytes of its entries.
#[tactic(auto, unfolding(crate::specs::Newest::latest_from))]
pub fn latest(
    origins: &[u16; 32],
    bytes: &[u8; 512],
    archive: &[u8],
    pool: &[u8],
    groups: &[u32],
    table: &[u16],
    history: &[u16],
    shape: Shape,
    pages: u32,
    live: u32,
    line: u32,
    found: Option<u32>,
) -> Version
    requires { (AsksNewest (written_at shape groups.now history.now) pages live line archive.now pool.now table.now) × (AsksFound found) }
    ensures { result ≡ latest_from origins.now bytes.now (newest_of (written_at shape groups.now history.now) pages live archive.now pool.now table.now line) found }
{
    match found {
        Some(entry) => Version {
            content: cache::line_at(bytes, entry),
            frame: cache::frame_of(origins, entry),
            origin: Origin::Cache,
        },
        None => newest(
            archive, pool, groups, table, history, shape, pages, live, line,
        ),
    }
}

// Whether no surviving write has touched a line, by the frame of its version and its flag.
#[tactic(auto, unfolding(crate::specs::Newest::is_empty))]
pub fn is_empty(owners: &[u32], pages: u32, line: u32, frame: u16) -> bool
    requires { AsksFlag pages line (length owners.now) }
    ensures { result ≡ is_empty (collected_at pages owners.now line) frame }
{
    frame == cache::ARCHIVE && !pages::flags::is_collected(owners, pages, line)
}

// Zeroes the archive's lines.
pub fn zero(archive: &mut [u8], lines: u32)
    requires { (lines ≤ 4096) × (16 * lines ≤ length archive.old) }
    ensures { archive.new ≡ zeroed lines archive.old }
{
    archive[..16 * lines as usize].fill(0);
}

// Copies the version that a page has of a line, if the frame of an index wrote it, to the archive; the line is collected then.
#[tactic(auto, unfolding(crate::specs::Steps::folded_line, crate::specs::Steps::flagged_line))]
fn fold_line(
    archive: &mut [u8],
    pool: &[u8],
    groups: &[u32],
    owners: &mut [u32],
    history: &[u16],
    ring: Ring,
    page: u32,
    index: u32,
    line: u32,
)
    requires { (AsksCopy (written_at ring.shape groups.now history.now) ring.pages page index (length archive.old) (length pool.now) (length owners.old)) × (line < ring.shape.lines) }
    ensures copied { archive.new ≡ folded_line (written_at ring.shape groups.now history.now) pool.now page index line archive.old }
    ensures noted { owners.new ≡ flagged_line (written_at ring.shape groups.now history.now) ring.pages index line owners.old }
{
    if !written::has(groups, history, ring.shape, line, index) {
        return;
    }
    let content = pages::lines::read_page_line(pool, page, line % 8);
    pages::lines::write_archive_line(archive, line, content);
    pages::flags::set_collected(owners, ring.pages, line);
}

// Copies the versions that a page has of the lines of a block so.
#[tactic(auto, unfolding(crate::specs::Steps::folded_page, crate::specs::Steps::folded_lines, crate::specs::Steps::flagged_page, crate::specs::Steps::flagged_lines))]
fn fold_page(
    archive: &mut [u8],
    pool: &[u8],
    groups: &[u32],
    owners: &mut [u32],
    history: &[u16],
    ring: Ring,
    page: u32,
    index: u32,
    block: u32,
)
    requires { AsksCopy (written_at ring.shape groups.now history.now) ring.pages page index (length archive.old) (length pool.now) (length owners.old) }
    ensures copied { archive.new ≡ folded_page (written_at ring.shape groups.now history.now) pool.now page index block archive.old }
    ensures noted { owners.new ≡ flagged_page (written_at ring.shape groups.now history.now) ring.pages index block owners.old }
{
    if ring.shape.lines / 8 <= block {
        return;
    }
    for n in 0..8 {
        fold_line(
            archive,
            pool,
            groups,
            owners,
            history,
            ring,
            page,
            index,
            block * 8 + n,
        );
    }
}

// Folds the versions of the k oldest frames into the archive and sets their lines' flags, page after page from the ring's oldest on; how many pages
// they have.
#[tactic(auto, unfolding(crate::specs::Steps::folded_pages, crate::specs::Steps::flagged_pages))]
pub fn fold(
    archive: &mut [u8],
    pool: &[u8],
    groups: &[u32],
    owners: &mut [u32],
    history: &[u16],
    ring: Ring,
    k: u32,
) -> u32
    requires { (AsksFold (written_at ring.shape groups.now history.now) ring.pages ring.first ring.used (length archive.old) (length pool.now) (length owners.old)) × (k < ring.shape.frames) }
    ensures { (Leads ring.used (index_at ring.shape.frames ring.shape.omf ring.pages ring.first owners.old) k result)
        × (archive.new ≡ folded_pages (written_at ring.shape groups.now history.now) ring.pages ring.first pool.now owners.old result archive.old)
        × (owners.new ≡ flagged_pages (written_at ring.shape groups.now history.now) ring.pages ring.first owners.old result) }
{
    for i in 0..ring.used {
        let page = frames::frame_at(ring.pages, ring.first, i);
        let owner = owners[page as usize];
        let index = pages::segment::owner_index(ring.shape, owner);
        if k <= index {
            return i;
        }
        fold_page(
            archive,
            pool,
            groups,
            owners,
            history,
            ring,
            page,
            index,
            owner % 512,
        );
    }
    ring.used
}

// Clears the bits of a page's frame in the lines of its block.
#[tactic(auto, unfolding(crate::specs::Steps::cleared_page))]
fn clear_page(groups: &mut [u32], shape: Shape, owner: u32)
    requires { (shape.lines ≤ 4096) × (owner / 512 ≤ 4096) × (owner % 512 < shape.lines / 8 → place_of shape.lines (owner / 512 / 16) (owner % 512 * 8) + 8 ≤ length groups.old) }
    ensures { groups.new ≡ cleared_page shape.lines owner groups.old }
{
    let block = owner % 512;
    if shape.lines / 8 <= block {
        return;
    }
    written::clear_block(groups, shape, owner / 512, block);
}

// Clears the bits of the ring's first pages so.
#[tactic(auto, unfolding(crate::specs::Steps::cleared_pages))]
pub fn clear(groups: &mut [u32], owners: &[u32], ring: Ring, gone: u32)
    requires { AsksGone ring.shape.lines ring.shape.frames ring.shape.omf ring.pages ring.first ring.used owners.now gone (length groups.old) }
    ensures { groups.new ≡ cleared_pages ring.shape.lines ring.pages ring.first owners.now gone groups.old }
{
    for i in 0..gone {
        let page = frames::frame_at(ring.pages, ring.first, i) as usize;
        clear_page(groups, ring.shape, owners[page]);
    }
}

// The page that a write to a line in a frame goes to: the place's own, and else the next of the ring.
#[tactic(auto, unfolding(crate::specs::Steps::page_for, crate::specs::Steps::used_for))]
pub fn page_for(table: &[u16], owners: &[u32], ring: Ring, frame: u32, line: u32) -> Choice
    requires { AsksPageFor ring.shape.lines ring.shape.frames ring.shape.omf ring.pages ring.first ring.used frame line (length table.now) (length owners.now) }
    ensures { (result.page ≡ page_for ring.shape.lines ring.pages ring.first ring.used table.now owners.now frame line)
        × (result.used ≡ used_for ring.shape.lines ring.pages ring.first ring.used table.now owners.now frame line) }
{
    let page = pages::table::page_at(table, ring.shape, frame, line / 8);
    if pages::segment::is_own(owners, ring, page, frame * 512 + line / 8) {
        return Choice {
            page: Some(page),
            used: ring.used,
        };
    }
    Choice {
        page: pages::segment::next_page(ring),
        used: ring.pages.min(ring.used + 1),
    }
}

// Puts a version of a line in a page, in the frame of an index: the bytes go to the line's slot, the page to the place of frame and
// block, and the written bit is set.
pub fn put(
    pool: &mut [u8],
    groups: &mut [u32],
    table: &mut [u16],
    owners: &mut [u32],
    history: &[u16],
    shape: Shape,
    tag: u32,
    pages: u32,
    line: u32,
    index: u32,
    page: u32,
    content: [u8; 16],
)
    requires { AsksPut (written_at shape groups.old history.now) pages tag line index page pool.old table.old owners.old }
    ensures bytes { pool.new ≡ with_page_line pool.old page (line % 8) content }
    ensures bit { groups.new ≡ with_written (written_at shape groups.old history.now) tag line index }
    ensures table { table.new ≡ ListN.set table.old (entry_at shape.lines (frame_at shape.frames shape.omf index) (line / 8)) page }
    ensures owner { owners.new ≡ ListN.set owners.old page (place_at (frame_at shape.frames shape.omf index) (line / 8)) }
{
    pages::lines::write_page_line(pool, page, line % 8, content);
    let frame = frames::frame_at(shape.frames, shape.omf, index);
    pages::table::claim(table, owners, shape, frame, line / 8, page as u16);
    written::set(groups, history, shape, tag, line, index);
}
