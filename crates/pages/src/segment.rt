// Pages given out in a circle: the needed ones are one segment of the pool, in the order of their frames. Every function is safe on any
// contents; what the `requires` ask of numbers and lengths is tested by the store, and only our own crates call them.
ghost use Rattle.std.specs.Prelude.{◌≡◌, ◌≤◌, ◌<◌, length};
ghost use Rattle.pages.specs.Ring.{nth_page, owner_index, index_at, owns, next_page, AsksRing, Leading};

use crate::Ring;
use written::Shape;

// The index from OMF of an owner's frame. An owner of no frame counts as high.
pub fn owner_index(shape: Shape, owner: u32) -> u32
    requires { (shape.omf < shape.frames) × (shape.frames ≤ 4096) }
    ensures { result ≡ owner_index shape.frames shape.omf owner }
{
    let frame = owner / 512;
    if shape.frames <= frame {
        return shape.frames;
    }
    frames::index(shape.frames, shape.omf, frame)
}

// How many pages, from the oldest on, belong to frames with an index below a limit: by halving, exact where the indexes never fall.
pub fn pages_below(owners: &[u32], ring: Ring, limit: u32) -> u32
    requires { AsksRing ring.pages ring.first ring.used ring.shape.frames ring.shape.omf (length owners.now) }
    ensures { Leading ring.used (index_at ring.shape.frames ring.shape.omf ring.pages ring.first owners.now) limit result }
{
    let mut low = 0;
    let mut high = ring.used;
    // A while: std's `partition_point` halves a slice, and the pages in the circle's order are none.
    while low < high {
        let middle = (low + high) / 2;
        let page = frames::frame_at(ring.pages, ring.first, middle) as usize;
        if owner_index(ring.shape, owners[page]) < limit {
            low = middle + 1;
        } else {
            high = middle;
        }
    }
    low
}

// Whether a page is that of a place: it lies in the segment, and the place owns it.
pub fn is_own(owners: &[u32], ring: Ring, page: u32, place: u32) -> bool
    requires { AsksRing ring.pages ring.first ring.used ring.shape.frames ring.shape.omf (length owners.now) }
    ensures { result ≡ owns ring.pages ring.first ring.used owners.now page place }
{
    page < ring.pages
        && frames::index(ring.pages, ring.first, page) < ring.used
        && owners[page as usize] == place
}

// The page at a position, counted from the oldest page; all round the circle that is the oldest again.
pub fn nth_page(ring: Ring, i: u32) -> u32
    requires { (ring.first < ring.pages) × (i ≤ ring.pages) × (ring.pages ≤ 4096) }
    ensures { result ≡ nth_page ring.pages ring.first i }
{
    if i < ring.pages {
        return frames::frame_at(ring.pages, ring.first, i);
    }
    ring.first
}

// The page behind the segment, if one is left.
pub fn next_page(ring: Ring) -> Option<u32>
    requires { (ring.first < ring.pages) × (ring.pages ≤ 4096) }
    ensures { result ≡ next_page ring.pages ring.first ring.used }
{
    if ring.used < ring.pages {
        return Some(frames::frame_at(ring.pages, ring.first, ring.used));
    }
    None
}
