// The cache: 16 sets of two ways, a struct by value. The functions take its arrays where they lie, and are safe on any contents of them.
// Those with a `requires` are called by our own crates alone, which test what it asks, or hand on what `find` gave.
#![tactic(auto)]

ghost use Rattle.std.specs.Prelude.{◌≡◌, ◌*◌, ◌/◌, ◌%◌, ◌<◌, length, get_or};
ghost use Rattle.std.proofs.Math.ListN;
ghost use Rattle.rules.specs.Figure3.{empty_cache};
ghost use Rattle.rules.specs.Line.{value_at, edit};
ghost use Rattle.frames.specs.Circle.{Turn};
ghost use Rattle.lists.specs.Lines.{paste_line, AsksBytes};
ghost use Rattle.cache.specs.Entries.{cache_of, is_valid_in, bytes_in, held_bytes, is_at_in, hit_in, of_frame, AsksFound, free_way, way_from};
ghost use Rattle.cache.specs.Steps.{emptied, placed_in, is_below, flag_after, flags_after, frame_after, frames_after};
ghost use Rattle.cache.specs.Shown.{shown};

// The entry of a set's way is 2 * set + way. C's programs hold this struct, and the exports for C lend each array by a reference of its own:
// so an entry is one place in four arrays, with a flag and ARCHIVE for what an Option would say, and the functions take the arrays apart.
#[repr(C)]
#[derive(Clone, Copy)]
pub struct Cache {
    // the line that the entry holds
    pub held: [u32; 32],
    // the frame of the line's most recent version, or ARCHIVE
    pub origins: [u16; 32],
    // 1 for a valid entry
    pub valid: [u8; 32],
    // 16 for each entry
    pub bytes: [u8; 512],
    // for each set, the way used last: 0, or any other number for way 1
    pub last: [u8; 16],
}

pub const ARCHIVE: u16 = 65535;

// The cache after RESET.
pub fn empty() -> Cache
    ensures { (result ≡ emptied) × (shown result ≡ empty_cache) }
{
    Cache {
        held: [0; 32],
        origins: [0; 32],
        valid: [0; 32],
        bytes: [0; 512],
        last: [0; 16],
    }
}

// Whether an entry is valid.
#[tactic(auto, unfolding(crate::specs::Entries::is_valid_in))]
fn is_valid(valid: &[u8; 32], entry: u32) -> bool
    requires { entry < 32 }
    ensures { result ≡ is_valid_in valid.now entry }
{
    valid[entry as usize] == 1
}

// Whether an entry is valid and holds the line.
#[tactic(auto, unfolding(crate::specs::Entries::is_at_in))]
fn is_at<'a>(held: &'a [u32; 32], valid: &'a [u8; 32], entry: u32, line: u32) -> bool
    requires { entry < 32 }
    ensures { result ≡ is_at_in held.now valid.now entry line }
{
    is_valid(valid, entry) && held[entry as usize] == line
}

// The entry of the line's set that is valid and holds the line, way 0 first, if one does.
#[tactic(auto, unfolding(crate::specs::Entries::hit_in))]
pub fn find<'a>(held: &'a [u32; 32], valid: &'a [u8; 32], line: u32) -> Option<u32>
    ensures { result ≡ hit_in held.now valid.now line }
{
    let first = 2 * (line % 16);
    let second = first + 1;
    if is_at(held, valid, first, line) {
        Some(first)
    } else if is_at(held, valid, second, line) {
        Some(second)
    } else {
        None
    }
}

// An entry that was found, if it has this frame.
#[tactic(auto, unfolding(crate::specs::Entries::of_frame))]
pub fn of_frame(origins: &[u16; 32], found: Option<u32>, frame: u32) -> Option<u32>
    requires { AsksFound found }
    ensures { result ≡ of_frame origins.now frame found }
{
    found.filter(|&entry| u32::from(frame_of(origins, entry)) == frame)
}

// The way of its set that a line takes which is in neither.
#[tactic(auto, unfolding(crate::specs::Entries::free_way))]
fn free_way<'a>(valid: &'a [u8; 32], last: &'a [u8; 16], set: u32) -> u32
    requires { set < 16 }
    ensures { (result ≡ free_way valid.now last.now set) × (result < 2) }
{
    let first = 2 * set;
    if !is_valid(valid, first) {
        0
    } else if !is_valid(valid, first + 1) {
        1
    } else if last[set as usize] == 0 {
        1
    } else {
        0
    }
}

// The way that a use of a line takes, by the entry that was found for it.
#[tactic(auto, unfolding(crate::specs::Entries::way_from))]
fn way_of<'a>(valid: &'a [u8; 32], last: &'a [u8; 16], line: u32, found: Option<u32>) -> u32
    ensures { (result ≡ way_from valid.now last.now line found) × (result < 2) }
{
    match found {
        Some(entry) => entry % 2,
        None => free_way(valid, last, line % 16),
    }
}

// The 16 bytes of an entry.
#[tactic(auto, unfolding(crate::specs::Entries::bytes_in))]
pub fn line_at(bytes: &[u8; 512], entry: u32) -> [u8; 16]
    requires { entry < 32 }
    ensures { result ≡ bytes_in bytes.now entry }
{
    lists::read_line(bytes, 16 * (entry as usize))
}

// The value of so many bytes of an entry, from an offset on.
pub fn value_at(bytes: &[u8; 512], entry: u32, width: u32, offset: u32) -> u32
    requires { (entry < 32) × (AsksBytes width offset) }
    ensures { result ≡ value_at width offset (bytes_in bytes.now entry) }
{
    lists::read_value(bytes, (16 * entry + offset) as usize, width)
}

// Writes a value there.
pub fn edit_at(bytes: &mut [u8; 512], entry: u32, width: u32, offset: u32, value: u32)
    requires { (entry < 32) × (AsksBytes width offset) }
    ensures { bytes.new ≡ paste_line bytes.old (16 * entry) (edit width offset value (bytes_in bytes.old entry)) }
{
    lists::write_value(bytes, (16 * entry + offset) as usize, width, value);
}

// The 16 bytes of an entry of a whole cache.
pub fn bytes_of(cache: Cache, entry: u32) -> [u8; 16]
    requires { entry < 32 }
    ensures { result ≡ held_bytes cache entry }
{
    line_at(&cache.bytes, entry)
}

// The frame of an entry.
pub fn frame_of(origins: &[u16; 32], entry: u32) -> u16
    requires { entry < 32 }
    ensures { result ≡ get_or origins.now entry 0 }
{
    origins[entry as usize]
}

// A use of a line, by a read or a write: the way taken has it with this frame and these bytes and was used last. The set is not looked up
// again: the entry that was found for the line, if one was, is handed on.
pub fn place(
    held: &mut [u32; 32],
    origins: &mut [u16; 32],
    valid: &mut [u8; 32],
    bytes: &mut [u8; 512],
    last: &mut [u8; 16],
    line: u32,
    found: Option<u32>,
    frame: u16,
    content: [u8; 16],
)
    requires { found ≡ hit_in held.old valid.old line }
    ensures { cache_of held.new origins.new valid.new bytes.new last.new
        ≡ placed_in (cache_of held.old origins.old valid.old bytes.old last.old) line frame content }
{
    let way = way_of(valid, last, line, found);
    let set = line % 16;
    let entry = (2 * set + way) as usize;
    held[entry] = line;
    origins[entry] = frame;
    valid[entry] = 1;
    lists::write_line(bytes, 16 * entry, content);
    last[set as usize] = way as u8;
}

// A use of the line that an entry holds: its way was used last, and the entry stays as it is.
pub fn recall(last: &mut [u8; 16], entry: u32)
    requires { entry < 32 }
    ensures { last.new ≡ ListN.set last.old (entry / 2) (entry % 2) }
{
    last[(entry / 2) as usize] = (entry % 2) as u8;
}

// Whether a frame number lies on the circle with an index from OMF below n.
#[tactic(auto, unfolding(crate::specs::Steps::is_below))]
fn is_below(frame: u16, frames: u32, omf: u32, n: u32) -> bool
    requires { Turn frames omf omf }
    ensures { result ≡ is_below frames omf n frame }
{
    let number = u32::from(frame);
    number < frames && frames::index(frames, omf, number) < n
}

// An entry's valid flag after a rollback that keeps the frames with an index below `kept`.
#[tactic(auto, unfolding(crate::specs::Steps::flag_after, crate::specs::Steps::is_dropped))]
fn flag_after(frame: u16, flag: u8, frames: u32, omf: u32, kept: u32) -> u8
    requires { Turn frames omf omf }
    ensures { result ≡ flag_after frames omf kept frame flag }
{
    if frame == ARCHIVE || is_below(frame, frames, omf, kept) {
        flag
    } else {
        0
    }
}

// A rollback that keeps the frames with an index below `kept`: the entries of the others are no longer valid.
#[tactic(auto, unfolding(lists::specs::Lists::rewrite, crate::specs::Steps::flags_after))]
pub fn forget(origins: &[u16; 32], valid: &mut [u8; 32], frames: u32, omf: u32, kept: u32)
    requires { Turn frames omf omf }
    ensures { valid.new ≡ flags_after origins.now frames omf kept valid.old }
{
    for (entry, flag) in valid.iter_mut().enumerate() {
        *flag = flag_after(origins[entry], *flag, frames, omf, kept);
    }
}

// An entry's frame after an advance over the k frames from this OMF on.
#[tactic(auto, unfolding(crate::specs::Steps::frame_after))]
fn frame_after(frame: u16, frames: u32, omf: u32, k: u32) -> u16
    requires { Turn frames omf omf }
    ensures { result ≡ frame_after frames omf k frame }
{
    if is_below(frame, frames, omf, k) {
        ARCHIVE
    } else {
        frame
    }
}

// An advance over the k frames from this OMF on: their lines count as the archive's.
#[tactic(auto, unfolding(lists::specs::Lists::rewrite, crate::specs::Steps::frames_after))]
pub fn collect(origins: &mut [u16; 32], frames: u32, omf: u32, k: u32)
    requires { Turn frames omf omf }
    ensures { origins.new ≡ frames_after frames omf k origins.old }
{
    for frame in origins.iter_mut() {
        *frame = frame_after(*frame, frames, omf, k);
    }
}
