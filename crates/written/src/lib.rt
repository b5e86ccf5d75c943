// Written bits and the rollback history, in lent lists. Every function is safe on any contents of the lists; what the `requires` ask
// of numbers and lengths is tested by the store. Only our own crates call them.
#![tactic(auto)]

ghost use Rattle.std.specs.Prelude.{◌≡◌, ◌+◌, ◌*◌, ◌/◌, ◌≤◌, ◌<◌, length, get_or};
ghost use Rattle.std.proofs.Math.ListN;
ghost use Rattle.rules.specs.Seen.{needs};
ghost use Rattle.frames.specs.Circle.{Turn, index_of};
ghost use Rattle.written.specs.Bits.{written_at, AsksWritten, Asks, AsksBlock, AsksSet, Near, place_of, bound_of, effective, newest_from, newest_run, newest_in_area, down_of, up_of, stands_in, run_has, block_has, set_in, first_index, before_wrap, after_wrap, cut_of, window_of};
ghost use Rattle.written.specs.Steps.{AsksWindow, AsksReset, regrouped, with_written, renewed, Entered, settled, compared, Masks, swept_area, swept, unset_in, cleared_block, lower_bound, lowered, RolledBack, blanked};

// What places the lent lists: L, the circle of frames and OMF.
#[derive(Clone, Copy)]
pub struct Shape {
    pub lines: u32,
    pub frames: u32,
    pub omf: u32,
}

// Where the group of a line in a working area stands.
fn place_of(shape: Shape, area: u32, line: u32) -> usize
    requires { Near shape.lines area line }
    ensures { result ≡ place_of shape.lines area line }
{
    (area * shape.lines + line) as usize
}

// The group of a line in a working area.
fn group_at(groups: &[u32], shape: Shape, area: u32, line: u32) -> u32
    requires { (Near shape.lines area line) × (place_of shape.lines area line < length groups.now) }
    ensures { result ≡ get_or groups.now (place_of shape.lines area line) 0 }
{
    let at = place_of(shape, area, line);
    groups[at]
}

// Puts a group there.
fn put_group(groups: &mut [u32], shape: Shape, area: u32, line: u32, group: u32)
    requires { (Near shape.lines area line) × (place_of shape.lines area line < length groups.old) }
    ensures { groups.new ≡ ListN.set groups.old (place_of shape.lines area line) group }
{
    let at = place_of(shape, area, line);
    groups[at] = group;
}

// What the history has for a group's tag.
fn bound_of(history: &[u16], group: u32) -> u32
    requires { 256 ≤ length history.now }
    ensures { (result ≡ bound_of history.now group) × (result < 65536) }
{
    let tag = (group / 65536 % 256) as usize;
    u32::from(history[tag])
}

// How far down from an index its working area goes on.
fn run_down(shape: Shape, index: u32) -> u32
    requires { Turn shape.frames shape.omf index }
    ensures { result ≡ down_of shape.frames shape.omf index }
{
    (frames::frame_at(shape.frames, shape.omf, index) % 16).min(index)
}

// The newest standing bit of a group from a position down.
fn newest_run(group: u32, bound: u32, place: u32, index: u32) -> Option<u32>
    requires { (bound < 65536) × (place < 16) × (index < 65536) }
    ensures { result ≡ newest_run group bound place index }
{
    let low = place - place.min(index);
    let top = (bound + place).saturating_sub(index).min(place + 1);
    let q = numbers::newest_bit(group, low, top)?;
    Some(index + q - place)
}

// The newest effective bit of a line in the working area of an index, up to that index. The history is looked at only for a group with
// bits.
fn newest_in_area(
    groups: &[u32],
    history: &[u16],
    shape: Shape,
    line: u32,
    index: u32,
) -> Option<u32>
    requires { Asks (written_at shape groups.now history.now) line index }
    ensures { result ≡ newest_in_area (written_at shape groups.now history.now) line index }
{
    let frame = frames::frame_at(shape.frames, shape.omf, index);
    let group = group_at(groups, shape, frame / 16, line);
    if group % 65536 == 0 {
        return None;
    }
    let bound = bound_of(history, group);
    newest_run(group, bound, frame % 16, index)
}

// The newest effective bit of a line from a start index down: one group read for each working area passed (an area in which OMF lies is
// passed twice where the start lies behind OMF in it).
pub fn search(groups: &[u32], history: &[u16], shape: Shape, line: u32, start: u32) -> Option<u32>
    requires { Asks (written_at shape groups.now history.now) line start }
    ensures { result ≡ newest_from (written_at shape groups.now history.now) line start }
{
    let mut i = start;
    // A loop: each turn goes down by what is left of a working area, which is no fixed step.
    loop {
        if let Some(found) = newest_in_area(groups, history, shape, line, i) {
            return Some(found);
        }
        let down = run_down(shape, i);
        if i <= down {
            return None;
        }
        i = i - down - 1;
    }
}

// How far up from an index its working area goes on, at most to the end of a window.
fn run_up(shape: Shape, index: u32, end: u32) -> u32
    requires { Turn shape.frames shape.omf index }
    ensures { result ≡ up_of shape.frames shape.omf index end }
{
    let left = 16 - frames::frame_at(shape.frames, shape.omf, index) % 16;
    left.min(end.saturating_sub(index))
}

// Whether a group has a standing bit among so many from a position up.
fn stands_in(group: u32, bound: u32, place: u32, index: u32, up: u32) -> bool
    requires { (bound < 65536) × (place + up ≤ 16) × (index < 65536) }
    ensures { result ≡ stands_in group bound place index up }
{
    let top = (place + up).min((bound + place).saturating_sub(index));
    numbers::newest_bit(group, place, top).is_some()
}

// Whether a line has an effective bit in the working area of an index, from it up to the end of a window.
fn run_has(groups: &[u32], history: &[u16], shape: Shape, line: u32, index: u32, end: u32) -> bool
    requires { (Asks (written_at shape groups.now history.now) line index) × (end ≤ shape.frames) }
    ensures { result ≡ run_has (written_at shape groups.now history.now) line index end }
{
    let frame = frames::frame_at(shape.frames, shape.omf, index);
    let group = group_at(groups, shape, frame / 16, line);
    if group % 65536 == 0 {
        return false;
    }
    let bound = bound_of(history, group);
    stands_in(group, bound, frame % 16, index, run_up(shape, index, end))
}

// Whether one of a block's eight lines has an effective bit in a window of indexes: left at the first such bit. Of each line one group
// is read for each working area that the window touches.
pub fn block_has(
    groups: &[u32],
    history: &[u16],
    shape: Shape,
    block: u32,
    from: u32,
    end: u32,
) -> bool
    requires { AsksBlock (written_at shape groups.now history.now) block end }
    ensures { result ≡ block_has (written_at shape groups.now history.now) block from end }
{
    let mut found = false;
    'lines: for n in 0..8 {
        let mut i = from;
        // A while: each turn goes up by what is left of a working area, which is no fixed step.
        while i < end {
            if run_has(groups, history, shape, block * 8 + n, i, end) {
                found = true;
                break 'lines;
            }
            i += run_up(shape, i, end);
        }
    }
    found
}

// How many of a block's eight lines have their bit of a frame set, effective or stale: counted in one go, without a look at the history.
fn set_in(groups: &[u32], shape: Shape, frame: u32, block: u32) -> u32
    requires { AsksSet shape.lines frame block (length groups.now) }
    ensures { result ≡ set_in shape.lines groups.now frame block }
{
    let here = numbers::power_of_two(frame % 16);
    let mut sum = 0;
    for n in 0..8 {
        sum += group_at(groups, shape, frame / 16, block * 8 + n) / here % 2;
    }
    sum
}

// Whether the page of a frame and block is needed: the window of that one frame, where a bit is set in it.
pub fn needed(groups: &[u32], history: &[u16], shape: Shape, frame: u32, block: u32) -> bool
    requires { (AsksBlock (written_at shape groups.now history.now) block shape.frames) × (frame < shape.frames) }
    ensures { result ≡ needs (effective (written_at shape groups.now history.now) (index_of shape.frames shape.omf frame)) block }
{
    if set_in(groups, shape, frame, block) == 0 {
        return false;
    }
    let index = frames::index(shape.frames, shape.omf, frame);
    block_has(groups, history, shape, block, index, index + 1)
}

// Whether a line has an effective bit in the frame of an index.
pub fn has(groups: &[u32], history: &[u16], shape: Shape, line: u32, index: u32) -> bool
    requires { Asks (written_at shape groups.now history.now) line index }
    ensures { result ≡ effective (written_at shape groups.now history.now) index line }
{
    let frame = frames::frame_at(shape.frames, shape.omf, index);
    let group = group_at(groups, shape, frame / 16, line);
    numbers::is_set(group, frame % 16) && index < bound_of(history, group)
}

// A group without the bit of a frame.
fn unset(group: u32, frame: u32) -> u32
    ensures { result ≡ unset_in frame group }
{
    group / 65536 * 65536 + numbers::without_bit(group % 65536, frame % 16)
}

// Clears the bits of a frame in a block's eight lines, effective or stale.
pub fn clear_block(groups: &mut [u32], shape: Shape, frame: u32, block: u32)
    requires { AsksSet shape.lines frame block (length groups.old) }
    ensures { groups.new ≡ cleared_block shape.lines frame block groups.old }
{
    for n in 0..8 {
        let line = block * 8 + n;
        let group = group_at(groups, shape, frame / 16, line);
        put_group(groups, shape, frame / 16, line, unset(group, frame));
    }
}

// The bits of a group before the circle closes in its area, and after, in a window of indexes.
fn before_wrap(group: u32, s: u32, u: u32, from: u32, end: u32) -> u32
    requires { u ≤ 16 }
    ensures { result ≡ before_wrap group s u from end }
{
    let lo = u.min(from.saturating_sub(s));
    let hi = u.min(end.saturating_sub(s));
    numbers::range(group, lo, hi)
}

fn after_wrap(group: u32, u: u32, from: u32, end: u32) -> u32
    requires { (u ≤ 16) × (from ≤ 65535) × (end ≤ 65535) }
    ensures { result ≡ after_wrap group u from end }
{
    numbers::range(group, u32::min(16, from + u), u32::min(16, end + u))
}

// The bits of a group whose index from OMF lies in a window: the first u frames of its area have the indexes from s on, the others those
// from 0 on.
fn cut(group: u32, s: u32, u: u32, from: u32, end: u32) -> u32
    requires { (u ≤ 16) × (from ≤ 65535) × (end ≤ 65535) }
    ensures { (result ≡ cut_of group s u from end) × (result < 65536) }
{
    before_wrap(group, s, u, from, end) + after_wrap(group, u, from, end)
}

// The index of the first frame of a working area.
fn first_index(shape: Shape, area: u32) -> u32
    requires { (shape.omf < shape.frames) × (area * 16 < shape.frames) × (shape.frames ≤ 4096) }
    ensures { (result ≡ first_index shape.frames shape.omf area) × (result < shape.frames) }
{
    frames::index(shape.frames, shape.omf, area * 16)
}

// The bits of a group in an area whose index from OMF lies in a window.
fn window(shape: Shape, group: u32, area: u32, from: u32, end: u32) -> u32
    requires { AsksWindow shape.frames shape.omf area from end }
    ensures { result ≡ window_of shape.frames shape.omf area group from end }
{
    let s = first_index(shape, area);
    let u = u32::min(16, shape.frames - s);
    cut(group, s, u, from, end)
}

// A group with the bit of a frame set: masked by its bound first, with the current tag.
fn regroup(shape: Shape, group: u32, bound: u32, frame: u32, tag: u32) -> u32
    requires { (AsksWindow shape.frames shape.omf (frame / 16) 0 bound) × (tag < 256) }
    ensures { result ≡ regrouped shape.frames shape.omf frame bound tag group }
{
    let kept = window(shape, group, frame / 16, 0, bound);
    tag * 65536 + numbers::with_bit(kept, frame % 16)
}

// Sets the written bit of a line in the frame of an index.
pub fn set(groups: &mut [u32], history: &[u16], shape: Shape, tag: u32, line: u32, index: u32)
    requires { (Asks (written_at shape groups.old history.now) line index) × (tag < 256) }
    ensures { groups.new ≡ with_written (written_at shape groups.old history.now) tag line index }
{
    let frame = frames::frame_at(shape.frames, shape.omf, index);
    let group = group_at(groups, shape, frame / 16, line);
    let bound = bound_of(history, group);
    let after = regroup(shape, group, bound, frame, tag);
    put_group(groups, shape, frame / 16, line, after);
}

// Gives a line that is written in a frame already the current tag. A group whose upper 16 bits are just that tag stays as it is; any other, also
// one with something in its upper byte, is masked and tagged as by `set`, which clears that byte.
pub fn renew(groups: &mut [u32], history: &[u16], shape: Shape, tag: u32, line: u32, frame: u32)
    requires { (Asks (written_at shape groups.old history.now) line frame) × (tag < 256) }
    ensures { groups.new ≡ renewed (written_at shape groups.old history.now) tag line frame }
{
    let group = group_at(groups, shape, frame / 16, line);
    if group / 65536 == tag {
        return;
    }
    let index = frames::index(shape.frames, shape.omf, frame);
    set(groups, history, shape, tag, line, index);
}

// Enters a rollback that keeps so many frames: from the newest used entry of the history on, each that is less deep gets the target, up to
// the first that is not. Gives how many were compared, that one included.
fn enter(history: &mut [u16], tag: u32, kept: u16) -> usize
    requires { (tag < 256) × (256 ≤ length history.old) }
    ensures entered { Entered tag kept history.old history.new }
    ensures settled { history.new ≡ settled kept (tag + 1) history.old }
    ensures compared { result ≡ compared kept (tag + 1) history.old }
{
    let used = tag as usize + 1;
    for t in (0..used).rev() {
        if history[t] <= kept {
            return used - t;
        }
        history[t] = kept;
    }
    used
}

// For each tag the mask of the bits that stand with it, in a working area.
fn masks_of(history: &[u16], s: u32, u: u32) -> [u32; 256]
    requires { (u ≤ 16) × (256 ≤ length history.now) }
    ensures { Masks s u history.now result }
{
    let mut masks = [0u32; 256];
    for t in 0..256 {
        masks[t] = cut(65535, s, u, 0, u32::from(history[t]));
    }
    masks
}

// Rewrites the groups of a working area with the bits that stand, and tag 0: each is masked by its tag, without a branch, since which groups
// have bits is not to be foreseen.
fn sweep_area(groups: &mut [u32], history: &[u16], shape: Shape, area: u32)
    requires { (AsksWritten (written_at shape groups.old history.now)) × (area < shape.frames / 16) }
    ensures { groups.new ≡ swept_area (written_at shape groups.old history.now) area }
{
    let s = first_index(shape, area);
    let u = u32::min(16, shape.frames - s);
    let masks = masks_of(history, s, u);
    for line in 0..shape.lines {
        let group = group_at(groups, shape, area, line);
        let tag = (group / 65536 % 256) as usize;
        put_group(groups, shape, area, line, group & masks[tag]);
    }
}

// Rewrites every group so, working area by working area.
fn sweep(groups: &mut [u32], history: &[u16], shape: Shape)
    requires { AsksWritten (written_at shape groups.old history.now) }
    ensures { groups.new ≡ swept (written_at shape groups.old history.now) }
{
    for area in 0..shape.frames / 16 {
        sweep_area(groups, history, shape, area);
    }
}

// A rollback that keeps so many frames: entered in the history, with the next tag, which is given; past the last one all groups are
// swept and the tags start afresh. No written bit is cleared otherwise.
pub fn rollback(groups: &mut [u32], history: &mut [u16], shape: Shape, tag: u32, kept: u16) -> u32
    requires { (AsksWritten (written_at shape groups.old history.old)) × (tag < 256) }
    ensures { RolledBack (written_at shape groups.old history.old) tag kept groups.new history.new result }
{
    enter(history, tag, kept);
    if tag < 255 {
        let next = tag + 1;
        history[next as usize] = 65535;
        return next;
    }
    sweep(groups, history, shape);
    history[0] = 65535;
    0
}

// A bound after OMF has moved k frames on.
fn lower_bound(bound: u16, k: u16) -> u16
    ensures { result ≡ lower_bound k bound }
{
    if bound == 65535 {
        return bound;
    }
    bound.saturating_sub(k)
}

// Lowers the entries of the history with OMF: an advance that collects the k oldest frames.
pub fn lower(history: &mut [u16], k: u16)
    requires { 256 ≤ length history.old }
    ensures { history.new ≡ lowered k history.old }
{
    for bound in &mut history[..256] {
        *bound = lower_bound(*bound, k);
    }
}

// No written bit, and a history with no rollback: what a reset leaves, whatever the lists held.
pub fn reset(groups: &mut [u32], history: &mut [u16], shape: Shape)
    requires { AsksReset shape.lines shape.frames (length groups.old) (length history.old) }
    ensures none { groups.new ≡ blanked shape.lines shape.frames groups.old }
    ensures open { history.new ≡ ListN.set history.old 0 65535 }
{
    let count = (shape.frames / 16 * shape.lines) as usize;
    groups[..count].fill(0);
    history[0] = 65535;
}
