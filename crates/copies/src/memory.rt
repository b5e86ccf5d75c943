// The copies in one lent list of words. A block of 8 lines takes 33: 4 for each line, the most significant byte first, and one with a bit for
// each line that the frame wrote, in the base for each line that was ever written there. A copy is the blocks in order; the base comes first,
// then what each live frame leaves, the oldest first.
use crate::Origin;

// Room for the copies: 256 live frames up to L = 512, 31 at L = 4,096.
pub const ROOM: usize = 542784;

// A product, or 0 where a factor is out of use here.
pub fn times(a: usize, b: usize) -> usize {
    if a < 1048576 && b < 1048576 { a * b } else { 0 }
}

// A word; outside the list there are noughts.
fn get(memory: &[u32], at: usize) -> usize {
    memory.get(at).map_or(0, |word| *word as usize)
}

// Puts a word; outside the list nothing is put.
fn put(memory: &mut [u32], at: usize, n: usize) {
    if let Some(word) = memory.get_mut(at) {
        *word = (n % 4294967296) as u32;
    }
}

// The words of a copy.
pub fn size(lines: usize) -> usize {
    times(33, lines / 8)
}

// Where the block of a line starts in the copy that the n-th frame leaves.
fn block(lines: usize, n: usize, line: usize) -> usize {
    times(n, size(lines)).wrapping_add(times(33, line / 8))
}

// Where a line starts there.
pub fn place(lines: usize, n: usize, line: usize) -> usize {
    block(lines, n, line).wrapping_add(line % 8 * 4)
}

// The bits of the block's written lines.
fn bits(memory: &[u32], lines: usize, n: usize, line: usize) -> usize {
    get(memory, block(lines, n, line).wrapping_add(32))
}

// Sets so many words to 0.
pub fn clear(memory: &mut [u32], count: usize) {
    let end = count.min(memory.len());
    memory[..end].fill(0);
}

// Copies so many words, the first one first; a fresh copy has no written lines. Outside the list noughts are read and nothing is put, which
// `copy_within` would ask to be ruled out.
pub fn copy(memory: &mut [u32], to: usize, from: usize, count: usize, fresh: bool) {
    for i in 0..count {
        let bits = fresh && i % 33 == 32;
        let n = if bits {
            0
        } else {
            get(memory, from.wrapping_add(i))
        };
        put(memory, to.wrapping_add(i), n);
    }
}

// Whether a line is written in the copy that the n-th frame leaves.
fn is_written(memory: &[u32], lines: usize, n: usize, line: usize) -> bool {
    (bits(memory, lines, n, line) >> (line % 8)) % 2 == 1
}

// How many marks back the newest frame lies that wrote a line, or the archive, or nothing if no write to it is left.
pub fn newest(memory: &[u32], lines: usize, live: usize, line: usize) -> Origin {
    for back in 0..live {
        if is_written(memory, lines, live - back, line) {
            return Origin::Frame(back);
        }
    }
    if is_written(memory, lines, 0, line) {
        Origin::Archive
    } else {
        Origin::Empty
    }
}

// The bits of a block's lines that are written in the base or in one of the k oldest frames.
fn gathered(memory: &[u32], lines: usize, k: usize, line: usize) -> usize {
    (0..=k).fold(0, |set, n| set | bits(memory, lines, n, line))
}

// Notes these in the copy that the k-th oldest frame leaves.
pub fn gather(memory: &mut [u32], lines: usize, k: usize) {
    for i in 0..lines / 8 {
        let line = times(8, i);
        let set = gathered(memory, lines, k, line);
        put(memory, block(lines, k, line).wrapping_add(32), set);
    }
}

// Whether the block of a line has a written line in CMF.
pub fn is_needed(memory: &[u32], lines: usize, live: usize, line: usize) -> bool {
    bits(memory, lines, live, line) != 0
}

// How many blocks of live frames have a written line.
pub fn needed(memory: &[u32], lines: usize, live: usize) -> usize {
    let blocks = times(live, lines / 8);
    let first = size(lines).wrapping_add(32);
    (0..blocks)
        .filter(|block| get(memory, first.wrapping_add(times(33, *block))) != 0)
        .count()
}

// How far the number of so many bytes at an address lies from the low end of its word.
fn shift(width: usize, address: usize) -> usize {
    4usize.wrapping_sub((address % 4).wrapping_add(width)) % 4 * 8
}

// Two words as one number.
pub fn pair(memory: &[u32], at: usize, more: usize) -> usize {
    let from = at.wrapping_add(more);
    (get(memory, from) << 32) | get(memory, from.wrapping_add(1))
}

// The word of an address in CMF.
fn word(lines: usize, live: usize, address: usize) -> usize {
    place(lines, live, address / 16).wrapping_add(address % 16 / 4)
}

// The number in so many bytes at an address.
pub fn value(memory: &[u32], lines: usize, live: usize, width: usize, address: usize) -> usize {
    let n = get(memory, word(lines, live, address)) >> (shift(width, address) % 64);
    match width {
        1 => n % 256,
        2 => n % 65536,
        _ => n,
    }
}

// Puts a number into so many bytes at an address, and the line is written.
pub fn write(
    memory: &mut [u32],
    lines: usize,
    live: usize,
    width: usize,
    address: usize,
    n: usize,
) {
    let at = word(lines, live, address);
    let change = value(memory, lines, live, width, address) ^ n;
    let before = get(memory, at);
    let moved = change << (shift(width, address) % 64);
    put(memory, at, before ^ moved);
    let line = address / 16;
    let set = bits(memory, lines, live, line) | (1 << (line % 8));
    put(memory, block(lines, live, line).wrapping_add(32), set);
}
