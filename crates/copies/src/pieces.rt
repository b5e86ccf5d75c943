// Room for the pieces, and those that a WRITE changes copied and compared: for a second store.
ghost use Rattle.std.specs.Prelude.{◌≡◌, length};

// What stands in a list of answers before the call.
pub const UNANSWERED: u32 = 77;

// Room for each piece of the largest settings, in elements.
pub const ARCHIVE: usize = 65536;

pub const POOL: usize = 524288;

pub const GROUPS: usize = 65536;

pub const TABLE: usize = 131072;

pub const OWNERS: usize = 8192;

pub const HISTORY: usize = 256;

// A list of one element over and over. A proof goes by its length alone, where it would write out the elements of a literal one by one.
pub fn room<T: Copy, const N: usize>(fill: T) -> [T; N]
    ensures { N ≡ length result }
{
    [fill; N]
}

// Puts a copy of a piece that fits at the start of a room.
pub fn put<T: Copy>(room: &mut [T], list: &[T]) {
    if let Some(start) = room.get_mut(..list.len()) {
        start.copy_from_slice(list);
    }
}

// The bits in which a list differs from the start of one that is as long or longer: 0 where it is the same.
pub fn apart<T: Copy + Into<u32>>(a: &[T], b: &[T]) -> u32 {
    a.iter()
        .zip(b)
        .fold(0, |apart, (x, y)| apart | ((*x).into() ^ (*y).into()))
}
