// How long the lent pieces are, and how long they have to be: the papers' sizes, in elements.
use crate::memory::times;

// The elements of each piece: bytes of the archive and the pool, numbers of the others.
#[derive(Clone, Copy)]
pub struct Lengths {
    pub archive: usize,
    pub pool: usize,
    pub groups: usize,
    pub table: usize,
    pub owners: usize,
    pub history: usize,
}

impl Lengths {
    // What a store of these settings needs: 16 bytes a line, 128 a page, a group for each line and 16 frames, a place in the table for each frame
    // and 8 lines, an owner for each page and a flag for each line behind them, and a bound for each of 256 tags.
    pub fn least(lines: usize, frames: usize, pages: usize) -> Lengths {
        Lengths {
            archive: times(16, lines),
            pool: times(128, pages),
            groups: times(frames / 16, lines),
            table: times(frames, lines / 8),
            owners: pages.wrapping_add(lines),
            history: 256,
        }
    }

    // Whether a piece is shorter than needed.
    pub fn is_short(self, need: Lengths) -> bool {
        self.archive < need.archive
            || self.pool < need.pool
            || self.groups < need.groups
            || self.table < need.table
            || self.owners < need.owners
            || self.history < need.history
    }
}
