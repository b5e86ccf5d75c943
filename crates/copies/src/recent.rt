// The plain store's own picture of the cache: which lines it holds, and which way of a set was used last. It holds no bytes.
use crate::{Origin, memory};

// A set's two ways are the entries set and set + 16; an invalid one holds no line. A conflict is a valid entry that made room for another line.
#[derive(Clone, Copy, Default)]
pub struct Cache {
    pub lines: [Option<usize>; 32],
    pub last: [usize; 16],
    pub conflicts: usize,
}

impl Cache {
    // No line is held; the conflicts stay.
    pub fn empty(&mut self) {
        self.lines = [None; 32];
        self.last = [0; 16];
    }

    // The entry that holds a line.
    pub fn entry_of(&self, line: usize) -> Option<usize> {
        let set = line % 16;
        if self.lines[set] == Some(line) {
            Some(set)
        } else if self.lines[set + 16] == Some(line) {
            Some(set + 16)
        } else {
            None
        }
    }

    // The entry that a miss takes: an invalid one, the first before the second, else the one that was not used last.
    fn taken(&self, line: usize) -> usize {
        let set = line % 16;
        if self.lines[set].is_none() {
            set
        } else if self.lines[set + 16].is_none() || self.last[set] == 0 {
            set + 16
        } else {
            set
        }
    }

    // A line is read or written.
    pub fn used(&mut self, line: usize) {
        let held = self.entry_of(line);
        let entry = held.unwrap_or(self.taken(line)) % 32;
        if held.is_none() && self.lines[entry].is_some() {
            self.conflicts = self.conflicts.wrapping_add(1);
        }
        self.lines[entry] = Some(line);
        self.last[line % 16] = entry / 16;
    }

    // An entry is invalid after k frames are dropped if its line's most recent version lay in one of them.
    pub fn forget(&mut self, memory: &[u32], lines: usize, live: usize, k: usize) {
        for entry in self.lines.iter_mut() {
            if let Some(line) = *entry
                && let Origin::Frame(back) = memory::newest(memory, lines, live, line)
                && back < k
            {
                *entry = None;
            }
        }
    }
}
