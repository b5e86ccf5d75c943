// A second plain store with whole copies: after every mark the whole memory is copied. It is fed the calls and the lent lengths alone.
#![tactic(auto)]

mod answers;
mod items;
mod lengths;
mod memory;
pub mod pieces;
mod recent;
mod refusals;

pub use answers::{Answer, Origin, Said};
pub use items::Tried;
pub use lengths::Lengths;
pub use memory::ROOM;
use memory::{copy, size};
pub use recent::Cache;
pub use refusals::Refusal;

// What a store is asked for.
#[derive(Clone, Copy, PartialEq, Eq, Debug)]
pub enum Kind {
    Reset,
    Write,
    Read,
    Line,
    Mark,
    Rollback,
    Advance,
    Counts,
    Check,
    Block,
}

// A call, on the store's state or on the blank one. Each kind has three numbers, as in the rows and in what is printed of a difference.
#[derive(Clone, Copy)]
pub struct Call {
    pub kind: Kind,
    // RESET: L, F, P; WRITE: width, address, value; READ: width, address; LINE: number; ROLLBACK, ADVANCE: k; BLOCK: how many items and answers,
    // and how many numbers lie behind the last item
    pub a: u32,
    pub b: u32,
    pub c: u32,
    pub blank: bool,
}

// The settings, how many frames are live, and the cache; and what was seen: whether 13 was given since the last page was given out, how
// often a page was given out after that, and the most live frames. By default there is no store: L is 0.
#[derive(Clone, Copy, Default)]
pub struct Plain {
    pub lines: usize,
    pub frames: usize,
    pub pages: usize,
    pub live: usize,
    pub full: bool,
    pub rooms: usize,
    pub highest: usize,
    pub cache: Cache,
}

impl Plain {
    // An accepted RESET.
    fn reset(&mut self, memory: &mut [u32], call: Call) {
        let lines = call.a as usize;
        memory::clear(memory, size(lines).wrapping_add(size(lines)));
        self.lines = lines;
        self.frames = call.b as usize;
        self.pages = call.c as usize;
        self.live = 1;
        self.full = false;
        self.cache.empty();
    }

    // An accepted WRITE.
    fn write(&mut self, memory: &mut [u32], call: Call) {
        let address = call.b as usize;
        if !memory::is_needed(memory, self.lines, self.live, address / 16) {
            if self.full {
                self.rooms = self.rooms.wrapping_add(1);
            }
            self.full = false;
        }
        memory::write(
            memory,
            self.lines,
            self.live,
            call.a as usize,
            address,
            call.c as usize,
        );
        self.cache.used(address / 16);
    }

    // An accepted MARK: what CMF leaves is copied, and no line is written in the copy.
    fn mark(&mut self, memory: &mut [u32]) {
        let all = size(self.lines);
        let here = memory::times(self.live, all);
        copy(memory, here.wrapping_add(all), here, all, true);
        self.live = self.live.wrapping_add(1);
        self.highest = self.highest.max(self.live);
    }

    // An accepted ADVANCE: what the k-th oldest frame left becomes the base, with every line written that the base or a collected frame has, and
    // the rest moves down.
    fn advance(&mut self, memory: &mut [u32], k: usize) {
        let all = size(self.lines);
        memory::gather(memory, self.lines, k);
        self.live = self.live.wrapping_sub(k);
        let count = memory::times(self.live.wrapping_add(1), all);
        copy(memory, 0, memory::times(k, all), count, false);
    }

    // An accepted ROLLBACK: the k newest frames are dropped.
    fn rollback(&mut self, memory: &[u32], k: usize) {
        self.cache.forget(memory, self.lines, self.live, k);
        self.live = self.live.wrapping_sub(k);
    }

    // What an accepted call changes.
    fn change(&mut self, memory: &mut [u32], call: Call) {
        match call.kind {
            Kind::Reset => self.reset(memory, call),
            Kind::Write => self.write(memory, call),
            Kind::Read => self.cache.used(call.b as usize / 16),
            Kind::Mark => self.mark(memory),
            Kind::Rollback => self.rollback(memory, call.a as usize),
            Kind::Advance => self.advance(memory, call.a as usize),
            Kind::Line | Kind::Counts | Kind::Check | Kind::Block => {}
        }
    }

    // The value and the origin of an accepted READ.
    fn reading(&self, memory: &[u32], width: usize, address: usize) -> Said {
        let line = address / 16;
        let newest = memory::newest(memory, self.lines, self.live, line);
        let cached = newest != Origin::Empty && self.cache.entry_of(line).is_some();
        Said::Read {
            value: memory::value(memory, self.lines, self.live, width, address),
            origin: if cached { Origin::Cache } else { newest },
        }
    }

    // The bytes of an accepted LINE.
    fn line(&self, memory: &[u32], line: usize) -> Said {
        let at = memory::place(self.lines, self.live, line);
        Said::Line {
            first: memory::pair(memory, at, 0),
            second: memory::pair(memory, at, 2),
            length: 16,
        }
    }

    // What an accepted call answers.
    fn told(&self, memory: &[u32], call: Call) -> Said {
        match call.kind {
            Kind::Read => self.reading(memory, call.a as usize, call.b as usize),
            Kind::Line => self.line(memory, call.a as usize),
            Kind::Counts => Said::Counts {
                live: self.live,
                pages: memory::needed(memory, self.lines, self.live),
            },
            Kind::Check => Said::Check(true),
            kind => Said::refused(kind),
        }
    }

    // A call, where pieces of these lengths are lent; of a block no item is tried.
    fn single(&mut self, memory: &mut [u32], call: Call, lent: Lengths) -> Answer {
        let outcome = refusals::admit(memory, self, call, lent);
        if outcome.is_err() {
            self.full = self.full || outcome == Err(Refusal::Pool);
            let said = Said::refused(call.kind);
            return Answer { outcome, said };
        }
        let said = self.told(memory, call);
        self.change(memory, call);
        Answer { outcome, said }
    }

    // A call, beside the answers that the store gave to the items of a block. Refused as a whole it has none that are tried.
    pub fn step(
        &mut self,
        memory: &mut [u32],
        call: Call,
        items: &[u32],
        answers: &[u32; 256],
        lent: Lengths,
    ) -> Answer {
        let mut answer = self.single(memory, call, lent);
        if call.kind == Kind::Block {
            let count = match answer.outcome {
                Ok(()) => call.a as usize,
                Err(_) => 0,
            };
            let tried = items::try_all(memory, self, items, answers, count, lent);
            answer.said = Said::Block(tried);
        }
        answer
    }
}
