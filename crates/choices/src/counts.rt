// What was covered: calls by kind and answer, and differences.
use copies::{Answer, Call, Kind, Origin, Refusal, Said};

#[derive(Clone, Copy, Default)]
pub struct Tally {
    pub accepted: usize,
    // Calls and items of accepted blocks that were refused, by the refusal's number.
    pub refused: [usize; 15],
    pub refused_items: [usize; 15],
    // Calls by kind.
    pub kinds: [usize; 10],
    // Reads by origin; an empty line is one that no surviving write has touched.
    pub from_cache: usize,
    pub from_frame: usize,
    pub from_archive: usize,
    pub empty_lines: usize,
    // Accepted RESETs; marks where the circle turned; rollbacks where the tags ran out; CHECKs that answered yes.
    pub resets: usize,
    pub turns: usize,
    pub sweeps: usize,
    pub yes: usize,
    pub differences: usize,
    // The items of accepted blocks, those accepted, and those accepted behind one that got 13.
    pub items: usize,
    pub items_done: usize,
    pub behind: usize,
    // Accepted blocks of no items, with as many answers as items, with more; and blocks that got 5 and 6 with too few answers.
    pub empty_blocks: usize,
    pub equal_lists: usize,
    pub longer_lists: usize,
    pub blank_first: usize,
    pub short_first: usize,
}

fn bump(n: &mut usize) {
    *n = n.wrapping_add(1);
}

// One more in a place of a list.
fn bump_at(list: &mut [usize], at: usize) {
    if let Some(n) = list.get_mut(at) {
        bump(n);
    }
}

impl Tally {
    fn read_from(&mut self, origin: Origin) {
        match origin {
            Origin::Cache => bump(&mut self.from_cache),
            Origin::Frame(_) => bump(&mut self.from_frame),
            Origin::Archive => bump(&mut self.from_archive),
            Origin::Empty => bump(&mut self.empty_lines),
        }
    }

    // An accepted call; by the store's own registers, whether the circle turned or the tags ran out.
    fn accept(&mut self, kind: Kind, said: Said, turned: bool, swept: bool) {
        bump(&mut self.accepted);
        match said {
            Said::Read { origin, .. } => self.read_from(origin),
            Said::Check(true) => bump(&mut self.yes),
            _ => {}
        }
        match kind {
            Kind::Reset => bump(&mut self.resets),
            Kind::Mark if turned => bump(&mut self.turns),
            Kind::Rollback if swept => bump(&mut self.sweeps),
            _ => {}
        }
    }

    // A call is counted by the plain store's answer, and so is a difference of the two.
    pub fn judge(&mut self, kind: Kind, turned: bool, swept: bool, store: Answer, plain: Answer) {
        bump_at(&mut self.kinds, kind as usize);
        match plain.outcome {
            Ok(()) => self.accept(kind, plain.said, turned, swept),
            Err(refusal) => bump_at(&mut self.refused, refusal as usize),
        }
        if store != plain {
            bump(&mut self.differences);
        }
    }

    // The items of an accepted block are counted by their answers.
    fn count_items(&mut self, answers: &[u32]) {
        let mut full = false;
        for answer in answers {
            bump(&mut self.items);
            if *answer == 0 {
                bump(&mut self.items_done);
                if full {
                    bump(&mut self.behind);
                }
            } else {
                bump_at(&mut self.refused_items, *answer as usize);
            }
            full = full || *answer == 13;
        }
    }

    // A block is counted by its refusal, and how many items and answers it has.
    pub fn block(&mut self, outcome: Result<(), Refusal>, call: Call, answers: &[u32; 256]) {
        let too_few = call.b < call.a;
        match outcome {
            Ok(()) => {
                self.accept_block(call);
                let count = (call.a as usize).min(256);
                self.count_items(&answers[..count]);
            }
            Err(Refusal::Blank) if too_few => bump(&mut self.blank_first),
            Err(Refusal::Short) if too_few => bump(&mut self.short_first),
            Err(_) => {}
        }
    }

    fn accept_block(&mut self, call: Call) {
        if call.a == 0 {
            bump(&mut self.empty_blocks);
        }
        if call.a == call.b {
            bump(&mut self.equal_lists);
        }
        if call.a < call.b {
            bump(&mut self.longer_lists);
        }
    }
}
