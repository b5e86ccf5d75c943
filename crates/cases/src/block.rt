// A block on the store, and its items one by one on the same store in a second set of memory: what they answer and leave is compared.
use crate::subject::{Told, outcome_of};
use choices::items::answers_lent;
use copies::{Answer, Call, Said, Tried, pieces};
use store::{Registers, State};

// The bits in which the registers of two states differ: 0 where all is the same.
fn registers_apart(a: Registers, b: Registers) -> u32 {
    let sizes = (a.lines ^ b.lines) | (a.frames ^ b.frames) | (a.pages ^ b.pages);
    let marks = (a.cmf ^ b.cmf) | (a.omf ^ b.omf) | (a.tag ^ b.tag);
    sizes | marks | (a.first ^ b.first) | (a.used ^ b.used)
}

// The same of two states.
fn states_apart(a: &State, b: &State) -> u32 {
    let words = pieces::apart(&a.cache.held, &b.cache.held);
    let halves = pieces::apart(&a.cache.origins, &b.cache.origins);
    let flags = pieces::apart(&a.cache.valid, &b.cache.valid);
    let last = pieces::apart(&a.cache.last, &b.cache.last);
    let bytes = pieces::apart(&a.cache.bytes, &b.cache.bytes);
    registers_apart(a.registers, b.registers) | words | halves | flags | last | bytes
}

// A second set of the pieces that a WRITE changes.
#[derive(Drop)]
struct Second {
    pool: [u8; pieces::POOL],
    groups: [u32; pieces::GROUPS],
    table: [u16; pieces::TABLE],
    owners: [u32; pieces::OWNERS],
}

impl Second {
    // Takes the contents of the first set.
    fn copy(&mut self, pool: &[u8], groups: &[u32], table: &[u16], owners: &[u32]) {
        pieces::put(&mut self.pool, pool);
        pieces::put(&mut self.groups, groups);
        pieces::put(&mut self.table, table);
        pieces::put(&mut self.owners, owners);
    }

    // The bits in which the sets differ.
    fn apart(&self, pool: &[u8], groups: &[u32], table: &[u16], owners: &[u32]) -> u32 {
        pieces::apart(pool, &self.pool)
            | pieces::apart(groups, &self.groups)
            | pieces::apart(table, &self.table)
            | pieces::apart(owners, &self.owners)
    }

    // The items one after the other, each a WRITE of its own: the state that they leave, how many were accepted, and how many got another answer
    // than in the block.
    fn singly(
        &mut self,
        state: State,
        archive: &[u8],
        history: &[u16],
        items: &[u32],
        answers: &[u32],
    ) -> (State, Tried) {
        let mut after = state;
        let mut tried = Tried::default();
        for (item, answer) in items.chunks_exact(3).zip(answers) {
            if let [width, address, value] = *item {
                let made = store::write(
                    &mut after,
                    archive,
                    &mut self.pool,
                    &mut self.groups,
                    &mut self.table,
                    &mut self.owners,
                    history,
                    width,
                    address,
                    value,
                );
                tried.count(store::refusal_number(&made), *answer, 1);
            }
        }
        (after, tried)
    }
}

// The block, and its items on a second set of memory with the same contents; archive and history are lent to both, for reading alone. Of a
// block that was refused no item is sent singly.
pub fn call(
    state: State,
    archive: &[u8],
    pool: &mut [u8],
    groups: &mut [u32],
    table: &mut [u16],
    owners: &mut [u32],
    history: &[u16],
    items: &[u32],
    call: Call,
    answers: &mut [u32; 256],
) -> Told {
    let mut second = Second {
        pool: pieces::room(0),
        groups: pieces::room(0),
        table: pieces::room(0),
        owners: pieces::room(0),
    };
    second.copy(pool, groups, table, owners);
    let m = answers_lent(call);
    let lent = &mut answers[..m];
    let mut after = state;
    let made = store::write_block(
        &mut after, archive, pool, groups, table, owners, history, items, lent,
    );
    let outcome = outcome_of(&made);
    let sent = if outcome.is_ok() { items } else { &[] };
    let (other, mut tried) = second.singly(state, archive, history, sent, answers);
    tried.apart = states_apart(&after, &other) | second.apart(pool, groups, table, owners);
    Told {
        state: after,
        answer: Answer {
            outcome,
            said: Said::Block(tried),
        },
    }
}
