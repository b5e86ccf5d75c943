// A client of the store: it uses the store's calls alone, and its contract speaks of the plain store alone.
#![tactic(auto)]

ghost use Rattle.std.specs.Prelude.{◌≡◌, [], ◌∷◌};
ghost use Rattle.rules.specs.Sizing.{settings_of};
ghost use Rattle.rules.specs.Call.Answer.{outcome, reading};
ghost use Rattle.rules.specs.Call.Change.{WRITE, MARK, ROLLBACK};
ghost use Rattle.rules.specs.Call.Act.{READ, CHANGE};
ghost use Rattle.rules.specs.Call.Call.{ON};
ghost use Rattle.rules.specs.Refusal.{asked_refusal};
ghost use Rattle.rules.specs.Plain.{answers_from, fresh_model};
ghost use Rattle.rules.specs.Refusals.{refusal_in};
ghost use Rattle.store.specs.Shown.{lengths_of, value_in, origin_in};
ghost use Rattle.store.specs.Memory.{lent_in, SamePieces};

use store::{Memory, Reading, Refusal, State};

// What a trial's calls gave, one after the other, and the state that they left.
#[derive(Clone, Copy)]
pub struct Trial {
    pub state: State,
    pub reset: Result<(), Refusal>,
    pub before: Result<(), Refusal>,
    pub mark: Result<(), Refusal>,
    pub after: Result<(), Refusal>,
    pub back: Result<(), Refusal>,
    pub read: Result<Reading, Refusal>,
}

// Writes a value to an empty store, marks it, writes another one over it, takes that back and reads: what was taken back is gone.
pub fn take_back(
    state: State,
    memory: &mut Memory,
    lines: u32,
    frames: u32,
    pages: u32,
    address: u32,
    first: u32,
    second: u32,
) -> Trial
    ensures pieces { SamePieces memory.old memory.new }
    ensures lengths { lengths_of (lent_in memory.new) ≡ lengths_of (lent_in memory.old) }
    ensures answers { (refusal_in result.reset ≡ asked_refusal (lengths_of (lent_in memory.old)) (settings_of lines frames pages))
        × (refusal_in result.reset ≡ 0
        → (outcome (refusal_in result.before) ∷ outcome (refusal_in result.mark) ∷ outcome (refusal_in result.after) ∷ outcome (refusal_in result.back)
        ∷ reading (refusal_in result.read) (value_in result.read) (origin_in result.read) ∷ [])
        ≡ answers_from (lengths_of (lent_in memory.old))
        (fresh_model (settings_of lines frames pages))
        (ON (CHANGE (WRITE 4 address first)) ∷ ON (CHANGE MARK) ∷ ON (CHANGE (WRITE 4 address second)) ∷ ON (CHANGE (ROLLBACK 1)) ∷ ON (READ 4 address) ∷ []))
        × (refusal_in result.reset ≡ 0 → refusal_in result.before ≡ 0 → refusal_in result.mark ≡ 0 → refusal_in result.after ≡ 0 → refusal_in result.back ≡ 0
        → refusal_in result.read ≡ 0 → value_in result.read ≡ first) }
{
    let archive = &mut *memory.archive;
    let pool = &mut *memory.pool;
    let groups = &mut *memory.groups;
    let table = &mut *memory.table;
    let owners = &mut *memory.owners;
    let history = &mut *memory.history;
    let mut s = state;
    let reset = store::reset(
        &mut s, archive, pool, groups, table, owners, history, lines, frames, pages,
    );
    let before = store::write(
        &mut s, archive, pool, groups, table, owners, history, 4, address, first,
    );
    let mark = store::mark(&mut s, archive, pool, groups, table, owners, history);
    let after = store::write(
        &mut s, archive, pool, groups, table, owners, history, 4, address, second,
    );
    let back = store::rollback(&mut s, archive, pool, groups, table, owners, history, 1);
    let read = store::read(
        &mut s, archive, pool, groups, table, owners, history, 4, address,
    );
    Trial {
        state: s,
        reset,
        before,
        mark,
        after,
        back,
        read,
    }
}
