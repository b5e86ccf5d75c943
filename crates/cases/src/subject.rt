// The store under test: the memory and the state are lent as asked for, the call is made, and its answer is written down.
ghost use Rattle.std.specs.Prelude.{◌≤◌};

use crate::block;
use choices::asked::Asked;
use copies::{Answer, Call, Kind, Lengths, Plain, Refusal, Said};
use store::{Origin, State};

// The state after a call, and its answer.
#[derive(Clone, Copy)]
pub struct Told {
    pub state: State,
    pub answer: Answer,
}

// What a call of the store came to, as the second store names it.
pub fn outcome_of<T>(made: &Result<T, store::Refusal>) -> Result<(), Refusal> {
    match made {
        Ok(_) => Ok(()),
        Err(refusal) => Err(Refusal::from(u32::from(*refusal))),
    }
}

fn origin_of(origin: Origin) -> copies::Origin {
    match origin {
        Origin::Cache => copies::Origin::Cache,
        Origin::Frame(back) => copies::Origin::Frame(back as usize),
        Origin::Archive => copies::Origin::Archive,
        Origin::Empty => copies::Origin::Empty,
    }
}

// The number that up to 8 bytes of a lent line make.
fn number(line: &[u8], from: usize) -> usize {
    line.iter()
        .skip(from)
        .take(8)
        .fold(0, |n, byte| (n << 8) | usize::from(*byte))
}

// LINE: the part that it lends, and the refusal that its companion gives on the same arguments.
fn line(
    state: State,
    archive: &[u8],
    pool: &[u8],
    groups: &[u32],
    table: &[u16],
    owners: &[u32],
    history: &[u16],
    line: u32,
) -> Told {
    let made = store::line_refusal(&state, archive, pool, groups, table, owners, history, line);
    let lent = store::line(&state, archive, pool, groups, table, owners, history, line);
    let said = Said::Line {
        first: number(lent, 0),
        second: number(lent, 8),
        length: lent.len(),
    };
    let outcome = outcome_of(&made);
    Told {
        state,
        answer: Answer { outcome, said },
    }
}

fn read(
    mut state: State,
    archive: &[u8],
    pool: &[u8],
    groups: &[u32],
    table: &[u16],
    owners: &[u32],
    history: &[u16],
    call: Call,
) -> Told {
    let made = store::read(
        &mut state, archive, pool, groups, table, owners, history, call.a, call.b,
    );
    let outcome = outcome_of(&made);
    match made {
        Ok(got) => Told {
            state,
            answer: Answer {
                outcome,
                said: Said::Read {
                    value: got.value as usize,
                    origin: origin_of(got.origin),
                },
            },
        },
        Err(_) => Told {
            state,
            answer: Answer {
                outcome,
                said: Said::refused(Kind::Read),
            },
        },
    }
}

fn counts(
    state: State,
    archive: &[u8],
    pool: &[u8],
    groups: &[u32],
    table: &[u16],
    owners: &[u32],
    history: &[u16],
) -> Told {
    let made = store::counts(&state, archive, pool, groups, table, owners, history);
    let outcome = outcome_of(&made);
    let said = match made {
        Ok(got) => Said::Counts {
            live: got.live as usize,
            pages: got.pages as usize,
        },
        Err(_) => Said::refused(Kind::Counts),
    };
    Told {
        state,
        answer: Answer { outcome, said },
    }
}

fn check(
    state: State,
    archive: &[u8],
    pool: &[u8],
    groups: &[u32],
    table: &[u16],
    owners: &[u32],
    history: &[u16],
) -> Told {
    let made = store::check(&state, archive, pool, groups, table, owners, history);
    let outcome = outcome_of(&made);
    let said = Said::Check(made.unwrap_or(false));
    Told {
        state,
        answer: Answer { outcome, said },
    }
}

// A call that gives no more than the state.
fn change(
    state: &mut State,
    archive: &mut [u8],
    pool: &mut [u8],
    groups: &mut [u32],
    table: &mut [u16],
    owners: &mut [u32],
    history: &mut [u16],
    call: Call,
) -> Result<(), store::Refusal> {
    match call.kind {
        Kind::Reset => store::reset(
            state, archive, pool, groups, table, owners, history, call.a, call.b, call.c,
        ),
        Kind::Write => store::write(
            state, archive, pool, groups, table, owners, history, call.a, call.b, call.c,
        ),
        Kind::Mark => store::mark(state, archive, pool, groups, table, owners, history),
        Kind::Rollback => {
            store::rollback(state, archive, pool, groups, table, owners, history, call.a)
        }
        _ => store::advance(state, archive, pool, groups, table, owners, history, call.a),
    }
}

// The call, on what is lent.
fn made(
    mut state: State,
    archive: &mut [u8],
    pool: &mut [u8],
    groups: &mut [u32],
    table: &mut [u16],
    owners: &mut [u32],
    history: &mut [u16],
    items: &[u32],
    call: Call,
    answers: &mut [u32; 256],
) -> Told {
    match call.kind {
        Kind::Read => read(state, archive, pool, groups, table, owners, history, call),
        Kind::Line => line(state, archive, pool, groups, table, owners, history, call.a),
        Kind::Counts => counts(state, archive, pool, groups, table, owners, history),
        Kind::Check => check(state, archive, pool, groups, table, owners, history),
        Kind::Block => block::call(
            state, archive, pool, groups, table, owners, history, items, call, answers,
        ),
        _ => {
            let made = change(
                &mut state, archive, pool, groups, table, owners, history, call,
            );
            let outcome = outcome_of(&made);
            Told {
                state,
                answer: Answer {
                    outcome,
                    said: Said::Nothing,
                },
            }
        }
    }
}

// So much of each piece, as far as there is so much.
fn fitting(have: Lengths, want: Lengths) -> Lengths
    ensures { (result.archive ≤ have.archive) × (result.pool ≤ have.pool) × (result.groups ≤ have.groups) × (result.table ≤ have.table) × (result.owners ≤ have.owners) × (result.history ≤ have.history) }
{
    Lengths {
        archive: want.archive.min(have.archive),
        pool: want.pool.min(have.pool),
        groups: want.groups.min(have.groups),
        table: want.table.min(have.table),
        owners: want.owners.min(have.owners),
        history: want.history.min(have.history),
    }
}

// The state that a call is made on.
fn given(state: State, call: Call) -> State {
    if call.blank { store::blank() } else { state }
}

// The state after a call; made on the blank state, a refused call leaves the store's as it was.
pub fn kept(before: State, call: Call, told: Told) -> State {
    if call.blank && told.answer.outcome.is_err() {
        return before;
    }
    told.state
}

// A call on the store, with so much of each piece lent as is asked for by the plain store's settings; and how much that was. What is put into
// the answers are those to the items of a block.
pub fn call(
    state: State,
    archive: &mut [u8],
    pool: &mut [u8],
    groups: &mut [u32],
    table: &mut [u16],
    owners: &mut [u32],
    history: &mut [u16],
    items: &[u32],
    asked: Asked,
    plain: &Plain,
    answers: &mut [u32; 256],
) -> (Told, Lengths) {
    let have = Lengths {
        archive: archive.len(),
        pool: pool.len(),
        groups: groups.len(),
        table: table.len(),
        owners: owners.len(),
        history: history.len(),
    };
    let lent = fitting(have, asked.lengths(plain));
    let told = made(
        given(state, asked.call),
        &mut archive[..lent.archive],
        &mut pool[..lent.pool],
        &mut groups[..lent.groups],
        &mut table[..lent.table],
        &mut owners[..lent.owners],
        &mut history[..lent.history],
        items,
        asked.call,
        answers,
    );
    (told, lent)
}
