// A record's call, and its answer as text.
#![tactic(auto)]

ghost use Rattle.std.specs.Prelude.{◌≡◌, ◌∷◌, ◌+◌, ◌≤◌, length};
ghost use Rattle.text.specs.Numbers.{decimal};
ghost use Rattle.text.specs.Output.{Puts};
ghost use Rattle.rules.specs.Call.Answer.{outcome, reading};
ghost use Rattle.rules.specs.Refusals.{refusal_in};
ghost use Rattle.records.specs.Shown.{numbers_of};
ghost use Rattle.store.specs.Shown.{shown_origin, value_in, origin_in, counts_in, kept, Promises};
ghost use Rattle.store.specs.Memory.{lent_in, SamePieces};
ghost use Rattle.replies.specs.Calls.{call_of};
ghost use Rattle.replies.specs.Answers.{origin_text, values_text, answer_line, end_line, longest, longest_end};
ghost use Rattle.replies.specs.Lines.{answer_of};

use records::{Record, Word};
use store::{Counted, Memory, Origin, Reading, Refusal, State};

// What stands behind `ok`.
#[derive(Clone, Copy)]
pub enum Shown {
    Nothing,
    Read(u32, Origin),
    Counts(u32, u32),
}

// Puts a tab and a number.
fn put_number(out: &mut [u8], at: usize, n: u64) -> usize
    requires { at + 21 ≤ length out.old }
    ensures { Puts out.old at (9 ∷ decimal n) out.new result }
{
    let behind = text::put(out, at, b"\t");
    text::put_decimal(out, behind, n)
}

// Puts a tab and an origin.
fn put_origin(out: &mut [u8], at: usize, origin: Origin) -> usize
    requires { at + 21 ≤ length out.old }
    ensures { Puts out.old at (9 ∷ origin_text (shown_origin origin)) out.new result }
{
    match origin {
        Origin::Cache => text::put(out, at, b"\tc"),
        Origin::Frame(back) => put_number(out, at, back as u64),
        Origin::Archive => text::put(out, at, b"\ta"),
        Origin::Empty => text::put(out, at, b"\te"),
    }
}

// Puts the fields behind `ok`.
fn put_shown(out: &mut [u8], at: usize, shown: Shown) -> usize
    requires { at + 42 ≤ length out.old }
    ensures { Puts out.old at (values_text (answer_of 0 shown)) out.new result }
{
    match shown {
        Shown::Nothing => at,
        Shown::Read(value, origin) => {
            let behind = put_number(out, at, value as u64);
            put_origin(out, behind, origin)
        }
        Shown::Counts(live, pages) => {
            let behind = put_number(out, at, live as u64);
            put_number(out, behind, pages as u64)
        }
    }
}

// The longest answer to a line.
pub const LONGEST: usize = 64;

// The longest line of the tally.
pub const LONGEST_END: usize = 64;

// Puts an answer line. (Any number may be the refusal, as `answer_of` has it; an enum would ask more of callers.)
pub fn put_answer(out: &mut [u8], at: usize, refusal: u32, shown: Shown) -> usize
    requires { at + longest ≤ length out.old }
    ensures { Puts out.old at (answer_line (answer_of refusal shown)) out.new result }
{
    if refusal != 0 {
        let word = text::put(out, at, b"no");
        let behind = put_number(out, word, refusal as u64);
        return text::put(out, behind, b"\n");
    }
    let word = text::put(out, at, b"ok");
    let behind = put_shown(out, word, shown);
    text::put(out, behind, b"\n")
}

// Puts the line of the tally, which is printed last.
pub fn put_end(out: &mut [u8], at: usize, oks: u64, noes: u64) -> usize
    requires { at + longest_end ≤ length out.old }
    ensures { Puts out.old at (end_line oks noes) out.new result }
{
    let word = text::put(out, at, b"end");
    let first = put_number(out, word, oks);
    let second = put_number(out, first, noes);
    text::put(out, second, b"\n")
}

// What a call gave: the state, the refusal or 0, and what an answer line shows of it. The number stands beside the values, and in no Result with
// them: a refused READ or COUNTS has its values too, nought and the archive, and `Promises` names them.
#[derive(Clone, Copy)]
pub struct Reply {
    pub state: State,
    pub refusal: u32,
    pub shown: Shown,
}

// What a call gave that has no values.
fn outcome_reply(state: State, done: Result<(), Refusal>) -> Reply
    ensures { (result.state ≡ state) × (answer_of result.refusal result.shown ≡ outcome (refusal_in done)) }
{
    Reply {
        state,
        refusal: store::refusal_number(&done),
        shown: Shown::Nothing,
    }
}

// What READ gave; refused, its value is nought and its origin the archive.
fn read_reply(state: State, done: Result<Reading, Refusal>) -> Reply
    ensures { (result.state ≡ state) × (answer_of result.refusal result.shown ≡ reading (refusal_in done) (value_in done) (origin_in done)) }
{
    let refusal = store::refusal_number(&done);
    let shown = match done {
        Ok(got) => Shown::Read(got.value, got.origin),
        Err(_) => Shown::Read(0, Origin::Archive),
    };
    Reply {
        state,
        refusal,
        shown,
    }
}

// What COUNTS gave; refused, both numbers are nought.
fn counts_reply(state: State, done: Result<Counted, Refusal>) -> Reply
    ensures { (result.state ≡ state) × (answer_of result.refusal result.shown ≡ counts_in done) }
{
    let refusal = store::refusal_number(&done);
    let shown = match done {
        Ok(got) => Shown::Counts(got.live, got.pages),
        Err(_) => Shown::Counts(0, 0),
    };
    Reply {
        state,
        refusal,
        shown,
    }
}

// The call that a record asks for.
pub fn call(mut state: State, memory: &mut Memory, asked: Record) -> Reply
    ensures pieces { SamePieces memory.old memory.new }
    ensures promise { Promises (call_of asked.word (numbers_of asked))
        (kept state (lent_in memory.old))
        (answer_of result.refusal result.shown)
        (kept result.state (lent_in memory.new)) }
{
    let archive = &mut *memory.archive;
    let pool = &mut *memory.pool;
    let groups = &mut *memory.groups;
    let table = &mut *memory.table;
    let owners = &mut *memory.owners;
    let history = &mut *memory.history;
    let first = records::number(asked, 0);
    let second = records::number(asked, 1);
    let third = records::number(asked, 2);
    let word = asked.word;
    match word {
        Word::Reset => {
            let done = store::reset(
                &mut state, archive, pool, groups, table, owners, history, first, second, third,
            );
            outcome_reply(state, done)
        }
        Word::Read => {
            let read = store::read(
                &mut state, archive, pool, groups, table, owners, history, first, second,
            );
            read_reply(state, read)
        }
        Word::Write => {
            let done = store::write(
                &mut state, archive, pool, groups, table, owners, history, first, second, third,
            );
            outcome_reply(state, done)
        }
        Word::Mark => {
            let done = store::mark(&mut state, archive, pool, groups, table, owners, history);
            outcome_reply(state, done)
        }
        Word::Back => {
            let done = store::rollback(
                &mut state, archive, pool, groups, table, owners, history, first,
            );
            outcome_reply(state, done)
        }
        Word::Advance => {
            let done = store::advance(
                &mut state, archive, pool, groups, table, owners, history, first,
            );
            outcome_reply(state, done)
        }
        Word::Counts => {
            let counts = store::counts(&state, archive, pool, groups, table, owners, history);
            counts_reply(state, counts)
        }
    }
}
