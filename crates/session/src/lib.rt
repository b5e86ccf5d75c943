// A session: its lines in, their answers out, over the store's promises.
#![tactic(auto)]

ghost use Rattle.std.specs.Prelude.{◌≡◌, [], ◌≤◌, length};
ghost use Rattle.records.specs.Records.{parsed};
ghost use Rattle.records.specs.Shown.{shown_parsed};
ghost use Rattle.store.specs.Shown.{Lent};
ghost use Rattle.store.specs.Memory.{lent_in, SamePieces};
ghost use Rattle.session.specs.Transcript.{beginning, is_other};
ghost use Rattle.session.specs.Running.{StandsFor, Taken, Finishes};
ghost use Rattle.session.specs.Between.{early, admitted, started_after, desk_in, Lines, NoneLeft, Rested};

use records::{Record, Refusal, Word};
use replies::{LONGEST, LONGEST_END, Shown};
use store::{Memory, State};
use tally::Tally;
use text::Reader;

// The runner between two bytes of its input: the store's state and whether a reset was accepted, the tally, and the line that is not whole yet.
#[derive(Clone, Copy)]
pub struct Runner {
    pub state: State,
    pub started: bool,
    pub tally: Tally,
    pub reader: Reader,
}

// The runner after some bytes of input, how many they were, and how many bytes of output it put.
#[derive(Clone, Copy)]
pub struct Fed {
    pub runner: Runner,
    pub used: usize,
    pub filled: usize,
}

// The runner before its first line.
pub fn start() -> Runner
    ensures { (lent : Lent) → StandsFor result lent beginning [] }
{
    let state = store::blank();
    let tally = Tally { oks: 0, noes: 0 };
    let reader = text::no_line();
    Runner {
        state,
        started: false,
        tally,
        reader,
    }
}

// Whether a word is another than `reset`.
#[tactic(auto, unfolding(crate::specs::Transcript::is_other))]
fn is_other(word: Word) -> bool
    ensures { result ≡ is_other word }
{
    !matches!(word, Word::Reset)
}

// Whether a word is another than `reset`, before the first accepted reset.
#[tactic(auto, unfolding(crate::specs::Between::early))]
fn is_early(started: bool, word: Word) -> bool
    ensures { result ≡ early started word }
{
    !started && is_other(word)
}

// What a line asks for, or its refusal of 1 to 3.
fn ask(started: bool, line: &[u8]) -> Result<Record, Refusal>
    ensures { shown_parsed result ≡ admitted started (parsed line.now) }
{
    let entry = records::parse(line)?;
    if is_early(started, entry.word) {
        return Err(Refusal::Early);
    }
    Ok(entry)
}

// Whether a reset was accepted, now that a record got a refusal or 0. (Any number, as `started_after` takes it.)
#[tactic(auto, unfolding(crate::specs::Between::started_after))]
fn has_started(started: bool, refusal: u32) -> bool
    ensures { result ≡ started_after started refusal }
{
    started || refusal == 0
}

// Answers the lines that end in a text from a place on, while the output, from `at` on, has room for the longest answer. The runner's line that is
// not whole yet is let be.
fn answer_lines(
    before: Runner,
    memory: &mut Memory,
    chunk: &[u8],
    from: usize,
    out: &mut [u8],
    at: usize,
) -> Fed
    requires { (from ≤ length chunk.now) × (at ≤ length out.old) }
    ensures pieces { SamePieces memory.old memory.new }
    ensures lines { Lines
        (desk_in before (lent_in memory.old))
        chunk.now from out.old at
        (desk_in result.runner (lent_in memory.new))
        out.new result.used result.filled
        × NoneLeft chunk.now (length out.old) result.used result.filled }
{
    // The same pieces in a value of this function, so that their places are not read anew for each line.
    let mut pieces = Memory {
        archive: &mut *memory.archive,
        pool: &mut *memory.pool,
        groups: &mut *memory.groups,
        table: &mut *memory.table,
        owners: &mut *memory.owners,
        history: &mut *memory.history,
    };
    let count = chunk.len();
    let room = out.len();
    let mut state = before.state;
    let mut started = before.started;
    let mut tally = before.tally;
    let mut used = from;
    let mut filled = at;
    // A while: an iterator over lines would yield the unfinished one too, and how far they were taken would still be counted beside it.
    while LONGEST <= room - filled {
        let end = text::part_end(chunk, used, 10);
        if count <= end {
            break;
        }
        if end <= used {
            used = end + 1;
            continue;
        }
        let entry = match ask(started, &chunk[used..end]) {
            Ok(entry) => entry,
            Err(refused) => {
                let turned = u32::from(refused);
                filled = replies::put_answer(out, filled, turned, Shown::Nothing);
                tally = tally::tallied(tally, turned);
                used = end + 1;
                continue;
            }
        };
        let reply = replies::call(state, &mut pieces, entry);
        let refusal = reply.refusal;
        let shown = reply.shown;
        state = reply.state;
        filled = replies::put_answer(out, filled, refusal, shown);
        tally = tally::tallied(tally, refusal);
        started = has_started(started, refusal);
        used = end + 1;
    }
    Fed {
        runner: Runner {
            state,
            started,
            tally,
            ..before
        },
        used,
        filled,
    }
}

// Answers the lines that end in a chunk from a place on, and keeps what is left of it, if there is room.
fn feed_rest(
    before: Runner,
    memory: &mut Memory,
    chunk: &[u8],
    from: usize,
    out: &mut [u8],
    at: usize,
) -> Fed
    requires { (from ≤ length chunk.now) × (at ≤ length out.old) }
    ensures pieces { SamePieces memory.old memory.new }
    ensures rested { Rested
        (desk_in before (lent_in memory.old))
        chunk.now from out.old at result.runner (lent_in memory.new)
        out.new result.used result.filled }
{
    let room = out.len();
    let lines = answer_lines(before, memory, chunk, from, out, at);
    let runner = lines.runner;
    let none = text::no_line();
    if room - lines.filled < LONGEST {
        return Fed {
            runner: Runner {
                reader: none,
                ..runner
            },
            ..lines
        };
    }
    let reader = text::keep(none, &chunk[lines.used..]);
    Fed {
        runner: Runner { reader, ..runner },
        used: chunk.len(),
        ..lines
    }
}

// Takes bytes of input while the output has room for the longest answer, and puts there what the runner says to them.
pub fn feed(runner: Runner, memory: &mut Memory, chunk: &[u8], out: &mut [u8]) -> Fed
    ensures pieces { SamePieces memory.old memory.new }
    ensures taken { Taken runner (lent_in memory.old) chunk.now out.old result.runner (lent_in memory.new) out.new result.used result.filled }
{
    if out.len() < LONGEST {
        return Fed {
            runner,
            used: 0,
            filled: 0,
        };
    }
    let reader = runner.reader;
    if reader.count == 0 {
        return feed_rest(runner, memory, chunk, 0, out, 0);
    }
    let end = text::part_end(chunk, 0, 10);
    let whole = text::keep(reader, &chunk[..end]);
    if chunk.len() <= end {
        return Fed {
            runner: Runner {
                reader: whole,
                ..runner
            },
            used: end,
            filled: 0,
        };
    }
    let line = text::ended(whole);
    let kept = line.kept;
    let first = answer_lines(runner, memory, &kept[..line.count], 0, out, 0);
    let after = first.runner;
    feed_rest(after, memory, chunk, end + 1, out, first.filled)
}

// The end of input: puts the answer to a last line without its line feed, and the tally. With less room than the longest of both nothing is
// done.
pub fn finish(runner: Runner, memory: &mut Memory, out: &mut [u8]) -> usize
    ensures pieces { SamePieces memory.old memory.new }
    ensures finished { Finishes runner (lent_in memory.old) out.old (lent_in memory.new) out.new result }
{
    let room = out.len();
    if room < LONGEST + LONGEST_END {
        return 0;
    }
    let line = text::ended(runner.reader);
    let kept = line.kept;
    let last = answer_lines(runner, memory, &kept[..line.count], 0, out, 0);
    let after = last.runner;
    let tally = after.tally;
    let filled = last.filled;
    if room - filled < LONGEST_END {
        return filled;
    }
    replies::put_end(out, filled, tally.oks, tally.noes)
}
