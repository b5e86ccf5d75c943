// Runs the document's cases at the edges and long pseudo-random runs on the store beside a second plain store, and compares every answer.
#![tactic(auto)]

mod block;
mod subject;
mod tally;

use choices::asked::Asked;
use choices::choice::Run;
use choices::counts::Tally;
use choices::rows::{Turn, Word};
use choices::{choice, items, rows};
use copies::{Answer, Call, Kind, Plain, pieces};
use std::io::{ErrorKind, Read as _};
use store::State;

// Both stores, where the rows and the run are, and the counts.
#[derive(Drop)]
struct Game {
    state: State,
    plain: Plain,
    run: Run,
    tally: Tally,
}

// The memory that is lent, as much as the largest settings need.
#[derive(Drop)]
struct Memory {
    archive: [u8; pieces::ARCHIVE],
    pool: [u8; pieces::POOL],
    groups: [u32; pieces::GROUPS],
    table: [u16; pieces::TABLE],
    owners: [u32; pieces::OWNERS],
    history: [u16; pieces::HISTORY],
}

// Prints a row but for its line feed.
fn print_row(rt: &impl Print, script: &[u8], at: usize, next: usize) {
    if let Some(row) = script.get(at..next.wrapping_sub(1)) {
        let _ = rt.write_all(row);
    }
}

// What comes next, of the run or of the rows, by the numbers of the plain store.
fn next(rt: &impl Print, run: &mut Run, script: &[u8], plain: &Plain) -> Turn {
    if 0 < run.left {
        let asked = choice::chosen(*run, plain);
        run.left = run.left - 1;
        run.seed = choice::next(run.seed);
        return Turn::Call(asked);
    }
    let row = rows::row_at(script, run.place);
    if row.word != Word::End {
        print_row(rt, script, run.place, row.next);
    }
    row.turn(script, run)
}

// What is printed behind a call: the answer to a row, the differences behind a run.
fn print_end(rt: &impl Print, before: usize, left: usize, answer: Answer, tally: &Tally) {
    if 0 < left {
        return;
    }
    let _ = if before == 1 {
        println!(rt; ": differences {}", tally.differences)
    } else {
        println!(rt; ": {answer}")
    };
}

// The answers that were lent to a block.
fn print_answers(rt: &impl Print, answers: &[u32]) {
    let _ = print!(rt; ", answers");
    for answer in answers {
        let _ = print!(rt; " {answer}");
    }
}

// The call is counted, and what is to be seen of it printed: the answers to a block of the rows, and a difference if it is one of the first.
fn judge(
    rt: &impl Print,
    game: &mut Game,
    call: Call,
    run: Run,
    answers: &[u32; 256],
    state: State,
    store: Answer,
    plain: Answer,
) {
    if call.kind == Kind::Block {
        if run.left == 0 {
            let lent = items::answers_lent(call);
            print_answers(rt, &answers[..lent]);
        }
        game.tally.block(plain.outcome, call, answers);
    }
    if store != plain && game.tally.differences < 6 {
        tally::print_difference(rt, call, store, plain);
    }
    let turned = state.registers.cmf < game.state.registers.cmf;
    let swept = state.registers.tag == 0;
    game.tally.judge(call.kind, turned, swept, store, plain);
}

// A call on both stores.
fn step(
    rt: &impl Print,
    game: &mut Game,
    memory: &mut Memory,
    copies: &mut [u32],
    script: &[u8],
    asked: Asked,
    run: Run,
) {
    let call = asked.call;
    let list = items::list(call, script, run, game.plain.lines);
    let n = items::numbers(call);
    let items = &list[..n];
    let mut answers: [u32; 256] = pieces::room(pieces::UNANSWERED);
    let (told, lent) = subject::call(
        game.state,
        &mut memory.archive,
        &mut memory.pool,
        &mut memory.groups,
        &mut memory.table,
        &mut memory.owners,
        &mut memory.history,
        items,
        asked,
        &game.plain,
        &mut answers,
    );
    let expected = game.plain.step(copies, call, items, &answers, lent);
    let state = subject::kept(game.state, call, told);
    judge(rt, game, call, run, &answers, state, told.answer, expected);
    game.state = state;
    print_end(rt, run.left, game.run.left, told.answer, &game.tally);
}

// All calls of all rows and runs, one after the other, on both stores.
fn play(rt: &impl Print, game: &mut Game, memory: &mut Memory, copies: &mut [u32], script: &[u8]) {
    for _ in 0..10000000u32 {
        let run = game.run;
        match next(rt, &mut game.run, script, &game.plain) {
            Turn::Call(asked) => step(rt, game, memory, copies, script, asked, run),
            Turn::Note => {
                let _ = println!(rt);
            }
            Turn::End => return,
        }
    }
}

// Reads until the buffer is full, the input ends or a read fails. A read that a signal interrupted is tried again.
fn read_script(rt: &impl Input, script: &mut [u8]) {
    let mut reader = rt.reader();
    let mut rest = script;
    for _ in 0..u64::MAX {
        if rest.is_empty() {
            return;
        }
        match reader.read(rest) {
            Ok(0) => return,
            Ok(n) => rest = &mut rest[n..],
            Err(error) if error.kind() == ErrorKind::Interrupted => {}
            Err(_) => return,
        }
    }
}

// Memory for the largest settings, and for the copies. The rows come on standard input.
fn main(rt: HostRuntime) {
    let mut memory = Memory {
        archive: pieces::room(0),
        pool: pieces::room(0),
        groups: pieces::room(0),
        table: pieces::room(0),
        owners: pieces::room(0),
        history: pieces::room(0),
    };
    let mut copies: [u32; copies::ROOM] = pieces::room(0);
    let mut script = [0u8; 65536];
    read_script(&rt, &mut script);
    let mut game = Game {
        state: store::blank(),
        plain: Plain::default(),
        run: Run::default(),
        tally: Tally::default(),
    };
    play(&rt, &mut game, &mut memory, &mut copies, &script);
    tally::print_all(&rt, &game.tally, &game.plain);
}
