// The pseudo-random choice of calls: the bits of one number are cut into fields for each.
ghost use Rattle.std.specs.Prelude.{◌≤◌};

use crate::asked::{Asked, Lent, PIECES, call};
use copies::{Kind, Plain};

// A run: settings, how many calls are left, every how many COUNTS and CHECK are asked, the seed; and of the rows the place, that of the list
// of items, and how the memory is lent to them.
#[derive(Clone, Copy, Default)]
pub struct Run {
    pub lines: usize,
    pub frames: usize,
    pub pages: usize,
    pub left: usize,
    pub every: usize,
    pub seed: usize,
    pub place: usize,
    pub list: usize,
    pub lent: Lent,
}

// The next seed.
pub fn next(seed: usize) -> usize {
    let a = seed ^ (seed << 13);
    let b = a ^ (a >> 7);
    b ^ (b << 17)
}

// A remainder, or 0 by 0.
fn rest(n: usize, by: usize) -> usize
    ensures { result ≤ n }
{
    n.checked_rem(by).unwrap_or(0)
}

// Of 64 calls, those below each number are marks, then rollbacks, then advances.
#[derive(Drop)]
struct Mix {
    marks: usize,
    backs: usize,
    advances: usize,
}

// In turn a bit of all, many marks, many rollbacks, many advances, and mostly reads and writes.
fn mix_in(phase: usize) -> Mix {
    let (marks, backs, advances) = match phase {
        0 => (10, 16, 20),
        1 => (34, 36, 36),
        2 => (20, 38, 38),
        3 => (14, 16, 27),
        _ => (6, 10, 11),
    };
    Mix {
        marks,
        backs,
        advances,
    }
}

// A kind of call that opens or closes no frame.
fn steady(n: usize) -> Kind {
    match n {
        0..=207 => Kind::Write,
        208..=219 => Kind::Block,
        220..=439 => Kind::Read,
        440..=491 => Kind::Line,
        492..=499 => Kind::Counts,
        500..=510 => Kind::Check,
        _ => Kind::Reset,
    }
}

// The kind of the next call. Where the copies have no more room, a frame is collected instead of one opened.
fn kind_of(seed: usize, phase: usize, full: bool) -> Kind {
    let mix = mix_in(phase);
    let n = seed % 64;
    if n < mix.marks {
        if full { Kind::Advance } else { Kind::Mark }
    } else if n < mix.backs {
        Kind::Rollback
    } else if n < mix.advances {
        Kind::Advance
    } else {
        steady((seed >> 6) % 512)
    }
}

// A line: one of four of a set, any, or near to others.
fn line(seed: usize, left: usize, lines: usize) -> usize {
    let hot = left / 300 % 100 * 37;
    let any = (seed >> 16) % 4096;
    match (seed >> 28) % 4 {
        0 => rest(hot % 16 + any % 4 * 16, lines),
        1 => rest(any, lines),
        _ => rest(hot + any % 24, lines),
    }
}

// A line number, now and then at the end of the memory or past it.
fn line_number(seed: usize, left: usize, lines: usize) -> usize {
    match (seed >> 32) % 32 {
        0 => lines,
        1 => lines.wrapping_sub(1),
        2 => lines.wrapping_add(1),
        3 => 4294967295,
        _ => line(seed, left, lines),
    }
}

fn width(n: usize) -> usize {
    match n {
        0 => 0,
        1 => 3,
        2 => 8,
        3 => 4294967295,
        4..=20 => 1,
        21..=38 => 2,
        _ => 4,
    }
}

// An address: now and then at the end of the memory, past it, the last of all, or at an offset that may not suit the width.
fn address(seed: usize, line: usize, lines: usize, width: usize) -> usize {
    let near = (seed >> 32) % 8;
    let offset = (seed >> 35) % 16;
    let end = lines % 65536 * 16;
    let from = line % 65536 * 16;
    match (seed >> 40) % 64 {
        0 | 1 => end.wrapping_sub(near),
        2 | 3 => end + near,
        4 => 4294967295 - near,
        5..=8 => from + offset,
        _ => from + (offset - rest(offset, width)) % 16,
    }
}

// A value: now and then at the limit of the width, above it, or the largest number.
fn value(seed: usize, width: usize) -> usize {
    let most = match width {
        1 => 255,
        2 => 65535,
        _ => 4294967295,
    };
    match (seed >> 58) % 32 {
        0 => most + 1,
        1 | 2 => most,
        3 => 4294967295,
        4 => 0,
        _ => rest(next(seed) >> 30, most),
    }
}

// A READ or a WRITE.
pub fn access(kind: Kind, seed: usize, left: usize, lines: usize, lent: Lent) -> Asked {
    let line = line(seed, left, lines);
    let width = width((seed >> 46) % 64);
    let address = address(seed, line, lines, width);
    call(kind, width, address, value(seed, width), lent)
}

// How many items a block has: mostly some ten, now and then none, one, up to 200, and 200.
fn items(seed: usize) -> usize {
    let any = seed >> 20;
    match (seed >> 16) % 16 {
        0 => 0,
        1 => 1,
        2 => 200,
        3 => any % 200,
        _ => any % 24 + 2,
    }
}

// How many answers it is lent: one too few, as many as items, or more.
fn answers(n: usize, items: usize) -> usize {
    match n {
        0 | 1 => items.saturating_sub(1),
        2..=6 => items,
        _ => items.wrapping_add(n - 6),
    }
}

// Memory with a piece short, or the blank state, for the first eight numbers.
fn lacking(n: usize) -> Option<Lent> {
    match n {
        0..=5 => PIECES.get(n).copied().map(Lent::Short),
        6 | 7 => Some(Lent::Blank),
        _ => None,
    }
}

// How memory is lent to a block: more often short or on the blank state than to other calls, and seldom all, since what is lent is copied and
// compared.
fn lent_to_block(n: usize) -> Lent {
    lacking(n).unwrap_or(if n < 12 { Lent::Whole } else { Lent::Needed })
}

// How state and memory are lent: now and then with a piece short or on the blank state, a quarter of the calls with just what they need.
fn lent_to_call(n: usize) -> Lent {
    lacking(n).unwrap_or(if n < 72 { Lent::Needed } else { Lent::Whole })
}

// A block, with none, one or two numbers behind the last item.
fn block(seed: usize) -> Asked {
    let items = items(seed);
    let answers = answers((seed >> 28) % 16, items);
    let lent = lent_to_block((seed >> 50) % 64);
    call(Kind::Block, items, answers, (seed >> 32) % 3, lent)
}

// How many frames: mostly one or two, now and then none, one more than the marked states, the largest number, all marked states (not while
// many marks are set), and any number of them.
fn count(seed: usize, phase: usize, live: usize) -> usize {
    match (seed >> 32) % 32 {
        0 => 0,
        1 => live,
        2 => 4294967295,
        3 | 4 if phase == 1 => 1,
        3 | 4 => live.wrapping_sub(1),
        5 | 6 => rest(seed >> 40, live),
        _ => (seed >> 40) % 2 + 1,
    }
}

// A RESET: now and then with the settings of the run or with others, else with such as are outside the limits or with too little lent. Few
// are accepted, so that the tags run out in between.
fn reset(seed: usize, run: Run, lent: Lent) -> Asked {
    let l = (seed >> 16) % 12 * 8 + 8;
    let f = (seed >> 24) % 5 * 16 + 16;
    let p = (seed >> 32) % 60 + 1;
    let case = (seed >> 40) % 32;
    let (lines, frames, pages) = match case {
        0 | 12..=17 => (l, f, p),
        1 => (run.lines, run.frames, run.pages),
        2 => (4104, f, p),
        3 => (l + p, f, p),
        4 => (l, 0, p),
        5 => (l, 272, p),
        6 => (l, f + l % 16, p),
        7 => (l, f, 0),
        8 => (l, f, 4097),
        9 => (4294967295, f, p),
        10 => (l, 4294967295, p),
        11 => (l, f, 4294967295),
        _ => (0, f, p),
    };
    let short = match case {
        12..=17 => lacking(case - 12),
        _ => None,
    };
    call(Kind::Reset, lines, frames, pages, short.unwrap_or(lent))
}

// Whether another copy of the memory has no room: 131,584 lines are lent for them.
fn is_full(plain: &Plain) -> bool {
    plain.live != plain.frames
        && plain.lines != 0
        && plain.live.wrapping_add(2) > 131584 / plain.lines
}

// The next call of a run on a store with the plain one's numbers. Where `every` is 3, COUNTS and CHECK are asked after every other call; they
// look at each line of each frame, so that larger runs ask them every so many calls.
pub fn chosen(run: Run, plain: &Plain) -> Asked {
    let seed = run.seed;
    let lent = lent_to_call((seed >> 50) % 256);
    let turn = rest(run.left, run.every);
    if turn == 2 {
        return call(Kind::Counts, 0, 0, 0, Lent::Needed);
    }
    if turn == 1 {
        return call(Kind::Check, 0, 0, 0, Lent::Needed);
    }
    let phase = run.left / (run.frames % 1024 * 2 + 200) % 5;
    let kind = kind_of(seed, phase, is_full(plain));
    match kind {
        Kind::Reset => reset(seed, run, lent),
        Kind::Write | Kind::Read => access(kind, seed, run.left, plain.lines, lent),
        Kind::Line => {
            let number = line_number(seed, run.left, plain.lines);
            call(kind, number, 0, 0, lent)
        }
        Kind::Block => block(seed),
        _ => call(kind, count(seed, phase, plain.live), 0, 0, lent),
    }
}
