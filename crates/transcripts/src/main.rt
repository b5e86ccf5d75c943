// Feeds test sessions to the library in chunks of 1, 7 and 4,096 bytes, with output buffers of several sizes, and prints their transcripts.
#![tactic(auto)]

mod sessions;

ghost use Rattle.std.specs.Prelude.{◌+◌, ◌≤◌, ◌<◌, length, IfSome};

use session::{Fed, Runner};
use sessions::SESSIONS;
use store::Memory;

// Puts a piece so many times behind what is there, as far as there is room.
fn piece(input: &mut [u8], from: usize, bytes: &[u8], times: usize) -> usize
    ensures { result ≤ length input.new }
{
    let room = input.len();
    if room < from {
        return room;
    }
    let mut at = from;
    for _ in 0..times {
        if room - at < bytes.len() {
            break;
        }
        at = text::put(input, at, bytes);
    }
    at
}

// The first part of a script, which has how often it comes and its length, two bytes each, before its bytes: how often, the bytes, and the parts
// behind it.
fn first_part(script: &[u8]) -> Option<(usize, &[u8], &[u8])>
    ensures { IfSome result (λ p. length p.2.now < length script.now) }
{
    if script.len() < 4 {
        return None;
    }
    let times = u16::from_be_bytes([script[0], script[1]]) as usize;
    let size = u16::from_be_bytes([script[2], script[3]]) as usize;
    let rest = &script[4..];
    let (bytes, behind) = rest.split_at(size.min(rest.len()));
    Some((times, bytes, behind))
}

// Puts the parts of a script, each as often as it comes.
fn expand(input: &mut [u8], script: &[u8]) -> usize
    ensures { result ≤ length input.new }
{
    let mut rest = script;
    let mut filled = 0;
    while let Some((times, bytes, behind)) = first_part(rest) {
        filled = piece(input, filled, bytes, times);
        rest = behind;
    }
    filled
}

// Prints bytes. A write that fails is let be: what is missing is seen where the transcripts are compared.
fn print(rt: &impl Print, bytes: &[u8]) {
    let _ = rt.write_all(bytes);
}

// Prints the first part of a script, the session's name, and puts the others.
fn put(rt: &impl Print, input: &mut [u8], script: &[u8]) -> usize
    ensures { result ≤ length input.new }
{
    let Some((_, name, parts)) = first_part(script) else {
        return 0;
    };
    print(rt, name);
    expand(input, parts)
}

// Feeds a chunk, with an output buffer of a size behind what is filled already.
fn feed_part(
    runner: Runner,
    memory: &mut Memory,
    chunk: &[u8],
    out: &mut [u8],
    filled: usize,
    room: usize,
) -> Fed
    requires { filled ≤ length out.old }
    ensures { (result.used ≤ length chunk.now) × (filled + result.filled ≤ length out.old) }
{
    let size = room.min(out.len() - filled);
    session::feed(runner, memory, chunk, &mut out[filled..filled + size])
}

// Ends a session, with just the output buffer that this wants behind what is filled already, and returns how many bytes are filled then.
fn finish_part(runner: Runner, memory: &mut Memory, out: &mut [u8], filled: usize) -> usize
    requires { filled ≤ length out.old }
    ensures { result ≤ length out.new }
{
    let size = 128.min(out.len() - filled);
    filled + session::finish(runner, memory, &mut out[filled..filled + size])
}

// Plays a session from the start in chunks of a size, with output buffers of a size, and returns how many bytes of output it put. It ends where
// the output has no more room.
fn play(memory: &mut Memory, input: &[u8], size: usize, room: usize, out: &mut [u8]) -> usize
    ensures { result ≤ length out.new }
{
    let mut runner = session::start();
    let mut rest = input;
    let mut filled = 0;
    while !rest.is_empty() {
        let told = feed_part(
            runner,
            memory,
            &rest[..size.min(rest.len())],
            out,
            filled,
            room,
        );
        runner = told.runner;
        filled = filled + told.filled;
        if told.used == 0 {
            break;
        }
        rest = &rest[told.used..];
    }
    finish_part(runner, memory, out, filled)
}

// The sizes of output buffers and of chunks, in the order of the plays: for each buffer all chunks.
const ROOMS: [usize; 3] = [65536, 64, 65];

const SIZES: [usize; 3] = [4096, 7, 1];

// Says which play gave another transcript.
fn tell(rt: &impl Print, turn: usize) {
    print(rt, b"another transcript in play ");
    print(rt, &[48 + (turn % 10) as u8]);
    print(rt, b"\n");
}

// Prints the transcript of a session's first play and keeps it, and compares that of a later play with it. Returns how many bytes are kept.
fn report(rt: &impl Print, turn: usize, transcript: &[u8], first: &mut [u8], kept: usize) -> usize
    requires { kept ≤ length first.old }
    ensures { result ≤ length first.new }
{
    if turn == 0 {
        print(rt, transcript);
        return piece(first, 0, transcript, 1);
    }
    if &first[..kept] != transcript {
        tell(rt, turn);
    }
    kept
}

// Plays a session in chunks of 4,096, 7 and 1 bytes with output buffers of 65,536 bytes, of the longest answer and of one byte more, each time on
// memory as the play before left it, and prints its transcript, and which plays gave another one.
fn show(rt: &impl Print, memory: &mut Memory, input: &[u8]) {
    let mut first = [0u8; 65536];
    let mut kept = 0;
    for turn in 0..9 {
        let mut out = [0u8; 65536];
        let count = play(memory, input, SIZES[turn % 3], ROOMS[turn / 3], &mut out);
        kept = report(rt, turn, &out[..count], &mut first, kept);
    }
}

// Shows all sessions, one after the other.
fn show_all(rt: &impl Print, memory: &mut Memory) {
    for script in &SESSIONS {
        let mut input = [0u8; 16384];
        let count = put(rt, &mut input, script);
        show(rt, memory, &input[..count]);
    }
}

// Memory as the runner lends it.
fn main(rt: HostRuntime) {
    let mut archive = [0u8; 8192];
    let mut pool = [0u8; 32768];
    let mut groups = [0u32; 8192];
    let mut table = [0u16; 16384];
    let mut owners = [0u32; 768];
    let mut history = [0u16; 256];
    let mut memory = Memory {
        archive: &mut archive,
        pool: &mut pool,
        groups: &mut groups,
        table: &mut table,
        owners: &mut owners,
        history: &mut history,
    };
    show_all(&rt, &mut memory);
}
