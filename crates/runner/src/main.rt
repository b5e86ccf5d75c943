// Reads a session on standard input and writes its transcript to standard output. All that it answers is the crate `session`'s; here is only
// reading, calling and writing.
#![tactic(auto)]

ghost use Rattle.std.specs.Prelude.{◌≡◌, ◌≤◌, length};
ghost use Rattle.std.specs.Io.{ReadsAtMost};
ghost use Rattle.store.specs.Shown.{lengths_of};
ghost use Rattle.store.specs.Memory.{lent_in, SamePieces};
ghost use Rattle.replies.specs.Answers.{longest};
ghost use Rattle.session.specs.Transcript.{runner_lent};
ghost use Rattle.runner.specs.Reading.{AnswersChunk, Reads, ReadsAll};

use session::Runner;
use std::io::{ErrorKind, Read as _};
use std::{fmt, io};
use store::Memory;

// What ends a session before its end.
#[derive(Drop)]
enum Failure {
    Read(io::Error),
    Write(io::Error),
}

impl fmt::Display for Failure {
    fn fmt<W: fmt::Write>(&self, f: &mut fmt::Formatter<W>) -> fmt::Result {
        match self {
            Failure::Read(error) => write!(f, "read: {error}"),
            Failure::Write(error) => write!(f, "write: {error}"),
        }
    }
}

// Writes some output.
fn write_out(rt: &impl Print, out: &[u8]) -> Result<(), Failure> {
    rt.write_all(out).map_err(Failure::Write)
}

// Reads once.
fn read_chunk(rt: &impl Input, input: &mut [u8]) -> io::Result<usize>
    ensures { ReadsAtMost result input.new }
{
    rt.reader().read(input)
}

// Answers the lines that end in a chunk: the runner after it.
fn answer_chunk(
    rt: &impl Print,
    before: Runner,
    memory: &mut Memory,
    chunk: &[u8],
    out: &mut [u8],
) -> Result<Runner, Failure>
    requires { longest ≤ length out.old }
    ensures pieces { SamePieces memory.old memory.new }
    ensures answers { AnswersChunk before (lent_in memory.old) chunk.now result (lent_in memory.new) }
{
    let mut runner = before;
    let mut rest = chunk;
    while !rest.is_empty() {
        let told = session::feed(runner, memory, rest, out);
        write_out(rt, &out[..told.filled])?;
        runner = told.runner;
        rest = &rest[told.used..];
    }
    Ok(runner)
}

// Reads once and answers the lines that end in what came: the runner after it, or none at the end of input. A read that a signal interrupted is
// tried again.
fn read_some(
    rt: &(impl Input + Print),
    runner: Runner,
    memory: &mut Memory,
    out: &mut [u8],
) -> Result<Option<Runner>, Failure>
    requires { longest ≤ length out.old }
    ensures pieces { SamePieces memory.old memory.new }
    ensures reads { Reads runner (lent_in memory.old) result (lent_in memory.new) }
{
    let mut input = [0u8; 65536];
    let n = match read_chunk(rt, &mut input) {
        Ok(n) => n,
        Err(error) => {
            if error.kind() == ErrorKind::Interrupted {
                return Ok(Some(runner));
            }
            return Err(Failure::Read(error));
        }
    };
    if n == 0 {
        return Ok(None);
    }
    let chunk = &input[..n];
    let behind = answer_chunk(rt, runner, memory, chunk, out)?;
    Ok(Some(behind))
}

// Answers the input to its end: the runner then. A proved loop has to end, and nothing says that the input does: so the reads are counted, and
// there is none after a number of them that no run reaches.
fn read_all(
    rt: &(impl Input + Print),
    memory: &mut Memory,
    out: &mut [u8],
) -> Result<Option<Runner>, Failure>
    requires { (longest ≤ length out.old)
        × (lengths_of (lent_in memory.old) ≡ runner_lent) }
    ensures pieces { SamePieces memory.old memory.new }
    ensures reads { ReadsAll (lent_in memory.old) result (lent_in memory.new) }
{
    let mut runner = session::start();
    for _ in 0..u64::MAX {
        let read = read_some(rt, runner, memory, out);
        match read {
            Ok(Some(after)) => runner = after,
            Ok(None) => return Ok(Some(runner)),
            Err(failure) => return Err(failure),
        }
    }
    Ok(None)
}

// Memory for L = 512, F = 256 and P = 256: 16 × L bytes, 128 × P bytes, F / 16 × L groups, F × L / 8 entries, P owners with L flags and 256 tags.
fn run(rt: &(impl Input + Print)) -> Result<(), Failure> {
    let mut archive = [0u8; 8192];
    let mut pool = [0u8; 32768];
    let mut groups = [0u32; 8192];
    let mut table = [0u16; 16384];
    let mut owners = [0u32; 768];
    let mut history = [0u16; 256];
    let mut memory = Memory {
        archive: &mut archive,
        pool: &mut pool,
        groups: &mut groups,
        table: &mut table,
        owners: &mut owners,
        history: &mut history,
    };
    let mut out = [0u8; 65536];
    let Some(runner) = read_all(rt, &mut memory, &mut out)? else {
        return Ok(());
    };
    let filled = session::finish(runner, &mut memory, &mut out);
    write_out(rt, &out[..filled])
}

// Runs a session, and tells on standard error what failed; there is no other place to tell that this failed too.
fn main(rt: HostRuntime) {
    if let Err(failure) = run(&rt) {
        let _ = rt.eprintln(format_args!("session: {failure}"));
    }
}
