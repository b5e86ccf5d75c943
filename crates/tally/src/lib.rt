// The tally of a session: how many lines were answered with `ok` and how many with `no`.
#![tactic(auto)]

ghost use Rattle.std.specs.Prelude.{◌≡◌};
ghost use Rattle.tally.specs.Counts.{tally_after};

#[derive(Clone, Copy, PartialEq, Eq, Debug, Default)]
pub struct Tally {
    pub oks: u64,
    pub noes: u64,
}

// Adds an answer in place: an `ok`, of refusal 0, or a `no`; a count that stands at the last number stays. (The refusal is a number, since
// `tally_after`, of which the sessions' theorems speak, takes any.)
fn add_answer(tally: &mut Tally, refusal: u32)
    ensures { tally.new ≡ tally_after tally.old refusal }
{
    if refusal == 0 {
        tally.oks = tally.oks.saturating_add(1);
    } else {
        tally.noes = tally.noes.saturating_add(1);
    }
}

// The tally with one answer more, of a refusal or 0.
pub fn tallied(tally: Tally, refusal: u32) -> Tally
    ensures { result ≡ tally_after tally refusal }
{
    let mut next = tally;
    add_answer(&mut next, refusal);
    next
}
