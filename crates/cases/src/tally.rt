// What is printed: answers, differences, and what was covered. A write that fails is let be: what is missing is seen where the output is
// compared.
use choices::counts::Tally;
use copies::{Answer, Call, Plain};

// A call with its arguments, and what the store and the plain store say.
pub fn print_difference(rt: &impl Print, call: Call, store: Answer, plain: Answer) {
    let Call { kind, a, b, c, .. } = call;
    let _ = print!(rt; "\n  difference: {kind:<8}{a} {b} {c}: store {store}, plain {plain}");
}

fn print_count(rt: &impl Print, name: &str, n: usize) {
    let _ = println!(rt; "{name:<13}{n}");
}

fn print_accepted(rt: &impl Print, tally: &Tally) {
    print_count(rt, "accepted", tally.accepted);
    print_count(rt, "from cache", tally.from_cache);
    print_count(rt, "from frame", tally.from_frame);
    print_count(rt, "from archive", tally.from_archive);
}

fn print_refused(rt: &impl Print, tally: &Tally) {
    for (refusal, n) in tally.refused.iter().enumerate().skip(4) {
        let _ = println!(rt; "refused {refusal:<5}{n}");
    }
}

fn print_kinds(rt: &impl Print, tally: &Tally) {
    let names = [
        "reset", "write", "read", "line", "mark", "rollback", "advance", "counts", "check", "block",
    ];
    for (name, n) in names.iter().zip(tally.kinds.iter()) {
        print_count(rt, name, *n);
    }
}

// What calls did, with the plain store's own counts.
fn print_deeds(rt: &impl Print, tally: &Tally, plain: &Plain) {
    print_count(rt, "resets done", tally.resets);
    print_count(rt, "sweeps", tally.sweeps);
    print_count(rt, "turns", tally.turns);
    print_count(rt, "CHECK yes", tally.yes);
    print_count(rt, "differences", tally.differences);
    print_count(rt, "most live", plain.highest);
    print_count(rt, "room again", plain.rooms);
    print_count(rt, "conflicts", plain.cache.conflicts);
}

fn print_items(rt: &impl Print, tally: &Tally) {
    print_count(rt, "items", tally.items);
    print_count(rt, "items done", tally.items_done);
    for refusal in [7, 8, 9, 10, 13usize] {
        let n = tally.refused_items[refusal];
        let _ = println!(rt; "items got {refusal:<3}{n}");
    }
    print_count(rt, "behind a 13", tally.behind);
}

fn print_blocks(rt: &impl Print, tally: &Tally) {
    print_count(rt, "empty blocks", tally.empty_blocks);
    print_count(rt, "equal lists", tally.equal_lists);
    print_count(rt, "longer lists", tally.longer_lists);
    print_count(rt, "5 before 14", tally.blank_first);
    print_count(rt, "6 before 14", tally.short_first);
}

// All that was covered.
pub fn print_all(rt: &impl Print, tally: &Tally, plain: &Plain) {
    print_accepted(rt, tally);
    print_refused(rt, tally);
    print_kinds(rt, tally);
    print_deeds(rt, tally, plain);
    print_items(rt, tally);
    print_blocks(rt, tally);
    print_count(rt, "empty lines", tally.empty_lines);
}
