// A tally by value: which count of it a call raises, whether a count stands at its largest, one more at a count. No memory is read here. The
// rules stand in rules (Tally).
#![tactic(auto)]

ghost use Rattle.std.specs.Prelude.{◌≡◌, false};
ghost use Rattle.std.specs.Borrow.{sem};
ghost use Rattle.tally.specs.TallyContracts.{some_full, LendsCount};
ghost use Rattle.rules.specs.Tally.{count_in, is_full, raised, count_of};

use hall::Hall;
use rules::{Count, Outcome, Tally};

const LARGEST: u32 = Hall::LARGEST_COUNT;

// The count that a call raises that came to this outcome, or none; c where it is accepted and ends nothing.
#[tactic(auto, unfolding(rules::specs::Tally::count_of))]
pub fn count_of(c: Option<Count>, out: Outcome) -> Option<Count>
    ensures { result ≡ count_of c out }
{
    match out {
        Outcome::Refused(_) => None,
        Outcome::Accepted => c,
        Outcome::Answered { cached: true, .. } => Some(Count::FromFile),
        Outcome::Answered { cached: false, .. } => Some(Count::FromTable),
        Outcome::Long => Some(Count::EndedLong),
        Outcome::Ended { changed: true } => Some(Count::EndedChanged),
        Outcome::Ended { changed: false } | Outcome::Full => Some(Count::EndedUnchanged),
    }
}

// A count of a tally, at its place: to be read there, or raised.
#[tactic(auto, unfolding(rules::specs::Tally::count_in))]
fn count_in(t: &mut Tally, c: Count) -> &mut u32
    ensures* lent { sem 𝓛 (LendsCount t.entry c result) }
    ensures value { result.now ≡ count_in t.old c }
{
    match c {
        Count::ReadBegun => &mut t.reads_begun,
        Count::FromFile => &mut t.from_file,
        Count::FromTable => &mut t.from_table,
        Count::EndedLong => &mut t.ended_long,
        Count::ReadAbandoned => &mut t.reads_abandoned,
        Count::WriteBegun => &mut t.writes_begun,
        Count::EndedChanged => &mut t.ended_changed,
        Count::EndedUnchanged => &mut t.ended_unchanged,
        Count::WriteAbandoned => &mut t.writes_abandoned,
    }
}

// Whether the count stands at its largest; none does not.
#[tactic(auto, unfolding(rules::specs::Tally::is_full))]
pub fn is_full(mut t: Tally, c: Option<Count>) -> bool
    ensures { result ≡ is_full t c }
{
    match c {
        None => false,
        Some(c) => *count_in(&mut t, c) == LARGEST,
    }
}

// Whether some count does: if none does, no call can be turned down for one, and none need be asked which it would raise.
#[tactic(auto, unfolding(crate::specs::TallyContracts::some_full, rules::specs::Tally::count_in))]
pub fn some_full(t: Tally) -> bool
    ensures { result ≡ some_full t }
{
    let counts = [
        t.reads_begun,
        t.from_file,
        t.from_table,
        t.ended_long,
        t.reads_abandoned,
        t.writes_begun,
        t.ended_changed,
        t.ended_unchanged,
        t.writes_abandoned,
    ];
    counts.contains(&LARGEST)
}

// One more at a count that does not stand at its largest; none raises nothing.
#[tactic(auto, using(crate::proofs::TallyLaws::raised_is, rules::proofs::TallyLaws::raised_none), unfolding(rules::specs::Tally::is_full))]
pub fn raise(mut t: Tally, c: Option<Count>) -> Tally
    requires { is_full t c ≡ false }
    ensures { result ≡ raised t c }
{
    if let Some(c) = c {
        *count_in(&mut t, c) += 1;
    }
    t
}
