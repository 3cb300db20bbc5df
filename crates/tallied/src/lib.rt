// The calls that can raise a count, with the tally by value: a begin, a step, an abandoning. Each is the call without a tally, or 15: where some
// count stands at its largest, which count the call would raise is asked first, and nothing is altered yet; then the call is made, and its outcome
// says which count goes up. Leans on calls for the calls, on tally for the counts. The rules stand in rules (Tally).
#![tactic(auto)]

ghost use Rattle.std.specs.Prelude.{◌≡◌, [], false};
ghost use Rattle.rules.specs.declared.Outcome.TheVariants.{Refused};
ghost use Rattle.rules.specs.Layout.{refused_tally_full};
ghost use Rattle.rules.specs.History.{begin, step, abandon};
ghost use Rattle.rules.specs.Tally.{count_of, is_full, raised, tallied, tallied_result};
ghost use Rattle.hall.specs.Memories.{lent_mut, SamePlaces};
ghost use Rattle.checks.specs.CheckContracts.{request_of};

use calls::{begins, desks};
use checks::Request;
use hall::{MemoriesMut, Refusal};
use rules::{Count, Outcome, Tally};

mod would; // would.rt: which count a call would raise

// What a call hands back: its outcome, and the tally.
#[derive(Clone, Copy)]
pub struct Counted {
    pub out: Outcome,
    pub tally: Tally,
}

// 15: the tally as it was lent.
fn full(t: Tally) -> Counted
    ensures { (result.out ≡ Refused refused_tally_full) × (result.tally ≡ t) }
{
    Counted {
        out: Outcome::from(Refusal::TallyFull),
        tally: t,
    }
}

// The call was made: one more at the count that its outcome raises, accepted where it ends nothing.
fn made(t: Tally, accepted: Option<Count>, out: Outcome) -> Counted
    requires { is_full t (count_of accepted out) ≡ false }
    ensures { (result.out ≡ out) × (result.tally ≡ raised t (count_of accepted out)) }
{
    let count = tally::count_of(accepted, out);
    Counted {
        out,
        tally: tally::raise(t, count),
    }
}

// A begin.
pub fn begin(
    memories: &mut MemoriesMut<'_>,
    t: Tally,
    request: Request,
    client: u32,
    asked: &[u32],
) -> Counted
    ensures leaves { tallied result.out (lent_mut memories.new) [] result.tally ≡ tallied_result (lent_mut memories.old) t (begin client (request_of request asked.now)) }
    ensures same { SamePlaces memories.old memories.new }
{
    if tally::some_full(t)
        && tally::is_full(
            t,
            would::begin_would(memories.view(), request, client, asked),
        )
    {
        return full(t);
    }
    let out = begins::begin(memories, request, client, asked);
    made(t, Some(would::begun_count(request)), out)
}

// One step of what is under way at the client's desk.
pub fn step(memories: &mut MemoriesMut<'_>, tray: &mut [u32], t: Tally, client: u32) -> Counted
    ensures leaves { tallied result.out (lent_mut memories.new) tray.new result.tally ≡ tallied_result (lent_mut memories.old) t (step client tray.old) }
    ensures same { SamePlaces memories.old memories.new }
{
    if tally::some_full(t) && tally::is_full(t, would::step_would(memories.view(), tray, client)) {
        return full(t);
    }
    let out = desks::step(memories, tray, client);
    made(t, None, out)
}

// Abandons what is under way at the client's desk. Whether that is a read or a write is read before it is gone.
pub fn abandon(memories: &mut MemoriesMut<'_>, t: Tally, client: u32) -> Counted
    ensures leaves { tallied result.out (lent_mut memories.new) [] result.tally ≡ tallied_result (lent_mut memories.old) t (abandon client) }
    ensures same { SamePlaces memories.old memories.new }
{
    if tally::some_full(t) && tally::is_full(t, would::abandon_would(memories.view(), client)) {
        return full(t);
    }
    let left = would::abandoned_count(memories.view(), client);
    let out = desks::abandon(memories, client);
    made(t, left, out)
}
