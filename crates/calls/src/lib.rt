// The twelve public calls, in one place: the opening (opening.rt), the begins (begins.rt), the step and the abandoning (desks.rt), the evictions
// and the renewal (upkeep.rt). None asks anything of its caller. A history is an opening and a list of the other eleven: here such a call is a
// value of its own, and one function runs it. The rules stand in rules (Calls, History), what a value stands for in specs/CallValues.antt.
#![tactic(auto)]

ghost use Rattle.std.specs.Prelude.{◌≡◌};
ghost use Rattle.rules.specs.Outcome.{result_with};
ghost use Rattle.hall.specs.Memories.{lent_mut, SamePlaces};
ghost use Rattle.calls.specs.CallValues.{ran};

use hall::MemoriesMut;
use rules::Outcome;

pub mod begins; // begins.rt: the begins of a read, a count, both with a range, an insert and a delete
pub mod desks; // desks.rt: a step, an abandoning
pub mod opening; // opening.rt: the opening
pub mod upkeep; // upkeep.rt: both evictions, the renewal

// A call of a history: its kind, the client or the place that it names, and a range. The query of a begin and the tray of a step are lent beside it.
#[derive(Clone, Copy)]
pub enum Call {
    BeginRead {
        client: u32,
    },
    BeginCount {
        client: u32,
    },
    BeginReadWithin {
        client: u32,
        column: u32,
        lowest: u32,
        highest: u32,
    },
    BeginCountWithin {
        client: u32,
        column: u32,
        lowest: u32,
        highest: u32,
    },
    BeginInsert {
        client: u32,
    },
    BeginDelete {
        client: u32,
    },
    Step {
        client: u32,
    },
    Abandon {
        client: u32,
    },
    EvictAnswer {
        place: u32,
    },
    EvictNode {
        place: u32,
    },
    Renew,
}

// Makes the call. The query is read by a begin only, the tray is altered by a step only.
#[tactic(auto, unfolding(crate::specs::CallValues::ran, crate::specs::CallValues::with_tray, crate::specs::CallValues::call_of, crate::specs::CallValues::tray_after, rules::specs::History::call_result, rules::specs::History::untrayed))]
pub fn run(memories: &mut MemoriesMut<'_>, tray: &mut [u32], call: Call, query: &[u32]) -> Outcome
    ensures leaves { result_with result (lent_mut memories.new) tray.new ≡ ran (lent_mut memories.old) tray.old call query.now }
    ensures same { SamePlaces memories.old memories.new }
{
    match call {
        Call::BeginRead { client } => begins::begin_read(memories, client, query),
        Call::BeginCount { client } => begins::begin_count(memories, client, query),
        Call::BeginReadWithin {
            client,
            column,
            lowest,
            highest,
        } => begins::begin_read_within(memories, client, query, column, lowest, highest),
        Call::BeginCountWithin {
            client,
            column,
            lowest,
            highest,
        } => begins::begin_count_within(memories, client, query, column, lowest, highest),
        Call::BeginInsert { client } => begins::begin_insert(memories, client, query),
        Call::BeginDelete { client } => begins::begin_delete(memories, client, query),
        Call::Step { client } => desks::step(memories, tray, client),
        Call::Abandon { client } => desks::abandon(memories, client),
        Call::EvictAnswer { place } => upkeep::evict_answer(memories, place),
        Call::EvictNode { place } => upkeep::evict_node(memories, place),
        Call::Renew => upkeep::renew(memories),
    }
}
