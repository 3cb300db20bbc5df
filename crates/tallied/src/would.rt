// Which count each call would raise, with nothing altered, and which an accepted call raises that ends nothing. Leans on checks for the refusals, on
// reading and writing for what a step would come to.
ghost use Rattle.std.specs.Prelude.{◌≡◌, List, ℕ};
ghost use Rattle.rules.specs.History.{begin, step, abandon};
ghost use Rattle.rules.specs.Tally.{would_raise, begun_count};
ghost use Rattle.hall.specs.Memories.{lent};
ghost use Rattle.checks.specs.CheckContracts.{request_of};
ghost use Rattle.tallied.specs.TalliedContracts.{LeavesCount};

use checks::Request;
use hall::{Hall, Kind, Memories};
use rules::Count;

// What an accepted begin raises.
#[tactic(auto, unfolding(rules::specs::Tally::begun_count, rules::specs::Work::is_write))]
pub fn begun_count(request: Request) -> Count
    ensures { (a : List ℕ) → result ≡ begun_count (request_of request a) }
{
    match request {
        Request::Read { .. } => Count::ReadBegun,
        Request::Insert | Request::Delete => Count::WriteBegun,
    }
}

#[tactic(auto, using(crate::proofs::TalliedLaws::begin_none, crate::proofs::TalliedLaws::begin_some, checks::proofs::RefusalLaws::number_some))]
pub fn begin_would(
    memories: Memories<'_>,
    request: Request,
    client: u32,
    asked: &[u32],
) -> Option<Count>
    ensures { result ≡ would_raise (lent memories.entry) (begin client (request_of request asked.now)) }
{
    checks::begin_check(memories, request, client, asked).ok()?;
    Some(begun_count(request))
}

#[tactic(auto, using(crate::proofs::TalliedLaws::step_none, checks::proofs::RefusalLaws::number_some))]
pub fn step_would(memories: Memories<'_>, tray: &[u32], client: u32) -> Option<Count>
    ensures { result ≡ would_raise (lent memories.entry) (step client tray.now) }
{
    let Ok(held) = checks::step_check(memories, tray, client) else {
        return None;
    };
    let d = client as usize;
    match held.kind {
        Kind::Read => reading::would::step_would(
            memories.table,
            memories.answers,
            memories.clients,
            d,
            held,
        ),
        _ => writing::would::step_would(memories.nodes, memories.clients, d, held),
    }
}

#[tactic(auto, using(crate::proofs::TalliedLaws::abandon_none, checks::proofs::RefusalLaws::number_some))]
pub fn abandon_would(memories: Memories<'_>, client: u32) -> Option<Count>
    ensures { result ≡ would_raise (lent memories.entry) (abandon client) }
{
    let Ok(held) = checks::abandon_check(memories, client) else {
        return None;
    };
    match held.kind {
        Kind::Read => Some(Count::ReadAbandoned),
        _ => writing::would::abandon_would(memories.nodes, memories.clients, client as usize, held),
    }
}

// What an accepted abandoning raises that reports no end, by the kind at the desk. Any contents, any desk: a number that is no kind's, or a desk that
// is not there, is no matter, its abandoning is refused.
pub fn abandoned_count(memories: Memories<'_>, client: u32) -> Option<Count>
    ensures { LeavesCount result (lent memories.entry) client }
{
    let at = Hall::HEADER + client as usize * Hall::CLIENT_WIDTH + Hall::KIND_OFFSET;
    let kind = *memories.clients.get(at)?;
    if kind == Hall::READS {
        return Some(Count::ReadAbandoned);
    }
    Some(Count::WriteAbandoned)
}
