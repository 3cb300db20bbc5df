// The begins, each a call of its own for callers (docs/CALLS.md) over `begin`: what arrives is checked and taken, and the client keeps its kind and its key. Leans on checks for the refusals and the key.
ghost use Rattle.std.specs.Prelude.{◌≡◌, true, false};
ghost use Rattle.query.specs.declared.Range.TheVariants.{None, Between};
ghost use Rattle.rules.specs.Work.{read_of, insert_of, delete_of};
ghost use Rattle.rules.specs.Outcome.{result_of};
ghost use Rattle.rules.specs.Calls.{begin_result};
ghost use Rattle.hall.specs.Memories.{lent_mut, SamePlaces};
ghost use Rattle.hall.specs.Refusal.{outcome_of};
ghost use Rattle.checks.specs.CheckContracts.{request_of};

use checks::Request;
use hall::refusal::outcome_of;
use hall::{MemoriesMut, Refusal};
use query::Range;
use rules::Outcome;

#[tactic(auto, using(crate::proofs::CallLaws::turned_down, crate::proofs::CallLaws::goes_on, clients::proofs::ClientChanges::begun_with_law), unfolding(rules::specs::Calls::begin_result, rules::specs::Steps::now_at))]
fn try_begin(
    memories: &mut MemoriesMut<'_>,
    request: Request,
    client: u32,
    asked: &[u32],
) -> Result<Outcome, Refusal>
    ensures leaves { result_of (outcome_of result) (lent_mut memories.new) ≡ begin_result (lent_mut memories.old) client (request_of request asked.now) }
    ensures same { SamePlaces memories.old memories.new }
{
    let key = checks::begin_check(memories.view(), request, client, asked)?;
    clients::begin(
        memories.clients,
        client as usize,
        request.kind().number(),
        &key,
    );
    Ok(Outcome::Accepted)
}

pub fn begin(
    memories: &mut MemoriesMut<'_>,
    request: Request,
    client: u32,
    asked: &[u32],
) -> Outcome
    ensures leaves { result_of result (lent_mut memories.new) ≡ begin_result (lent_mut memories.old) client (request_of request asked.now) }
    ensures same { SamePlaces memories.old memories.new }
{
    outcome_of(try_begin(memories, request, client, asked))
}

pub fn begin_read(memories: &mut MemoriesMut<'_>, client: u32, asked: &[u32]) -> Outcome
    ensures leaves { result_of result (lent_mut memories.new) ≡ begin_result (lent_mut memories.old) client (read_of false None asked.now) }
    ensures same { SamePlaces memories.old memories.new }
{
    let request = Request::Read {
        counts: false,
        range: Range::None,
    };
    begin(memories, request, client, asked)
}

// A read that wants only how many: it makes a read's steps.
pub fn begin_count(memories: &mut MemoriesMut<'_>, client: u32, asked: &[u32]) -> Outcome
    ensures leaves { result_of result (lent_mut memories.new) ≡ begin_result (lent_mut memories.old) client (read_of true None asked.now) }
    ensures same { SamePlaces memories.old memories.new }
{
    let request = Request::Read {
        counts: true, // wants a count
        range: Range::None,
    };
    begin(memories, request, client, asked)
}

// A read of the records that fit the query and whose value in one column, which is given by its number from 0, is the lowest to the highest,
// both included.
pub fn begin_read_within(
    memories: &mut MemoriesMut<'_>,
    client: u32,
    asked: &[u32],
    column: u32,
    lowest: u32,
    highest: u32,
) -> Outcome
    ensures leaves { result_of result (lent_mut memories.new) ≡ begin_result (lent_mut memories.old) client (read_of false (Between column lowest highest) asked.now) }
    ensures same { SamePlaces memories.old memories.new }
{
    let range = Range::Between {
        column,
        lowest,
        highest,
    };
    let request = Request::Read {
        counts: false,
        range,
    };
    begin(memories, request, client, asked)
}

// A read that wants only how many these are.
pub fn begin_count_within(
    memories: &mut MemoriesMut<'_>,
    client: u32,
    asked: &[u32],
    column: u32,
    lowest: u32,
    highest: u32,
) -> Outcome
    ensures leaves { result_of result (lent_mut memories.new) ≡ begin_result (lent_mut memories.old) client (read_of true (Between column lowest highest) asked.now) }
    ensures same { SamePlaces memories.old memories.new }
{
    let range = Range::Between {
        column,
        lowest,
        highest,
    };
    let request = Request::Read {
        counts: true,
        range,
    };
    begin(memories, request, client, asked)
}

pub fn begin_insert(memories: &mut MemoriesMut<'_>, client: u32, asked: &[u32]) -> Outcome
    ensures leaves { result_of result (lent_mut memories.new) ≡ begin_result (lent_mut memories.old) client (insert_of asked.now) }
    ensures same { SamePlaces memories.old memories.new }
{
    begin(memories, Request::Insert, client, asked)
}

pub fn begin_delete(memories: &mut MemoriesMut<'_>, client: u32, asked: &[u32]) -> Outcome
    ensures leaves { result_of result (lent_mut memories.new) ≡ begin_result (lent_mut memories.old) client (delete_of asked.now) }
    ensures same { SamePlaces memories.old memories.new }
{
    begin(memories, Request::Delete, client, asked)
}
