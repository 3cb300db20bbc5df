// The four steps of a read, after its refusals: look, fetch, table, file. Each is lent only the memories that it needs; its contract says of
// any others that they are left alone. h is what the check has read of the client. What a step leaves stands in the rules' Steps.antt, what it
// takes for granted in specs/ReadContracts.antt.
#![tactic(auto)]

ghost use Rattle.std.specs.Prelude.{◌≡◌, false, List, ℕ, ◌+◌, length, take};
ghost use Rattle.lists.specs.Lists.{written, flat};
ghost use Rattle.query.specs.Shape.{shape_of};
ghost use Rattle.rules.specs.declared.Outcome.TheVariants.{Answered};
ghost use Rattle.rules.specs.Layout.{max_list, client_offset, held_list_offset};
ghost use Rattle.rules.specs.Answers.{length_in, list_in};
ghost use Rattle.rules.specs.Client.{entry_of, idle};
ghost use Rattle.rules.specs.Memory.{current, mem, client_in, with_client};
ghost use Rattle.rules.specs.Outcome.{result_with};
ghost use Rattle.rules.specs.Steps.{read_result};
ghost use Rattle.hall.specs.Refusal.{outcome_of};
ghost use Rattle.clients.specs.ClientContracts.{asked_at};
ghost use Rattle.table.specs.TableContracts.{gathered};
ghost use Rattle.reading.specs.ReadContracts.{made, asked_for, Looks, Finds, found_for, Fetches, Gathers, Counts, Lists, Files, Steps, Gives};

use clients::Held;
use hall::{Hall, Refusal};
use nodes::Sight;
use rules::Outcome;

pub mod would; // would.rt: which count of a tally the step that is due would raise

// A look: the next node's revision is noted, and whether writes are pending there.
#[tactic(auto, using(crate::proofs::Looking::look_below, clients::proofs::HeldLaws::at_steps, clients::proofs::HeldLaws::reader_few))]
fn look_step(nodes: &mut [u32], clients: &mut [u32], d: usize, h: Held) -> Result<Outcome, Refusal>
    requires { Looks nodes.old clients.old d h }
    ensures { (t a y : List ℕ) → result_with (outcome_of result) (mem t nodes.new a clients.new) y ≡ read_result (mem t nodes.old a clients.old) y d (asked_at clients.old d) (made clients.old d) }
{
    let label = h.query.read_label(h.steps);
    let Sight { revision, pending } = nodes::look(nodes, &label)?;
    clients::note(clients, d, h.steps, revision, pending);
    Ok(Outcome::Accepted)
}

// The place of the filed answer to answer with. Where a look saw a mark none may serve, and no search is made. A read that comes to its fetch has
// made one step for each of its nodes: n.
#[tactic(auto, unfolding(crate::specs::ReadContracts::found_for))]
fn find_filed(answers: &[u32], clients: &[u32], d: usize, n: usize) -> Option<usize>
    requires { Finds answers.now clients.now d n }
    ensures { result ≡ found_for answers.now (client_in current clients.now d) n }
{
    if clients::saw_pending(clients, d) {
        return None;
    }
    answers::fetch(answers, clients::entry(clients, d), n)
}

// The fetch: a filed answer that is recent enough is answered with.
#[tactic(auto, using(crate::proofs::Filing::found_there, crate::proofs::Filing::fetch_not, answers::proofs::AnswerScan::short_answer, clients::proofs::HeldLaws::at_steps, clients::proofs::HeldLaws::reader_few))]
fn fetch_step(answers: &[u32], clients: &mut [u32], tray: &mut [u32], d: usize, h: Held) -> Outcome
    requires { Fetches answers.now clients.old tray.old d h }
    ensures { (t n : List ℕ) → result_with result (mem t n answers.now clients.new) tray.new ≡ read_result (mem t n answers.now clients.old) tray.old d (asked_at clients.old d) (made clients.old d) }
{
    let Some(i) = find_filed(answers, clients, d, h.steps) else {
        clients::advance(clients, d);
        return Outcome::Accepted;
    };
    let count = answers::give(answers, i, h.query.k, tray);
    clients::set_idle(clients, d);
    Outcome::Answered {
        count,
        cached: true,
    }
}

// Writes the list that client d asks for, at most 32 records of it, into the client's place for it, and says how many there are, if there are no
// more.
#[tactic(auto, using(crate::proofs::ReadClient::query_width, crate::proofs::ReadClient::range_there, crate::proofs::ReadClient::range_ordered, crate::proofs::ReadClient::takes, crate::proofs::Listing::gather_left))]
fn gather_list(table: &[u32], clients: &mut [u32], d: usize, h: Held) -> Option<usize>
    requires { Gathers table.now clients.old d h }
    ensures value { result ≡ gathered (asked_for h.query.k table.now clients.old d) }
    ensures clients_after { clients.new ≡ written clients.old (client_offset current d + held_list_offset (shape_of h.query.k)) (flat (take max_list (asked_for h.query.k table.now clients.old d))) }
{
    let range = clients::range(clients, d);
    let at = clients::list_at(d, h.query.k);
    let place = &mut clients[at..at + Hall::LIST_WIDTH];
    table::gather(table, &h.query.query(), range, place)
}

// How many records client d asks for, be they more than a read lists.
#[tactic(auto, using(crate::proofs::ReadClient::query_width, crate::proofs::ReadClient::range_there, crate::proofs::ReadClient::range_ordered, crate::proofs::ReadClient::takes))]
fn count_records(table: &[u32], clients: &[u32], d: usize, h: Held) -> usize
    requires { Gathers table.now clients.now d h }
    ensures { result ≡ length (asked_for h.query.k table.now clients.now d) }
{
    table::count(table, &h.query.query(), clients::range(clients, d))
}

// Answers with what the client holds: a list goes to the tray's start, and the client is idle.
fn answer_held(clients: &mut [u32], tray: &mut [u32], d: usize, k: usize) -> Outcome
    requires { Gives clients.old tray.old d k }
    ensures value { result ≡ Answered (length_in (entry_of (client_in current clients.old d))) false }
    ensures tray_after { tray.new ≡ written tray.old 0 (list_in (shape_of k) (entry_of (client_in current clients.old d))) }
    ensures clients_after { clients.new ≡ with_client current clients.old d idle }
{
    let count = answers::give_list(clients::entry(clients, d), k, tray);
    clients::set_idle(clients, d);
    Outcome::Answered {
        count,
        cached: false,
    }
}

// The table step of a count: the records in the query's subspace and within the client's range are counted, and the client holds the count.
// Where a look saw a mark it is answered with and not filed. It is lent no tray: whatever that holds stays.
#[tactic(auto, using(crate::proofs::Listing::count_most, crate::proofs::Listing::count_given, clients::proofs::HeldLaws::at_steps))]
fn count_step(table: &[u32], clients: &mut [u32], d: usize, h: Held) -> Outcome
    requires { Counts table.now clients.old d h }
    ensures { (n a y : List ℕ) → result_with result (mem table.now n a clients.new) y ≡ read_result (mem table.now n a clients.old) y d (asked_at clients.old d) (made clients.old d) }
{
    let n = count_records(table, clients, d, h);
    let saw = clients::saw_pending(clients, d);
    if saw {
        clients::set_idle(clients, d);
        return Outcome::Answered {
            count: n as u32,
            cached: false,
        };
    }
    clients::set_value(clients, d, n, 0);
    Outcome::Accepted
}

// The table step: the list is taken, and the client holds it. Where it is too long the read ends; where a look saw a mark it is answered with
// and not filed. A count has its own.
#[tactic(auto, using(crate::proofs::Listing::list_few, crate::proofs::Listing::list_fits, crate::proofs::Listing::steps_kept, clients::proofs::HeldLaws::at_steps))]
fn table_step(table: &[u32], clients: &mut [u32], tray: &mut [u32], d: usize, h: Held) -> Outcome
    requires { Lists table.now clients.old tray.old d h }
    ensures { (n a : List ℕ) → result_with result (mem table.now n a clients.new) tray.new ≡ read_result (mem table.now n a clients.old) tray.old d (asked_at clients.old d) (made clients.old d) }
{
    if h.counts {
        return count_step(table, clients, d, h);
    }
    let saw = clients::saw_pending(clients, d);
    let Some(n) = gather_list(table, clients, d, h) else {
        clients::set_idle(clients, d);
        return Outcome::Long;
    };
    clients::set_value(clients, d, n, n * h.query.k);
    if !saw {
        return Outcome::Accepted;
    }
    answer_held(clients, tray, d, h.query.k)
}

// What was taken at the table step is filed with the noted revisions, and answered with.
fn file_step(
    answers: &mut [u32],
    clients: &mut [u32],
    tray: &mut [u32],
    d: usize,
    h: Held,
) -> Outcome
    requires { Files answers.old clients.old tray.old d h }
    ensures { (t n : List ℕ) → result_with result (mem t n answers.new clients.new) tray.new ≡ read_result (mem t n answers.old clients.old) tray.old d (asked_at clients.old d) (made clients.old d) }
{
    answers::file(answers, clients::entry(clients, d));
    answer_held(clients, tray, d, h.query.k)
}

// The step that is due of a read: one look for each node, then fetch, table and file. Only a look may be turned down.
#[tactic(auto, using(crate::proofs::ReadClient::look_due, crate::proofs::ReadClient::fetch_due, crate::proofs::ReadClient::table_due, crate::proofs::ReadClient::file_due))]
pub fn read_step(
    table: &[u32],
    nodes: &mut [u32],
    answers: &mut [u32],
    clients: &mut [u32],
    tray: &mut [u32],
    d: usize,
    h: Held,
) -> Result<Outcome, Refusal>
    requires { Steps table.now nodes.old answers.old clients.old tray.old d h }
    ensures { result_with (outcome_of result) (mem table.now nodes.new answers.new clients.new) tray.new ≡ read_result (mem table.now nodes.old answers.old clients.old) tray.old d (asked_at clients.old d) (made clients.old d) }
{
    match h.steps.checked_sub(h.query.look_count()) {
        None => look_step(nodes, clients, d, h),
        Some(0) => Ok(fetch_step(answers, clients, tray, d, h)),
        Some(1) => Ok(table_step(table, clients, tray, d, h)),
        Some(_) => Ok(file_step(answers, clients, tray, d, h)),
    }
}
