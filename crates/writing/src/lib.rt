// The steps of a write at its client: a mark for each of its nodes, the table, a raise for each; and its abandoning, which takes back its
// marks before the table step, and after it makes the raises that are left. A raise, the raises that are left and a taking back are the same
// removal of marks, with a lift or without: all three call `retire`. h is what the check has read of the client. The rules stand in rules
// (Steps, Calls), what a function takes for granted in specs/WriteContracts.antt. Each is lent only the memories that it needs, as slices.
#![tactic(auto)]

ghost use Rattle.std.specs.Prelude.{◌≡◌, List, ℕ, ◌≤◌, ◌<◌};
ghost use Rattle.rules.specs.Layout.{max_word};
ghost use Rattle.rules.specs.Table.{effect, SaysChanged};
ghost use Rattle.rules.specs.Client.{did_change, idle};
ghost use Rattle.rules.specs.Memory.{current, mem, records_in, with_records, client_in, with_client};
ghost use Rattle.rules.specs.Outcome.{result_of, result_with};
ghost use Rattle.rules.specs.Steps.{end_of};
ghost use Rattle.hall.specs.Refusal.{outcome_of};
ghost use Rattle.nodes.specs.NodeContracts;
ghost use Rattle.clients.specs.ClientContracts;
ghost use Rattle.clients.specs.ClientContracts.{Writer};
ghost use Rattle.table.specs.TableContracts;
ghost use Rattle.writing.specs.WriteContracts.{step_at, count_at, step_of, back_of, raised_of, abandon_of, held_change, report_of, reported, raise_end, raise_left};

use clients::Held;
use hall::{Kind, Refusal};
use rules::Outcome;
use std::cmp::Ordering;
use table::Inserted;

mod retire; // retire.rt: marks taken off some of a write's nodes
pub mod would; // would.rt: which count of a tally the step that is due, or an abandoning, would raise

// What a write's table step says of the table.
#[derive(Clone, Copy, PartialEq, Eq)]
enum Report {
    Changed,
    Unchanged,
    // There was no room for the record.
    Full,
}

impl From<Inserted> for Report {
    ghost from_gives = { λ inserted report. report ≡ report_of inserted };

    fn from(inserted: Inserted) -> Report {
        match inserted {
            Inserted::Added => Report::Changed,
            Inserted::Present => Report::Unchanged,
            Inserted::Full => Report::Full,
        }
    }
}

// ---- Marks
// A mark at the write's next node. Refused where no node can be added or 12 writes are pending there.
#[tactic(auto, using(crate::proofs::WriteSteps::step_small))]
fn announce_step(
    nodes: &mut [u32],
    clients: &mut [u32],
    d: usize,
    h: Held,
) -> Result<Outcome, Refusal>
    requires writer { Writer h clients.old d }
    requires fit { NodeContracts.Fit nodes.old }
    requires due { step_at clients.old d < count_at clients.old d }
    ensures { ((t a y : List ℕ) → result_with (outcome_of result) (mem t nodes.new a clients.new) y ≡ step_of (mem t nodes.old a clients.old) y d) }
{
    nodes::announce(nodes, &h.query.write_label(h.steps))?;
    clients::advance(clients, d);
    Ok(Outcome::Accepted)
}

// ---- The table
// Makes the change of the write of which h was read.
fn change(table: &mut [u32], h: Held) -> Report
    requires { TableContracts.Fit h.query.k table.old }
    ensures said { result ≡ reported (held_change h) (records_in h.query.k table.old) }
    ensures left { table.new ≡ with_records h.query.k table.old (effect (held_change h) (records_in h.query.k table.old)) }
{
    if h.kind == Kind::Insert {
        let record = &h.query.values[..h.query.k];
        return Report::from(table::insert(table, record));
    }
    if table::delete(table, &h.query.query()) == 0 {
        Report::Unchanged
    } else {
        Report::Changed
    }
}

// The table step: the change is made, and the client keeps whether the list of records changed (exactly if the two lists differ) and whether it
// was full.
#[tactic(auto, using(crate::proofs::WriteSteps::step_small))]
fn write_table_step(table: &mut [u32], clients: &mut [u32], d: usize, h: Held) -> Outcome
    requires writer { Writer h clients.old d }
    requires fit { TableContracts.Fit h.query.k table.old }
    requires due { step_at clients.old d ≡ count_at clients.old d }
    ensures left { ((n a y : List ℕ) → result_with result (mem table.new n a clients.new) y ≡ step_of (mem table.old n a clients.old) y d) }
    ensures says { SaysChanged (did_change (client_in current clients.new d)) (records_in h.query.k table.old) (records_in h.query.k table.new) }
{
    let said = change(table, h);
    clients::set_wrote(clients, d, said == Report::Changed, said == Report::Full);
    Outcome::Accepted
}

// ---- Raises
// Ends a write: the client is idle, and what it kept of the table step is the outcome.
#[tactic(auto, unfolding(rules::specs::Steps::end_of))]
fn end(clients: &mut [u32], d: usize) -> Outcome
    requires { ClientContracts.Fit clients.old d }
    ensures said { result ≡ end_of (client_in current clients.old d) }
    ensures left { clients.new ≡ with_client current clients.old d idle }
{
    let full = clients::found_full(clients, d);
    let changed = clients::did_change(clients, d);
    clients::set_idle(clients, d);
    if full {
        return Outcome::Full;
    }
    Outcome::Ended { changed }
}

// What a raise leaves of the client: the last one ends the write.
fn after_raise(clients: &mut [u32], d: usize, last: bool) -> Outcome
    requires fit { ClientContracts.Fit clients.old d }
    requires small { step_at clients.old d < max_word }
    ensures said { result ≡ raise_end last (client_in current clients.old d) }
    ensures left { clients.new ≡ with_client current clients.old d (raise_left last (client_in current clients.old d)) }
{
    if last {
        return end(clients, d);
    }
    clients::advance(clients, d);
    Outcome::Accepted
}

// A raise at the write's next node: its revision goes up if the client keeps that the list of records changed, else it stays. Refused where the
// node is missing, has no pending write or cannot be raised; one whose revision stays is not refused for a revision at its largest.
#[tactic(auto, using(clients::proofs::HeldLaws::writer_announcements, crate::proofs::WriteSteps::step_most))]
fn raise_step(nodes: &mut [u32], clients: &mut [u32], d: usize, h: Held) -> Result<Outcome, Refusal>
    requires writer { Writer h clients.old d }
    requires fit { NodeContracts.Fit nodes.old }
    requires due { count_at clients.old d < step_at clients.old d }
    ensures { ((t a y : List ℕ) → result_with (outcome_of result) (mem t nodes.new a clients.new) y ≡ step_of (mem t nodes.old a clients.old) y d) }
{
    let lift = clients::did_change(clients, d);
    let count = h.query.write_count();
    let number = h.steps - (count + 1);
    retire::retire(nodes, &h.query, number, 1, lift)?;
    Ok(after_raise(clients, d, h.steps == count + count))
}

// ---- The next step
// One step of a write: its marks come first, then the table, then its raises.
#[tactic(auto, using(clients::proofs::HeldLaws::writer_announcements))]
pub fn write_step(
    table: &mut [u32],
    nodes: &mut [u32],
    clients: &mut [u32],
    d: usize,
    h: Held,
) -> Result<Outcome, Refusal>
    requires writer { Writer h clients.old d }
    requires fit { NodeContracts.Fit nodes.old }
    requires fit_2 { TableContracts.Fit h.query.k table.old }
    ensures { ((a y : List ℕ) → result_with (outcome_of result) (mem table.new nodes.new a clients.new) y ≡ step_of (mem table.old nodes.old a clients.old) y d) }
{
    match h.steps.cmp(&h.query.write_count()) {
        Ordering::Less => announce_step(nodes, clients, d, h),
        Ordering::Equal => Ok(write_table_step(table, clients, d, h)),
        Ordering::Greater => raise_step(nodes, clients, d, h),
    }
}

// ---- Abandonings
// Takes back the marks of a write before its table step; the client is idle then. Refused where one of them is not there.
#[tactic(auto, using(clients::proofs::HeldLaws::writer_announcements))]
fn release_all(
    nodes: &mut [u32],
    clients: &mut [u32],
    d: usize,
    h: Held,
) -> Result<Outcome, Refusal>
    requires writer { Writer h clients.old d }
    requires fit { NodeContracts.Fit nodes.old }
    requires early { step_at clients.old d ≤ count_at clients.old d }
    ensures { ((t a : List ℕ) → result_of (outcome_of result) (mem t nodes.new a clients.new) ≡ back_of (mem t nodes.old a clients.old) d) }
{
    retire::retire(nodes, &h.query, 0, h.steps, false)?;
    clients::set_idle(clients, d);
    Ok(Outcome::Accepted)
}

// Makes all raises that are left of a write after its table step: the write ends as its last raise would have ended it. The revisions go up if
// the client keeps that the list of records changed, else they stay. Refused where one of the nodes is missing, has no pending write or cannot
// be raised, as at a raise step.
#[tactic(auto, using(clients::proofs::HeldLaws::writer_announcements, crate::proofs::WriteSteps::step_most))]
fn raise_all(nodes: &mut [u32], clients: &mut [u32], d: usize, h: Held) -> Result<Outcome, Refusal>
    requires writer { Writer h clients.old d }
    requires fit { NodeContracts.Fit nodes.old }
    requires late { count_at clients.old d < step_at clients.old d }
    ensures { ((t a : List ℕ) → result_of (outcome_of result) (mem t nodes.new a clients.new) ≡ raised_of (mem t nodes.old a clients.old) d) }
{
    let lift = clients::did_change(clients, d);
    let count = h.query.write_count();
    let first = h.steps - (count + 1);
    retire::retire(nodes, &h.query, first, count - first, lift)?;
    Ok(end(clients, d))
}

// Abandons a write: before its table step its marks are taken back, after it all raises that are left are made, and that is its end.
#[tactic(auto, using(clients::proofs::HeldLaws::writer_announcements))]
pub fn abandon_write(
    nodes: &mut [u32],
    clients: &mut [u32],
    d: usize,
    h: Held,
) -> Result<Outcome, Refusal>
    requires writer { Writer h clients.old d }
    requires fit { NodeContracts.Fit nodes.old }
    ensures { ((t a : List ℕ) → result_of (outcome_of result) (mem t nodes.new a clients.new) ≡ abandon_of (mem t nodes.old a clients.old) d) }
{
    if h.steps <= h.query.write_count() {
        return release_all(nodes, clients, d, h);
    }
    raise_all(nodes, clients, d, h)
}
