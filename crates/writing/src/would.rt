// Which count of a tally the step that is due of a write, or its abandoning, would raise: asked before anything is altered, and only where a count
// of the tally stands at its largest. A 3 that the call would find at its nodes raises none. Leans on the search of `retire`.
ghost use Rattle.std.specs.Prelude.{◌≡◌, List, ℕ};
ghost use Rattle.rules.specs.declared.Count.TheVariants.{WriteAbandoned};
ghost use Rattle.rules.specs.Memory.{current, mem, client_in};
ghost use Rattle.rules.specs.Steps.{end_of};
ghost use Rattle.rules.specs.Tally.{count_of};
ghost use Rattle.nodes.specs.NodeContracts;
ghost use Rattle.clients.specs.ClientContracts;
ghost use Rattle.clients.specs.ClientContracts.{Writer};
ghost use Rattle.writing.specs.WriteContracts.{step_of, abandon_of};

use super::retire;
use clients::Held;
use rules::Count;

// What the write's end raises, by what the client keeps of its table step.
#[tactic(auto, unfolding(rules::specs::Steps::end_of, rules::specs::Tally::count_of))]
fn end_would(clients: &[u32], d: usize) -> Count
    requires { ClientContracts.Fit clients.now d }
    ensures { Some result ≡ count_of None (end_of (client_in current clients.now d)) }
{
    if clients::found_full(clients, d) {
        return Count::EndedUnchanged;
    }
    if clients::did_change(clients, d) {
        return Count::EndedChanged;
    }
    Count::EndedUnchanged
}

// The step that is due: only the last raise ends the write.
#[tactic(auto, using(clients::proofs::HeldLaws::writer_announcements, crate::proofs::WriteSteps::step_most, crate::proofs::WriteSteps::last_past))]
pub fn step_would(nodes: &[u32], clients: &[u32], d: usize, h: Held) -> Option<Count>
    requires writer { Writer h clients.now d }
    requires fit { NodeContracts.Fit nodes.now }
    ensures { (t a y : List ℕ) → result ≡ count_of None (step_of (mem t nodes.now a clients.now) y d).out }
{
    let count = h.query.write_count();
    if h.steps != count + count {
        return None;
    }
    let lift = clients::did_change(clients, d);
    let number = h.steps - (count + 1);
    retire::can_retire(nodes, &h.query, number, 1, lift).ok()?;
    Some(end_would(clients, d))
}

// An abandoning: before the table step the write is abandoned, after it it ends.
#[tactic(auto, using(clients::proofs::HeldLaws::writer_announcements, crate::proofs::WriteSteps::step_most))]
pub fn abandon_would(nodes: &[u32], clients: &[u32], d: usize, h: Held) -> Option<Count>
    requires writer { Writer h clients.now d }
    requires fit { NodeContracts.Fit nodes.now }
    ensures { (t a : List ℕ) → result ≡ count_of (Some WriteAbandoned) (abandon_of (mem t nodes.now a clients.now) d).out }
{
    let count = h.query.write_count();
    if h.steps <= count {
        retire::can_retire(nodes, &h.query, 0, h.steps, false).ok()?;
        return Some(Count::WriteAbandoned);
    }
    let lift = clients::did_change(clients, d);
    let first = h.steps - (count + 1);
    retire::can_retire(nodes, &h.query, first, count - first, lift).ok()?;
    Some(end_would(clients, d))
}
