// Marks taken off some of a write's nodes, with a lift of their revisions or without: at a raise step one, at an abandoning after the table
// step those of the raises that are left, both with a lift if the table changed; and at one before it, without a lift, all that are set. All
// are tested before one is altered, so a refusal alters nothing; the test gives the nodes' places, so no label is searched for twice. Leans on
// nodes, and on columns for the labels.
ghost use Rattle.std.specs.Prelude.{◌≡◌, ◌+◌, ◌≤◌, take, is_ok, IfOk, IfErr};
ghost use Rattle.query.specs.Query.{write_count};
ghost use Rattle.rules.specs.Nodes.{retired};
ghost use Rattle.rules.specs.Memory.{current, store_in, with_store};
ghost use Rattle.hall.specs.declared.refusal.Refusal.TheVariants.{Unsound};
ghost use Rattle.columns.specs.MarkedContracts.{marked_query};
ghost use Rattle.nodes.specs.NodeContracts.{Fit, attempt, tried};
ghost use Rattle.writing.specs.WriteContracts.{labels_from, is_found, places_of, taken_off, CanTakeOff};

use columns::marked::Marked;
use hall::{Hall, Refusal};

// Where the write's n nodes from number `from` on stand, if a mark can be taken off each of them; behind the n places there are zeros.
#[tactic(auto, using(crate::proofs::Retiring::few_marked))]
pub fn can_retire(
    nodes: &[u32],
    query: &Marked,
    from: usize,
    n: usize,
    lift: bool,
) -> Result<[usize; Hall::LOOKS], Refusal>
    requires fit { Fit nodes.now }
    requires within { from + n ≤ write_count (marked_query query.now) }
    ensures found { is_ok result ≡ is_found (retired current lift (labels_from (marked_query query.now) from n) (store_in current nodes.now)) }
    ensures places { IfOk result (λ places. take n places ≡ places_of (labels_from (marked_query query.now) from n) (store_in current nodes.now)) }
    ensures refusal { IfErr result (λ refusal. refusal ≡ Unsound) }
{
    let mut places = [0; Hall::LOOKS];
    // By numbers: a proof knows nothing of what is written by way of an adapter of `iter_mut`.
    for j in 0..n {
        let label = query.write_label(from + j);
        places[j] = nodes::find_retirable(nodes, &label, lift)?;
    }
    Ok(places)
}

// Takes a mark off the node at each place.
fn take_off(nodes: &mut [u32], places: &[usize], lift: bool)
    requires fit { Fit nodes.old }
    requires can_take_off { CanTakeOff lift places.now (store_in current nodes.old) }
    ensures { nodes.new ≡ with_store current nodes.old (taken_off lift places.now (store_in current nodes.old)) }
{
    for place in places {
        nodes::retire(nodes, *place, lift);
    }
}

// Takes a mark off each of the write's n nodes from number `from` on. Refused, and nothing is altered, where one of them is missing, has none,
// or its revision is to be lifted and is the largest.
#[tactic(auto, using(crate::proofs::Retiring::few_marked))]
pub fn retire(
    nodes: &mut [u32],
    query: &Marked,
    from: usize,
    n: usize,
    lift: bool,
) -> Result<(), Refusal>
    requires fit { Fit nodes.old }
    requires within { from + n ≤ write_count (marked_query query.now) }
    ensures { attempt result nodes.new ≡ tried nodes.old (retired current lift (labels_from (marked_query query.now) from n) (store_in current nodes.old)) }
{
    // Many a write is abandoned before its first mark.
    if n == 0 {
        return Ok(());
    }
    let places = can_retire(nodes, query, from, n, lift)?;
    take_off(nodes, &places[..n], lift);
    Ok(())
}
