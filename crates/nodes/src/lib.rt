// Functions over the nodes memory: the floor at 0, the count at 1, nodes of 8 numbers from place 8 on (docs/LAYOUT.md). Each finds a node by
// one scan. What they leave stands in the rules' Nodes.antt, read and written back by the rules' Memory.antt.
// They take slices: over a struct that keeps `Fit`, each that writes would have to say that its reference is the same one and to show `Fit` again,
// and those that only read would need a second struct.
#![tactic(auto)]

ghost use Rattle.std.specs.Prelude.{◌≡◌, true, [], ◌+◌, ◌*◌, ◌≤◌, ◌<◌, length, get_or, position, IfOk};
ghost use Rattle.std.specs.List.{list_any};
ghost use Rattle.lists.specs.Lists.{header};
ghost use Rattle.rules.specs.Nodes.{store, has_label, evict_node, added, make_room, ensured, announced};
ghost use Rattle.rules.specs.Nodes.{is_free, pending, revision, is_high, is_worn};
ghost use Rattle.query.specs.Encoding.{label_width};
ghost use Rattle.query.specs.Shape.{Shape};
ghost use Rattle.rules.specs.Layout.{max_nodes, max_revision, first_floor, node_count_offset, node_width};
ghost use Rattle.rules.specs.Memory.{current, store_in, with_store};
ghost use Rattle.nodes.specs.NodeContracts.{Fit, attempt, tried, looked, placed, retirable_place, retired_at};

use hall::{Hall, Refusal};

// How many nodes are looked at together where all may have to be.
const BLOCK: usize = 64;

// What a look saw of a node: its revision and its pending writes.
#[derive(Clone, Copy, Debug, PartialEq, Eq)]
pub struct Sight {
    pub revision: u32,
    pub pending: u32,
}

// Where node i begins, and where i nodes end.
fn start_of(i: usize) -> usize
    requires { i ≤ max_nodes }
    ensures { result ≡ header + i * node_width }
{
    Hall::HEADER + i * Hall::NODE_WIDTH
}

// The nodes.
fn nodes_in(nodes: &[u32]) -> &[[u32; Hall::NODE_WIDTH]]
    requires { Fit nodes.now }
    ensures nodes { result.now ≡ (store_in current nodes.now).nodes }
    ensures count { length result.now ≡ get_or nodes.now node_count_offset 0 }
{
    let end = start_of(nodes[Hall::NODE_COUNT_OFFSET] as usize);
    nodes[Hall::HEADER..end]
        .as_chunks::<{ Hall::NODE_WIDTH }>()
        .0
}

// Whether the node has the label. Tags and first value are compared at once: many nodes agree in one of them and few in both, so a branch on each
// would be badly predicted.
fn has_label(node: &[u32; Hall::NODE_WIDTH], label: &[u32]) -> bool
    requires { length label.now ≡ label_width }
    ensures { result ≡ has_label label.now node.now }
{
    let first = (node[0] ^ label[0]) | (node[1] ^ label[1]);
    if first != 0 {
        return false;
    }
    let rest = (node[2] ^ label[2]) | (node[3] ^ label[3]) | (node[4] ^ label[4]);
    rest == 0
}

// The place of the label's node, where it is there.
fn find(nodes: &[u32], label: &[u32]) -> Option<usize>
    requires { Fit nodes.now × (length label.now ≡ label_width) }
    ensures { result ≡ position (has_label label.now) (store_in current nodes.now).nodes }
{
    nodes_in(nodes)
        .iter()
        .position(|node| has_label(node, label))
}

// Whether node i has no pending write.
#[tactic(auto, unfolding(rules::specs::Nodes::is_free, rules::specs::Nodes::pending))]
pub fn is_free(nodes: &[u32], i: usize) -> bool
    requires { Fit nodes.now × (i < get_or nodes.now node_count_offset 0) }
    ensures { result ≡ is_free (get_or (store_in current nodes.now).nodes i []) }
{
    nodes_in(nodes)[i][Hall::PENDING_OFFSET] == 0
}

// The place of the oldest node with no pending write, where there is one.
#[tactic(auto, unfolding(rules::specs::Nodes::is_free, rules::specs::Nodes::pending))]
fn find_free(nodes: &[u32]) -> Option<usize>
    requires { Fit nodes.now }
    ensures { result ≡ position is_free (store_in current nodes.now).nodes }
{
    nodes_in(nodes)
        .iter()
        .position(|node| node[Hall::PENDING_OFFSET] == 0)
}

// Takes node i out; the floor becomes its revision if that is larger.
pub fn evict(nodes: &mut [u32], i: usize)
    requires { Fit nodes.old × (i < get_or nodes.old node_count_offset 0) }
    ensures { nodes.new ≡ with_store current nodes.old (evict_node i (store_in current nodes.old)) }
{
    let n = nodes[Hall::NODE_COUNT_OFFSET];
    let floor = nodes[Hall::FLOOR_OFFSET];
    let at = start_of(i);
    let higher = floor.max(nodes[at + Hall::REVISION_OFFSET]);
    words::remove(nodes, at, Hall::NODE_WIDTH, start_of(n as usize));
    nodes[Hall::NODE_COUNT_OFFSET] = n - 1;
    nodes[Hall::FLOOR_OFFSET] = higher;
}

// Adds the label's node last, with the floor as revision and no pending write.
fn add(nodes: &mut [u32], label: &[u32])
    requires { Fit nodes.old × ((get_or nodes.old node_count_offset 0 < max_nodes) × (length label.now ≡ label_width)) }
    ensures { nodes.new ≡ with_store current nodes.old (added label.now (store_in current nodes.old)) }
{
    let mut node = [0; Hall::NODE_WIDTH];
    node[..Hall::LABEL_WIDTH].copy_from_slice(label);
    node[Hall::REVISION_OFFSET] = nodes[Hall::FLOOR_OFFSET];
    let n = nodes[Hall::NODE_COUNT_OFFSET];
    let at = start_of(n as usize);
    nodes[at..at + Hall::NODE_WIDTH].copy_from_slice(&node);
    nodes[Hall::NODE_COUNT_OFFSET] = n + 1;
}

// Makes room for one node more: where 1,024 are there, the oldest with no pending write leaves.
fn make_room(nodes: &mut [u32]) -> Result<(), Refusal>
    requires { Fit nodes.old }
    ensures left { attempt result nodes.new ≡ tried nodes.old (make_room (store_in current nodes.old)) }
    ensures room { IfOk result (λ _. Fit nodes.new × (get_or nodes.new node_count_offset 0 < max_nodes)) }
{
    if nodes[Hall::NODE_COUNT_OFFSET] < Hall::NODES {
        return Ok(());
    }
    let i = find_free(nodes).ok_or(Refusal::Unsound)?;
    evict(nodes, i);
    Ok(())
}

// Makes the label's node present; its place.
fn ensure(nodes: &mut [u32], label: &[u32]) -> Result<usize, Refusal>
    requires { Fit nodes.old × (length label.now ≡ label_width) }
    ensures left { attempt result nodes.new ≡ placed label.now nodes.old (ensured label.now (store_in current nodes.old)) }
    ensures there { IfOk result (λ i. Fit nodes.new × (i < get_or nodes.new node_count_offset 0)) }
{
    if let Some(i) = find(nodes, label) {
        return Ok(i);
    }
    make_room(nodes)?;
    let i = nodes[Hall::NODE_COUNT_OFFSET] as usize;
    add(nodes, label);
    Ok(i)
}

// Looks at the label's node, which is added where it is missing.
pub fn look(nodes: &mut [u32], label: &[u32]) -> Result<Sight, Refusal>
    requires { Fit nodes.old × (length label.now ≡ label_width) }
    ensures { attempt result nodes.new ≡ looked label.now nodes.old (ensured label.now (store_in current nodes.old)) }
{
    let i = ensure(nodes, label)?;
    let node = &nodes_in(nodes)[i];
    Ok(Sight {
        revision: node[Hall::REVISION_OFFSET],
        pending: node[Hall::PENDING_OFFSET],
    })
}

// One pending write more at the label's node, which is added where it is missing; not where there is no room, or 12 are pending already.
pub fn announce(nodes: &mut [u32], label: &[u32]) -> Result<(), Refusal>
    requires { Fit nodes.old × (length label.now ≡ label_width) }
    ensures { attempt result nodes.new ≡ tried nodes.old (announced label.now (store_in current nodes.old)) }
{
    let i = ensure(nodes, label)?;
    let at = start_of(i) + Hall::PENDING_OFFSET;
    if Hall::PENDING <= nodes[at] {
        return Err(Refusal::Unsound);
    }
    nodes[at] += 1;
    Ok(())
}

// The place of the label's node, where it is there, has a pending write, and its revision can be lifted if it is to be.
pub fn find_retirable(nodes: &[u32], label: &[u32], lift: bool) -> Result<usize, Refusal>
    requires { Fit nodes.now × (length label.now ≡ label_width) }
    ensures { result ≡ retirable_place lift label.now (store_in current nodes.now) }
{
    let i = find(nodes, label).ok_or(Refusal::Unsound)?;
    let node = &nodes_in(nodes)[i];
    if node[Hall::PENDING_OFFSET] == 0 {
        return Err(Refusal::Unsound);
    }
    if lift && Hall::LARGEST_REVISION <= node[Hall::REVISION_OFFSET] {
        return Err(Refusal::Unsound);
    }
    Ok(i)
}

// One pending write fewer at node i; with a lift its revision goes up by one too.
pub fn retire(nodes: &mut [u32], i: usize, lift: bool)
    requires fit { Fit nodes.old × ((i < get_or nodes.old node_count_offset 0) × (0 < pending (get_or (store_in current nodes.old).nodes i []))) }
    requires i_bound { lift ≡ true → revision (get_or (store_in current nodes.old).nodes i []) < max_revision current }
    ensures { nodes.new ≡ with_store current nodes.old (retired_at lift i (store_in current nodes.old)) }
{
    let at = start_of(i);
    nodes[at + Hall::PENDING_OFFSET] -= 1;
    if lift {
        nodes[at + Hall::REVISION_OFFSET] += 1;
    }
}

// Whether one of these nodes has a revision too high for another write. All are looked at, with no branch, so that the machine can look at several
// at once.
fn some_high(nodes: &[[u32; Hall::NODE_WIDTH]]) -> bool
    ensures { (sh : Shape) → result ≡ list_any (is_high current sh) nodes.now }
{
    let highest = nodes
        .iter()
        .fold(0, |high, node| high.max(node[Hall::REVISION_OFFSET]));
    Hall::WORN_ABOVE < highest
}

// Whether the floor or a revision is too high for another write. Nearly always none is; the first block of nodes that has one ends the search.
pub fn is_worn(nodes: &[u32]) -> bool
    requires { Fit nodes.now }
    ensures { (sh : Shape) → result ≡ is_worn current sh (store_in current nodes.now) }
{
    if Hall::WORN_ABOVE < nodes[Hall::FLOOR_OFFSET] {
        return true;
    }
    nodes_in(nodes).chunks(BLOCK).any(some_high)
}

// Takes every node out; the floor is 1.
pub fn empty(nodes: &mut [u32])
    requires { Fit nodes.old }
    ensures { nodes.new ≡ with_store current nodes.old (store first_floor []) }
{
    let end = start_of(nodes[Hall::NODE_COUNT_OFFSET] as usize);
    nodes[Hall::HEADER..end].fill(0);
    nodes[Hall::NODE_COUNT_OFFSET] = 0;
    nodes[Hall::FLOOR_OFFSET] = Hall::FIRST_FLOOR;
}
