// The static library for programs in C and Rust: what tools/archive makes libmondzafeky.a of. Each function hands its arguments on to the function of the
// same name in `exports`, and promises the same: its clauses are that function's, word for word. Nothing else is done here. (A library of Rattle
// is for crates or for C, and not for both.) The calls that are lent a tally stand in lent.rt. Four slices, and a function for each call: C's
// interface.
#![tactic(auto)]

ghost use Rattle.std.specs.Prelude.{◌≡◌, true, false};
ghost use Rattle.query.specs.declared.Range.TheVariants.{None, Between};
ghost use Rattle.rules.specs.Work.{read_of, insert_of, delete_of};
ghost use Rattle.rules.specs.Memory.{mem};
ghost use Rattle.rules.specs.Calls.{open_result, begin_result, step_result, abandon_result, evict_answer_result, evict_node_result, renew_result};
ghost use Rattle.exports.specs.Reply.{sent, sent_by, sent_with, sent_by_step};

use exports::Reply;

pub mod lent; // lent.rt: the calls that are lent a tally

// Opens a hall of k columns: no records, no nodes, no answers, every desk idle.
#[unsafe(no_mangle)]
pub extern "C" fn mondzafeky_open(
    table: &mut [u32],
    nodes: &mut [u32],
    answers: &mut [u32],
    clients: &mut [u32],
    k: u32,
) -> Reply
    ensures { sent result (mem table.new nodes.new answers.new clients.new) ≡ sent_by (open_result (mem table.old nodes.old answers.old clients.old) k) }
{
    exports::mondzafeky_open(table, nodes, answers, clients, k)
}

// Begins a read.
#[unsafe(no_mangle)]
pub extern "C" fn mondzafeky_begin_read(
    table: &mut [u32],
    nodes: &mut [u32],
    answers: &mut [u32],
    clients: &mut [u32],
    client: u32,
    query: &[u32],
) -> Reply
    ensures { sent result (mem table.new nodes.new answers.new clients.new) ≡ sent_by (begin_result (mem table.old nodes.old answers.old clients.old) client (read_of false None query.now)) }
{
    exports::mondzafeky_begin_read(table, nodes, answers, clients, client, query)
}

// Begins a read that wants only how many records there are.
#[unsafe(no_mangle)]
pub extern "C" fn mondzafeky_begin_count(
    table: &mut [u32],
    nodes: &mut [u32],
    answers: &mut [u32],
    clients: &mut [u32],
    client: u32,
    query: &[u32],
) -> Reply
    ensures { sent result (mem table.new nodes.new answers.new clients.new) ≡ sent_by (begin_result (mem table.old nodes.old answers.old clients.old) client (read_of true None query.now)) }
{
    exports::mondzafeky_begin_count(table, nodes, answers, clients, client, query)
}

// Begins a read of the records that fit the query and whose value in one column, which is given by its number from 0, is the lowest to the
// highest, both included.
#[unsafe(no_mangle)]
pub extern "C" fn mondzafeky_begin_read_within(
    table: &mut [u32],
    nodes: &mut [u32],
    answers: &mut [u32],
    clients: &mut [u32],
    client: u32,
    query: &[u32],
    column: u32,
    lowest: u32,
    highest: u32,
) -> Reply
    ensures { sent result (mem table.new nodes.new answers.new clients.new) ≡ sent_by (begin_result (mem table.old nodes.old answers.old clients.old) client (read_of false (Between column lowest highest) query.now)) }
{
    exports::mondzafeky_begin_read_within(
        table, nodes, answers, clients, client, query, column, lowest, highest,
    )
}

// Begins a read that wants only how many these are.
#[unsafe(no_mangle)]
pub extern "C" fn mondzafeky_begin_count_within(
    table: &mut [u32],
    nodes: &mut [u32],
    answers: &mut [u32],
    clients: &mut [u32],
    client: u32,
    query: &[u32],
    column: u32,
    lowest: u32,
    highest: u32,
) -> Reply
    ensures { sent result (mem table.new nodes.new answers.new clients.new) ≡ sent_by (begin_result (mem table.old nodes.old answers.old clients.old) client (read_of true (Between column lowest highest) query.now)) }
{
    exports::mondzafeky_begin_count_within(
        table, nodes, answers, clients, client, query, column, lowest, highest,
    )
}

// Begins an insert of a record.
#[unsafe(no_mangle)]
pub extern "C" fn mondzafeky_begin_insert(
    table: &mut [u32],
    nodes: &mut [u32],
    answers: &mut [u32],
    clients: &mut [u32],
    client: u32,
    query: &[u32],
) -> Reply
    ensures { sent result (mem table.new nodes.new answers.new clients.new) ≡ sent_by (begin_result (mem table.old nodes.old answers.old clients.old) client (insert_of query.now)) }
{
    exports::mondzafeky_begin_insert(table, nodes, answers, clients, client, query)
}

// Begins a delete of every record in the query's subspace.
#[unsafe(no_mangle)]
pub extern "C" fn mondzafeky_begin_delete(
    table: &mut [u32],
    nodes: &mut [u32],
    answers: &mut [u32],
    clients: &mut [u32],
    client: u32,
    query: &[u32],
) -> Reply
    ensures { sent result (mem table.new nodes.new answers.new clients.new) ≡ sent_by (begin_result (mem table.old nodes.old answers.old clients.old) client (delete_of query.now)) }
{
    exports::mondzafeky_begin_delete(table, nodes, answers, clients, client, query)
}

// One step of what is under way at the desk.
#[unsafe(no_mangle)]
pub extern "C" fn mondzafeky_step(
    table: &mut [u32],
    nodes: &mut [u32],
    answers: &mut [u32],
    clients: &mut [u32],
    tray: &mut [u32],
    client: u32,
) -> Reply
    ensures { sent_with result (mem table.new nodes.new answers.new clients.new) tray.new ≡ sent_by_step (step_result (mem table.old nodes.old answers.old clients.old) tray.old client) }
{
    exports::mondzafeky_step(table, nodes, answers, clients, tray, client)
}

// Abandons what is under way at the desk: a read, or a write; a write past its table step is brought to its end.
#[unsafe(no_mangle)]
pub extern "C" fn mondzafeky_abandon(
    table: &mut [u32],
    nodes: &mut [u32],
    answers: &mut [u32],
    clients: &mut [u32],
    client: u32,
) -> Reply
    ensures { sent result (mem table.new nodes.new answers.new clients.new) ≡ sent_by (abandon_result (mem table.old nodes.old answers.old clients.old) client) }
{
    exports::mondzafeky_abandon(table, nodes, answers, clients, client)
}

// Puts out the filed answer at a place, 0 the oldest.
#[unsafe(no_mangle)]
pub extern "C" fn mondzafeky_evict_answer(
    table: &mut [u32],
    nodes: &mut [u32],
    answers: &mut [u32],
    clients: &mut [u32],
    place: u32,
) -> Reply
    ensures { sent result (mem table.new nodes.new answers.new clients.new) ≡ sent_by (evict_answer_result (mem table.old nodes.old answers.old clients.old) place) }
{
    exports::mondzafeky_evict_answer(table, nodes, answers, clients, place)
}

// Puts out the node at a place, which has no pending write.
#[unsafe(no_mangle)]
pub extern "C" fn mondzafeky_evict_node(
    table: &mut [u32],
    nodes: &mut [u32],
    answers: &mut [u32],
    clients: &mut [u32],
    place: u32,
) -> Reply
    ensures { sent result (mem table.new nodes.new answers.new clients.new) ≡ sent_by (evict_node_result (mem table.old nodes.old answers.old clients.old) place) }
{
    exports::mondzafeky_evict_node(table, nodes, answers, clients, place)
}

// With every desk idle: empties answers and nodes; the table stays.
#[unsafe(no_mangle)]
pub extern "C" fn mondzafeky_renew(
    table: &mut [u32],
    nodes: &mut [u32],
    answers: &mut [u32],
    clients: &mut [u32],
) -> Reply
    ensures { sent result (mem table.new nodes.new answers.new clients.new) ≡ sent_by (renew_result (mem table.old nodes.old answers.old clients.old)) }
{
    exports::mondzafeky_renew(table, nodes, answers, clients)
}
