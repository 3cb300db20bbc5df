// The calls for programs in C and Rust: each of the twelve public calls over plain slices and numbers, under a name of its own. Nothing is decided
// here: an export makes one call of the library and turns its outcome into three numbers. Leans on calls; specs/Reply.antt
// says what is sent back. The calls that may be lent a tally stand in lent.rt. Four slices, and a function for each call: C lends and calls them so.
#![tactic(auto, unfolding(crate::specs::Reply::sent_by, crate::specs::Reply::sent_by_step))]

ghost use Rattle.std.specs.Prelude.{◌≡◌, true, false};
ghost use Rattle.query.specs.declared.Range.TheVariants.{None, Between};
ghost use Rattle.rules.specs.Work.{read_of, insert_of, delete_of};
ghost use Rattle.rules.specs.Memory.{mem};
ghost use Rattle.rules.specs.Calls.{open_result, begin_result, step_result, abandon_result, evict_answer_result, evict_node_result, renew_result};
ghost use Rattle.exports.specs.Reply.{reply_of, sent, sent_by, sent_with, sent_by_step};

use hall::{Hall, MemoriesMut};
use rules::Outcome;

pub mod lent; // lent.rt: the calls that are lent a tally

// What a caller in another language gets. Its memories hold the rest.
#[repr(C)]
#[derive(Clone, Copy)]
pub struct Reply {
    // 0 accepted, 1 to 11 but 7, and 14, and 15 where a tally is lent, refused, 12 long, 13 full.
    pub number: u32,
    // How many records lie in the tray, or a count.
    pub count: u32,
    // 0 nothing ended, or the number says it; 1 answered from file, 2 from the table; 3 a write ended and changed the table, 4 it did not.
    pub ending: u32,
}

// The three numbers of an outcome.
impl From<Outcome> for Reply {
    ghost from_gives = { λ o r. r ≡ reply_of o };

    #[tactic(auto, unfolding(crate::specs::Reply::reply_of, rules::specs::Outcome::number, rules::specs::Outcome::count, rules::specs::Outcome::ending))]
    fn from(out: Outcome) -> Reply {
        let (number, count, ending) = match out {
            Outcome::Refused(number) => (number, 0, 0),
            Outcome::Accepted => (0, 0, 0),
            Outcome::Answered {
                count,
                cached: true,
            } => (0, count, 1),
            Outcome::Answered {
                count,
                cached: false,
            } => (0, count, 2),
            Outcome::Long => (Hall::ENDED_LONG, 0, 0),
            Outcome::Ended { changed: true } => (0, 0, 3),
            Outcome::Ended { changed: false } => (0, 0, 4),
            Outcome::Full => (Hall::ENDED_FULL, 0, 0),
        };
        Reply {
            number,
            count,
            ending,
        }
    }
}

// Opens a hall of k columns: no records, no nodes, no answers, every desk idle.
#[unsafe(no_mangle)]
pub extern "C" fn mondzafeky_open(
    table: &mut [u32],
    nodes: &mut [u32],
    answers: &mut [u32],
    clients: &mut [u32],
    k: u32,
) -> Reply
    ensures { sent result (mem table.new nodes.new answers.new clients.new) ≡ sent_by (open_result (mem table.old nodes.old answers.old clients.old) k) }
{
    let mut memories = MemoriesMut {
        table,
        nodes,
        answers,
        clients,
    };
    let out = calls::opening::open(&mut memories, k);
    Reply::from(out)
}

// Begins a read.
#[unsafe(no_mangle)]
pub extern "C" fn mondzafeky_begin_read(
    table: &mut [u32],
    nodes: &mut [u32],
    answers: &mut [u32],
    clients: &mut [u32],
    client: u32,
    query: &[u32],
) -> Reply
    ensures { sent result (mem table.new nodes.new answers.new clients.new) ≡ sent_by (begin_result (mem table.old nodes.old answers.old clients.old) client (read_of false None query.now)) }
{
    let mut memories = MemoriesMut {
        table,
        nodes,
        answers,
        clients,
    };
    let out = calls::begins::begin_read(&mut memories, client, query);
    Reply::from(out)
}

// Begins a read that wants only how many records there are.
#[unsafe(no_mangle)]
pub extern "C" fn mondzafeky_begin_count(
    table: &mut [u32],
    nodes: &mut [u32],
    answers: &mut [u32],
    clients: &mut [u32],
    client: u32,
    query: &[u32],
) -> Reply
    ensures { sent result (mem table.new nodes.new answers.new clients.new) ≡ sent_by (begin_result (mem table.old nodes.old answers.old clients.old) client (read_of true None query.now)) }
{
    let mut memories = MemoriesMut {
        table,
        nodes,
        answers,
        clients,
    };
    let out = calls::begins::begin_count(&mut memories, client, query);
    Reply::from(out)
}

// Begins a read of the records that fit the query and whose value in one column, which is given by its number from 0, is the lowest to the
// highest, both included.
#[unsafe(no_mangle)]
pub extern "C" fn mondzafeky_begin_read_within(
    table: &mut [u32],
    nodes: &mut [u32],
    answers: &mut [u32],
    clients: &mut [u32],
    client: u32,
    query: &[u32],
    column: u32,
    lowest: u32,
    highest: u32,
) -> Reply
    ensures { sent result (mem table.new nodes.new answers.new clients.new) ≡ sent_by (begin_result (mem table.old nodes.old answers.old clients.old) client (read_of false (Between column lowest highest) query.now)) }
{
    let mut memories = MemoriesMut {
        table,
        nodes,
        answers,
        clients,
    };
    let out = calls::begins::begin_read_within(
        &mut memories,
        client,
        query,
        column,
        lowest,
        highest,
    );
    Reply::from(out)
}

// Begins a read that wants only how many these are.
#[unsafe(no_mangle)]
pub extern "C" fn mondzafeky_begin_count_within(
    table: &mut [u32],
    nodes: &mut [u32],
    answers: &mut [u32],
    clients: &mut [u32],
    client: u32,
    query: &[u32],
    column: u32,
    lowest: u32,
    highest: u32,
) -> Reply
    ensures { sent result (mem table.new nodes.new answers.new clients.new) ≡ sent_by (begin_result (mem table.old nodes.old answers.old clients.old) client (read_of true (Between column lowest highest) query.now)) }
{
    let mut memories = MemoriesMut {
        table,
        nodes,
        answers,
        clients,
    };
    let out = calls::begins::begin_count_within(
        &mut memories,
        client,
        query,
        column,
        lowest,
        highest,
    );
    Reply::from(out)
}

// Begins an insert of a record.
#[unsafe(no_mangle)]
pub extern "C" fn mondzafeky_begin_insert(
    table: &mut [u32],
    nodes: &mut [u32],
    answers: &mut [u32],
    clients: &mut [u32],
    client: u32,
    query: &[u32],
) -> Reply
    ensures { sent result (mem table.new nodes.new answers.new clients.new) ≡ sent_by (begin_result (mem table.old nodes.old answers.old clients.old) client (insert_of query.now)) }
{
    let mut memories = MemoriesMut {
        table,
        nodes,
        answers,
        clients,
    };
    let out = calls::begins::begin_insert(&mut memories, client, query);
    Reply::from(out)
}

// Begins a delete of every record in the query's subspace.
#[unsafe(no_mangle)]
pub extern "C" fn mondzafeky_begin_delete(
    table: &mut [u32],
    nodes: &mut [u32],
    answers: &mut [u32],
    clients: &mut [u32],
    client: u32,
    query: &[u32],
) -> Reply
    ensures { sent result (mem table.new nodes.new answers.new clients.new) ≡ sent_by (begin_result (mem table.old nodes.old answers.old clients.old) client (delete_of query.now)) }
{
    let mut memories = MemoriesMut {
        table,
        nodes,
        answers,
        clients,
    };
    let out = calls::begins::begin_delete(&mut memories, client, query);
    Reply::from(out)
}

// One step of what is under way at the desk.
#[unsafe(no_mangle)]
pub extern "C" fn mondzafeky_step(
    table: &mut [u32],
    nodes: &mut [u32],
    answers: &mut [u32],
    clients: &mut [u32],
    tray: &mut [u32],
    client: u32,
) -> Reply
    ensures { sent_with result (mem table.new nodes.new answers.new clients.new) tray.new ≡ sent_by_step (step_result (mem table.old nodes.old answers.old clients.old) tray.old client) }
{
    let mut memories = MemoriesMut {
        table,
        nodes,
        answers,
        clients,
    };
    let out = calls::desks::step(&mut memories, tray, client);
    Reply::from(out)
}

// Abandons what is under way at the desk: a read, or a write; a write past its table step is brought to its end.
#[unsafe(no_mangle)]
pub extern "C" fn mondzafeky_abandon(
    table: &mut [u32],
    nodes: &mut [u32],
    answers: &mut [u32],
    clients: &mut [u32],
    client: u32,
) -> Reply
    ensures { sent result (mem table.new nodes.new answers.new clients.new) ≡ sent_by (abandon_result (mem table.old nodes.old answers.old clients.old) client) }
{
    let mut memories = MemoriesMut {
        table,
        nodes,
        answers,
        clients,
    };
    let out = calls::desks::abandon(&mut memories, client);
    Reply::from(out)
}

// Puts out the filed answer at a place, 0 the oldest.
#[unsafe(no_mangle)]
pub extern "C" fn mondzafeky_evict_answer(
    table: &mut [u32],
    nodes: &mut [u32],
    answers: &mut [u32],
    clients: &mut [u32],
    place: u32,
) -> Reply
    ensures { sent result (mem table.new nodes.new answers.new clients.new) ≡ sent_by (evict_answer_result (mem table.old nodes.old answers.old clients.old) place) }
{
    let mut memories = MemoriesMut {
        table,
        nodes,
        answers,
        clients,
    };
    let out = calls::upkeep::evict_answer(&mut memories, place);
    Reply::from(out)
}

// Puts out the node at a place, which has no pending write.
#[unsafe(no_mangle)]
pub extern "C" fn mondzafeky_evict_node(
    table: &mut [u32],
    nodes: &mut [u32],
    answers: &mut [u32],
    clients: &mut [u32],
    place: u32,
) -> Reply
    ensures { sent result (mem table.new nodes.new answers.new clients.new) ≡ sent_by (evict_node_result (mem table.old nodes.old answers.old clients.old) place) }
{
    let mut memories = MemoriesMut {
        table,
        nodes,
        answers,
        clients,
    };
    let out = calls::upkeep::evict_node(&mut memories, place);
    Reply::from(out)
}

// With every desk idle: empties answers and nodes; the table stays.
#[unsafe(no_mangle)]
pub extern "C" fn mondzafeky_renew(
    table: &mut [u32],
    nodes: &mut [u32],
    answers: &mut [u32],
    clients: &mut [u32],
) -> Reply
    ensures { sent result (mem table.new nodes.new answers.new clients.new) ≡ sent_by (renew_result (mem table.old nodes.old answers.old clients.old)) }
{
    let mut memories = MemoriesMut {
        table,
        nodes,
        answers,
        clients,
    };
    let out = calls::upkeep::renew(&mut memories);
    Reply::from(out)
}
