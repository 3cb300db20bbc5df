// The calls that can raise a count, for programs in C and Rust, with the tally lent along with the memories (S-7): each hands on a copy of the tally
// and stores the one that comes back. Nothing is decided here. Leans on tallied for the calls, on this crate for the three numbers; specs/Reply.antt
// says what is sent back.
#![tactic(auto, unfolding(crate::specs::Reply::sent_by_tallied))]

ghost use Rattle.std.specs.Prelude.{◌≡◌, true, false, []};
ghost use Rattle.query.specs.declared.Range.TheVariants.{None, Between};
ghost use Rattle.rules.specs.Work.{read_of, insert_of, delete_of};
ghost use Rattle.rules.specs.Memory.{mem};
ghost use Rattle.exports.specs.Reply.{sent_tallied, begin_tallied, step_tallied, abandon_tallied};

use super::Reply;
use checks::Request;
use hall::MemoriesMut;
use query::Range;
use rules::Tally;

// Begins a read.
#[unsafe(no_mangle)]
pub extern "C" fn mondzafeky_begin_read_tallied(
    table: &mut [u32],
    nodes: &mut [u32],
    answers: &mut [u32],
    clients: &mut [u32],
    tally: &mut Tally,
    client: u32,
    query: &[u32],
) -> Reply
    ensures { sent_tallied result (mem table.new nodes.new answers.new clients.new) [] tally.new ≡ begin_tallied (mem table.old nodes.old answers.old clients.old) tally.old client (read_of false None query.now) }
{
    let mut memories = MemoriesMut {
        table,
        nodes,
        answers,
        clients,
    };
    let request = Request::Read {
        counts: false,
        range: Range::None,
    };
    let c = tallied::begin(&mut memories, *tally, request, client, query);
    *tally = c.tally;
    Reply::from(c.out)
}

// Begins a read that wants only how many records there are.
#[unsafe(no_mangle)]
pub extern "C" fn mondzafeky_begin_count_tallied(
    table: &mut [u32],
    nodes: &mut [u32],
    answers: &mut [u32],
    clients: &mut [u32],
    tally: &mut Tally,
    client: u32,
    query: &[u32],
) -> Reply
    ensures { sent_tallied result (mem table.new nodes.new answers.new clients.new) [] tally.new ≡ begin_tallied (mem table.old nodes.old answers.old clients.old) tally.old client (read_of true None query.now) }
{
    let mut memories = MemoriesMut {
        table,
        nodes,
        answers,
        clients,
    };
    let request = Request::Read {
        counts: true,
        range: Range::None,
    };
    let c = tallied::begin(&mut memories, *tally, request, client, query);
    *tally = c.tally;
    Reply::from(c.out)
}

// Begins a read of the records whose value in one column is the lowest to the highest, as `mondzafeky_begin_read_within`.
#[unsafe(no_mangle)]
pub extern "C" fn mondzafeky_begin_read_within_tallied(
    table: &mut [u32],
    nodes: &mut [u32],
    answers: &mut [u32],
    clients: &mut [u32],
    tally: &mut Tally,
    client: u32,
    query: &[u32],
    column: u32,
    lowest: u32,
    highest: u32,
) -> Reply
    ensures { sent_tallied result (mem table.new nodes.new answers.new clients.new) [] tally.new ≡ begin_tallied (mem table.old nodes.old answers.old clients.old) tally.old client (read_of false (Between column lowest highest) query.now) }
{
    let mut memories = MemoriesMut {
        table,
        nodes,
        answers,
        clients,
    };
    let request = Request::Read {
        counts: false,
        range: Range::Between {
            column,
            lowest,
            highest,
        },
    };
    let c = tallied::begin(&mut memories, *tally, request, client, query);
    *tally = c.tally;
    Reply::from(c.out)
}

// Begins a read that wants only how many these are.
#[unsafe(no_mangle)]
pub extern "C" fn mondzafeky_begin_count_within_tallied(
    table: &mut [u32],
    nodes: &mut [u32],
    answers: &mut [u32],
    clients: &mut [u32],
    tally: &mut Tally,
    client: u32,
    query: &[u32],
    column: u32,
    lowest: u32,
    highest: u32,
) -> Reply
    ensures { sent_tallied result (mem table.new nodes.new answers.new clients.new) [] tally.new ≡ begin_tallied (mem table.old nodes.old answers.old clients.old) tally.old client (read_of true (Between column lowest highest) query.now) }
{
    let mut memories = MemoriesMut {
        table,
        nodes,
        answers,
        clients,
    };
    let request = Request::Read {
        counts: true,
        range: Range::Between {
            column,
            lowest,
            highest,
        },
    };
    let c = tallied::begin(&mut memories, *tally, request, client, query);
    *tally = c.tally;
    Reply::from(c.out)
}

// Begins an insert of a record.
#[unsafe(no_mangle)]
pub extern "C" fn mondzafeky_begin_insert_tallied(
    table: &mut [u32],
    nodes: &mut [u32],
    answers: &mut [u32],
    clients: &mut [u32],
    tally: &mut Tally,
    client: u32,
    query: &[u32],
) -> Reply
    ensures { sent_tallied result (mem table.new nodes.new answers.new clients.new) [] tally.new ≡ begin_tallied (mem table.old nodes.old answers.old clients.old) tally.old client (insert_of query.now) }
{
    let mut memories = MemoriesMut {
        table,
        nodes,
        answers,
        clients,
    };
    let c = tallied::begin(&mut memories, *tally, Request::Insert, client, query);
    *tally = c.tally;
    Reply::from(c.out)
}

// Begins a delete of every record in the query's subspace.
#[unsafe(no_mangle)]
pub extern "C" fn mondzafeky_begin_delete_tallied(
    table: &mut [u32],
    nodes: &mut [u32],
    answers: &mut [u32],
    clients: &mut [u32],
    tally: &mut Tally,
    client: u32,
    query: &[u32],
) -> Reply
    ensures { sent_tallied result (mem table.new nodes.new answers.new clients.new) [] tally.new ≡ begin_tallied (mem table.old nodes.old answers.old clients.old) tally.old client (delete_of query.now) }
{
    let mut memories = MemoriesMut {
        table,
        nodes,
        answers,
        clients,
    };
    let c = tallied::begin(&mut memories, *tally, Request::Delete, client, query);
    *tally = c.tally;
    Reply::from(c.out)
}

// One step of what is under way at the desk.
#[unsafe(no_mangle)]
pub extern "C" fn mondzafeky_step_tallied(
    table: &mut [u32],
    nodes: &mut [u32],
    answers: &mut [u32],
    clients: &mut [u32],
    tray: &mut [u32],
    tally: &mut Tally,
    client: u32,
) -> Reply
    ensures { sent_tallied result (mem table.new nodes.new answers.new clients.new) tray.new tally.new ≡ step_tallied (mem table.old nodes.old answers.old clients.old) tally.old client tray.old }
{
    let mut memories = MemoriesMut {
        table,
        nodes,
        answers,
        clients,
    };
    let c = tallied::step(&mut memories, tray, *tally, client);
    *tally = c.tally;
    Reply::from(c.out)
}

// Abandons what is under way at the desk; a write past its table step is brought to its end.
#[unsafe(no_mangle)]
pub extern "C" fn mondzafeky_abandon_tallied(
    table: &mut [u32],
    nodes: &mut [u32],
    answers: &mut [u32],
    clients: &mut [u32],
    tally: &mut Tally,
    client: u32,
) -> Reply
    ensures { sent_tallied result (mem table.new nodes.new answers.new clients.new) [] tally.new ≡ abandon_tallied (mem table.old nodes.old answers.old clients.old) tally.old client }
{
    let mut memories = MemoriesMut {
        table,
        nodes,
        answers,
        clients,
    };
    let c = tallied::abandon(&mut memories, *tally, client);
    *tally = c.tally;
    Reply::from(c.out)
}
