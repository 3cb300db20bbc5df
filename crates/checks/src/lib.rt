// The refusals: for each call the first that applies (1, 2, 14, 3, 4 and so on). Each check reads the four lent memories, in any contents and of any
// lengths, and tests in the order of the rules. What a check has read and a call goes on with, it hands on: what was read of a client, or the key
// of what begins. The rules stand in rules (Refusals), parts of them and what begins in specs/CheckContracts.antt.
#![tactic(auto)]

ghost use Rattle.std.specs.Prelude.{◌≡◌, Bool, false, true, List, ℕ, ◌≤◌, IfOk, OnOk, length};
ghost use Rattle.query.specs.Shape.{Shape, shape_of, max_columns};
ghost use Rattle.query.specs.Encoding.{is_query};
ghost use Rattle.rules.specs.Work.{ask_fault, read_of, insert_of, delete_of, ask_of, key_of, work_of, kind_of};
ghost use Rattle.rules.specs.Memory.{current};
ghost use Rattle.rules.specs.Refusals.{shape, is_short, bad_columns, is_unsound, at_client, begin_code, step_code, abandon_code, renew_code};
ghost use Rattle.clients.specs.ClientContracts.{IsHeld};
ghost use Rattle.nodes.specs.NodeContracts;
ghost use Rattle.hall.specs.Kind.{kind_number};
ghost use Rattle.hall.specs.Memories.{lent};
ghost use Rattle.hall.specs.Refusal.{code_of};
ghost use Rattle.checks.specs.CheckContracts.{sound_code, request_of, numbered_request, columns_code, asked_code, fresh_code, desk_code, answer_code, node_code, evict_code};

use clients::Held;
use columns::queries::Query;
use hall::{Hall, Kind, Memories, Refusal};
use query::Range;

// ---- The memories
// Whether a number of columns is none of a hall's.
#[tactic(auto, unfolding(rules::specs::Refusals::bad_columns))]
pub fn bad_columns(k: u32) -> bool
    ensures { result ≡ bad_columns k }
{
    !(1..=Hall::COLUMNS).contains(&k)
}

// Whether k, an entry count or a filed list's length is out of range. Reads each memory once.
#[tactic(auto, using(rules::proofs::PassedChecks::long), unfolding(rules::specs::Refusals::is_unsound))]
fn is_unsound(memories: Memories<'_>) -> bool
    requires { is_short (shape (lent memories)) (lent memories) ≡ false }
    ensures { result ≡ is_unsound (lent memories.entry) }
{
    bad_columns(memories.clients[Hall::COLUMNS_OFFSET])
        || Hall::RECORDS < memories.table[Hall::RECORD_COUNT_OFFSET]
        || Hall::NODES < memories.nodes[Hall::NODE_COUNT_OFFSET]
        || Hall::ANSWERS < memories.answers[Hall::ANSWER_COUNT_OFFSET]
        || answers::some_long(memories.answers)
}

// 1 where a memory is short, 3 where one is unsound.
fn sound_check(memories: Memories<'_>) -> Result<(), Refusal>
    ensures { code_of result ≡ sound_code (lent memories.entry) }
{
    if memories.is_short() {
        return Err(Refusal::Short);
    }
    if is_unsound(memories) {
        return Err(Refusal::Unsound);
    }
    Ok(())
}

// ---- A client's desk
// What a call finds at client d of long memories: 3 unsound, 4 no such client, 6 idle, or a busy one. The client is read here, once.
#[tactic(auto, using(crate::proofs::CheckCodes::client_there), unfolding(rules::specs::Refusals::at_client, rules::specs::Refusals::no_client))]
fn at_client(memories: Memories<'_>, d: u32) -> Result<Held, Refusal>
    requires { is_short (shape (lent memories)) (lent memories) ≡ false }
    ensures code { code_of result ≡ at_client (lent memories.entry) d }
    ensures ok { IfOk result (λ held. IsHeld held memories.entry.clients.now d) }
{
    if is_unsound(memories) {
        return Err(Refusal::Unsound);
    }
    if Hall::CLIENTS <= d {
        return Err(Refusal::NoClient);
    }
    clients::read_held(memories.clients, d as usize)
}

// ---- What begins
#[derive(Clone, Copy)]
pub enum Request {
    // Whether it wants a count, and its range.
    Read { counts: bool, range: Range },
    Insert,
    Delete,
}

impl Request {
    // What begins by the number of its kind: 1 a read, 2 an insert, every other number a delete. Whether a count is wanted, and the range, are asked
    // of a read alone.
    pub fn of_kind(kind: u32, counts: bool, range: Range) -> Request
        ensures { (a : List ℕ) → request_of result a ≡ numbered_request kind counts range a }
    {
        match kind {
            Hall::READS => Request::Read { counts, range },
            Hall::INSERTS => Request::Insert,
            _ => Request::Delete,
        }
    }

    // The kind that its client keeps.
    #[tactic(auto, unfolding(rules::specs::Work::kind_of, rules::specs::Work::work_of, rules::specs::Work::change_kind))]
    pub fn kind(self) -> Kind
        ensures { (sh : Shape) (a : List ℕ) → kind_number result ≡ kind_of (work_of sh (request_of self a)) }
    {
        match self {
            Request::Read { .. } => Kind::Read,
            Request::Insert => Kind::Insert,
            Request::Delete => Kind::Delete,
        }
    }
}

// ---- Its key
// 3 where the hall's number of columns, which the key goes by, is out of range: the first of what makes memories unsound.
#[tactic(auto, unfolding(rules::specs::Refusals::bad_columns))]
fn columns_check(k: u32) -> Result<(), Refusal>
    ensures code { code_of result ≡ columns_code (shape_of k) }
    ensures ok { OnOk result (k ≤ max_columns) }
{
    if bad_columns(k) {
        return Err(Refusal::Unsound);
    }
    Ok(())
}

// The ranges that a begin takes beside a query of k columns: the column is not past the last, nor named too, and the ends are not reversed.
#[tactic(auto, using(crate::proofs::BeginKeys::named_of, crate::proofs::BeginKeys::asked_length), unfolding(rules::specs::Work::ask_fault, rules::specs::Work::ask_of, query::specs::Range::is_range, query::specs::Range::is_reversed))]
fn range_check(k: u32, asked: &[u32], range: Range) -> Result<(), Refusal>
    requires { is_query (shape_of k) asked.now ≡ true }
    ensures { (counts : Bool) → code_of result ≡ ask_fault (ask_of (shape_of k) counts range asked.now) }
{
    let Range::Between {
        column,
        lowest,
        highest,
    } = range
    else {
        return Ok(());
    };
    if k <= column || asked[2 * (column as usize)] != 0 {
        return Err(Refusal::Columns);
    }
    if highest < lowest {
        return Err(Refusal::Reversed);
    }
    Ok(())
}

// A read's key: its range is one that may stand beside its query.
#[tactic(auto, using(crate::proofs::BeginKeys::asked_length, crate::proofs::BeginKeys::key_of_read), unfolding(rules::specs::Work::fault_of))]
fn read_key(
    k: u32,
    counts: bool,
    range: Range,
    asked: &[u32],
) -> Result<[u32; Hall::KEY_WIDTH], Refusal>
    requires { is_query (shape_of k) asked.now ≡ true }
    ensures code { code_of result ≡ asked_code (shape_of k) (read_of counts range asked.now) }
    ensures ok { IfOk result (λ key. key ≡ key_of (work_of (shape_of k) (read_of counts range asked.now))) }
{
    range_check(k, asked, range)?;
    columns_check(k)?;
    Ok(Query::of_asked(asked).ask_key(counts, range))
}

// An insert's key: its columns' values are taken, or it is refused for a wildcard.
#[tactic(auto, using(crate::proofs::BeginKeys::key_of_insert), unfolding(rules::specs::Work::fault_of))]
fn insert_key(k: u32, asked: &[u32]) -> Result<[u32; Hall::KEY_WIDTH], Refusal>
    requires { is_query (shape_of k) asked.now ≡ true }
    ensures code { code_of result ≡ asked_code (shape_of k) (insert_of asked.now) }
    ensures ok { IfOk result (λ key. key ≡ key_of (work_of (shape_of k) (insert_of asked.now))) }
{
    let values = columns::take_record(asked)?;
    columns_check(k)?;
    Ok(columns::keys::record_key(k as usize, values))
}

// A delete's key.
#[tactic(auto, using(crate::proofs::BeginKeys::asked_length, crate::proofs::BeginKeys::key_of_delete), unfolding(rules::specs::Work::fault_of))]
fn delete_key(k: u32, asked: &[u32]) -> Result<[u32; Hall::KEY_WIDTH], Refusal>
    requires { is_query (shape_of k) asked.now ≡ true }
    ensures code { code_of result ≡ asked_code (shape_of k) (delete_of asked.now) }
    ensures ok { IfOk result (λ key. key ≡ key_of (work_of (shape_of k) (delete_of asked.now))) }
{
    columns_check(k)?;
    Ok(Query::of_asked(asked).key())
}

// The key of what arrives. It is turned down for itself where it is no query of k columns, a read for its range, an insert for a wildcard; then
// for k.
#[tactic(auto, using(crate::proofs::BeginKeys::fault_query))]
fn request_key(k: u32, request: Request, asked: &[u32]) -> Result<[u32; Hall::KEY_WIDTH], Refusal>
    ensures code { code_of result ≡ asked_code (shape_of k) (request_of request asked.now) }
    ensures ok { IfOk result (λ key. key ≡ key_of (work_of (shape_of k) (request_of request asked.now))) }
{
    if !columns::is_query(asked, k) {
        return Err(Refusal::Columns);
    }
    match request {
        Request::Read { counts, range } => read_key(k, counts, range, asked),
        Request::Insert => insert_key(k, asked),
        Request::Delete => delete_key(k, asked),
    }
}

// ---- Begins
// 10 where a write begins and the revisions are worn.
#[tactic(auto, unfolding(rules::specs::Work::is_write))]
fn fresh_check(nodes: &[u32], request: Request) -> Result<(), Refusal>
    requires { NodeContracts.Fit nodes.now }
    ensures { (sh : Shape) (a : List ℕ) → code_of result ≡ fresh_code current sh nodes.now (request_of request a) }
{
    match request {
        Request::Read { .. } => Ok(()), // it raises no counter
        _ => {
            if nodes::is_worn(nodes) {
                return Err(Refusal::Worn);
            }
            Ok(())
        }
    }
}

// What a begin finds behind what arrives, in long memories.
#[tactic(auto, using(crate::proofs::CheckCodes::desk_taken, crate::proofs::CheckCodes::desk_free, crate::proofs::CheckCodes::desk_other, crate::proofs::RefusalLaws::number_some, crate::proofs::RefusalLaws::number_idle, rules::proofs::PassedChecks::idle_passed))]
fn desk_check(memories: Memories<'_>, request: Request, d: u32) -> Result<(), Refusal>
    requires { is_short (shape (lent memories)) (lent memories) ≡ false }
    ensures { (a : List ℕ) → code_of result ≡ desk_code (lent memories.entry) d (request_of request a) }
{
    match at_client(memories, d) {
        Ok(_) => Err(Refusal::Taken),
        Err(Refusal::Idle) => fresh_check(memories.nodes, request),
        Err(refusal) => Err(refusal),
    }
}

// The checks of a begin, and the key that the client is to keep.
#[tactic(auto, using(crate::proofs::RefusalLaws::number_some), unfolding(rules::specs::Refusals::begin_code, rules::specs::Refusals::is_unsound, crate::specs::CheckContracts::desk_code))]
pub fn begin_check(
    memories: Memories<'_>,
    request: Request,
    d: u32,
    asked: &[u32],
) -> Result<[u32; Hall::KEY_WIDTH], Refusal>
    ensures code { code_of result ≡ begin_code (lent memories.entry) d (request_of request asked.now) }
    ensures ok { IfOk result (λ key. key ≡ key_of (work_of (shape (lent memories.entry)) (request_of request asked.now))) }
{
    if memories.is_short() {
        return Err(Refusal::Short);
    }
    let k = memories.clients[Hall::COLUMNS_OFFSET];
    let key = request_key(k, request, asked)?;
    desk_check(memories, request, d)?;
    Ok(key)
}

// ---- Steps and abandonings
// The checks of a step, and what was read of the client.
#[tactic(auto, unfolding(rules::specs::Refusals::step_code))]
pub fn step_check(memories: Memories<'_>, tray: &[u32], d: u32) -> Result<Held, Refusal>
    ensures code { code_of result ≡ step_code (lent memories.entry) tray.now d }
    ensures ok { IfOk result (λ held. IsHeld held memories.entry.clients.now d) }
{
    if memories.is_short() || tray.len() < Hall::TRAY_LEAST {
        return Err(Refusal::Short);
    }
    at_client(memories, d)
}

#[tactic(auto, unfolding(rules::specs::Refusals::abandon_code))]
pub fn abandon_check(memories: Memories<'_>, d: u32) -> Result<Held, Refusal>
    ensures code { code_of result ≡ abandon_code (lent memories.entry) d }
    ensures ok { IfOk result (λ held. IsHeld held memories.entry.clients.now d) }
{
    if memories.is_short() {
        return Err(Refusal::Short);
    }
    at_client(memories, d)
}

// ---- Evictions and renewals
// What can be put out by its place.
#[derive(Clone, Copy)]
pub enum Kept {
    Answer,
    Node,
}

// 8 where there is no filed answer at the place.
fn answer_check(answers: &[u32], place: u32) -> Result<(), Refusal>
    requires { 1 ≤ length answers.now }
    ensures { code_of result ≡ answer_code answers.now place }
{
    if answers[Hall::ANSWER_COUNT_OFFSET] <= place {
        return Err(Refusal::NoEntry);
    }
    Ok(())
}

// 8 where there is no node at the place, 9 where it has pending writes.
fn node_check(nodes: &[u32], place: u32) -> Result<(), Refusal>
    requires { NodeContracts.Fit nodes.now }
    ensures { code_of result ≡ node_code nodes.now place }
{
    if nodes[Hall::NODE_COUNT_OFFSET] <= place {
        return Err(Refusal::NoEntry);
    }
    if !nodes::is_free(nodes, place as usize) {
        return Err(Refusal::Pending);
    }
    Ok(())
}

#[tactic(auto, using(nodes::proofs::NodeScans::is_free_pending), unfolding(crate::specs::CheckContracts::evict_code, rules::specs::Refusals::evict_answer_code, rules::specs::Refusals::evict_node_code))]
pub fn evict_check(memories: Memories<'_>, kept: Kept, place: u32) -> Result<(), Refusal>
    ensures { code_of result ≡ evict_code (lent memories.entry) kept place }
{
    sound_check(memories)?;
    match kept {
        Kept::Answer => answer_check(memories.answers, place),
        Kept::Node => node_check(memories.nodes, place),
    }
}

#[tactic(auto, using(clients::proofs::ClientReads::all_idle_law), unfolding(rules::specs::Refusals::renew_code))]
pub fn renew_check(memories: Memories<'_>) -> Result<(), Refusal>
    ensures { code_of result ≡ renew_code (lent memories.entry) }
{
    sound_check(memories)?;
    if !clients::all_idle(memories.clients) {
        return Err(Refusal::Occupied);
    }
    Ok(())
}
