// One client's numbers in the desks memory (docs/LAYOUT.md): read, changed, and checked for senseless contents.
// The rules stand in rules, what a function takes for granted in specs/ClientContracts.antt.
// A memory and a client's number are two parameters: a struct of both would be made anew at each call, as `Desk::new(m.clients, d).range()` for
// `range(m.clients, d)`, since a caller alters the memory in between.
#![tactic(auto)]

ghost use Rattle.std.specs.Prelude.{◌≡◌, ◌≢◌, ◌≤◌, ◌<◌, ◌+◌, not, ◌||◌, length, set, is_some, if◌then◌else◌, IfOk, IfSome};
ghost use Rattle.lists.specs.Lists.{all_below};
ghost use Rattle.query.specs.Encoding.{key_width, range_in};
ghost use Rattle.query.specs.Range.{is_ranged};
ghost use Rattle.query.specs.Shape.{Shape, shape_of, max_columns};
ghost use Rattle.rules.specs.Client.{kind, steps, saw_pending, did_change, found_full, entry_of, idle, is_idle, range_at, is_bad, stepped, noted, wrote};
ghost use Rattle.rules.specs.Layout.{max_records, max_list, max_clients, max_word, look_room, list_room, entry_width, client_width, client_offset, clients_end, held_list_offset};
ghost use Rattle.rules.specs.Answers.{key_in};
ghost use Rattle.rules.specs.Memory.{current, shape_in, client_in, with_client};
ghost use Rattle.hall.specs.Refusal.{code_of};
ghost use Rattle.hall.specs.Kind.{kind_number};
ghost use Rattle.columns.specs.MarkedContracts.{marked_query};
ghost use Rattle.clients.specs.ClientContracts.{Fit, IsNumbers, IsRead, IsHeld, idle_at, client_code, begun_with, steps_of_kind, fits, value_set};

use columns::marked::Marked;
use hall::{Hall, Kind, Refusal};
use query::Range;

// How many clients there are.
const CLIENTS: usize = Hall::CLIENTS as usize;

// The numbers of a client that a call goes by, whatever they are: of an idle client or an unsound one too. Beside the hall's columns its kind, its
// steps, of its key the marks and the values, and whether it says "count".
#[derive(Clone, Copy)]
pub struct Numbers {
    pub columns: usize,
    pub kind: u32,
    pub steps: usize,
    pub marks: u32,
    pub counts: bool,
    pub values: [u32; Hall::COLUMN_SLOTS],
}

// What a call reads of its client, once: the client's kind, how many steps it has made, whether it wants a count, and its query. Whoever is called
// next gets it by value. A range is read by itself where it is tested and where records are taken: most reads have none, and every step would
// carry it.
#[derive(Clone, Copy)]
pub struct Held {
    pub query: Marked,
    pub steps: usize,
    pub kind: Kind,
    pub counts: bool,
}

// ---- Reading
// Where client d stands.
fn place(d: usize) -> usize
    requires { d < max_clients }
    ensures { result ≡ client_offset current d }
{
    Hall::HEADER + d * Hall::CLIENT_WIDTH
}

// The numbers of client d.
fn client(clients: &[u32], d: usize) -> &[u32]
    requires { Fit clients.now d }
    ensures own { result.now ≡ client_in current clients.now d }
    ensures wide { length result.now ≡ client_width }
{
    let at = place(d);
    &clients[at..at + Hall::CLIENT_WIDTH]
}

// Three flags, each a number of its own. They are three functions: one with the place as a parameter would say less where it is called.
// Whether a look saw a mark.
#[tactic(auto, unfolding(rules::specs::Client::saw_pending))]
pub fn saw_pending(clients: &[u32], d: usize) -> bool
    requires { Fit clients.now d }
    ensures { result ≡ saw_pending (client_in current clients.now d) }
{
    client(clients, d)[Hall::SAW_OFFSET] != 0
}

// Whether the write changed the table.
#[tactic(auto, unfolding(rules::specs::Client::did_change))]
pub fn did_change(clients: &[u32], d: usize) -> bool
    requires { Fit clients.now d }
    ensures { result ≡ did_change (client_in current clients.now d) }
{
    client(clients, d)[Hall::CHANGED_OFFSET] != 0
}

// Whether the insert found the table full.
#[tactic(auto, unfolding(rules::specs::Client::found_full))]
pub fn found_full(clients: &[u32], d: usize) -> bool
    requires { Fit clients.now d }
    ensures { result ≡ found_full (client_in current clients.now d) }
{
    client(clients, d)[Hall::FULL_OFFSET] != 0
}

// Whether all of a client's numbers are 0.
fn is_idle(clients: &[u32], d: usize) -> bool
    requires { Fit clients.now d }
    ensures { result ≡ is_idle (client_in current clients.now d) }
{
    words::is_zero(client(clients, d))
}

// Whether no client is busy; ends at the first that is.
pub fn all_idle(clients: &[u32]) -> bool
    requires { clients_end current ≤ length clients.now }
    ensures { result ≡ all_below max_clients (idle_at clients.now) }
{
    for d in 0..CLIENTS {
        if !is_idle(clients, d) {
            return false;
        }
    }
    true
}

// The entry among a client's numbers.
fn entry_of(client: &[u32]) -> &[u32]
    requires { length client.now ≡ client_width }
    ensures own { result.now ≡ entry_of client.now }
    ensures wide { length result.now ≡ entry_width }
{
    &client[Hall::ENTRY_OFFSET..]
}

// A client's own entry: its query's key with what it wants and its range, the list's length or the count, the revisions noted, the list.
pub fn entry(clients: &[u32], d: usize) -> &[u32]
    requires { Fit clients.now d }
    ensures own { result.now ≡ entry_of (client_in current clients.now d) }
    ensures wide { length result.now ≡ entry_width }
{
    entry_of(client(clients, d))
}

// The range that an entry's key has.
fn range_in(entry: &[u32]) -> Range
    requires { length entry.now ≡ entry_width }
    ensures { result ≡ range_in (key_in entry.now) }
{
    columns::keys::range_of(
        entry[0],
        entry[Hall::LOWEST_OFFSET],
        entry[Hall::HIGHEST_OFFSET],
    )
}

// The range of client d.
#[tactic(auto, unfolding(rules::specs::Client::range_at))]
pub fn range(clients: &[u32], d: usize) -> Range
    requires { Fit clients.now d }
    ensures { result ≡ range_at (client_in current clients.now d) }
{
    range_in(entry(clients, d))
}

// The numbers of client d, be it idle or unsound: this cannot fail. A call that asks for a busy one reads it by `read_held`.
pub fn read(clients: &[u32], d: usize) -> Numbers
    requires { Fit clients.now d }
    ensures { IsNumbers result clients.now d }
{
    let client = client(clients, d);
    let entry = entry_of(client);
    Numbers {
        columns: clients[Hall::COLUMNS_OFFSET] as usize,
        kind: client[Hall::KIND_OFFSET],
        steps: client[Hall::STEPS_OFFSET] as usize,
        marks: columns::keys::bare_marks(entry[0]),
        counts: Hall::is_count(entry[0]),
        values: [entry[1], entry[2], entry[3], entry[4]],
    }
}

// Where a client's list stands in the memory of a hall of k columns: at the same place for every k.
pub fn list_at(d: usize, k: usize) -> usize
    requires { d < max_clients }
    ensures { result ≡ client_offset current d + held_list_offset (shape_of k) }
{
    place(d) + Hall::HELD_LIST_OFFSET
}

// ---- Changes
// Stores x as number j of client d.
fn put(clients: &mut [u32], d: usize, j: usize, x: u32)
    requires { Fit clients.old d × (j < client_width) }
    ensures { clients.new ≡ with_client current clients.old d (set (client_in current clients.old d) j x) }
{
    clients[place(d) + j] = x;
}

// Leaves client d idle: all 0.
pub fn set_idle(clients: &mut [u32], d: usize)
    requires { Fit clients.old d }
    ensures { clients.new ≡ with_client current clients.old d idle }
{
    let at = place(d);
    clients[at..at + Hall::CLIENT_WIDTH].fill(0);
}

// Begins a read or a write at client d: its kind and its query's key, all the rest 0. The kind is any number: one that is no kind's is kept too, and
// what is read back is then unsound.
pub fn begin(clients: &mut [u32], d: usize, kind: u32, key: &[u32])
    requires { Fit clients.old d × (length key.now ≡ key_width) }
    ensures { clients.new ≡ with_client current clients.old d (begun_with kind key.now) }
{
    set_idle(clients, d);
    put(clients, d, Hall::KIND_OFFSET, kind);
    let at = place(d) + Hall::ENTRY_OFFSET;
    clients[at..at + Hall::KEY_WIDTH].copy_from_slice(key);
}

// Counts one step more.
pub fn advance(clients: &mut [u32], d: usize)
    requires { Fit clients.old d × (steps (client_in current clients.old d) < max_word) }
    ensures { clients.new ≡ with_client current clients.old d (stepped (client_in current clients.old d)) }
{
    let made = client(clients, d)[Hall::STEPS_OFFSET];
    put(clients, d, Hall::STEPS_OFFSET, made + 1);
}

// Look j: notes a node's revision and whether writes are pending there, and counts the step.
pub fn note(clients: &mut [u32], d: usize, j: usize, revision: u32, pending: u32)
    requires { Fit clients.old d × ((j < look_room) × (steps (client_in current clients.old d) < max_word)) }
    ensures { clients.new ≡ with_client current clients.old d (noted j revision pending (client_in current clients.old d)) }
{
    advance(clients, d);
    put(clients, d, Hall::NOTED_OFFSET + j, revision);
    if pending != 0 {
        put(clients, d, Hall::SAW_OFFSET, 1);
    }
}

// A write's table step: whether the table changed, whether it was full, and the step counted.
pub fn set_wrote(clients: &mut [u32], d: usize, changed: bool, full: bool)
    requires { Fit clients.old d × (steps (client_in current clients.old d) < max_word) }
    ensures { clients.new ≡ with_client current clients.old d (wrote changed full (client_in current clients.old d)) }
{
    advance(clients, d);
    put(clients, d, Hall::CHANGED_OFFSET, u32::from(changed));
    put(clients, d, Hall::FULL_OFFSET, u32::from(full));
}

// A read's table step, a list's numbers being in their place already: sets the list's length or the count, clears what is behind the first
// `used` numbers of the list's place (of a count all of it), and counts the step.
pub fn set_value(clients: &mut [u32], d: usize, n: usize, used: usize)
    requires { Fit clients.old d × ((n ≤ max_records) × ((used ≤ list_room) × (steps (client_in current clients.old d) < max_word))) }
    ensures { (sh : Shape) → clients.new ≡ with_client current clients.old d (value_set n used sh (client_in current clients.old d)) }
{
    advance(clients, d);
    put(clients, d, Hall::HELD_LENGTH_OFFSET, n as u32);
    let at = place(d);
    clients[at + Hall::HELD_LIST_OFFSET + used..at + Hall::CLIENT_WIDTH].fill(0);
}

// ---- Soundness
// How many steps a client of this kind makes at the most.
fn steps_in_all(kind: Kind, query: &Marked) -> usize
    ensures { result ≡ steps_of_kind (kind_number kind) (marked_query query.now) }
{
    match kind {
        Kind::Read => query.look_count() + 3,
        Kind::Insert | Kind::Delete => 2 * query.write_count() + 1,
    }
}

// Whether neither a count is wanted nor a range given: only a read may want one or have one.
fn is_plain(counts: bool, range: Range) -> bool
    ensures { result ≡ not (counts || is_ranged range) }
{
    !counts && !columns::keys::is_ranged(range)
}

// Whether a begin would take such work: a read with its range; an insert of a value for every column, and a delete, neither with a range or for a
// count.
fn fits(kind: Kind, counts: bool, range: Range, query: &Marked) -> bool
    ensures { result ≡ fits kind counts range (shape_of query.now.k) (marked_query query.now) }
{
    match kind {
        Kind::Read => !query.bad_range(range),
        Kind::Insert => is_plain(counts, range) && query.names_all(),
        Kind::Delete => is_plain(counts, range),
    }
}

// The highest count, or the most records of a list.
fn most(counts: bool) -> u32
    ensures { result ≡ (if counts then max_records else max_list) }
{
    if counts { Hall::RECORDS } else { Hall::LIST }
}

impl Held {
    // What the numbers of a client with a kind say, in a hall of k columns. None where its kind, query, wanting, step or list length is out of range,
    // or its range is one that a begin would refuse.
    fn parse(k: usize, client: &[u32]) -> Option<Held>
        requires few { k ≤ max_columns }
        requires wide { length client.now ≡ client_width }
        requires some { kind client.now ≢ 0 }
        ensures sound { is_some result ≡ not (is_bad (shape_of k) client.now) }
        ensures held { IfSome result (λ h. IsRead h k client.now) }
    {
        let kind = Kind::try_from(client[Hall::KIND_OFFSET]).ok()?;
        let steps = client[Hall::STEPS_OFFSET] as usize;
        let entry = entry_of(client);
        let counts = Hall::is_count(entry[0]);
        let range = range_in(entry);
        let values = &entry[1..1 + columns::keys::query_width(range)];
        let query = Marked::parse(k, columns::keys::bare_marks(entry[0]), values)?;
        let fits = fits(kind, counts, range, &query)
            && steps < steps_in_all(kind, &query)
            && entry[Hall::LENGTH_OFFSET] <= most(counts);
        fits.then_some(Held {
            kind,
            steps,
            counts,
            query,
        })
    }
}

// What a call needs to know of client d, if it is busy: refusal 3 where it is unsound, 6 where it is idle. Only where it has no kind are all its
// numbers read. In a hall of more columns than any a client with a kind is unsound.
pub fn read_held(clients: &[u32], d: usize) -> Result<Held, Refusal>
    requires { Fit clients.now d }
    ensures code { (shape_in clients.now).columns ≤ max_columns → code_of result ≡ client_code clients.now d }
    ensures held { IfOk result (λ h. IsHeld h clients.now d) }
{
    let client = client(clients, d);
    if client[Hall::KIND_OFFSET] != 0 {
        let k = clients[Hall::COLUMNS_OFFSET] as usize;
        if Hall::COLUMN_SLOTS < k {
            return Err(Refusal::Unsound);
        }
        return Held::parse(k, client).ok_or(Refusal::Unsound);
    }
    if is_idle(clients, d) {
        return Err(Refusal::Idle);
    }
    Err(Refusal::Unsound)
}
