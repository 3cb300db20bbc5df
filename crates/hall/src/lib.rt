// The hall: its fixed sizes as associated constants, the length check, and the functions that make the cleared state of each memory.
// The rules stand in rules; specs/HallContracts.antt has the sizes in one value.
#![tactic(auto)]

ghost use Rattle.std.specs.Prelude.{◌≡◌, List, ◌∷◌, ℕ, ◌≤◌, length, set};
ghost use Rattle.query.specs.Shape.{Shape, shape_of};
ghost use Rattle.query.specs.Encoding.{counts_in};
ghost use Rattle.rules.specs.Layout.{table_least, nodes_least, answers_least, clients_least, floor_offset, columns_offset, first_floor};
ghost use Rattle.rules.specs.Memory.{current, mem, cleared};
ghost use Rattle.rules.specs.Refusals.{is_short};
ghost use Rattle.hall.specs.HallContracts.{limits_of};

pub use kind::{Kind, UnknownKind};
pub use memories::{Memories, MemoriesMut};
pub use refusal::Refusal;

mod kind; // kind.rt: the kinds of work
mod memories; // memories.rt: the four lent memories together
pub mod refusal; // refusal.rt: why a call is turned down

// The name that the sizes and the functions of every hall stand under. A hall itself lies in the lent memories, its number of columns too.
// Document 01 names this form, sizes as associated constants and a function for each memory's cleared state; the refusals' numbers are C's.
#[derive(Clone, Copy)]
pub struct Hall;

// The sizes, in one value.
#[derive(Clone, Copy)]
pub struct Limits {
    pub records: u32,
    pub nodes: u32,
    pub answers: u32,
    pub clients: u32,
    pub list: u32,
    pub tray: usize,
}

impl Hall {
    // ---- Sizes. The constants have their names in the definitions: rules' Layout, query's Shape and Encoding, lists' header.
    pub const RECORDS: u32 = 2048;

    pub const NODES: u32 = 1024;

    pub const ANSWERS: u32 = 64;

    pub const CLIENTS: u32 = 12;

    // The most columns, and as many places in an array of columns.
    pub const COLUMNS: u32 = 4;

    pub const COLUMN_SLOTS: usize = Hall::COLUMNS as usize;

    // The most pending writes of a node.
    pub const PENDING: u32 = 12;

    // The most records that a read lists, and the most looks that it makes.
    pub const LIST: u32 = 32;

    pub const LOOKS: usize = 16;

    // The largest revision, the number above which a revision or the floor stops writes, and the first floor.
    pub const LARGEST_REVISION: u32 = 4294967295;

    pub const WORN_ABOVE: u32 = 4294967103;

    pub const FIRST_FLOOR: u32 = 1;

    // ---- The least lengths of the lent memories.
    pub const TABLE_LEAST: usize = 8200;

    pub const NODES_LEAST: usize = 8200;

    pub const ANSWERS_LEAST: usize = 10000;

    pub const CLIENTS_LEAST: usize = 2000;

    pub const TRAY_LEAST: usize = 128;

    // ---- Headers: how many numbers each memory has before its entries, and what stands where in them.
    pub const HEADER: usize = 8;

    pub const RECORD_COUNT_OFFSET: usize = 0;

    pub const FLOOR_OFFSET: usize = 0;

    pub const NODE_COUNT_OFFSET: usize = 1;

    pub const ANSWER_COUNT_OFFSET: usize = 0;

    pub const COLUMNS_OFFSET: usize = 0;

    // ---- A label and a key.
    pub const LABEL_WIDTH: usize = 1 + Hall::COLUMN_SLOTS;

    // Two numbers are a range's ends.
    pub const KEY_WIDTH: usize = 1 + Hall::COLUMN_SLOTS + 2;

    pub const LOWEST_OFFSET: usize = 1 + Hall::COLUMN_SLOTS;

    pub const HIGHEST_OFFSET: usize = Hall::LOWEST_OFFSET + 1;

    // Bit 4 of a key's first number, above the marks: 1 for a count.
    pub const COUNT_BIT: u32 = 16;

    // From bit 5 on: the ranged column's number plus 1, or 0.
    pub const RANGE_UNIT: u32 = 32;

    // ---- A node.
    pub const PENDING_OFFSET: usize = Hall::LABEL_WIDTH;

    pub const REVISION_OFFSET: usize = Hall::PENDING_OFFSET + 1;

    pub const NODE_WIDTH: usize = Hall::REVISION_OFFSET + 2;

    // ---- An entry.
    pub const LENGTH_OFFSET: usize = Hall::KEY_WIDTH;

    pub const REVISIONS_OFFSET: usize = Hall::LENGTH_OFFSET + 1;

    pub const LIST_OFFSET: usize = Hall::REVISIONS_OFFSET + Hall::LOOKS;

    pub const LIST_WIDTH: usize = Hall::LIST as usize * Hall::COLUMN_SLOTS;

    pub const ENTRY_WIDTH: usize = Hall::LIST_OFFSET + Hall::LIST_WIDTH;

    // ---- A client.
    pub const KIND_OFFSET: usize = 0;

    pub const STEPS_OFFSET: usize = 1;

    pub const SAW_OFFSET: usize = 2;

    pub const CHANGED_OFFSET: usize = 3;

    pub const FULL_OFFSET: usize = 4;

    pub const ENTRY_OFFSET: usize = 5;

    pub const CLIENT_WIDTH: usize = Hall::ENTRY_OFFSET + Hall::ENTRY_WIDTH;

    // The values of its key, behind the marks.
    pub const HELD_VALUES_OFFSET: usize = Hall::ENTRY_OFFSET + 1;

    pub const HELD_LENGTH_OFFSET: usize = Hall::ENTRY_OFFSET + Hall::LENGTH_OFFSET;

    pub const NOTED_OFFSET: usize = Hall::ENTRY_OFFSET + Hall::REVISIONS_OFFSET;

    pub const HELD_LIST_OFFSET: usize = Hall::ENTRY_OFFSET + Hall::LIST_OFFSET;

    // ---- Kinds of work; 0 stands at an idle client.
    pub const READS: u32 = 1;

    pub const INSERTS: u32 = 2;

    pub const DELETES: u32 = 3;

    // ---- Refusals, by the paper's words: short, columns, unsound, no desk, taken, idle, no entry, marked, worn, occupied. 7 is not given.
    pub const REFUSED_SHORT: u32 = 1;

    pub const REFUSED_COLUMNS: u32 = 2;

    pub const REFUSED_UNSOUND: u32 = 3;

    pub const REFUSED_NO_CLIENT: u32 = 4;

    pub const REFUSED_TAKEN: u32 = 5;

    pub const REFUSED_IDLE: u32 = 6;

    pub const REFUSED_NO_ENTRY: u32 = 8;

    pub const REFUSED_PENDING: u32 = 9;

    pub const REFUSED_WORN: u32 = 10;

    pub const REFUSED_OCCUPIED: u32 = 11;

    // 12 long and 13 full end the work they name.
    pub const ENDED_LONG: u32 = 12;

    pub const ENDED_FULL: u32 = 13;

    // 14 reversed turns a begin down.
    pub const REFUSED_REVERSED: u32 = 14;

    // 15 tally full turns down a call that is lent a tally and would raise a count that stands at its largest.
    pub const REFUSED_TALLY_FULL: u32 = 15;

    // The largest number that a count of a tally holds.
    pub const LARGEST_COUNT: u32 = 4294967295;

    // The sizes are the rules'. The least lengths of the four memories are so by the functions below.
    fn limits() -> Limits
        ensures { result ≡ limits_of }
    {
        Limits {
            records: Hall::RECORDS,
            nodes: Hall::NODES,
            answers: Hall::ANSWERS,
            clients: Hall::CLIENTS,
            list: Hall::LIST,
            tray: Hall::TRAY_LEAST,
        }
    }

    // Empties the table.
    #[tactic(auto, unfolding(rules::specs::Memory::cleared))]
    pub fn clear_table(table: &mut [u32])
        requires { table_least ≤ length table.old }
        ensures { table.new ≡ cleared table_least table.old }
    {
        words::clear(table, Hall::TABLE_LEAST);
    }

    // Empties the nodes and sets the floor to 1.
    pub fn clear_nodes(nodes: &mut [u32])
        requires { nodes_least current ≤ length nodes.old }
        ensures { nodes.new ≡ set (cleared (nodes_least current) nodes.old) floor_offset first_floor }
    {
        words::clear(nodes, Hall::NODES_LEAST);
        nodes[Hall::FLOOR_OFFSET] = Hall::FIRST_FLOOR;
    }

    // Empties the answers.
    #[tactic(auto, unfolding(rules::specs::Memory::cleared))]
    pub fn clear_answers(answers: &mut [u32])
        requires { (sh : Shape) → answers_least current sh ≤ length answers.old }
        ensures { (sh : Shape) → answers.new ≡ cleared (answers_least current sh) answers.old }
    {
        words::clear(answers, Hall::ANSWERS_LEAST);
    }

    // Leaves every client idle and sets the number of columns to k.
    #[tactic(auto, using(crate::proofs::Clearing::done_set))]
    pub fn clear_clients(clients: &mut [u32], k: u32)
        requires { clients_least current (shape_of k) ≤ length clients.old }
        ensures { clients.new ≡ set (cleared (clients_least current (shape_of k)) clients.old) columns_offset k }
    {
        words::clear(clients, Hall::CLIENTS_LEAST);
        clients[Hall::COLUMNS_OFFSET] = k;
    }

    // Whether a key says "count", by its first number.
    #[tactic(auto, unfolding(query::specs::Encoding::counts_in))]
    pub fn is_count(first: u32) -> bool
        ensures { (vs : List ℕ) → result ≡ counts_in (first ∷ vs) }
    {
        first / Hall::COUNT_BIT % 2 == 1
    }

    // Whether a lent memory is below its least length.
    #[tactic(auto, unfolding(rules::specs::Refusals::is_short))]
    pub fn is_short(table: &[u32], nodes: &[u32], answers: &[u32], clients: &[u32]) -> bool
        ensures { (sh : Shape) → result ≡ is_short sh (mem table.now nodes.now answers.now clients.now) }
    {
        table.len() < Hall::TABLE_LEAST
            || nodes.len() < Hall::NODES_LEAST
            || answers.len() < Hall::ANSWERS_LEAST
            || clients.len() < Hall::CLIENTS_LEAST
    }
}
