// The record test of a read with a range (S-3), by arithmetic too. A query with its range comes as numbers: four shifts and four limits. To
// each column belong a lowest and a highest number: the value twice where it names one, the ends of the range at the ranged column, but not 0
// (S-5), and under a wildcard 0 and the largest. The shift takes the lowest to the least number that a signed comparison knows, and the limit is
// what it takes the highest to: one sum and one comparison are the whole test. Any shift and limit take some number, so what finds no record at
// all is told before the pass (finds_none).
ghost use Rattle.std.specs.Prelude.{◌≡◌, ◌++◌, ◌-◌, ◌<◌, ◌≤◌, length};
ghost use Rattle.query.specs.Query.{is_zero};
ghost use Rattle.query.specs.Shape.{max_columns};
ghost use Rattle.columns.specs.BoundContracts.{shift_of, limit_of, width_of, first_of, finds_none, bound_words, bounds_of, bounded_under, NamesWords};

use super::queries::{self, Query};
use super::record_test::RecordTest;
use hall::Hall;
use query::Column;

// The highest bit: numbers compare as signed ones where both have it turned over.
const SIGN: u32 = 0x8000_0000;

// What takes a column's lowest number to SIGN.
#[tactic(auto, unfolding(crate::specs::BoundContracts::shift_of))]
fn shift_of(lowest: u32) -> u32
    ensures is { result ≡ shift_of lowest }
    ensures word { lowest < 4294967296 }
{
    SIGN.wrapping_sub(lowest)
}

// What the highest is taken to, by how far it is above the lowest.
#[tactic(auto, unfolding(crate::specs::BoundContracts::limit_of))]
fn limit_of(width: u32) -> u32
    ensures { result ≡ limit_of width }
{
    width ^ SIGN
}

// How far a column's highest number is above its lowest: not at all where it names a value.
#[tactic(auto, unfolding(crate::specs::BoundContracts::width_of))]
fn width_of(col: Column) -> u32
    ensures { result ≡ width_of col }
{
    match col {
        Column::Is(_) => 0,
        Column::Wildcard => u32::MAX,
    }
}

// The lowest number that a range takes: it skips 0.
#[tactic(auto, unfolding(crate::specs::BoundContracts::first_of))]
fn first_of(lowest: u32) -> u32
    ensures { result ≡ first_of lowest }
{
    lowest.max(1)
}

// Whether a column names 0, which equals nothing.
#[tactic(auto, unfolding(query::specs::Query::is_zero))]
fn names_zero(col: Column) -> bool
    ensures { result ≡ is_zero col }
{
    match col {
        Column::Is(v) => v == 0,
        Column::Wildcard => false,
    }
}

// Whether a read with a range finds no record, whatever the table: one of its columns names 0, or its range has nothing above 0.
pub fn finds_none(query: &Query, highest: u32) -> bool
    ensures { result ≡ finds_none query.now highest }
{
    query.columns().iter().any(|col| names_zero(*col)) || highest == 0
}

// A shift and a limit for each of four columns.
#[derive(Clone, Copy)]
pub struct Bounds {
    pub shifts: [u32; Hall::COLUMN_SLOTS],
    pub limits: [u32; Hall::COLUMN_SLOTS],
}

impl Bounds {
    // The shifts and limits of a query, and of wildcards behind its columns, with a range on one of them. Made once, before the records are passed.
    pub fn of(query: &Query, column: u32, lowest: u32, highest: u32) -> Bounds
        requires on { column < max_columns }
        requires ordered { lowest ≤ highest }
        requires above { 0 < highest }
        ensures value { result ≡ bounds_of query.now column lowest highest }
        ensures words { result.shifts ++ result.limits ≡ bound_words query.now column lowest highest }
        ensures names_words { NamesWords (length query.now) query.now }
    {
        let mut shifts = [shift_of(0); Hall::COLUMN_SLOTS];
        let mut limits = [limit_of(u32::MAX); Hall::COLUMN_SLOTS];
        for (i, col) in query.columns().iter().enumerate() {
            shifts[i] = shift_of(queries::value_of(*col));
            limits[i] = limit_of(width_of(*col));
        }
        let first = first_of(lowest);
        shifts[column as usize] = shift_of(first);
        limits[column as usize] = limit_of(highest - first);
        Bounds { shifts, limits }
    }
}

impl RecordTest for Bounds {
    ghost says = { bounded_under };

    fn lies(&self, rec: &[u32]) -> bool {
        let mut fits = true;
        for (i, n) in rec.iter().enumerate() {
            let shifted = n.wrapping_add(self.shifts[i]);
            fits &= shifted ^ SIGN <= self.limits[i] ^ SIGN;
        }
        fits
    }
}
