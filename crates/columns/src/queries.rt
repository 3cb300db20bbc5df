// Queries in code: at most four columns, made of what arrives or of what a memory holds, and their keys (docs/LAYOUT.md). To callers a query is
// the list of its columns; the wildcards that stand behind them are nobody's.
ghost use Rattle.std.specs.Prelude.{◌≡◌, ◌*◌, ◌≤◌, ◌<◌, length, slice_index};
ghost use Rattle.query.specs.Shape.{max_columns};
ghost use Rattle.query.specs.Encoding.{query_of, columns_in, column_value, marks, key_words, count_bit, range_unit, range_key, wanted_key};
ghost use Rattle.columns.specs.KeyContracts.{mark_of, IsNear};

use hall::Hall;
use query::{Column, Range};
use std::marker::Model;

// As many columns as its hall has.
#[derive(Drop)]
pub struct Query {
    columns: [Column; Hall::COLUMN_SLOTS],
    k: usize,
}

impl Model for Query {
    ghost use Rattle.std.specs.Prelude.{◌≤◌, List, take};
    ghost use Rattle.query.specs.declared.Column.{Column};
    ghost use Rattle.query.specs.Shape.{max_columns};

    ghost Value = { List Column };

    ghost view = { λ q. take q.k q.columns };

    ghost invariant = { λ q. q.k ≤ max_columns };
}

impl Query {
    // The query that arrives as marks and values, one after the other: at most four columns.
    pub fn of_asked(asked: &[u32]) -> Query
        requires { length asked.now ≤ 2 * max_columns }
        ensures { result ≡ query_of asked.now }
    {
        let mut columns = [Column::Wildcard; Hall::COLUMN_SLOTS];
        for (i, pair) in asked.chunks_exact(2).enumerate() {
            columns[i] = super::column_of(pair[0], pair[1]);
        }
        Query {
            columns,
            k: asked.len() / 2,
        }
    }

    // The query of k columns that has these marks and values.
    pub fn of_marks(k: usize, marks: u32, values: &[u32]) -> Query
        requires few { k ≤ max_columns }
        requires long { k ≤ length values.now }
        ensures { result ≡ columns_in k marks values.now }
    {
        let mut columns = [Column::Wildcard; Hall::COLUMN_SLOTS];
        let mut left = marks;
        for (i, v) in values[..k].iter().enumerate() {
            columns[i] = super::column_of(left % 2, *v);
            left /= 2;
        }
        Query { columns, k }
    }

    // How many columns it has.
    pub fn width(&self) -> usize
        ensures is { result ≡ length self.now }
        ensures few { result ≤ max_columns }
    {
        self.columns().len()
    }

    pub fn columns(&self) -> &[Column]
        ensures is { result.now ≡ self.now }
        ensures few { length result.now ≤ max_columns }
    {
        &self.columns[..self.k]
    }

    // One bit for each column, 1 where it names a value; the first column has the lowest bit.
    fn marks(&self) -> u32
        ensures { result ≡ marks self.now }
    {
        let mut marks = 0;
        for col in self.columns().iter().rev() {
            marks = mark_of(*col) + 2 * marks;
        }
        marks
    }

    // The query as the key of an answer: its marks, its values, zeros behind. There is room for more above the marks.
    pub fn key(&self) -> [u32; Hall::KEY_WIDTH]
        ensures is { result ≡ key_words self.now }
        ensures low { slice_index result 0 < count_bit }
    {
        let mut key = [0u32; Hall::KEY_WIDTH];
        key[0] = self.marks();
        for (i, col) in self.columns().iter().enumerate() {
            key[i + 1] = value_of(*col);
        }
        key
    }

    // The key of a read: its query's, with what it wants and its range.
    pub fn ask_key(&self, counts: bool, range: Range) -> [u32; Hall::KEY_WIDTH]
        requires { IsNear range }
        ensures { result ≡ wanted_key counts range (key_words self.now) }
    {
        let mut key = self.key();
        if counts {
            key[0] += Hall::COUNT_BIT;
        }
        ranged_key(key, range)
    }
}

// 1 for a column that names a value, 0 for a wildcard.
#[tactic(auto, unfolding(crate::specs::KeyContracts::mark_of))]
fn mark_of(col: Column) -> u32
    ensures { result ≡ mark_of col }
{
    match col {
        Column::Is(_) => 1,
        Column::Wildcard => 0,
    }
}

// The value that a column names; 0 for a wildcard.
#[tactic(auto, unfolding(query::specs::Encoding::column_value))]
pub fn value_of(col: Column) -> u32
    ensures { result ≡ column_value col }
{
    match col {
        Column::Is(v) => v,
        Column::Wildcard => 0,
    }
}

// A key with its range: its column plus 1 above what stands in the first number, and its ends.
#[tactic(auto, unfolding(query::specs::Encoding::range_key))]
fn ranged_key(mut key: [u32; Hall::KEY_WIDTH], range: Range) -> [u32; Hall::KEY_WIDTH]
    requires low { slice_index key 0 < range_unit }
    requires near { IsNear range }
    ensures { result ≡ range_key range key }
{
    if let Range::Between {
        column,
        lowest,
        highest,
    } = range
    {
        key[0] += Hall::RANGE_UNIT * (column + 1);
        key[Hall::LOWEST_OFFSET] = lowest;
        key[Hall::HIGHEST_OFFSET] = highest;
    }
    key
}
