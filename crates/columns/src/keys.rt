// Queries as numbers in memory (docs/LAYOUT.md): marks, values, keys, what a read wants, and its range.
ghost use Rattle.std.specs.Prelude.{◌≡◌, ℕ, ◌-◌, ◌/◌, ◌%◌, ◌^◌, ◌<◌, ◌≤◌, List, ◌∷◌, map, length, take, slice_index, slice_index_or, not, ◌||◌};
ghost use Rattle.lists.specs.Lists.{padded};
ghost use Rattle.query.specs.Query.{naming, read_count};
ghost use Rattle.query.specs.Encoding.{key_width};
ghost use Rattle.query.specs.Shape.{shape_of, max_columns};
ghost use Rattle.query.specs.declared.Column.TheVariants.{Wildcard};
ghost use Rattle.query.specs.Encoding.{column_of, columns_in, column_value, key_words, names_all, is_key, range_unit, range_of, bare_key};
ghost use Rattle.query.specs.Range.{is_ranged, is_named, is_range, is_reversed};
ghost use Rattle.columns.specs.KeyContracts.{keeps, zero_under, query_width};

use hall::Hall;
use query::Range;

// Two to the k: one above the highest marks of k columns. A shift, since a constant array is made on the stack wherever it is read.
pub fn power(k: usize) -> u32
    requires { k ≤ max_columns }
    ensures { result ≡ 2 ^ k }
{
    1 << k
}

// The marks of a query that names every column: k bits, all 1.
pub fn all_marks(k: usize) -> u32
    requires { k ≤ max_columns }
    ensures { result ≡ 2 ^ k - 1 }
{
    power(k) - 1
}

// Two to the number of 1 bits, for the numbers to 15.
const LOOKS: [u8; 16] = [1, 2, 2, 4, 2, 4, 4, 8, 2, 4, 4, 8, 4, 8, 8, 16];

// How many looks a read makes, by its marks.
pub fn look_count(k: usize, marks: u32) -> usize
    requires { (k ≤ max_columns) × (marks < 2 ^ k) }
    ensures { (vs : List ℕ) → result ≡ read_count (columns_in k marks vs) }
{
    usize::from(LOOKS[marks as usize])
}

// Whether a query names every column, by its marks.
pub fn names_all(k: usize, marks: u32) -> bool
    requires { (k ≤ max_columns) × (marks < 2 ^ k) }
    ensures { (vs : List ℕ) → result ≡ names_all (columns_in k marks vs) }
{
    marks == all_marks(k)
}

// A value where its mark is odd, else 0: a choice without a branch.
fn value_under(mark: u32, v: u32) -> u32
    ensures { result ≡ column_value (column_of (mark % 2) v) }
{
    if mark % 2 == 0 { 0 } else { v }
}

// The values that have a mark, and 0 in place of the others.
pub fn values_under(marks: u32, values: [u32; Hall::COLUMN_SLOTS]) -> [u32; Hall::COLUMN_SLOTS]
    ensures { result ≡ map column_value (columns_in max_columns marks values) }
{
    std::array::from_fn(|c| value_under(marks >> c, values[c]))
}

// The key of an insert's record, which names every column.
pub fn record_key(k: usize, values: [u32; Hall::COLUMN_SLOTS]) -> [u32; Hall::KEY_WIDTH]
    requires { k ≤ max_columns }
    ensures { result ≡ key_words (naming (take k values)) }
{
    let mut key = [0; Hall::KEY_WIDTH];
    key[0] = all_marks(k);
    key[1..1 + k].copy_from_slice(&values[..k]);
    key
}

// Whether a value has a mark, or is 0.
#[tactic(auto, unfolding(crate::specs::KeyContracts::keeps))]
fn keeps(marks: u32, v: u32) -> bool
    ensures { result ≡ keeps marks v }
{
    marks % 2 == 1 || v == 0
}

// Whether each value under an unmarked column is 0.
#[tactic(auto, using(crate::proofs::KeyLoops::under_more, crate::proofs::KeyLoops::under_end))]
fn zero_under(marks: u32, values: &[u32]) -> bool
    ensures { result ≡ zero_under marks values.now }
{
    let mut left = marks;
    for &v in values {
        if !keeps(left, v) {
            return false;
        }
        left /= 2;
    }
    true
}

// Whether marks and the numbers behind them, zeros from where they end, are the key of a query of k columns: marks for k columns at most, and no
// value without a mark.
#[tactic(auto, using(crate::proofs::KeyLoops::key_padded))]
pub fn is_key(k: usize, marks: u32, values: &[u32]) -> bool
    requires { (k ≤ max_columns) × (length values.now ≤ key_width - 1) }
    ensures { result ≡ is_key (shape_of k) (marks ∷ padded (key_width - 1) values.now) }
{
    marks < power(k) && zero_under(marks, values)
}

// ---- What is wanted, and the range
// The marks in a key's first number, which says besides whether a count is wanted, and the ranged column.
pub fn bare_marks(first: u32) -> u32
    ensures { (vs : List ℕ) → result ≡ slice_index (bare_key (first ∷ vs)) 0 }
{
    first % Hall::COUNT_BIT
}

// The range of a key, by its first number and its ends.
pub fn range_of(first: u32, lowest: u32, highest: u32) -> Range
    ensures { result ≡ range_of (first / range_unit) lowest highest }
{
    match (first / Hall::RANGE_UNIT).checked_sub(1) {
        Some(column) => Range::Between {
            column,
            lowest,
            highest,
        },
        None => Range::None,
    }
}

// Whether there is a range.
pub fn is_ranged(range: Range) -> bool
    ensures { result ≡ is_ranged range }
{
    matches!(range, Range::Between { .. })
}

// How many of the numbers behind a key's first are its query's: a range has the last two.
#[tactic(auto, unfolding(crate::specs::KeyContracts::query_width))]
pub fn query_width(range: Range) -> usize
    ensures width { result ≡ query_width range }
    ensures least { max_columns ≤ result }
    ensures most { result ≤ key_width - 1 }
{
    match range {
        Range::Between { .. } => Hall::COLUMN_SLOTS,
        Range::None => Hall::KEY_WIDTH - 1,
    }
}

// Whether the column at a place names a value, by the marks.
fn is_named(marks: u32, column: u32) -> bool
    requires { column < max_columns }
    ensures { (k : ℕ) (vs : List ℕ) → column < k → result ≡ is_named (slice_index_or (columns_in k marks vs) column Wildcard) }
{
    (marks >> column) % 2 == 1
}

// Whether a begin would turn a range down, beside a query of k columns that has these marks: its column is past the last, or named too, or its
// ends are reversed.
pub fn bad_range(k: usize, marks: u32, range: Range) -> bool
    requires { k ≤ max_columns }
    ensures { (vs : List ℕ) → result ≡ (not (is_range (shape_of k) (columns_in k marks vs) range) || is_reversed range) }
{
    let Range::Between {
        column,
        lowest,
        highest,
    } = range
    else {
        return false;
    };
    k <= column as usize || is_named(marks, column) || highest < lowest
}
