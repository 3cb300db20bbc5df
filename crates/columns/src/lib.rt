// Queries as they arrive, in code and in memory, their labels, and the tests of records.
// Leans on query for the column and for the rules.
#![tactic(auto)]

ghost use Rattle.std.specs.Prelude.{◌≡◌, cond, IfOk, IfErr};
ghost use Rattle.query.specs.Shape.{shape_of};
ghost use Rattle.query.specs.Encoding.{is_query, column_of, query_of, well_marked, names_all};
ghost use Rattle.columns.specs.ColumnContracts.{column_marked, taken_of, refusal_of, taken_code};
ghost use Rattle.rules.specs.Layout.{refused_columns};

use hall::Hall;
use hall::refusal::Refusal;
use query::Column;

pub mod bounds; // bounds.rt: the record test with a range
pub mod keys; // keys.rt: marks, values and keys
pub mod labels; // labels.rt: the labels of nodes
pub mod marked; // marked.rt: a query as marks and values
pub mod masks; // masks.rt: the record test without a range
pub mod queries; // queries.rt: queries, and their keys
pub mod record_test; // record_test.rt: what the passes ask of a record test
mod sheet; // sheet.rt: the fixed sheet

// Whether a mark and its value are those of a column: no mark above 1, no value under a wildcard.
#[tactic(auto, unfolding(crate::specs::ColumnContracts::column_marked))]
fn is_column(mark: u32, v: u32) -> bool
    ensures { result ≡ column_marked mark v }
{
    mark <= 1 && (mark == 1 || v == 0)
}

// Whether the columns as they arrive are well marked, each mark with its value.
fn well_marked(asked: &[u32]) -> bool
    ensures { result ≡ well_marked asked.now }
{
    let (pairs, rest) = asked.as_chunks::<2>();
    rest.is_empty() && pairs.iter().all(|&[mark, v]| is_column(mark, v))
}

// Whether what arrives is a query of k columns.
#[tactic(auto, unfolding(query::specs::Encoding::is_query))]
pub fn is_query(asked: &[u32], k: u32) -> bool
    ensures { result ≡ is_query (shape_of k) asked.now }
{
    asked.len() == 2 * k as usize && well_marked(asked)
}

// The column of a mark and a value.
#[tactic(auto, unfolding(query::specs::Encoding::column_of))]
fn column_of(mark: u32, v: u32) -> Column
    ensures { result ≡ column_of mark v }
{
    if mark == 0 {
        Column::Wildcard
    } else {
        Column::Is(v)
    }
}

// Why what arrives is no record: a column is a wildcard. It has the values before the first one, zeros behind.
#[derive(Clone, Copy, Debug)]
pub struct NoRecord {
    pub values: [u32; Hall::COLUMN_SLOTS],
}

impl From<NoRecord> for Refusal {
    ghost from_gives = { λ found refusal. refusal ≡ refusal_of found };

    fn from(_: NoRecord) -> Refusal {
        Refusal::Columns
    }
}

// An insert takes the values of the columns as they arrive, zeros behind, and refuses a wildcard. What arrives may have more columns than any hall:
// the memory's number of columns is tested later.
pub fn take_record(asked: &[u32]) -> Result<[u32; Hall::COLUMN_SLOTS], NoRecord>
    ensures code { taken_code result ≡ cond (names_all (query_of asked.now)) 0 refused_columns }
    ensures values { IfOk result (λ values. values ≡ taken_of (query_of asked.now)) }
    ensures before { IfErr result (λ found. found.values ≡ taken_of (query_of asked.now)) }
{
    let mut values = [0; Hall::COLUMN_SLOTS];
    let (pairs, _) = asked.as_chunks::<2>();
    for (i, &[mark, named]) in pairs.iter().enumerate() {
        let col = column_of(mark, named);
        let Column::Is(v) = col else {
            return Err(NoRecord { values });
        };
        if i < Hall::COLUMN_SLOTS {
            values[i] = v;
        }
    }
    Ok(values)
}
