// A query as marks and values, as a key in a memory has it (docs/LAYOUT.md): bit c of the marks is 1 where column c names a value.
ghost use Rattle.std.specs.Prelude.{◌≡◌, not, ◌||◌, ◌-◌, ◌^◌, ◌<◌, ◌≤◌, ◌∷◌, length, is_some, IfSome};
ghost use Rattle.lists.specs.Lists.{padded};
ghost use Rattle.query.specs.Query.{read_count, write_count};
ghost use Rattle.query.specs.Encoding.{key_width, names_all, is_key};
ghost use Rattle.query.specs.Range.{is_range, is_reversed};
ghost use Rattle.query.specs.Shape.{shape_of, max_columns};

use super::keys;
use super::queries::Query;
use hall::Hall;
use query::Range;

#[derive(Clone, Copy)]
pub struct Marked {
    pub k: usize,
    pub marks: u32,
    pub values: [u32; Hall::COLUMN_SLOTS],
    pub ghost few: { k ≤ max_columns },
    pub ghost fit: { marks < 2 ^ k },
}

impl Marked {
    ghost use Rattle.columns.specs.MarkedContracts.{marked_query, IsParsed};

    // The query of k columns whose key has these marks and, behind them, these numbers, zeros from where they end. None where no query has that
    // key: a mark past the columns, or a value without a mark.
    pub fn parse(k: usize, marks: u32, values: &[u32]) -> Option<Marked>
        requires few { k ≤ max_columns }
        requires enough { max_columns ≤ length values.now }
        requires within { length values.now ≤ key_width - 1 }
        ensures key { is_some result ≡ is_key (shape_of k) (marks ∷ padded (key_width - 1) values.now) }
        ensures query { IfSome result (λ m. IsParsed m k marks values.now) }
    {
        if !keys::is_key(k, marks, values) {
            return None;
        }
        let values = [values[0], values[1], values[2], values[3]];
        Some(Marked { k, marks, values })
    }

    // The query itself, column by column.
    pub fn query(&self) -> Query
        ensures { result ≡ marked_query self.now }
    {
        Query::of_marks(self.k, self.marks, &self.values)
    }

    // How many looks it makes as a read.
    pub fn look_count(&self) -> usize
        ensures looks { result ≡ read_count (marked_query self.now) }
        ensures most { result ≤ Hall.LOOKS }
    {
        keys::look_count(self.k, self.marks)
    }

    // How many nodes it has as a write.
    pub fn write_count(&self) -> usize
        ensures nodes { result ≡ write_count (marked_query self.now) }
        ensures most { result ≤ Hall.LOOKS }
    {
        keys::power(self.k) as usize
    }

    // Whether it names every column.
    pub fn names_all(&self) -> bool
        ensures { result ≡ names_all (marked_query self.now) }
    {
        keys::names_all(self.k, self.marks)
    }

    // Whether a begin would turn a range beside it down: its column is past the last, or named too, or its ends are reversed.
    pub fn bad_range(&self, range: Range) -> bool
        ensures { result ≡ (not (is_range (shape_of self.now.k) (marked_query self.now) range) || is_reversed range) }
    {
        keys::bad_range(self.k, self.marks, range)
    }
}
