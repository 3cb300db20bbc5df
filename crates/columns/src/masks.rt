// The record test, by arithmetic on mark and difference (S-2). A query comes as numbers: four masks and four values. A mask is a column's
// mark in all 32 bits; the value under a wildcard is 0. A column that names 0 finds no record (S-5): its mask is 0 and its value 1.
ghost use Rattle.std.specs.Prelude.{◌≡◌};
ghost use Rattle.columns.specs.ColumnContracts.{four};
ghost use Rattle.columns.specs.MaskContracts.{mask_of, sought_of, lies_under};

use super::queries::Query;
use super::record_test::RecordTest;
use hall::Hall;
use query::Column;
use std::marker::Model;

// A mask and a value for each column. They name a query of four columns, the wildcards behind the last among them.
#[derive(Drop)]
pub struct Masks {
    masks: [u32; Hall::COLUMN_SLOTS],
    values: [u32; Hall::COLUMN_SLOTS],
}

impl Model for Masks {
    ghost use Rattle.std.specs.Prelude.{List};
    ghost use Rattle.query.specs.declared.Column.{Column};

    ghost Value = { List Column };

    ghost use Rattle.columns.specs.MaskContracts.{columns_under, Masked};

    ghost view = { λ m. columns_under m.masks m.values };

    ghost invariant = { λ m. Masked m.masks m.values };
}

impl Masks {
    // The masks and values of a query. Made once, before the records are passed.
    pub fn of(query: &Query) -> Masks
        ensures { result ≡ four query.now }
    {
        let mut masks = [0u32; Hall::COLUMN_SLOTS];
        let mut values = [0u32; Hall::COLUMN_SLOTS];
        for (i, col) in query.columns().iter().enumerate() {
            masks[i] = mask_of(*col);
            values[i] = sought_of(*col);
        }
        Masks { masks, values }
    }
}

impl RecordTest for Masks {
    ghost says = { lies_under };

    // In each column what the mask leaves of the record's number is to differ from the value by 0.
    fn lies(&self, rec: &[u32]) -> bool {
        let mut fits = true;
        for (i, n) in rec.iter().enumerate() {
            let difference = (*n & self.masks[i]) ^ self.values[i];
            fits &= difference == 0;
        }
        fits
    }
}

// All bits 1 for a column that names a value above 0, all 0 for a wildcard and for a named 0.
#[tactic(auto, unfolding(crate::specs::MaskContracts::mask_of))]
fn mask_of(col: Column) -> u32
    ensures { result ≡ mask_of col }
{
    match col {
        Column::Is(0) => 0, // of any number nothing is left, and none fits
        Column::Is(_) => 0xFFFF_FFFF,
        Column::Wildcard => 0, // the same, and each fits
    }
}

// What the mask is to leave of a number that fits: the value, 0 for a wildcard; 1 for a named 0, whose mask leaves nothing of any number.
#[tactic(auto, unfolding(crate::specs::MaskContracts::sought_of))]
fn sought_of(col: Column) -> u32
    ensures { result ≡ sought_of col }
{
    match col {
        Column::Is(0) => 1,
        Column::Is(v) => v,
        Column::Wildcard => 0,
    }
}
