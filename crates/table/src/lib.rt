// The code over the table memory: its count at place 0, its records one after another from place 8 on (docs/LAYOUT.md).
// What is listed, added and removed are the rules' definitions; specs/TableContracts.antt names what they leave open.
// The memory is lent as a slice, and what it has to hold is asked by `Fit`: for a struct the reason against stands at the nodes.
#![tactic(auto)]

ghost use Rattle.std.specs.Prelude.{◌≡◌, ◌+◌, ◌*◌, ◌≤◌, length, take, drop, slice_index};
ghost use Rattle.lists.specs.Lists.{written, flat};
ghost use Rattle.rules.specs.Table.{insert, delete, effect};
ghost use Rattle.rules.specs.Work.{list_within};
ghost use Rattle.rules.specs.Memory.{records_in, with_records};
ghost use Rattle.table.specs.TableContracts.{Fit, RangeFits, lent, gathered, spot_of, inserted_as, gone};
ghost use Rattle.rules.specs.Layout.{max_list, list_room};

use columns::bounds::{self, Bounds};
use columns::masks::Masks;
use columns::queries::Query;
use columns::record_test::RecordTest;
use hall::Hall;
use query::Range;
use std::cmp::Ordering;

mod passes; // passes.rt: passes over records
mod widths; // widths.rt: the passes for each width

// The most records that a table holds.
const RECORDS: usize = Hall::RECORDS as usize;

// What an insert did.
#[derive(Clone, Copy, PartialEq, Eq)]
pub enum Inserted {
    Added,
    // The record was there already.
    Present,
    // There was no room for it.
    Full,
}

// The records of a table of k columns, one after another.
fn records(table: &[u32], k: usize) -> &[u32]
    requires { Fit k table.now }
    ensures { result.now ≡ lent k table.now }
{
    let n = table[Hall::RECORD_COUNT_OFFSET] as usize;
    &table[Hall::HEADER..Hall::HEADER + n * k]
}

// Writes the records in the query's subspace and within the range, at most 32, to `out`, and says how many there are, if there are no more.
pub fn gather(table: &[u32], query: &Query, range: Range, out: &mut [u32]) -> Option<usize>
    requires fit { Fit (length query.now) table.now × RangeFits (length query.now) query.now range }
    requires out_len { length out.old ≡ list_room }
    ensures value { result ≡ gathered (list_within range query.now (records_in (length query.now) table.now)) }
    ensures out_after { out.new ≡ written out.old 0 (flat (take max_list (list_within range query.now (records_in (length query.now) table.now)))) }
{
    let k = query.width();
    let recs = records(table, k);
    let Range::Between {
        column,
        lowest,
        highest,
    } = range
    else {
        return widths::list(recs, k, &Masks::of(query), out);
    };
    if bounds::finds_none(query, highest) {
        return Some(0);
    }
    widths::list(recs, k, &Bounds::of(query, column, lowest, highest), out)
}

// How many records lie in the query's subspace and within the range, be they more than a read lists. One pass, and nothing is copied.
pub fn count(table: &[u32], query: &Query, range: Range) -> usize
    requires { Fit (length query.now) table.now × RangeFits (length query.now) query.now range }
    ensures { result ≡ length (list_within range query.now (records_in (length query.now) table.now)) }
{
    let k = query.width();
    let recs = records(table, k);
    let Range::Between {
        column,
        lowest,
        highest,
    } = range
    else {
        return widths::count(recs, k, &Masks::of(query)) as usize;
    };
    if bounds::finds_none(query, highest) {
        return 0;
    }
    widths::count(recs, k, &Bounds::of(query, column, lowest, highest)) as usize
}

// The place of the first greater record, or none where the record is there, anywhere.
fn seek(table: &[u32], rec: &[u32]) -> Option<usize>
    requires { Fit (length rec.now) table.now }
    ensures { result ≡ spot_of rec.now (records_in (length rec.now) table.now) }
{
    match rec.len() {
        4 => seek_in::<4>(table, rec),
        3 => seek_in::<3>(table, rec),
        2 => seek_in::<2>(table, rec),
        _ => seek_in::<1>(table, rec),
    }
}

// The same of K columns, in one scan.
fn seek_in<const K: usize>(table: &[u32], rec: &[u32]) -> Option<usize>
    requires fit { Fit K table.now }
    requires width { length rec.now ≡ K }
    ensures { result ≡ spot_of rec.now (records_in K table.now) }
{
    let recs = records(table, K);
    let mut spot = recs.len() / K;
    for (i, x) in recs.chunks_exact(K).enumerate() {
        match words::compare(x, rec) {
            Ordering::Less => {}
            Ordering::Equal => return None,
            Ordering::Greater => spot = spot.min(i),
        }
    }
    Some(spot)
}

// Puts the record in before the first greater one, unless it is there already or 2,048 records are.
pub fn insert(table: &mut [u32], rec: &[u32]) -> Inserted
    requires { Fit (length rec.now) table.old }
    ensures value { result ≡ inserted_as rec.now (records_in (length rec.now) table.old) }
    ensures table_after { table.new ≡ with_records (length rec.now) table.old (effect (insert rec.now) (records_in (length rec.now) table.old)) }
{
    let Some(i) = seek(table, rec) else {
        return Inserted::Present;
    };
    let n = table[Hall::RECORD_COUNT_OFFSET] as usize;
    if RECORDS <= n {
        return Inserted::Full;
    }
    let k = rec.len();
    let at = Hall::HEADER + i * k;
    let e = Hall::HEADER + n * k;
    words::insert(table, at, e, rec);
    table[Hall::RECORD_COUNT_OFFSET] = (n + 1) as u32;
    Inserted::Added
}

// Copies a record of K columns to where it is to stand; while nothing has gone it stands there. It is read whole before any of it is written: so nothing
// has to be asked of the two places, and its numbers go together.
#[tactic(auto, using(crate::proofs::Deleting::settled))]
fn settle<const K: usize>(table: &mut [u32], from: usize, to: usize)
    requires { (to ≤ from) × (from + K ≤ length table.old) }
    ensures { table.new ≡ written table.old to (take K (drop from table.old)) }
{
    if to != from {
        let mut rec = [0u32; K];
        rec.copy_from_slice(&table[from..from + K]);
        for i in 0..K {
            table[to + i] = rec[i];
        }
    }
}

// Takes out every record in the query's subspace, and says how many went. The others close up, and what they free is 0.
pub fn delete(table: &mut [u32], query: &Query) -> usize
    requires { Fit (length query.now) table.old }
    ensures value { result ≡ gone query.now (records_in (length query.now) table.old) }
    ensures table_after { table.new ≡ with_records (length query.now) table.old (effect (delete query.now) (records_in (length query.now) table.old)) }
{
    let test = Masks::of(query);
    match query.width() {
        4 => delete_in::<4>(table, &test),
        3 => delete_in::<3>(table, &test),
        2 => delete_in::<2>(table, &test),
        _ => delete_in::<1>(table, &test),
    }
}

// The same of K columns, by masks and values.
fn delete_in<const K: usize>(table: &mut [u32], test: &Masks) -> usize
    requires { Fit K table.old }
    ensures value { result ≡ gone (take K test.now) (records_in K table.old) }
    ensures table_after { table.new ≡ with_records K table.old (effect (delete (take K test.now)) (records_in K table.old)) }
{
    let n = table[Hall::RECORD_COUNT_OFFSET] as usize;
    let mut j = 0;
    for i in 0..n {
        let from = Hall::HEADER + i * K;
        let stays = !test.lies(&table[from..from + K]);
        if stays {
            settle::<K>(table, from, Hall::HEADER + j * K);
        }
        // By arithmetic too, as where records are listed (passes).
        j += usize::from(stays);
    }
    table[Hall::HEADER + j * K..Hall::HEADER + n * K].fill(0);
    table[Hall::RECORD_COUNT_OFFSET] = j as u32;
    n - j
}
