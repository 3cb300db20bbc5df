// Passes over records that stand one after another, by any record test. The number of their columns, K, and how many of them make a block are
// constants, so that the compiler makes a loop for each width.
ghost use Rattle.std.specs.Prelude.{◌≡◌, ◌-◌, ◌*◌, ◌/◌, ◌+◌, ◌≤◌, length, take, drop};
ghost use Rattle.lists.specs.Lists.{written, flat, keep, place};
ghost use Rattle.rules.specs.Layout.{max_list, list_room};
ghost use Rattle.table.specs.TableContracts.{Stretch, Block, records_of, some, up_to};

use columns::record_test::RecordTest;
use hall::Hall;

const LIST: usize = Hall::LIST as usize;

// Whether some record passes the test. There is no way out before the last: the compiler makes vector code of it.
fn some_in<T: RecordTest, const K: usize>(recs: &[u32], test: &T) -> bool
    requires { Stretch K recs.now }
    ensures { result ≡ some (T.says test.now) (records_of K recs.now) }
{
    let mut any = false;
    for rec in recs.chunks_exact(K) {
        any |= test.lies(rec);
    }
    any
}

// How many records pass the test.
pub fn count_in<T: RecordTest, const K: usize>(recs: &[u32], test: &T) -> u32
    requires { Stretch K recs.now }
    ensures { result ≡ length (keep (T.says test.now) (records_of K recs.now)) }
{
    let mut j = 0;
    for rec in recs.chunks_exact(K) {
        j += u32::from(test.lies(rec));
    }
    j
}

// What is left of the records behind the blocks without one that passes the test.
fn skip<'a, T: RecordTest, const K: usize, const BLOCK: usize>(
    recs: &'a [u32],
    test: &T,
) -> &'a [u32]
    requires stretch { Stretch K recs.now }
    requires block { Block BLOCK }
    ensures kept { keep (T.says test.now) (records_of K result.now) ≡ keep (T.says test.now) (records_of K recs.now) }
    ensures stretch { Stretch K result.now }
    ensures short { length result.now ≤ length recs.now }
    ensures place { result.now ≡ drop (place (T.says test.now) (records_of K recs.now) / BLOCK * BLOCK * K) recs.now }
{
    let mut at = 0;
    for block in recs.chunks_exact(BLOCK * K) {
        if some_in::<T, K>(block, test) {
            return &recs[at..];
        }
        at += BLOCK * K;
    }
    &recs[at..]
}

// How many records pass the test, block by block. Whether nothing is left is asked at each block, beside whether a whole one is: so the compiler tests
// the records as they stand, and doesn't take a column of several of them at once, which of four columns takes longer.
fn count_blocks<T: RecordTest, const K: usize, const BLOCK: usize>(recs: &[u32], test: &T) -> u32
    requires stretch { Stretch K recs.now }
    requires block { Block BLOCK }
    ensures { result ≡ length (keep (T.says test.now) (records_of K recs.now)) }
{
    let mut rest = recs;
    let mut j = 0;
    while !rest.is_empty() {
        if rest.len() < BLOCK * K {
            return j + count_in::<T, K>(rest, test);
        }
        let (block, behind) = rest.split_at(BLOCK * K);
        j += count_in::<T, K>(block, test);
        rest = behind;
    }
    j
}

// How many records pass the test, where passing blocks is faster than counting: those before the first block that has one are
// passed. The records of that block are tested twice.
pub fn skip_and_count<T: RecordTest, const K: usize, const BLOCK: usize>(
    recs: &[u32],
    test: &T,
) -> u32
    requires stretch { Stretch K recs.now }
    requires block { Block BLOCK }
    ensures { result ≡ length (keep (T.says test.now) (records_of K recs.now)) }
{
    count_blocks::<T, K, BLOCK>(skip::<T, K, BLOCK>(recs, test), test)
}

// Writes the records that pass the test behind those that `out` had, at most 32 in all, and says how many there are then, if there are no more.
fn list_block<T: RecordTest, const K: usize>(
    recs: &[u32],
    test: &T,
    out: &mut [u32],
    had: usize,
) -> Option<usize>
    requires stretch { Stretch K recs.now }
    requires few { had ≤ max_list }
    requires out_len { length out.old ≡ list_room }
    ensures value { result ≡ up_to (had + length (keep (T.says test.now) (records_of K recs.now))) }
    ensures out_after { out.new ≡ written out.old (had * K) (flat (take (max_list - had) (keep (T.says test.now) (records_of K recs.now)))) }
{
    let mut j = had;
    for rec in recs.chunks_exact(K) {
        let fits = test.lies(rec);
        if fits {
            if j == LIST {
                return None;
            }
            words::write(out, j * K, rec);
        }
        // By arithmetic too: were the branch above the answer's one use, the compiler would make a jump of each column.
        j += usize::from(fits);
    }
    Some(j)
}

// Writes the records that pass the test, at most 32, to `out`, and says how many there are, if there are no more. Blocks are tested as a whole,
// and searched only where one fits.
pub fn list_in<T: RecordTest, const K: usize, const BLOCK: usize>(
    recs: &[u32],
    test: &T,
    out: &mut [u32],
) -> Option<usize>
    requires stretch { Stretch K recs.now }
    requires block { Block BLOCK }
    requires out_len { length out.old ≡ list_room }
    ensures value { result ≡ up_to (length (keep (T.says test.now) (records_of K recs.now))) }
    ensures out_after { out.new ≡ written out.old 0 (flat (take max_list (keep (T.says test.now) (records_of K recs.now)))) }
{
    let mut rest = recs;
    let mut j = 0;
    while !rest.is_empty() {
        let found = skip::<T, K, BLOCK>(rest, test);
        let (block, behind) = found.split_at(found.len().min(BLOCK * K));
        j = list_block::<T, K>(block, test, out, j)?;
        rest = behind;
    }
    Some(j)
}
