// The passes for each width. For each the compiler gets as many records at once as it makes the fastest code of (docs/PERFORMANCE.md).
ghost use Rattle.std.specs.Prelude.{◌≡◌, length, take};
ghost use Rattle.lists.specs.Lists.{written, flat, keep};
ghost use Rattle.rules.specs.Layout.{max_list, list_room};
ghost use Rattle.table.specs.TableContracts.{Stretch, records_of, up_to};

use super::passes;
use columns::record_test::RecordTest;

// Writes the records that pass the test, at most 32, to `out`, and says how many there are, if there are no more.
pub fn list<T: RecordTest>(recs: &[u32], k: usize, test: &T, out: &mut [u32]) -> Option<usize>
    requires stretch { Stretch k recs.now }
    requires out_len { length out.old ≡ list_room }
    ensures value { result ≡ up_to (length (keep (T.says test.now) (records_of k recs.now))) }
    ensures out_after { out.new ≡ written out.old 0 (flat (take max_list (keep (T.says test.now) (records_of k recs.now)))) }
{
    match k {
        4 => passes::list_in::<T, 4, 3>(recs, test, out),
        3 => passes::list_in::<T, 3, 8>(recs, test, out),
        2 => passes::list_in::<T, 2, 8>(recs, test, out),
        _ => passes::list_in::<T, 1, 16>(recs, test, out),
    }
}

// How many records pass the test. Of four columns the compiler makes faster code for passing blocks than for counting.
pub fn count<T: RecordTest>(recs: &[u32], k: usize, test: &T) -> u32
    requires { Stretch k recs.now }
    ensures { result ≡ length (keep (T.says test.now) (records_of k recs.now)) }
{
    match k {
        4 => passes::skip_and_count::<T, 4, 3>(recs, test),
        3 => passes::count_in::<T, 3>(recs, test),
        2 => passes::count_in::<T, 2>(recs, test),
        _ => passes::count_in::<T, 1>(recs, test),
    }
}
