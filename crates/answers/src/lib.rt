// The filed answers, lists and counts, over their lent memory: search, file, evict, empty, and the copy of a list into the tray. The places in
// an entry are constants of Hall (docs/LAYOUT.md). The rules stand in the crate rules.
// `Fit` stands in each contract: a struct around the lent slice would have each method say that the slice stays the same one, which is no plainer.
#![tactic(auto)]

ghost use Rattle.std.specs.Prelude.{◌≡◌, false, [], ◌∷◌, ◌++◌, ◌+◌, ◌*◌, ◌≤◌, ◌<◌, length, get_or};
ghost use Rattle.lists.specs.Lists.{header, without, all_below};
ghost use Rattle.rules.specs.Answers.{has_key_of, at_least, serves, filed, is_long, some_long};
ghost use Rattle.query.specs.Encoding.{key_width};
ghost use Rattle.query.specs.Shape.{max_columns};
ghost use Rattle.rules.specs.Layout.{max_answers, tray_least, answer_count_offset, look_room, entry_width};
ghost use Rattle.rules.specs.Memory.{current, answers_in, with_answers};
ghost use Rattle.answers.specs.AnswerContracts.{Fit, Gave, fetched};

use hall::Hall;

// The place of entry i, or of the one behind the last.
fn place(i: usize) -> usize
    requires { i ≤ max_answers }
    ensures { result ≡ header + i * entry_width }
{
    Hall::HEADER + i * Hall::ENTRY_WIDTH
}

// The place behind the last entry.
fn end(answers: &[u32]) -> usize
    requires { Fit answers.now }
    ensures { result ≡ header + get_or answers.now answer_count_offset 0 * entry_width }
{
    place(answers[Hall::ANSWER_COUNT_OFFSET] as usize)
}

// The entries.
#[tactic(auto, using(crate::proofs::AnswerScan::answers_cut, crate::proofs::AnswerScan::count_is))]
fn entries(answers: &[u32]) -> &[[u32; Hall::ENTRY_WIDTH]]
    requires { Fit answers.now }
    ensures filed { result.now ≡ answers_in current answers.now }
    ensures count { length result.now ≡ get_or answers.now answer_count_offset 0 }
{
    answers[Hall::HEADER..end(answers)]
        .as_chunks::<{ Hall::ENTRY_WIDTH }>()
        .0
}

// Whether the entry e answers x's query, with what x wants and its range: the key has all three. Number by number: most keys differ in one of
// the first, and slices' own `==` is a call for each entry here.
fn has_key(e: &[u32; Hall::ENTRY_WIDTH], x: &[u32]) -> bool
    requires { key_width ≤ length x.now }
    ensures { result ≡ has_key_of x.now e.now }
{
    let filed = &e[..Hall::KEY_WIDTH];
    let asked = &x[..Hall::KEY_WIDTH];
    filed.iter().zip(asked).all(|(f, a)| f == a)
}

// Whether each of e's first n revisions is at least x's.
fn is_recent(e: &[u32; Hall::ENTRY_WIDTH], x: &[u32], n: usize) -> bool
    requires { (length x.now ≡ entry_width) × (n ≤ look_room) }
    ensures { result ≡ all_below n (at_least x.now e.now) }
{
    let filed = &e[Hall::REVISIONS_OFFSET..][..n];
    let noted = &x[Hall::REVISIONS_OFFSET..][..n];
    filed.iter().zip(noted).all(|(f, r)| r <= f)
}

// Whether e may be answered with to the client whose own entry x is. Few entries have the key, so it is compared first.
#[tactic(auto, unfolding(rules::specs::Answers::serves))]
fn may_serve(e: &[u32; Hall::ENTRY_WIDTH], x: &[u32], n: usize) -> bool
    requires { (length x.now ≡ entry_width) × (n ≤ look_room) }
    ensures { result ≡ serves n x.now e.now }
{
    has_key(e, x) && is_recent(e, x, n)
}

// The place of the first entry that may be answered with. With n = 0 no revision is compared: it is the search by the key alone, for the answer
// to the same query, wanting and range. Not inlined: beside what its callers go on with, the loop would carry more for each entry.
#[inline(never)]
#[tactic(auto, unfolding(crate::specs::AnswerContracts::fetched))]
pub fn fetch(answers: &[u32], entry: &[u32], n: usize) -> Option<usize>
    requires { Fit answers.now × ((length entry.now ≡ entry_width) × (n ≤ look_room)) }
    ensures { result ≡ fetched n entry.now (answers_in current answers.now) }
{
    entries(answers).iter().position(|e| may_serve(e, entry, n))
}

// Whether the entry e says more than it may: a count more than a table holds, a list more than are listed. Nearly all say at most 32, which both
// may: only above that the key is looked at.
#[tactic(auto, using(crate::proofs::AnswerScan::long_not, crate::proofs::AnswerScan::long_count, crate::proofs::AnswerScan::long_list))]
fn is_long(e: &[u32; Hall::ENTRY_WIDTH]) -> bool
    ensures { result ≡ is_long e.now }
{
    let n = e[Hall::LENGTH_OFFSET];
    Hall::LIST < n && (!Hall::is_count(e[0]) || Hall::RECORDS < n)
}

// Whether some filed list's length or some filed count is out of range.
pub fn some_long(answers: &[u32]) -> bool
    requires { Fit answers.now }
    ensures { result ≡ some_long (answers_in current answers.now) }
{
    entries(answers).iter().any(is_long)
}

// Puts entry in behind the last.
#[tactic(auto, using(crate::proofs::AnswerChanges::count_written, crate::proofs::AnswerChanges::appended))]
fn append(answers: &mut [u32], entry: &[u32])
    requires { Fit answers.old × ((length entry.now ≡ entry_width) × (get_or answers.old answer_count_offset 0 < max_answers)) }
    ensures { answers.new ≡ with_answers current answers.old (answers_in current answers.old ++ (entry.now ∷ [])) }
{
    let at = end(answers);
    words::write(answers, at, entry);
    answers[Hall::ANSWER_COUNT_OFFSET] += 1;
}

// Takes the entry at place i out; the rest close up.
pub fn evict(answers: &mut [u32], i: usize)
    requires { Fit answers.old × (i < get_or answers.old answer_count_offset 0) }
    ensures { answers.new ≡ with_answers current answers.old (without i (answers_in current answers.old)) }
{
    let end = end(answers);
    words::remove(answers, place(i), Hall::ENTRY_WIDTH, end);
    answers[Hall::ANSWER_COUNT_OFFSET] -= 1;
}

// Files entry: an answer to the same query goes out, failing that the oldest where 64 are kept, and entry goes last.
pub fn file(answers: &mut [u32], entry: &[u32])
    requires { Fit answers.old × (length entry.now ≡ entry_width) }
    ensures { answers.new ≡ with_answers current answers.old (filed entry.now (answers_in current answers.old)) }
{
    match fetch(answers, entry, 0) {
        Some(i) => evict(answers, i),
        None if answers[Hall::ANSWER_COUNT_OFFSET] == Hall::ANSWERS => evict(answers, 0),
        None => {}
    }
    append(answers, entry);
}

// Takes all entries out. Only what they used is cleared.
#[tactic(auto, using(crate::proofs::AnswerChanges::emptied))]
pub fn empty(answers: &mut [u32])
    requires { Fit answers.old }
    ensures { answers.new ≡ with_answers current answers.old [] }
{
    let end = end(answers);
    answers[Hall::HEADER..end].fill(0);
    answers[Hall::ANSWER_COUNT_OFFSET] = 0;
}

// Copies an entry's list, k numbers for each record, to the tray's start, and gives the number of its records. Of a count nothing is copied.
// The entry is a filed answer or a client's own.
#[tactic(auto, using(crate::proofs::AnswerChanges::plain_fits, crate::proofs::AnswerChanges::tray_part, crate::proofs::AnswerChanges::list_part))]
pub fn give_list(entry: &[u32], k: usize, tray: &mut [u32]) -> u32
    requires { (length entry.now ≡ entry_width) × ((is_long entry.now ≡ false) × ((k ≤ max_columns) × (tray_least ≤ length tray.old))) }
    ensures { Gave k entry.now tray.old result tray.new }
{
    let count = entry[Hall::LENGTH_OFFSET];
    if !Hall::is_count(entry[0]) {
        let n = count as usize * k;
        tray[..n].copy_from_slice(&entry[Hall::LIST_OFFSET..][..n]);
    }
    count
}

// The same with the filed answer at place i.
pub fn give(answers: &[u32], i: usize, k: usize, tray: &mut [u32]) -> u32
    requires { Fit answers.now × ((i < get_or answers.now answer_count_offset 0) × ((is_long (get_or (answers_in current answers.now) i []) ≡ false) × ((k ≤ max_columns) × (tray_least ≤ length tray.old)))) }
    ensures { Gave k (get_or (answers_in current answers.now) i []) tray.old result tray.new }
{
    give_list(&entries(answers)[i], k, tray)
}
