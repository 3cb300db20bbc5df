// Which count of a tally the step that is due of a read would raise: asked before anything is altered, and only where a count of the tally stands
// at its largest. Leans on the searches of the steps themselves.
ghost use Rattle.std.specs.Prelude.{◌≡◌, not, List, ℕ};
ghost use Rattle.rules.specs.Work.{value_of, may_answer};
ghost use Rattle.rules.specs.Memory.{mem, records_in};
ghost use Rattle.rules.specs.Steps.{read_result};
ghost use Rattle.rules.specs.Tally.{count_of};
ghost use Rattle.clients.specs.ClientContracts.{asked_at};
ghost use Rattle.reading.specs.ReadContracts.{made, Foresees, ForeseesFetch, ForeseesTable};

use super::{count_records, find_filed};
use clients::Held;
use hall::Hall;
use rules::Count;

// The most records that a read lists.
const LIST: usize = Hall::LIST as usize;

// The fetch: the read is answered from file, or goes on.
#[tactic(auto, using(crate::proofs::Foreseeing::none_raises, crate::proofs::Foreseeing::filed_raises, clients::proofs::HeldLaws::reader_few))]
fn fetch_would(answers: &[u32], clients: &[u32], d: usize, h: Held) -> Option<Count>
    requires { ForeseesFetch answers.now clients.now d h }
    ensures { (t n y : List ℕ) → result ≡ count_of None (read_result (mem t n answers.now clients.now) y d (asked_at clients.now d) (made clients.now d)).out }
{
    find_filed(answers, clients, d, h.steps)?;
    Some(Count::FromFile)
}

// Whether a list's table step would find more than 32 records. A count is never too long: no pass over the table is made for it.
#[tactic(auto, using(crate::proofs::Foreseeing::count_short, crate::proofs::Foreseeing::list_long))]
fn is_long(table: &[u32], clients: &[u32], d: usize, h: Held) -> bool
    requires { ForeseesTable table.now clients.now d h }
    ensures { result ≡ not (may_answer (asked_at clients.now d) (value_of (asked_at clients.now d) (records_in h.query.k table.now))) }
{
    !h.counts && LIST < count_records(table, clients, d, h)
}

// The table step: a list of more than 32 ends the read; where a look saw a mark it is answered from the table; else it goes on.
#[tactic(auto, using(crate::proofs::Foreseeing::long_raises, crate::proofs::Foreseeing::taken_raises))]
fn table_would(table: &[u32], clients: &[u32], d: usize, h: Held) -> Option<Count>
    requires { ForeseesTable table.now clients.now d h }
    ensures { (n a y : List ℕ) → result ≡ count_of None (read_result (mem table.now n a clients.now) y d (asked_at clients.now d) (made clients.now d)).out }
{
    if is_long(table, clients, d, h) {
        return Some(Count::EndedLong);
    }
    clients::saw_pending(clients, d).then_some(Count::FromTable)
}

// The step that is due: a look ends nothing, a file step answers from the table.
#[tactic(auto, using(crate::proofs::ReadClient::look_due, crate::proofs::ReadClient::fetch_due, crate::proofs::ReadClient::table_due, crate::proofs::ReadClient::file_due, crate::proofs::Foreseeing::look_raises, crate::proofs::Foreseeing::file_raises))]
pub fn step_would(
    table: &[u32],
    answers: &[u32],
    clients: &[u32],
    d: usize,
    h: Held,
) -> Option<Count>
    requires { Foresees table.now answers.now clients.now d h }
    ensures { (n y : List ℕ) → result ≡ count_of None (read_result (mem table.now n answers.now clients.now) y d (asked_at clients.now d) (made clients.now d)).out }
{
    match h.steps.checked_sub(h.query.look_count()) {
        None => None,
        Some(0) => fetch_would(answers, clients, d, h),
        Some(1) => table_would(table, clients, d, h),
        Some(_) => Some(Count::FromTable),
    }
}
