// Plays a row over what is lent, and says what came, in the form of what the row expects. Leans on lent, row and came.
use crate::came::{Came, End};
use crate::lent::Lent;
use crate::row::{Act, Begin, Row};
use calls::Call;

fn call_of(begin: Begin, client: u32, range: [u32; 3]) -> Call {
    let [column, lowest, highest] = range;
    match begin {
        Begin::Read => Call::BeginRead { client },
        Begin::Count => Call::BeginCount { client },
        Begin::ReadWithin => Call::BeginReadWithin {
            client,
            column,
            lowest,
            highest,
        },
        Begin::CountWithin => Call::BeginCountWithin {
            client,
            column,
            lowest,
            highest,
        },
        Begin::Insert => Call::BeginInsert { client },
        Begin::Delete => Call::BeginDelete { client },
    }
}

// Makes steps up to the first that ends with anything but 0.
fn step(lent: &mut Lent, desk: u32, steps: u32, short: bool) -> Came {
    let mut end = End::ACCEPTED;
    for made in 1..=steps {
        end = lent.run(Call::Step { client: desk }, &[], short);
        if end != End::ACCEPTED {
            return Came::Ended { steps: made, end };
        }
    }
    Came::Ended { steps, end }
}

// A begin, and then its steps unless it is turned down.
fn begin(lent: &mut Lent, call: Call, desk: u32, query: &[u32], steps: u32) -> Came {
    let end = lent.run(call, query, false);
    if end != End::ACCEPTED {
        return Came::Ended { steps: 0, end };
    }
    step(lent, desk, steps, false)
}

// Inserts each value below one, up to the first insert that ends otherwise than expected.
fn fill(lent: &mut Lent, below: u32, steps: u32, expected: Came) -> Came {
    let mut came = expected;
    for value in 0..below {
        let call = Call::BeginInsert { client: 0 };
        came = begin(lent, call, 0, &[1, value], steps);
        if came != expected {
            return came;
        }
    }
    came
}

pub fn play(lent: &mut Lent, row: &Row) -> Came {
    match row.act {
        Act::Open { columns, short } => Came::Ended {
            steps: 0,
            end: lent.open(columns, short),
        },
        Act::Begin {
            begin: kind,
            desk,
            query,
            steps,
        } => {
            let call = call_of(kind, desk, lent.range());
            let (numbers, length) = query.numbers();
            begin(lent, call, desk, &numbers[..length], steps.number())
        }
        Act::Step { desk, steps, short } => step(lent, desk, steps.number(), short),
        Act::Fill { below, steps } => fill(lent, below, steps.number(), row.expected),
        Act::Once(call) => Came::Ended {
            steps: 0,
            end: lent.run(call, &[], false),
        },
        Act::Put {
            memory,
            place,
            number,
        } => {
            lent.put(memory, place, number);
            Came::Number(lent.number_at(memory, place))
        }
        Act::Look { memory, place } => Came::Number(lent.number_at(memory, place)),
        Act::Label { node } => Came::Label(lent.label_at(node)),
    }
}
