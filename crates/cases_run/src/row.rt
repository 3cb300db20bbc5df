// A row of a part: what is done or looked at, and what is expected; and how it is read from the part's text. Leans on came and terms.
ghost use Rattle.std.specs.Prelude.{◌<◌, IfSome};

use crate::came::{Came, End};
use crate::terms::Terms;
use calls::Call;
use std::str::Split;

// The memories, under the names that the texts have for them.
#[derive(Clone, Copy)]
pub enum Memory {
    Table,
    Nodes,
    Answers,
    Desks,
    Tray,
}

#[derive(Clone, Copy)]
pub enum Begin {
    Read,
    Count,
    ReadWithin,
    CountWithin,
    Insert,
    Delete,
}

// How many steps a row makes.
#[derive(Clone, Copy)]
pub struct StepCount {
    number: u32,
    ghost few: { number < 16 },
}

// What is done or looked at. Where short is set, one number below the least length is lent: of the table at an opening, of the tray at a step.
#[derive(Clone, Copy)]
pub enum Act {
    Open {
        columns: u32,
        short: bool,
    },
    Begin {
        begin: Begin,
        desk: u32,
        query: Terms,
        steps: StepCount,
    },
    Step {
        desk: u32,
        steps: StepCount,
        short: bool,
    },
    // An insert of each value below one.
    Fill {
        below: u32,
        steps: StepCount,
    },
    // A call with no query and no steps.
    Once(Call),
    // A number of a memory, set first, or looked at alone.
    Put {
        memory: Memory,
        place: u32,
        number: u32,
    },
    Look {
        memory: Memory,
        place: u32,
    },
    Label {
        node: u32,
    },
}

#[derive(Clone, Copy)]
pub struct Row {
    pub act: Act,
    pub expected: Came,
}

// In a text the place that stands for every one, and for the largest desk; and what it is read as.
const EVERY_WRITTEN: u32 = 65535;

pub const EVERY: u32 = u32::MAX;

type Words<'a> = Split<'a, char>;

// A desk, a node, an answer or a place of a memory.
fn place(word: &str) -> Option<u32> {
    match word.parse().ok()? {
        EVERY_WRITTEN => Some(EVERY),
        place => Some(place),
    }
}

// The value of fill's query.
fn bracketed(word: &str) -> Option<u32> {
    word.strip_prefix('(')?.strip_suffix(')')?.parse().ok()
}

// Behind a plus; 0 where the text ends before. Of 16 or more, what is left by sixteens.
fn steps(words: &mut Words<'_>) -> Option<u32>
    ensures { IfSome result (λ n. n < 16) }
{
    match words.next() {
        Some(word) => Some(word.strip_prefix('+')?.parse::<u32>().ok()? % 16),
        None => Some(0),
    }
}

impl StepCount {
    fn read(words: &mut Words<'_>) -> Option<StepCount> {
        let number = steps(words)?;
        Some(StepCount { number })
    }

    pub fn number(&self) -> u32
        ensures { result < 16 }
    {
        self.number
    }
}

impl Memory {
    fn named(word: &str) -> Option<Memory> {
        match word {
            "Table" => Some(Memory::Table),
            "Nodes" => Some(Memory::Nodes),
            "Answers" => Some(Memory::Answers),
            "Desks" => Some(Memory::Desks),
            "tray" => Some(Memory::Tray),
            _ => None,
        }
    }
}

impl Begin {
    fn named(word: &str) -> Option<Begin> {
        match word {
            "read" => Some(Begin::Read),
            "Count" => Some(Begin::Count),
            "within" => Some(Begin::ReadWithin),
            "Within" => Some(Begin::CountWithin),
            "insert" => Some(Begin::Insert),
            "delete" => Some(Begin::Delete),
            _ => None,
        }
    }
}

impl Act {
    fn read(text: &str) -> Option<Act> {
        let mut words = text.split(' ');
        let act = Act::of_words(&mut words)?;
        match words.next() {
            None => Some(act),
            Some(_) => None,
        }
    }

    fn of_words(words: &mut Words<'_>) -> Option<Act> {
        let first = words.next()?;
        if let Some(begin) = Begin::named(first) {
            return Some(Act::Begin {
                begin,
                desk: place(words.next()?)?,
                query: Terms::read(words.next()?)?,
                steps: StepCount::read(words)?,
            });
        }
        if let Some(memory) = Memory::named(first) {
            return Some(Act::Look {
                memory,
                place: place(words.next()?)?,
            });
        }
        Act::named(first, words)
    }

    fn named(first: &str, words: &mut Words<'_>) -> Option<Act> {
        let act = match first {
            "open" | "Open" => Act::Open {
                columns: words.next()?.parse().ok()?,
                short: first == "Open",
            },
            "step" | "Step" => Act::Step {
                desk: place(words.next()?)?,
                steps: StepCount::read(words)?,
                short: first == "Step",
            },
            "fill" => Act::Fill {
                below: bracketed(words.next()?)?,
                steps: StepCount::read(words)?,
            },
            "abandon" => Act::Once(Call::Abandon {
                client: place(words.next()?)?,
            }),
            "evict" => Act::Once(Call::EvictNode {
                place: place(words.next()?)?,
            }),
            "Evict" => Act::Once(Call::EvictAnswer {
                place: place(words.next()?)?,
            }),
            "new" => Act::Once(Call::Renew),
            "label" => Act::Label {
                node: words.next()?.parse().ok()?,
            },
            _ => return None,
        };
        Some(act)
    }

    // From what stands behind put, as Nodes 14, and behind the =.
    fn put(text: &str, number: &str) -> Option<Act> {
        let (memory, at) = text.split_once(' ')?;
        Some(Act::Put {
            memory: Memory::named(memory)?,
            place: place(at)?,
            number: number.parse().ok()?,
        })
    }

    fn steps(&self) -> u32
        ensures { result < 16 }
    {
        match self {
            Act::Begin { steps, .. } | Act::Step { steps, .. } | Act::Fill { steps, .. } => {
                steps.number()
            }
            _ => 0,
        }
    }
}

impl Row {
    pub fn read(text: &str) -> Option<Row> {
        let (done, came) = text.split_once(" = ")?;
        let act = match done.strip_prefix("put ") {
            Some(text) => Act::put(text, came)?,
            None => Act::read(done)?,
        };
        let expected = match act {
            Act::Put { .. } | Act::Look { .. } => Came::Number(came.parse().ok()?),
            Act::Label { .. } => Came::Label(Some(Terms::read(came)?)),
            _ => Came::Ended {
                steps: act.steps(),
                end: End::read(came)?,
            },
        };
        Some(Row { act, expected })
    }
}
