// What comes of a row, and what is expected to; written in one form. Leans on terms.
use crate::terms::Terms;
use hall::Hall;
use rules::Outcome;
use std::fmt;

// How a call ended.
#[derive(Clone, Copy, PartialEq, Eq)]
pub enum End {
    // 0 where nothing has ended, a refusal's number, 12 or 13.
    Number(u32),
    // A read's answer, of so many records: from the table, or filed before.
    Got(u32),
    Kept(u32),
    // A write's end.
    Changed,
    Unchanged,
}

#[derive(Clone, Copy, PartialEq, Eq)]
pub enum Came {
    // Of calls, what the last one gave; steps counts the steps up to it.
    Ended { steps: u32, end: End },
    Number(u32),
    // None where there is no such node.
    Label(Option<Terms>),
}

impl End {
    pub const ACCEPTED: End = End::Number(0);

    pub fn read(text: &str) -> Option<End> {
        match text.split_once(' ') {
            Some(("got", count)) => count.parse().ok().map(End::Got),
            Some(("kept", count)) => count.parse().ok().map(End::Kept),
            Some(_) => None,
            None => match text {
                "changed" => Some(End::Changed),
                "unchanged" => Some(End::Unchanged),
                _ => text.parse().ok().map(End::Number),
            },
        }
    }
}

impl From<Outcome> for End {
    fn from(out: Outcome) -> End {
        match out {
            Outcome::Refused(number) => End::Number(number),
            Outcome::Accepted => End::ACCEPTED,
            Outcome::Answered {
                count,
                cached: false,
            } => End::Got(count),
            Outcome::Answered {
                count,
                cached: true,
            } => End::Kept(count),
            Outcome::Long => End::Number(Hall::ENDED_LONG),
            Outcome::Ended { changed: true } => End::Changed,
            Outcome::Ended { changed: false } => End::Unchanged,
            Outcome::Full => End::Number(Hall::ENDED_FULL),
        }
    }
}

impl fmt::Display for End {
    fn fmt<W: fmt::Write>(&self, f: &mut fmt::Formatter<W>) -> fmt::Result {
        match self {
            End::Number(number) => write!(f, "{number}"),
            End::Got(count) => write!(f, "got {count}"),
            End::Kept(count) => write!(f, "kept {count}"),
            End::Changed => write!(f, "changed"),
            End::Unchanged => write!(f, "unchanged"),
        }
    }
}

impl fmt::Display for Came {
    fn fmt<W: fmt::Write>(&self, f: &mut fmt::Formatter<W>) -> fmt::Result {
        match self {
            Came::Ended { steps: 0, end } => write!(f, "{end}"),
            Came::Ended { steps, end } => write!(f, "+{steps} = {end}"),
            Came::Number(number) => write!(f, "{number}"),
            Came::Label(Some(label)) => write!(f, "{label}"),
            Came::Label(None) => write!(f, "none"),
        }
    }
}
