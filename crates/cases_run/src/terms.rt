// The columns of a query, and of a node's label, which is written in the same way. Leans on hall's sizes.
ghost use Rattle.std.specs.Prelude.{◌≤◌};

use hall::Hall;
use std::fmt;

#[derive(Clone, Copy, PartialEq, Eq)]
pub enum Term {
    Value(u32),
    Star,
    // In a label alone.
    Any,
    // What no call takes and no row has: another mark or tag, or a value where none may be.
    Other { mark: u32, value: u32 },
}

// As many as there are, and then none.
#[derive(Clone, Copy, PartialEq, Eq)]
pub struct Terms([Option<Term>; Hall::COLUMN_SLOTS]);

impl Term {
    fn read(text: &str) -> Option<Term> {
        match text {
            "*" => Some(Term::Star),
            "?" => Some(Term::Any),
            "!" => Some(Term::Other { mark: 2, value: 5 }),
            "~" => Some(Term::Other { mark: 0, value: 5 }),
            _ => text.parse().ok().map(Term::Value),
        }
    }

    // Of a label, from its tag and value in memory: 1 a value, 2 a star, 3 a ?, and 0 no column.
    fn tagged(tag: u8, value: u32) -> Option<Term> {
        match (tag, value) {
            (0, 0) => None,
            (1, _) => Some(Term::Value(value)),
            (2, 0) => Some(Term::Star),
            (3, 0) => Some(Term::Any),
            _ => Some(Term::Other {
                mark: u32::from(tag),
                value,
            }),
        }
    }

    // As it arrives in a query: its mark and its value.
    fn numbers(self) -> [u32; 2] {
        match self {
            Term::Value(value) => [1, value],
            Term::Star => [0, 0],
            // Refused.
            Term::Any => [3, 0],
            Term::Other { mark, value } => [mark, value],
        }
    }
}

impl fmt::Display for Term {
    fn fmt<W: fmt::Write>(&self, f: &mut fmt::Formatter<W>) -> fmt::Result {
        match self {
            Term::Value(value) => write!(f, "{value}"),
            Term::Star => write!(f, "*"),
            Term::Any => write!(f, "?"),
            Term::Other { .. } => write!(f, "other"),
        }
    }
}

impl Terms {
    // From a text as (*,?,5).
    pub fn read(text: &str) -> Option<Terms> {
        let inside = text.strip_prefix('(')?.strip_suffix(')')?;
        let mut terms = [None; Hall::COLUMN_SLOTS];
        let mut places = terms.iter_mut();
        for column in inside.split(',') {
            *places.next()? = Some(Term::read(column)?);
        }
        Some(Terms(terms))
    }

    // The label of a node, from its numbers: the tags, a byte for each column, and the values.
    pub fn of_node(node: &[u32]) -> Option<Terms> {
        let [tags, a, b, c, d, ..] = node else {
            return None;
        };
        let [tag_a, tag_b, tag_c, tag_d] = tags.to_le_bytes();
        Some(Terms([
            Term::tagged(tag_a, *a),
            Term::tagged(tag_b, *b),
            Term::tagged(tag_c, *c),
            Term::tagged(tag_d, *d),
        ]))
    }

    // The numbers that a query arrives as, and how many there are.
    pub fn numbers(&self) -> ([u32; 8], usize)
        ensures { result.1 ≤ 8 }
    {
        let [a, b, c, d] = self.0.map(|term| term.map_or([0, 0], Term::numbers));
        let columns = self.0.iter().position(|term| term.is_none());
        let length = 2 * columns.unwrap_or(Hall::COLUMN_SLOTS);
        ([a[0], a[1], b[0], b[1], c[0], c[1], d[0], d[1]], length)
    }
}

impl fmt::Display for Terms {
    fn fmt<W: fmt::Write>(&self, f: &mut fmt::Formatter<W>) -> fmt::Result {
        let mut before = '(';
        for term in self.0.iter().flatten() {
            write!(f, "{before}{term}")?;
            before = ',';
        }
        write!(f, ")")
    }
}
