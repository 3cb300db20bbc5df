// The kinds of work, and the number that stands for each at a client; 0 stands at an idle one.
ghost use Rattle.std.specs.Prelude.{◌≡◌};
ghost use Rattle.hall.specs.Kind.{kind_number, Decodes};

use super::Hall;

#[derive(Clone, Copy, Debug, PartialEq, Eq)]
pub enum Kind {
    Read,
    Insert,
    Delete,
}

// A number that is no kind's.
#[derive(Clone, Copy, Debug, PartialEq, Eq)]
pub struct UnknownKind(pub u32);

impl Kind {
    pub fn number(self) -> u32
        ensures { result ≡ kind_number self }
    {
        match self {
            Kind::Read => Hall::READS,
            Kind::Insert => Hall::INSERTS,
            Kind::Delete => Hall::DELETES,
        }
    }
}

impl TryFrom<u32> for Kind {
    type Error = UnknownKind;

    ghost try_from_gives = { Decodes };

    fn try_from(number: u32) -> Result<Self, UnknownKind> {
        match number {
            Hall::READS => Ok(Kind::Read),
            Hall::INSERTS => Ok(Kind::Insert),
            Hall::DELETES => Ok(Kind::Delete),
            _ => Err(UnknownKind(number)),
        }
    }
}
