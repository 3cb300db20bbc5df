// The four lent memories together, as a call reads them and as it alters them: table, nodes, answers, clients. A caller lends four slices.
ghost use Rattle.std.specs.Prelude.{◌≡◌};
ghost use Rattle.query.specs.Shape.{Shape};
ghost use Rattle.rules.specs.Refusals.{is_short};
ghost use Rattle.hall.specs.Memories.{lent, lent_mut};

use super::Hall;

// To be read.
#[derive(Clone, Copy)]
pub struct Memories<'a> {
    pub table: &'a [u32],
    pub nodes: &'a [u32],
    pub answers: &'a [u32],
    pub clients: &'a [u32],
}

// To be altered.
#[derive(Drop)]
pub struct MemoriesMut<'a> {
    pub table: &'a mut [u32],
    pub nodes: &'a mut [u32],
    pub answers: &'a mut [u32],
    pub clients: &'a mut [u32],
}

impl Memories<'_> {
    // Whether one is below its least length.
    pub fn is_short(self) -> bool
        ensures { (sh : Shape) → result ≡ is_short sh (lent self.entry) }
    {
        Hall::is_short(self.table, self.nodes, self.answers, self.clients)
    }
}

impl MemoriesMut<'_> {
    // The same memories, to be read meanwhile.
    pub fn view(&self) -> Memories<'_>
        ensures { lent result ≡ lent_mut self.now }
    {
        Memories {
            table: self.table,
            nodes: self.nodes,
            answers: self.answers,
            clients: self.clients,
        }
    }
}
