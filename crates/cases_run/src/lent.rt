// What is lent to the calls: the four memories and the tray, each of its least length. Leans on the calls; on row, came and terms for the names.
use crate::came::End;
use crate::row::{EVERY, Memory};
use crate::terms::Terms;
use calls::Call;
use hall::{Hall, MemoriesMut};

#[derive(Drop)]
pub struct Lent {
    table: [u32; Hall::TABLE_LEAST],
    nodes: [u32; Hall::NODES_LEAST],
    answers: [u32; Hall::ANSWERS_LEAST],
    desks: [u32; Hall::CLIENTS_LEAST],
    tray: [u32; Hall::TRAY_LEAST],
}

// Where a range stands in the tray: its column, its lowest and its highest value.
const RANGE: usize = Hall::TRAY_LEAST - 3;

fn fill_with_noise(memory: &mut [u32]) {
    let mut noise = 1u32;
    for number in memory {
        *number = noise;
        noise = noise.wrapping_add(2654435769);
    }
}

impl Lent {
    pub fn new() -> Lent {
        Lent {
            table: [0; Hall::TABLE_LEAST],
            nodes: [0; Hall::NODES_LEAST],
            answers: [0; Hall::ANSWERS_LEAST],
            desks: [0; Hall::CLIENTS_LEAST],
            tray: [0; Hall::TRAY_LEAST],
        }
    }

    pub fn make_noise(&mut self) {
        fill_with_noise(&mut self.table);
        fill_with_noise(&mut self.nodes);
        fill_with_noise(&mut self.answers);
        fill_with_noise(&mut self.desks);
        fill_with_noise(&mut self.tray);
    }

    // ---- By hand
    fn numbers(&self, memory: Memory) -> &[u32] {
        match memory {
            Memory::Table => &self.table,
            Memory::Nodes => &self.nodes,
            Memory::Answers => &self.answers,
            Memory::Desks => &self.desks,
            Memory::Tray => &self.tray,
        }
    }

    fn numbers_mut(&mut self, memory: Memory) -> &mut [u32] {
        match memory {
            Memory::Table => &mut self.table,
            Memory::Nodes => &mut self.nodes,
            Memory::Answers => &mut self.answers,
            Memory::Desks => &mut self.desks,
            Memory::Tray => &mut self.tray,
        }
    }

    pub fn put(&mut self, memory: Memory, place: u32, number: u32) {
        let numbers = self.numbers_mut(memory);
        if place == EVERY {
            numbers.fill(number);
        } else if let Some(there) = numbers.get_mut(place as usize) {
            *there = number;
        }
    }

    // What stands at a place; past the end, the last number.
    pub fn number_at(&self, memory: Memory, place: u32) -> u32 {
        let numbers = self.numbers(memory);
        let number = numbers.get(place as usize).or(numbers.last());
        number.copied().unwrap_or(0)
    }

    // The label of the node at a place, 0 the oldest.
    pub fn label_at(&self, place: u32) -> Option<Terms> {
        let mut nodes = self.nodes[Hall::HEADER..].chunks_exact(Hall::NODE_WIDTH);
        Terms::of_node(nodes.nth(place as usize)?)
    }

    // The tray's last three numbers.
    pub fn range(&self) -> [u32; 3] {
        [self.tray[RANGE], self.tray[RANGE + 1], self.tray[RANGE + 2]]
    }

    // ---- The calls
    fn lend(&mut self) -> (MemoriesMut<'_>, &mut [u32]) {
        let Lent {
            table,
            nodes,
            answers,
            desks,
            tray,
        } = self;
        let memories = MemoriesMut {
            table,
            nodes,
            answers,
            clients: desks,
        };
        (memories, tray)
    }

    // Where short is set, the table is lent without its last number.
    pub fn open(&mut self, columns: u32, short: bool) -> End {
        let (memories, _) = self.lend();
        let MemoriesMut {
            table,
            nodes,
            answers,
            clients,
        } = memories;
        let length = table.len().saturating_sub(usize::from(short));
        let mut memories = MemoriesMut {
            table: &mut table[..length],
            nodes,
            answers,
            clients,
        };
        End::from(calls::opening::open(&mut memories, columns))
    }

    // Where short is set, the tray is.
    pub fn run(&mut self, call: Call, query: &[u32], short: bool) -> End {
        let (mut memories, tray) = self.lend();
        let length = tray.len().saturating_sub(usize::from(short));
        let out = calls::run(&mut memories, &mut tray[..length], call, query);
        End::from(out)
    }
}
