// Plays document 01 through the calls: its cases (1 to 12), the numbers that the controller turns down with (1 to 13, of which 7 is given no
// longer) and its faults (1 to 5); and of document 02 what S-1 and S-3 to S-6 ask to be run. Each is over memories that held noise before. One line
// for each says what is done and expected, and what came; the last line counts them. Leans on parts for the text of each, row, play and lent.
#![tactic(auto)]

use lent::Lent;
use row::Row;
use std::fmt::{self, Write};

mod came; // came.rt: what comes of a row
mod lent; // lent.rt: the memories that the calls are lent
mod parts; // parts.rt: the texts
mod play; // play.rt: plays a row
mod row; // row.rt: a row, read from its text
mod terms; // terms.rt: the columns of a query or a label

// The standard output, by the kit's library io, which asks of the C library for `write` alone. What cannot be written is left out, and the rows are
// played all the same.
#[derive(Drop)]
struct Output;

impl fmt::Write for Output {
    fn write_str(&mut self, text: &str) -> fmt::Result {
        io::write_all(1, text.as_bytes());
        Ok(())
    }
}

// Plays a row; whether it came as expected, which a text that is no row does not.
fn run_row(out: &mut Output, lent: &mut Lent, text: &str) -> bool {
    let Some(row) = Row::read(text) else {
        return false;
    };
    let came = play::play(lent, &row);
    let _ = write!(out, " {came};");
    came == row.expected
}

// Plays a part's rows; whether all of them came as expected.
fn run_part(out: &mut Output, lent: &mut Lent, part: &str) -> bool {
    lent.make_noise();
    let _ = write!(out, "{part}; came:");
    let rows = part.split_once(": ").map_or("", |(_, rows)| rows);
    let mut met = true;
    for text in rows.split("; ") {
        let came = run_row(out, lent, text);
        met = met && came;
    }
    let _ = writeln!(out, " {}", if met { "ok" } else { "DIFFERENT" });
    met
}

fn main() {
    let mut out = Output;
    let mut lent = Lent::new();
    let mut expected = 0u32;
    let mut met = 0u32;
    for part in parts::THEMES.iter().copied().flatten() {
        expected = expected.saturating_add(1);
        met = met.saturating_add(u32::from(run_part(&mut out, &mut lent, part)));
    }
    let _ = writeln!(out, "all: expected {expected}, met {met}");
}
