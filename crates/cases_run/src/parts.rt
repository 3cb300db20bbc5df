// The parts that are played, as text. Of document 01 the cases of "On each side of a line", the numbers of "What the controller turns down"
// (number 3 in three parts; 7 is given no longer), the faults of "Faults a bench would show"; of document 02 the counts of S-1, the ranges of S-3,
// the abandoned writes of S-4, the zeros of S-5 and the writes of S-6 that change nothing. Each theme has a file of its own.
// A part is its name and then rows: what is done or looked at, = and what is expected.
//   open K; read, Count (the begin of a count), within, Within (a read and a count with a range, which stands in the tray's last three numbers:
//   column, lowest, highest), insert, delete, step, abandon at a DESK; evict a NODE, Evict an answer; new, the renewal;
//   fill, an insert of each value below the query. Open is lent a table, Step a tray one number below the least length. +N makes N steps;
//   all calls before the last give 0
//   label of a NODE; Table, Nodes, Answers, Desks, tray: the number at a PLACE of a memory (docs/LAYOUT.md); put sets it by hand
//   = a number; got, kept: an answer of so many records, listed or counted, from the table or filed before; changed, unchanged: a write's
//   end
// In a query * is a star, ? is any; ! is 5 under the mark 2, ~ a star with the value 5. 65535 is every place, and the largest desk.

mod abandoned;
mod cases;
mod counts;
mod faults;
mod numbers;
mod ranges;
mod unchanged;
mod zeros;

pub const THEMES: [&[&str]; 8] = [
    &cases::CASES,
    &numbers::NUMBERS,
    &faults::FAULTS,
    &counts::COUNTS,
    &ranges::RANGES,
    &abandoned::ABANDONED,
    &zeros::ZEROS,
    &unchanged::UNCHANGED,
];
