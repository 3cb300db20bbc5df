// The labels of a query's nodes, in five numbers each: four tags in one, then four values (docs/LAYOUT.md).
// A label is made of all columns at once, by bits: bit c is column c.
ghost use Rattle.std.specs.Prelude.{◌≡◌, ◌^◌, ◌<◌, ◌≤◌};
ghost use Rattle.query.specs.Query.{read_count, read_node, write_node};
ghost use Rattle.query.specs.Encoding.{label_words, tags};
ghost use Rattle.columns.specs.LabelContracts.{turned_term, changed_node, spread};
ghost use Rattle.columns.specs.MarkedContracts.{marked_query};
ghost use Rattle.query.specs.Shape.{max_columns};

use super::keys;
use super::marked::Marked;
use hall::Hall;

// What a value of a query changes to in the labels of its nodes: a wildcard in a write's, ? in a read's. Its number is what that adds to the
// tag: a wildcard's is 2, that of ? is 3.
#[derive(Clone, Copy)]
enum Turned {
    Wildcard = 0,
    Any = 1,
}

// Four bits as four bytes of 0 or 1, the lowest bit in the lowest byte. The factor has the bits 0, 7, 14 and 21, so that
// bit c stands at 8c too, and no two bits at one place; the mask keeps the lowest bit of each byte.
fn spread(bits: u32) -> u32
    requires { bits < 16 }
    ensures bytes { result ≡ spread max_columns bits }
    ensures most { result ≤ 0x101_0101 }
{
    bits * 0x20_4081 & 0x101_0101
}

impl Marked {
    // The four tags in one number, the first in the lowest byte, all at once. Of a column in use: 2, less 1 if it names a value, and 1 more if it
    // changes; if both, 1 less for a value that turns to a wildcard.
    fn tag_bytes(&self, bits: u32, to: Turned) -> u32
        requires { bits < 2 ^ self.now.k }
        ensures { result ≡ tags (changed_node (turned_term to) (marked_query self.now) bits) }
    {
        let used = spread(keys::all_marks(self.k));
        let named = spread(self.marks);
        let changed = spread(bits);
        let both = spread(self.marks & bits);
        2 * used + changed + to as u32 * both - named
    }

    // Its label in which the columns at the 1 bits of `bits` are changed: a value to `to`, a wildcard to ?. Bits past the hall's columns say
    // nothing. A value stands where it is named and stays.
    fn label(&self, bits: usize, to: Turned) -> [u32; Hall::LABEL_WIDTH]
        ensures { result ≡ label_words (changed_node (turned_term to) (marked_query self.now) bits) }
    {
        let used = keys::all_marks(self.k) as usize;
        let changed = (bits & used) as u32;
        let tags = self.tag_bytes(changed, to);
        let kept = self.marks - (self.marks & changed);
        let [first, second, third, fourth] = keys::values_under(kept, self.values);
        [tags, first, second, third, fourth]
    }

    // The label of a read's node at a look: the sheet says which named columns become ?. A column that the hall lacks is a star there.
    pub fn read_label(&self, look: usize) -> [u32; Hall::LABEL_WIDTH]
        requires { look < read_count (marked_query self.now) }
        ensures { result ≡ label_words (read_node (marked_query self.now) look) }
    {
        let stars = 15 - self.marks;
        let turned = super::sheet::turned(stars as usize, look);
        self.label(turned as usize, Turned::Any)
    }

    // The label of a write's node: the bits of its number say which columns change.
    pub fn write_label(&self, number: usize) -> [u32; Hall::LABEL_WIDTH]
        ensures { result ≡ label_words (write_node (marked_query self.now) number) }
    {
        self.label(number, Turned::Wildcard)
    }
}
