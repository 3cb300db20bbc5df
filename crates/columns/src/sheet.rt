// The fixed sheet of 256 numbers: which named columns of a read become ? at each look.
ghost use Rattle.std.specs.Prelude.{◌≡◌, ◌<◌};
ghost use Rattle.query.specs.Sheet.{sheet_entry};

// Row: a star pattern, column c at bit c. Place in the row: the look. Entry: the columns that become ?, column c at bit c;
// 0 past the pattern's last look.
const SHEET: [u8; 256] = [
    // no star
    0, 1, 2, 3, 4, 5, 6, 7, 8, 9, 10, 11, 12, 13, 14, 15,
    // a star in column 0
    0, 2, 4, 6, 8, 10, 12, 14, 0, 0, 0, 0, 0, 0, 0, 0,
    // a star in column 1
    0, 1, 4, 5, 8, 9, 12, 13, 0, 0, 0, 0, 0, 0, 0, 0,
    // stars in columns 0 1
    0, 4, 8, 12, 0, 0, 0, 0, 0, 0, 0, 0, 0, 0, 0, 0,
    // a star in column 2
    0, 1, 2, 3, 8, 9, 10, 11, 0, 0, 0, 0, 0, 0, 0, 0,
    // stars in columns 0 2
    0, 2, 8, 10, 0, 0, 0, 0, 0, 0, 0, 0, 0, 0, 0, 0,
    // stars in columns 1 2
    0, 1, 8, 9, 0, 0, 0, 0, 0, 0, 0, 0, 0, 0, 0, 0,
    // stars in columns 0 1 2
    0, 8, 0, 0, 0, 0, 0, 0, 0, 0, 0, 0, 0, 0, 0, 0,
    // a star in column 3
    0, 1, 2, 3, 4, 5, 6, 7, 0, 0, 0, 0, 0, 0, 0, 0,
    // stars in columns 0 3
    0, 2, 4, 6, 0, 0, 0, 0, 0, 0, 0, 0, 0, 0, 0, 0,
    // stars in columns 1 3
    0, 1, 4, 5, 0, 0, 0, 0, 0, 0, 0, 0, 0, 0, 0, 0,
    // stars in columns 0 1 3
    0, 4, 0, 0, 0, 0, 0, 0, 0, 0, 0, 0, 0, 0, 0, 0,
    // stars in columns 2 3
    0, 1, 2, 3, 0, 0, 0, 0, 0, 0, 0, 0, 0, 0, 0, 0,
    // stars in columns 0 2 3
    0, 2, 0, 0, 0, 0, 0, 0, 0, 0, 0, 0, 0, 0, 0, 0,
    // stars in columns 1 2 3
    0, 1, 0, 0, 0, 0, 0, 0, 0, 0, 0, 0, 0, 0, 0, 0,
    // stars in columns 0 1 2 3
    0, 0, 0, 0, 0, 0, 0, 0, 0, 0, 0, 0, 0, 0, 0, 0,
];

// The columns that become ? at a look, for a star pattern.
pub fn turned(stars: usize, look: usize) -> u32
    requires { (stars < 16) × (look < 16) }
    ensures { result ≡ sheet_entry stars look }
{
    u32::from(SHEET[stars * 16 + look])
}
