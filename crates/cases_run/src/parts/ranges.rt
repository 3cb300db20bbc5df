// The ranges of S-3. Leans on nothing.

pub const RANGES: [&str; 6] = [
    // Both ends exactly met, and just missed: of the records 0 to 9 those from 4 to 9, 5 to 8, 10 to 12; a list and a count. One look,
    // as of the star. The key has the column plus 1 above bit 4, and both ends.
    "S-3 ends, expected: open 1 = 0; fill (10) +5 = changed; put tray 125 = 0; put tray 126 = 4; put tray 127 = 9; \
    within 0 (*) +4 = got 6; tray 0 = 4; tray 5 = 9; Answers 8 = 32; Answers 13 = 4; Answers 14 = 9; within 0 (*) +2 = kept 6; \
    put tray 126 = 5; put tray 127 = 8; within 0 (*) +4 = got 4; tray 0 = 5; tray 3 = 8; Within 0 (*) +4 = got 4; Answers 0 = 3; \
    Answers 312 = 48; Within 0 (*) +2 = kept 4; put tray 126 = 10; put tray 127 = 12; within 0 (*) +4 = got 0; \
    insert 1 (10) +5 = changed; within 0 (*) +4 = got 1; tray 0 = 10",
    // A range with equal ends and the named value, one over all numbers and the plain read: each has its own answer on file. Of the
    // records 0, 1 and 2 the range skips 0 (S-5).
    "S-3 side by side, expected: open 1 = 0; fill (3) +5 = changed; put tray 125 = 0; put tray 126 = 1; put tray 127 = 1; \
    within 0 (*) +4 = got 1; tray 0 = 1; read 0 (1) +5 = got 1; Answers 0 = 2; put tray 126 = 0; put tray 127 = 4294967295; \
    within 0 (*) +4 = got 2; read 0 (*) +4 = got 3; Answers 0 = 4; within 0 (*) +2 = kept 2; read 0 (*) +2 = kept 3; \
    read 0 (1) +3 = kept 1; put tray 126 = 1; put tray 127 = 1; within 0 (*) +2 = kept 1; Within 0 (*) +4 = got 1; Answers 0 = 5",
    // 2 for a ranged column that is named, or not below k; then 14, before 3, 4 and 5; nothing is altered.
    "S-3 refusals, expected: open 1 = 0; put tray 125 = 0; put tray 126 = 9; put tray 127 = 4; within 12 (*) = 14; \
    Within 12 (*) = 14; within 12 (5) = 2; within 0 (*,*) = 2; put tray 125 = 1; within 12 (*) = 2; put tray 125 = 4294967295; \
    Within 0 (*) = 2; put tray 125 = 0; put Table 0 = 2049; within 12 (*) = 14; put tray 126 = 4; within 12 (*) = 3; \
    put Table 0 = 0; within 12 (*) = 4; within 11 (*) = 0; within 11 (*) = 5; put tray 127 = 3; within 11 (*) = 14; \
    Desks 1735 = 1; abandon 11 = 0; Desks 1735 = 0; within 11 (*) = 14; Desks 1735 = 0; new = 0",
    // A held range that a begin would refuse: its column not below k, or named; its ends reversed. Ends without a range. At another
    // desk none is looked at.
    "S-3 held, expected: open 2 = 0; put tray 125 = 1; put tray 126 = 4; put tray 127 = 9; within 0 (3,*) +1 = 0; Desks 13 = 65; \
    Desks 18 = 4; Desks 19 = 9; put Desks 13 = 97; step 0 +1 = 3; put Desks 13 = 33; step 0 +1 = 3; put Desks 13 = 65; \
    put Desks 18 = 10; step 0 +1 = 3; abandon 0 = 3; read 0 (3,*) = 3; read 1 (3,*) = 0; put Desks 18 = 9; step 0 +1 = 0; \
    put Desks 13 = 1; step 0 +1 = 3; put Desks 13 = 65; step 0 +3 = got 0; Answers 8 = 65",
    // Any range at a writer's desk. A filed range is not tested: one that makes no sense serves no read.
    "S-3 writers, filed, expected: open 1 = 0; delete 0 (*) = 0; put Desks 13 = 32; put Desks 19 = 9; step 0 +1 = 3; abandon 0 = 3; \
    put Desks 13 = 0; step 0 +1 = 3; put Desks 19 = 0; step 0 +5 = unchanged; insert 0 (5) = 0; put Desks 13 = 33; step 0 +1 = 3; \
    put Desks 13 = 1; step 0 +5 = changed; put tray 125 = 0; put tray 126 = 4; put tray 127 = 9; within 0 (*) +4 = got 1; \
    put Answers 8 = 4294967264; step 0 +1 = 6; within 0 (*) +4 = got 1; Answers 0 = 2; put Answers 8 = 32; put Answers 13 = 10; \
    within 0 (*) +2 = kept 1; Evict 0 = 0; Answers 0 = 1; Answers 13 = 4",
    // A write shares a node of the query, the ranged column a star, so one outside the range too sends the next read to the table. 32
    // within are listed, 33 give 12, and a count counts them.
    "S-3 meeting, long, expected: open 1 = 0; fill (40) +5 = changed; put tray 125 = 0; put tray 126 = 1; put tray 127 = 32; \
    within 0 (*) +4 = got 32; tray 31 = 32; within 0 (*) +2 = kept 32; insert 1 (90) +5 = changed; within 0 (*) +4 = got 32; \
    put tray 127 = 33; within 0 (*) +3 = 12; Within 0 (*) +4 = got 33; put tray 126 = 33; put tray 127 = 4294967295; \
    Within 0 (*) +4 = got 8; insert 1 (91) +2 = 0; within 0 (*) +3 = got 8; Answers 0 = 3",
];
