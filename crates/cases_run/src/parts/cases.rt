// The cases 1 to 12 of "On each side of a line". Leans on nothing.

pub const CASES: [&str; 12] = [
    // k 3, read (*,3,2): (*,3,2), (*,?,2), (*,3,?), (*,?,?).
    "case 1, expected: open 3 = 0; read 0 (*,3,2) +4 = 0; Nodes 1 = 4; label 0 = (*,3,2); label 1 = (*,?,2); label 2 = (*,3,?); \
    label 3 = (*,?,?); step 0 +3 = got 0; Nodes 1 = 4",
    // Write (*,2,3): (*,2,3), (?,2,3), (*,*,3), (?,*,3), (*,2,*), (?,2,*), (*,*,*), (?,*,*).
    "case 2, expected: open 3 = 0; delete 0 (*,2,3) +8 = 0; Nodes 1 = 8; label 0 = (*,2,3); label 1 = (?,2,3); label 2 = (*,*,3); \
    label 3 = (?,*,3); label 4 = (*,2,*); label 5 = (?,2,*); label 6 = (*,*,*); label 7 = (?,*,*); step 0 +9 = unchanged; \
    Nodes 1 = 8",
    // Read (*,*,*): its own label only.
    "case 3, expected: open 3 = 0; read 0 (*,*,*) +1 = 0; Nodes 1 = 1; label 0 = (*,*,*); step 0 +3 = got 0; Nodes 1 = 1",
    // Delete (2,*,0) and read (*,2,0) share (*,?,0): it is the delete's fourth node, and the read adds its other three, sees the mark
    // and files nothing.
    "case 4, expected: open 3 = 0; delete 1 (2,*,0) +8 = 0; Nodes 1 = 8; label 3 = (*,?,0); read 0 (*,2,0) +4 = 0; Nodes 1 = 11; \
    label 8 = (*,2,0); label 9 = (*,2,?); label 10 = (*,?,?); step 0 +2 = got 0; Answers 0 = 0",
    // Delete (2,*,0) and read (*,2,1) share none: the read adds all four of its nodes, sees no mark and files.
    "case 5, expected: open 3 = 0; delete 1 (2,*,0) +8 = 0; Nodes 1 = 8; read 0 (*,2,1) +4 = 0; Nodes 1 = 12; label 8 = (*,2,1); \
    label 9 = (*,?,1); label 10 = (*,2,?); label 11 = (*,?,?); step 0 +3 = got 0; Answers 0 = 1",
    // k 1, empty table, read 5: answers 0 records at its fifth step; read again, at its third.
    "case 6, expected: open 1 = 0; read 0 (5) +5 = got 0; read 0 (5) +3 = kept 0",
    // k 1: read 5 makes its two looks (1 and 1); insert 5 runs to its end; the read takes list {5} and files it under 1, 1; the next
    // read of 5 notes 2, 1 and goes to the table.
    "case 7, expected: open 1 = 0; read 0 (5) +2 = 0; Desks 21 = 1; Desks 22 = 1; insert 1 (5) +5 = changed; step 0 +3 = got 1; \
    tray 0 = 5; Answers 0 = 1; Answers 16 = 1; Answers 17 = 1; read 0 (5) +2 = 0; Desks 21 = 2; Desks 22 = 1; step 0 +3 = got 1",
    // k 1: insert 5 has marked node 5; a read of 5 answers at its fourth step and files nothing.
    "case 8, expected: open 1 = 0; insert 1 (5) +1 = 0; label 0 = (5); Nodes 13 = 1; read 0 (5) +4 = got 0; Answers 0 = 0",
    // Node 5 leaves at counter 7, floor 1: floor 7, back at 7, and an answer filed under 7 holds. Three inserts of 5, each deleted again,
    // bring the counter to 7.
    "case 9, expected: open 1 = 0; insert 1 (5) +5 = changed; delete 1 (5) +5 = changed; insert 1 (5) +5 = changed; \
    delete 1 (5) +5 = changed; insert 1 (5) +5 = changed; delete 1 (5) +5 = changed; read 0 (5) +5 = got 0; label 0 = (5); \
    Nodes 14 = 7; Answers 16 = 7; Nodes 0 = 1; evict 0 = 0; Nodes 0 = 7; read 0 (5) +2 = 0; label 2 = (5); Nodes 30 = 7; \
    Desks 21 = 7; step 0 +1 = kept 0",
    // 32 matching records are listed; 33 give 12.
    "case 10, expected: open 1 = 0; fill (32) +5 = changed; read 0 (*) +4 = got 32; tray 0 = 0; tray 31 = 31; \
    insert 0 (32) +5 = changed; read 0 (*) +3 = 12",
    // Table of 2,048: inserting one already there ends unchanged; a new one gives 13.
    "case 11, expected: open 1 = 0; fill (2048) +5 = changed; Table 0 = 2048; insert 0 (2047) +5 = unchanged; \
    insert 0 (2048) +5 = 13; Table 0 = 2048",
    // Highest counter 4,294,967,103: a write begins; 4,294,967,104: 10. First the counter of a node that an insert has left, then the
    // floor.
    "case 12, expected: open 1 = 0; insert 0 (5) +5 = changed; put Nodes 14 = 4294967103; insert 0 (5) = 0; \
    put Nodes 14 = 4294967104; insert 1 (5) = 10; delete 1 (*) = 10; put Nodes 14 = 2; put Nodes 0 = 4294967103; \
    delete 1 (*) = 0; put Nodes 0 = 4294967104; insert 2 (5) = 10",
];
