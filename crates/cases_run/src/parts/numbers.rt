// The numbers of "What the controller turns down": 1 to 13, number 3 in three parts; 7 is given no longer. Leans on nothing.

pub const NUMBERS: [&str; 15] = [
    // Short: a lent memory is below its least length. The others have it exactly.
    "number 1, expected: open 1 = 0; Open 1 = 1; Open 0 = 1; open 1 = 0; Step 0 +1 = 1; read 0 (5) = 0; Step 0 +1 = 1; \
    step 0 +4 = 0; Step 0 +1 = 1; step 0 +1 = got 0",
    // Columns: at opening, k not 1 to 4; a query whose columns are not as many as the k in memory, a mark above 1, a star with a
    // value, an insert with a star.
    "number 2, expected: open 1 = 0; open 0 = 2; open 5 = 2; open 4 = 0; open 1 = 0; read 0 (5,*) = 2; read 0 (!) = 2; \
    read 0 (~) = 2; delete 0 (~) = 2; insert 0 (*) = 2; read 12 (!) = 2; delete 0 (*) = 0; read 1 (*) = 0; insert 2 (0) = 0",
    // Unsound, of the memories as a whole: k, an entry count or a filed list's length out of range. Each is put right again.
    "number 3, expected: open 1 = 0; put Desks 0 = 5; step 0 +1 = 3; new = 3; read 0 (5) = 2; put Desks 0 = 1; \
    put Table 0 = 2049; read 0 (5) = 3; read 12 (5) = 3; put Table 0 = 0; put Nodes 1 = 1025; evict 0 = 3; put Nodes 1 = 0; \
    put Answers 0 = 65; Evict 0 = 3; put Answers 0 = 1; put Answers 15 = 33; abandon 0 = 3; put Answers 15 = 32; Evict 0 = 0; \
    read 0 (5) = 0",
    // Unsound, of the called desk: its kind, query, step or list length out of range.
    "number 3, expected: open 1 = 0; put Desks 8 = 4; step 0 +1 = 3; read 0 (5) = 3; step 1 +1 = 6; put Desks 8 = 0; \
    read 0 (5) = 0; put Desks 9 = 5; step 0 +1 = 3; put Desks 9 = 0; put Desks 13 = 2; step 0 +1 = 3; put Desks 13 = 1; \
    put Desks 20 = 33; step 0 +1 = 3; put Desks 20 = 0; step 0 +5 = got 0",
    // Unsound, of a write's nodes: marks at 12 to add to; the taking back of a mark, a raise or an abandoning's raises find a node
    // unmarked; a counter at its largest to raise; no unmarked node to put out.
    "number 3, expected: open 1 = 0; insert 0 (5) +5 = changed; delete 0 (5) = 0; put Nodes 13 = 12; step 0 +1 = 3; \
    put Nodes 13 = 11; step 0 +1 = 0; Nodes 13 = 12; put Nodes 13 = 0; abandon 0 = 3; step 0 +2 = 0; step 0 +1 = 3; abandon 0 = 3; \
    put Nodes 13 = 1; put Nodes 14 = 4294967295; step 0 +1 = 3; abandon 0 = 3; put Nodes 14 = 2; step 0 +1 = 0; read 1 (7) = 0; \
    put Nodes 65535 = 1; put Nodes 1 = 1024; step 1 +1 = 3; put Nodes 8197 = 0; step 1 +1 = 0",
    // No desk: desk above 11.
    "number 4, expected: open 1 = 0; read 12 (5) = 4; insert 12 (5) = 4; delete 65535 (5) = 4; step 12 +1 = 4; abandon 12 = 4; \
    read 11 (5) +1 = 0; abandon 11 = 0",
    // Taken: begin at a busy desk.
    "number 5, expected: open 1 = 0; read 0 (5) = 0; read 0 (5) = 5; insert 0 (5) = 5; delete 0 (5) = 5; read 1 (5) = 0; \
    abandon 0 = 0; insert 0 (5) = 0",
    // Idle: step or abandon at an idle desk.
    "number 6, expected: open 1 = 0; step 0 +1 = 6; abandon 0 = 6; read 0 (5) = 0; step 1 +1 = 6; step 0 +5 = got 0; \
    step 0 +1 = 6; read 0 (5) = 0; abandon 0 = 0; abandon 0 = 6",
    // Given no longer (S-4): abandoned after its table step a write ends, as at its last raise; before it, its marks are taken back.
    "number 7, given no longer, expected: open 1 = 0; insert 0 (5) +2 = 0; Nodes 13 = 1; Nodes 21 = 1; abandon 0 = 0; Nodes 13 = 0; \
    Nodes 21 = 0; Table 0 = 0; insert 0 (5) +3 = 0; abandon 0 = changed; abandon 0 = 6; insert 0 (5) +4 = 0; abandon 0 = unchanged; \
    abandon 0 = 6",
    // No entry: place to put out not below the count.
    "number 8, expected: open 1 = 0; Evict 0 = 8; evict 0 = 8; read 0 (5) +5 = got 0; Evict 1 = 8; evict 2 = 8; Evict 0 = 0; \
    evict 1 = 0; evict 1 = 8; Answers 0 = 0; Nodes 1 = 1",
    // Marked: node to put out has marks.
    "number 9, expected: open 1 = 0; insert 0 (5) +1 = 0; evict 0 = 9; evict 1 = 8; step 0 +3 = 0; evict 1 = 9; evict 0 = 0; \
    Nodes 0 = 2; step 0 +1 = changed; evict 0 = 0; Nodes 1 = 0",
    // Worn: a write begins while the floor or a counter is above 4,294,967,103. Case 12 has the counter; a read is not refused.
    "number 10, expected: open 1 = 0; put Nodes 0 = 4294967104; insert 0 (5) = 10; delete 0 (5) = 10; read 0 (5) = 0; \
    insert 0 (5) = 5; abandon 0 = 0; new = 0; Nodes 0 = 1; insert 0 (5) = 0",
    // Occupied: renew with a busy desk. A renewal empties answers and nodes, and the table stays.
    "number 11, expected: open 1 = 0; insert 0 (5) +5 = changed; read 11 (5) = 0; new = 11; step 11 +4 = 0; new = 11; \
    step 11 +1 = got 1; Answers 0 = 1; Nodes 1 = 3; new = 0; Answers 0 = 0; Nodes 1 = 0; Nodes 0 = 1; Table 0 = 1; Table 8 = 5",
    // Long: a read's table step finds over 32 records; the read ends, desk idle, tray untouched (its noise is 1, 2654435770, ..).
    "number 12, expected: open 1 = 0; fill (33) +5 = changed; read 0 (*) +3 = 12; tray 0 = 1; Desks 8 = 0; step 0 +1 = 6; \
    Answers 0 = 0; read 0 (32) +5 = got 1; tray 0 = 32; tray 1 = 2654435770; read 0 (32) +3 = kept 1",
    // Full, given at the last raise: at the table step the table held 2,048 records, not this one. A delete makes room.
    "number 13, expected: open 1 = 0; fill (2047) +5 = changed; insert 0 (3000) +5 = changed; insert 0 (3001) +5 = 13; \
    Table 0 = 2048; step 0 +1 = 6; delete 0 (7) +5 = changed; Table 0 = 2047; insert 0 (3001) +5 = changed; Table 0 = 2048",
];
