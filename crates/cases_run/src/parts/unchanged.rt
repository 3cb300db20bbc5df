// The writes of S-6 that change nothing. Leans on nothing.

pub const UNCHANGED: [&str; 6] = [
    // An insert of a record that is there: it overlaps neither the read that files nor the one that fetches, the one that files, the one
    // that fetches, which sees a mark and answers from the table, and both. The counters stay, and a read that begins after its end is
    // answered from file.
    "S-6 there already, expected: open 1 = 0; insert 2 (5) +5 = changed; read 0 (5) +5 = got 1; insert 1 (5) +5 = unchanged; \
    read 0 (5) +3 = kept 1; Evict 0 = 0; read 0 (5) +2 = 0; insert 1 (5) +5 = unchanged; step 0 +3 = got 1; read 0 (5) +3 = kept 1; \
    insert 1 (5) +1 = 0; read 0 (5) +4 = got 1; Answers 0 = 1; step 1 +4 = unchanged; read 0 (5) +3 = kept 1; Evict 0 = 0; \
    read 0 (5) +2 = 0; insert 1 (5) +1 = 0; step 0 +3 = got 1; read 0 (5) +4 = got 1; Answers 0 = 1; step 1 +4 = unchanged; \
    read 0 (5) +3 = kept 1; label 0 = (5); Nodes 13 = 0; Nodes 14 = 2; label 1 = (*); Nodes 21 = 0; Nodes 22 = 2; Answers 16 = 2; \
    tray 0 = 5",
    // A delete of none in the same way, and then a write that changes the table: after it the read goes there.
    "S-6 delete of none, expected: open 1 = 0; insert 2 (4) +5 = changed; read 0 (5) +5 = got 0; delete 1 (5) +5 = unchanged; \
    read 0 (5) +3 = kept 0; Evict 0 = 0; read 0 (5) +2 = 0; delete 1 (5) +5 = unchanged; step 0 +3 = got 0; read 0 (5) +3 = kept 0; \
    delete 1 (5) +1 = 0; read 0 (5) +4 = got 0; Answers 0 = 1; step 1 +4 = unchanged; read 0 (5) +3 = kept 0; Evict 0 = 0; \
    read 0 (5) +2 = 0; delete 1 (5) +1 = 0; step 0 +3 = got 0; read 0 (5) +4 = got 0; Answers 0 = 1; step 1 +4 = unchanged; \
    read 0 (5) +3 = kept 0; label 2 = (5); Nodes 29 = 0; Nodes 30 = 1; insert 1 (5) +5 = changed; Nodes 30 = 2; read 0 (5) +5 = got 1",
    // An insert that finds the table full in the same way, and abandoned after its table step: "A full table is no change."
    "S-6 full table, expected: open 1 = 0; fill (2048) +5 = changed; read 0 (3000) +5 = got 0; insert 1 (3000) +5 = 13; \
    read 0 (3000) +3 = kept 0; Evict 0 = 0; read 0 (3000) +2 = 0; insert 1 (3000) +5 = 13; step 0 +3 = got 0; read 0 (3000) +3 = kept 0; \
    insert 1 (3000) +1 = 0; read 0 (3000) +4 = got 0; Answers 0 = 1; step 1 +4 = 13; read 0 (3000) +3 = kept 0; Evict 0 = 0; \
    read 0 (3000) +2 = 0; insert 1 (3000) +1 = 0; step 0 +3 = got 0; read 0 (3000) +4 = got 0; Answers 0 = 1; step 1 +4 = 13; \
    read 0 (3000) +3 = kept 0; insert 1 (3000) +3 = 0; abandon 1 = 13; read 0 (3000) +3 = kept 0; insert 1 (3000) +4 = 0; \
    abandon 1 = 13; read 0 (3000) +3 = kept 0",
    // A raise that leaves the counter is not refused where that is the largest, at a step or at an abandoning; one that lifts it is, and
    // may bring it there. An unmarked node, or one whose label is another, is 3 in either case.
    "S-6 largest counter, expected: open 1 = 0; insert 0 (5) +5 = changed; insert 0 (5) +3 = 0; put Nodes 14 = 4294967295; \
    put Nodes 22 = 4294967295; step 0 +1 = 0; Nodes 14 = 4294967295; step 0 +1 = unchanged; Nodes 22 = 4294967295; put Nodes 14 = 2; \
    put Nodes 22 = 2; insert 0 (5) +3 = 0; put Nodes 14 = 4294967295; abandon 0 = unchanged; Nodes 14 = 4294967295; put Nodes 14 = 2; \
    delete 0 (5) +3 = 0; put Nodes 14 = 4294967295; step 0 +1 = 3; abandon 0 = 3; put Nodes 14 = 4294967294; step 0 +1 = 0; \
    Nodes 14 = 4294967295; put Nodes 22 = 4294967295; step 0 +1 = 3; put Nodes 22 = 4294967294; abandon 0 = changed; \
    Nodes 22 = 4294967295; put Nodes 14 = 2; put Nodes 22 = 2; delete 0 (5) +3 = 0; put Nodes 13 = 0; step 0 +1 = 3; abandon 0 = 3; \
    put Nodes 13 = 1; put Nodes 9 = 6; step 0 +1 = 3; put Nodes 9 = 5; step 0 +2 = unchanged",
    // Whether the counters go up is by the desk's changed flag alone, and whether the end is 13 by the other: both set by hand, the
    // first set where the table did not change, and taken off where it did.
    "S-6 flags, expected: open 1 = 0; insert 0 (5) +3 = 0; Desks 11 = 1; Desks 12 = 0; put Desks 12 = 1; step 0 +1 = 0; Nodes 14 = 2; \
    step 0 +1 = 13; Nodes 22 = 2; insert 0 (5) +3 = 0; Desks 11 = 0; put Desks 11 = 9; step 0 +2 = changed; Nodes 14 = 3; Nodes 22 = 3; \
    delete 0 (5) +3 = 0; Desks 11 = 1; put Desks 11 = 0; abandon 0 = unchanged; Nodes 13 = 0; Nodes 14 = 3; Nodes 22 = 3; \
    insert 0 (5) +3 = 0; put Desks 12 = 7; abandon 0 = 13; Nodes 14 = 4; Nodes 22 = 4; delete 0 (6) +3 = 0; put Desks 12 = 1; \
    abandon 0 = 13; Nodes 22 = 4; Nodes 30 = 1",
    // All eight counters of a write of three columns stay. A write abandoned before its table step leaves them too.
    "S-6 three columns, expected: open 3 = 0; insert 0 (1,2,3) +15 = 0; step 0 +2 = changed; read 1 (1,2,3) +11 = got 1; \
    insert 0 (1,2,3) +15 = 0; Nodes 61 = 1; Nodes 69 = 1; step 0 +2 = unchanged; Nodes 14 = 2; Nodes 22 = 2; Nodes 30 = 2; Nodes 38 = 2; \
    Nodes 46 = 2; Nodes 54 = 2; Nodes 62 = 2; Nodes 69 = 0; Nodes 70 = 2; read 1 (1,2,3) +9 = kept 1; delete 0 (1,2,4) +15 = 0; \
    step 0 +2 = unchanged; read 1 (1,2,3) +9 = kept 1; delete 0 (1,*,3) +8 = 0; abandon 0 = 0; read 1 (1,2,3) +9 = kept 1; \
    delete 0 (1,*,3) +9 = 0; abandon 0 = changed; Nodes 30 = 3; read 1 (1,2,3) +11 = got 0",
];
