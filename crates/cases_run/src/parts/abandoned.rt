// The abandoned writes of S-4. Leans on nothing.

pub const ABANDONED: [&str; 10] = [
    // An insert abandoned after its table step, with no raise made and with one: the marks go, each counter has gone up once, or not at all where
    // the table did not change (S-6), and the end is the one that the last raise would have given. The desk is idle, and a read of the record is
    // answered from file at its second time.
    "S-4 insert, expected: open 1 = 0; insert 0 (5) +3 = 0; Nodes 13 = 1; Nodes 21 = 1; abandon 0 = changed; Nodes 13 = 0; \
    Nodes 14 = 2; Nodes 21 = 0; Nodes 22 = 2; Desks 8 = 0; Table 0 = 1; step 0 +1 = 6; abandon 0 = 6; insert 0 (5) +4 = 0; \
    Nodes 13 = 0; Nodes 14 = 2; Nodes 21 = 1; Nodes 22 = 2; abandon 0 = unchanged; Nodes 13 = 0; Nodes 14 = 2; Nodes 21 = 0; \
    Nodes 22 = 2; Desks 8 = 0; Desks 9 = 0; abandon 0 = 6; read 1 (5) +5 = got 1; tray 0 = 5; read 1 (5) +3 = kept 1",
    // A delete in the same way: of a record that is there, of one that is not, and of all, whose second node is (?).
    "S-4 delete, expected: open 1 = 0; insert 0 (5) +5 = changed; delete 0 (5) +3 = 0; Table 0 = 0; Nodes 13 = 1; Nodes 21 = 1; \
    abandon 0 = changed; Nodes 13 = 0; Nodes 14 = 3; Nodes 21 = 0; Nodes 22 = 3; abandon 0 = 6; delete 0 (5) +3 = 0; \
    abandon 0 = unchanged; Nodes 14 = 3; Nodes 22 = 3; delete 0 (*) +4 = 0; label 1 = (*); label 2 = (?); Nodes 22 = 3; Nodes 29 = 1; \
    Nodes 30 = 1; abandon 0 = unchanged; Nodes 22 = 3; Nodes 29 = 0; Nodes 30 = 1; read 1 (5) +5 = got 0; read 1 (5) +3 = kept 0; \
    read 1 (*) +4 = got 0; read 1 (*) +2 = kept 0",
    // Four nodes, with no raise made, with one, and with all but one.
    "S-4 two columns, expected: open 2 = 0; insert 0 (1,2) +5 = 0; abandon 0 = changed; Nodes 1 = 4; Nodes 13 = 0; Nodes 14 = 2; \
    Nodes 21 = 0; Nodes 22 = 2; Nodes 29 = 0; Nodes 30 = 2; Nodes 37 = 0; Nodes 38 = 2; insert 0 (1,2) +6 = 0; Nodes 14 = 2; \
    Nodes 21 = 1; Nodes 22 = 2; abandon 0 = unchanged; Nodes 14 = 2; Nodes 21 = 0; Nodes 22 = 2; Nodes 38 = 2; delete 0 (1,2) +8 = 0; \
    Table 0 = 0; Nodes 30 = 3; Nodes 37 = 1; Nodes 38 = 2; abandon 0 = changed; Nodes 30 = 3; Nodes 37 = 0; Nodes 38 = 3; \
    abandon 0 = 6; read 1 (1,2) +7 = got 0; read 1 (1,2) +5 = kept 0; read 1 (*,*) +4 = got 0; read 1 (*,*) +2 = kept 0",
    // Eight nodes, in the same way. The delete of (1,*,3) has four of the insert's nodes and four of its own, of which (*,?,*) is the
    // last.
    "S-4 three columns, expected: open 3 = 0; insert 0 (1,2,3) +9 = 0; abandon 0 = changed; Nodes 1 = 8; Nodes 13 = 0; Nodes 14 = 2; \
    Nodes 69 = 0; Nodes 70 = 2; insert 0 (1,2,3) +10 = 0; Nodes 14 = 2; Nodes 22 = 2; abandon 0 = unchanged; Nodes 14 = 2; \
    Nodes 22 = 2; Nodes 70 = 2; delete 0 (1,*,3) +9 = 0; Table 0 = 0; Nodes 1 = 12; label 11 = (*,?,*); step 0 +7 = 0; Nodes 30 = 3; \
    Nodes 94 = 2; Nodes 101 = 1; Nodes 102 = 1; abandon 0 = changed; Nodes 30 = 3; Nodes 94 = 2; Nodes 101 = 0; Nodes 102 = 2; \
    abandon 0 = 6; read 1 (1,2,3) +11 = got 0; read 1 (1,2,3) +9 = kept 0; read 1 (1,*,3) +7 = got 0; read 1 (1,*,3) +5 = kept 0",
    // 13 is given by the abandoning where the last raise would have given it, with both raises left and with one. A record that is
    // there already ends unchanged.
    "S-4 full table, expected: open 1 = 0; fill (2047) +5 = changed; insert 0 (3000) +5 = changed; insert 0 (3001) +3 = 0; \
    Desks 12 = 1; abandon 0 = 13; Desks 8 = 0; Table 0 = 2048; abandon 0 = 6; insert 0 (3001) +4 = 0; abandon 0 = 13; step 0 +1 = 6; \
    read 1 (3001) +5 = got 0; read 1 (3001) +3 = kept 0; Count 1 (*) +4 = got 2048; Count 1 (*) +2 = kept 2048; \
    insert 0 (3000) +3 = 0; abandon 0 = unchanged; delete 0 (7) +3 = 0; abandon 0 = changed; Table 0 = 2047; insert 0 (3001) +3 = 0; \
    abandon 0 = changed; Table 0 = 2048",
    // The last of the nodes that are left is unmarked, its counter at its largest, or it is missing, by its label or by the count: 3,
    // and nothing is altered at the node before it or at the desk. Put right, the abandoning goes on; a counter may come to its
    // largest.
    "S-4 damaged, expected: open 1 = 0; insert 0 (5) +3 = 0; put Nodes 21 = 0; abandon 0 = 3; Nodes 13 = 1; Nodes 14 = 1; \
    Nodes 21 = 0; Nodes 22 = 1; Desks 8 = 2; Desks 9 = 3; Desks 11 = 1; put Nodes 21 = 1; put Nodes 22 = 4294967295; abandon 0 = 3; \
    Nodes 13 = 1; Nodes 14 = 1; Nodes 21 = 1; Desks 9 = 3; put Nodes 22 = 1; put Nodes 16 = 3; abandon 0 = 3; Nodes 13 = 1; \
    Nodes 14 = 1; Nodes 21 = 1; Desks 9 = 3; put Nodes 16 = 2; put Nodes 1 = 1; abandon 0 = 3; Nodes 13 = 1; Nodes 14 = 1; \
    put Nodes 1 = 2; put Nodes 22 = 4294967294; abandon 0 = changed; Nodes 13 = 0; Nodes 14 = 2; Nodes 21 = 0; Nodes 22 = 4294967295; \
    Desks 8 = 0",
    // After a raise its node is looked at no more; any of those that are left is. A desk whose steps say that more raises are left
    // finds one of them unmarked.
    "S-4 damaged later, expected: open 2 = 0; insert 0 (1,2) +6 = 0; put Nodes 14 = 4294967295; put Nodes 37 = 0; abandon 0 = 3; \
    Nodes 21 = 1; Nodes 22 = 1; Nodes 29 = 1; Nodes 30 = 1; Nodes 38 = 1; put Nodes 37 = 1; put Nodes 30 = 4294967295; abandon 0 = 3; \
    Nodes 21 = 1; Nodes 22 = 1; Nodes 38 = 1; put Nodes 30 = 1; abandon 0 = changed; Nodes 13 = 0; Nodes 14 = 4294967295; \
    Nodes 22 = 2; Nodes 30 = 2; Nodes 37 = 0; Nodes 38 = 2; put Nodes 14 = 2; insert 0 (1,2) +8 = 0; put Desks 9 = 9; abandon 0 = 3; \
    put Desks 9 = 7; abandon 0 = 3; Nodes 30 = 2; Nodes 38 = 2; put Desks 9 = 8; abandon 0 = unchanged; Nodes 30 = 2; Nodes 38 = 2; \
    Desks 9 = 0",
    // Before the table step the marks are taken back as ever: none, one or both; a counter at its largest is no hindrance, an unmarked
    // node is. A reader's desk becomes idle, whatever it holds.
    "S-4 before the table, expected: open 1 = 0; insert 0 (5) = 0; abandon 0 = 0; Nodes 1 = 0; insert 0 (5) +1 = 0; Nodes 13 = 1; \
    abandon 0 = 0; Nodes 13 = 0; Nodes 14 = 1; insert 0 (5) +2 = 0; Nodes 21 = 1; put Nodes 21 = 0; abandon 0 = 3; Nodes 13 = 1; \
    Desks 9 = 2; put Nodes 21 = 1; put Nodes 22 = 4294967295; abandon 0 = 0; Nodes 13 = 0; Nodes 14 = 1; Nodes 21 = 0; \
    Nodes 22 = 4294967295; Table 0 = 0; abandon 0 = 6; put Nodes 22 = 1; read 0 (5) +4 = 0; abandon 0 = 0; Desks 8 = 0; Answers 0 = 0; \
    abandon 0 = 6; read 1 (5) +5 = got 0; read 1 (5) +3 = kept 0",
    // What readers see: one that saw the mark files nothing, the next one goes to the table, the one after it is answered from file.
    // Of two writers each takes off its own marks only, whatever is marked stays, and with both abandoned nothing is.
    "S-4 readers, expected: open 1 = 0; read 0 (5) +5 = got 0; insert 1 (5) +3 = 0; read 0 (5) +2 = 0; Desks 10 = 1; \
    abandon 1 = changed; step 0 +2 = got 1; Answers 0 = 1; Answers 16 = 1; read 0 (5) +2 = 0; Desks 21 = 2; step 0 +3 = got 1; \
    Answers 0 = 1; Answers 16 = 2; read 0 (5) +3 = kept 1; insert 1 (6) +3 = 0; insert 2 (7) +3 = 0; label 2 = (*); Nodes 29 = 2; \
    evict 2 = 9; abandon 1 = changed; Nodes 29 = 1; Nodes 30 = 3; evict 2 = 9; read 0 (*) +3 = got 3; Answers 0 = 1; new = 11; \
    abandon 2 = changed; Nodes 29 = 0; Nodes 30 = 4; read 0 (*) +4 = got 3; read 0 (*) +2 = kept 3; evict 2 = 0; new = 0",
    // The end goes by the desk's flags, of which full goes before changed; and the other refusals of an abandoning are as they were.
    "S-4 flags, refusals, expected: open 1 = 0; delete 0 (5) +3 = 0; put Desks 12 = 9; abandon 0 = 13; insert 0 (5) +3 = 0; \
    put Desks 11 = 0; abandon 0 = unchanged; insert 0 (5) +3 = 0; put Desks 11 = 7; abandon 0 = changed; insert 0 (5) +3 = 0; \
    put Desks 11 = 1; put Desks 12 = 1; abandon 0 = 13; insert 0 (5) +3 = 0; put Table 0 = 2049; abandon 0 = 3; abandon 12 = 3; \
    put Table 0 = 1; abandon 12 = 4; abandon 1 = 6; put Desks 8 = 4; abandon 0 = 3; put Desks 8 = 2; put Desks 9 = 5; abandon 0 = 3; \
    put Desks 9 = 3; put Desks 20 = 33; abandon 0 = 3; put Desks 20 = 0; put Desks 13 = 17; abandon 0 = 3; put Desks 13 = 1; \
    abandon 0 = unchanged; abandon 0 = 6",
];
