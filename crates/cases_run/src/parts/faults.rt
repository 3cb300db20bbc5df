// The faults of "Faults a bench would show". Leans on nothing.

pub const FAULTS: [&str; 5] = [
    // Raising before the table step only: an old list gets filed under a new revision. A read between a write's marks and its table
    // step takes the old list, and one between the table step and the raises the new one; neither files, and the next read does.
    "fault 1, expected: open 1 = 0; insert 1 (5) +2 = 0; read 0 (5) +4 = got 0; Answers 0 = 0; step 1 +1 = 0; \
    read 0 (5) +4 = got 1; Answers 0 = 0; step 1 +2 = changed; read 0 (5) +5 = got 1; tray 0 = 5; Answers 0 = 1; Answers 16 = 2",
    // A node coming back at 1 makes long dead answers hold again: no records are filed under 1, 1, then 5 is inserted and node 5
    // leaves.
    "fault 2, expected: open 1 = 0; read 0 (5) +5 = got 0; Answers 16 = 1; Answers 17 = 1; insert 1 (5) +5 = changed; \
    label 0 = (5); Nodes 14 = 2; evict 0 = 0; Nodes 0 = 2; read 0 (5) +2 = 0; Desks 21 = 2; step 0 +3 = got 1; tray 0 = 5",
    // One bit for marks: two writers share (*,*), the first to finish clears it.
    "fault 3, expected: open 2 = 0; insert 0 (1,1) +4 = 0; label 3 = (*,*); insert 1 (2,2) +4 = 0; Nodes 37 = 2; \
    step 0 +5 = changed; Nodes 37 = 1; read 2 (*,*) +3 = got 1; Answers 0 = 0; step 1 +5 = changed; Nodes 37 = 0; \
    read 2 (*,*) +4 = got 2; tray 2 = 2; Answers 0 = 1; read 2 (*,*) +2 = kept 2",
    // Looking at the nodes after the table, or noting them afresh when filing: an insert runs between the read's table step and its
    // filing.
    "fault 4, expected: open 1 = 0; read 0 (5) +4 = 0; insert 1 (5) +5 = changed; step 0 +1 = got 0; Answers 16 = 1; \
    Answers 17 = 1; read 0 (5) +2 = 0; Desks 21 = 2; step 0 +3 = got 1; tray 0 = 5; Answers 0 = 1; Answers 16 = 2",
    // Replacing 2 by * and then that * by ?: a write of 2 has no node with a ?, and one of (2,*) a ? in the second column only.
    "fault 5, expected: open 1 = 0; insert 0 (2) +2 = 0; Nodes 1 = 2; label 0 = (2); label 1 = (*); step 0 +3 = changed; \
    open 2 = 0; delete 0 (2,*) +4 = 0; Nodes 1 = 4; label 0 = (2,*); label 1 = (*,*); label 2 = (2,?); label 3 = (*,?)",
];
