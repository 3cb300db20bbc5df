// The zeros of S-5. Leans on nothing.

pub const ZEROS: [&str; 6] = [
    // k 1, the records 0, 1 and, put there by hand, the largest. Inserted again, 0 changes nothing. A read and a count of 0 find none,
    // file that and are answered from file; a star finds 0; a delete of 0 takes out none, one of * does.
    "S-5 one column, expected: open 1 = 0; insert 0 (1) +5 = changed; insert 0 (0) +5 = changed; Table 0 = 2; Table 8 = 0; \
    Table 9 = 1; insert 0 (0) +5 = unchanged; Table 0 = 2; insert 0 (2) +5 = changed; put Table 10 = 4294967295; \
    read 0 (0) +5 = got 0; Answers 0 = 1; Answers 8 = 1; Answers 9 = 0; read 0 (0) +3 = kept 0; Count 0 (0) +5 = got 0; \
    Count 0 (0) +3 = kept 0; read 0 (*) +4 = got 3; tray 0 = 0; tray 1 = 1; tray 2 = 4294967295; Count 0 (*) +4 = got 3; \
    read 0 (1) +5 = got 1; tray 0 = 1; delete 0 (0) +5 = unchanged; Table 0 = 3; delete 0 (1) +5 = changed; Table 0 = 2; \
    Table 8 = 0; delete 0 (*) +5 = changed; Table 0 = 0",
    // Ranges on the same records: 0 to 0 finds none, 0 to 1 and 1 to 1 find 1, 0 to the largest two; listed, counted and from file.
    "S-5 ranges, expected: open 1 = 0; fill (3) +5 = changed; put Table 10 = 4294967295; put tray 125 = 0; put tray 126 = 0; \
    put tray 127 = 0; within 0 (*) +4 = got 0; within 0 (*) +2 = kept 0; Within 0 (*) +4 = got 0; Within 0 (*) +2 = kept 0; \
    put tray 127 = 1; within 0 (*) +4 = got 1; tray 0 = 1; Within 0 (*) +4 = got 1; put tray 126 = 1; within 0 (*) +4 = got 1; \
    tray 0 = 1; put tray 126 = 0; put tray 127 = 4294967295; within 0 (*) +4 = got 2; tray 0 = 1; tray 1 = 4294967295; \
    Within 0 (*) +4 = got 2; Within 0 (*) +2 = kept 2; put tray 126 = 4294967295; within 0 (*) +4 = got 1; tray 0 = 4294967295",
    // In keys and labels a 0 equals a 0. An insert of 0 does not meet a read of 0, and raises its node: the answer on file is not used
    // any more. A read of 0 while it marks sees the mark, and files nothing. A read of 1 shares none, and is answered from file.
    "S-5 shared nodes, expected: open 1 = 0; read 0 (0) +5 = got 0; Nodes 1 = 2; label 0 = (0); label 1 = (?); Answers 16 = 1; \
    read 0 (1) +5 = got 0; insert 1 (0) +5 = changed; Nodes 14 = 2; read 0 (1) +3 = kept 0; read 0 (0) +5 = got 0; Answers 0 = 2; \
    Answers 168 = 2; read 0 (0) +3 = kept 0; insert 1 (0) +1 = 0; Nodes 13 = 1; read 0 (0) +4 = got 0; Answers 0 = 2; \
    step 1 +4 = unchanged; Nodes 13 = 0; delete 1 (0) +3 = 0; Nodes 13 = 1; Table 0 = 1; step 1 +2 = unchanged; Nodes 13 = 0",
    // k 2: the records (0,0), (0,1), (1,0) and (1,1) stand ascending. Naming 0 in either column finds none, beside a star or a value; 1
    // finds those with it, whatever is in the other column.
    "S-5 two columns, expected: open 2 = 0; insert 0 (1,0) +9 = changed; insert 0 (0,1) +9 = changed; insert 0 (1,1) +9 = changed; \
    insert 0 (0,0) +9 = changed; insert 0 (0,1) +9 = unchanged; read 0 (*,*) +4 = got 4; tray 0 = 0; tray 1 = 0; tray 2 = 0; \
    tray 3 = 1; tray 4 = 1; tray 5 = 0; tray 6 = 1; tray 7 = 1; read 0 (0,*) +5 = got 0; read 0 (*,0) +5 = got 0; \
    read 0 (0,0) +7 = got 0; read 0 (1,0) +7 = got 0; read 0 (1,*) +5 = got 2; tray 0 = 1; tray 1 = 0; tray 2 = 1; tray 3 = 1; \
    Count 0 (*,1) +5 = got 2; delete 0 (0,*) +9 = unchanged; delete 0 (*,0) +9 = unchanged; delete 0 (1,0) +9 = unchanged; \
    delete 0 (1,*) +9 = changed; Table 0 = 2; Table 8 = 0; Table 11 = 1",
    // The same with ranges: one beside a named 0 finds none, one beside 1 or a star skips 0 in its own column alone.
    "S-5 ranges of two columns, expected: open 2 = 0; insert 0 (1,0) +9 = changed; insert 0 (0,1) +9 = changed; \
    insert 0 (1,1) +9 = changed; insert 0 (0,0) +9 = changed; put tray 125 = 1; put tray 126 = 0; put tray 127 = 9; \
    within 0 (1,*) +5 = got 1; tray 0 = 1; tray 1 = 1; within 0 (0,*) +5 = got 0; within 0 (0,*) +3 = kept 0; \
    Within 0 (0,*) +5 = got 0; within 0 (*,*) +4 = got 2; tray 0 = 0; tray 1 = 1; put tray 127 = 0; within 0 (1,*) +5 = got 0; \
    put tray 125 = 0; put tray 127 = 1; within 0 (*,*) +4 = got 2; tray 0 = 1; tray 1 = 0; within 0 (*,0) +5 = got 0",
    // k 3: the same with 0 in the middle column.
    "S-5 three columns, expected: open 3 = 0; insert 0 (2,0,3) +15 = 0; step 0 +2 = changed; insert 0 (2,1,3) +15 = 0; \
    step 0 +2 = changed; insert 0 (2,0,3) +15 = 0; step 0 +2 = unchanged; read 0 (2,*,3) +7 = got 2; tray 1 = 0; tray 4 = 1; \
    read 0 (2,0,3) +11 = got 0; read 0 (2,0,3) +9 = kept 0; Count 0 (*,0,*) +5 = got 0; put tray 125 = 1; put tray 126 = 0; \
    put tray 127 = 0; within 0 (2,*,3) +7 = got 0; put tray 127 = 1; within 0 (2,*,3) +7 = got 1; tray 1 = 1; \
    delete 0 (2,0,3) +15 = 0; step 0 +2 = unchanged; delete 0 (*,*,3) +15 = 0; step 0 +2 = changed; Table 0 = 0",
];
