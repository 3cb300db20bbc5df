// The counts of S-1. Leans on nothing.

pub const COUNTS: [&str; 10] = [
    // No record, 32, and 33: a list of them gives 12, and a count of them is filed in the length's place with nothing listed. The
    // tray keeps what it had.
    "S-1 counts, expected: open 1 = 0; put tray 65535 = 7; Count 0 (*) +4 = got 0; fill (32) +5 = changed; \
    Count 0 (*) +4 = got 32; insert 0 (32) +5 = changed; Count 0 (*) +4 = got 33; read 0 (*) +3 = 12; Count 0 (*) +2 = kept 33; \
    Answers 0 = 1; Answers 8 = 16; Answers 15 = 33; Answers 32 = 0; tray 0 = 7; tray 127 = 7",
    // One record less than the table holds, and all of them, also after an insert that finds the table full; none after a delete.
    "S-1 full table, expected: open 1 = 0; fill (2047) +5 = changed; Count 0 (*) +4 = got 2047; Count 0 (*) +2 = kept 2047; \
    insert 0 (2047) +5 = changed; Count 0 (*) +4 = got 2048; Answers 15 = 2048; Count 0 (*) +2 = kept 2048; \
    insert 0 (2048) +5 = 13; Count 0 (*) +2 = kept 2048; Count 0 (2048) +5 = got 0; delete 0 (*) +5 = changed; \
    Count 0 (*) +4 = got 0",
    // A list and a count of one query, filed side by side: each serves its own kind alone, and each filed anew takes out its own.
    "S-1 side by side, expected: open 1 = 0; insert 1 (5) +5 = changed; read 0 (5) +5 = got 1; put tray 0 = 7; \
    Count 0 (5) +5 = got 1; Answers 0 = 2; Answers 8 = 1; Answers 15 = 1; Answers 32 = 5; Answers 160 = 17; Answers 167 = 1; \
    Answers 184 = 0; Count 0 (5) +3 = kept 1; tray 0 = 7; read 0 (5) +3 = kept 1; tray 0 = 5; delete 1 (5) +5 = changed; \
    read 0 (5) +5 = got 0; Answers 0 = 2; Answers 8 = 17; Answers 160 = 1; Count 0 (5) +5 = got 0; Answers 0 = 2; Answers 8 = 1; \
    Answers 160 = 17",
    // A look saw a mark: the count is answered at its table step, with what the table has then, and nothing is filed.
    "S-1 mark seen, expected: open 1 = 0; fill (33) +5 = changed; put tray 65535 = 7; insert 1 (40) +2 = 0; Count 0 (*) +1 = 0; \
    Desks 10 = 1; step 0 +2 = got 33; Desks 8 = 0; Answers 0 = 0; Count 0 (*) +2 = 0; step 1 +1 = 0; step 0 +1 = got 34; \
    Answers 0 = 0; tray 0 = 7; step 1 +2 = changed; Count 0 (*) +4 = got 34; Answers 0 = 1; Count 0 (*) +2 = kept 34",
    // Every step of a count wants a tray of 128 and writes none of it: looks, fetch, table, file; an answer from file; one after
    // a mark.
    "S-1 tray, expected: open 1 = 0; insert 1 (5) +5 = changed; put tray 65535 = 7; Count 0 (5) = 0; Step 0 +1 = 1; \
    step 0 +1 = 0; Step 0 +1 = 1; step 0 +1 = 0; Step 0 +1 = 1; step 0 +1 = 0; Step 0 +1 = 1; step 0 +1 = 0; Step 0 +1 = 1; \
    step 0 +1 = got 1; tray 0 = 7; Count 0 (5) +2 = 0; Step 0 +1 = 1; step 0 +1 = kept 1; tray 0 = 7; insert 1 (5) +1 = 0; \
    Count 0 (5) +3 = 0; Step 0 +1 = 1; step 0 +1 = got 1; tray 0 = 7; tray 127 = 7",
    // A filed count may be 2,048, not more, whatever is called but an opening; 33 beside a filed list, which may not be 33.
    "S-1 filed limits, expected: open 1 = 0; Count 0 (5) +5 = got 0; put Answers 15 = 2048; Count 0 (5) +3 = kept 2048; \
    put Answers 15 = 2049; Count 0 (5) = 3; read 0 (5) = 3; insert 0 (5) = 3; step 0 +1 = 3; abandon 0 = 3; Evict 0 = 3; \
    evict 0 = 3; new = 3; put Answers 15 = 33; read 0 (5) +5 = got 0; Count 0 (5) +3 = kept 33; Answers 160 = 1; \
    put Answers 167 = 33; Count 0 (5) = 3; step 0 +1 = 3; put Answers 167 = 32; read 0 (5) +3 = kept 32; put Answers 15 = 2049; \
    new = 3; open 1 = 0; Answers 0 = 0",
    // A filed wanting that is neither: the limit goes by bit 4 alone (49 and 4294967295 have it, 33 and 4294967279 do not), and
    // it serves no read.
    "S-1 neither, filed, expected: open 1 = 0; Count 0 (5) +5 = got 0; put Answers 8 = 49; put Answers 15 = 2048; \
    Count 0 (5) +5 = got 0; Answers 0 = 2; put Answers 15 = 2049; step 0 +1 = 3; put Answers 8 = 33; put Answers 15 = 33; \
    step 0 +1 = 3; put Answers 15 = 32; read 0 (5) +5 = got 0; Answers 0 = 3; put Answers 8 = 4294967295; put Answers 15 = 2048; \
    step 0 +1 = 6; put Answers 8 = 4294967279; step 0 +1 = 3; put Answers 15 = 32; step 0 +1 = 6; Count 0 (5) +3 = kept 0; \
    Evict 0 = 0; Answers 8 = 17",
    // A held count may be 2,048 at the called desk, not more; at another desk it is not looked at. It is filed and answered with
    // as it stands. A held list may be 32.
    "S-1 held limits, expected: open 1 = 0; Count 0 (5) +4 = 0; put Desks 20 = 2048; Count 1 (6) +5 = got 0; \
    put Desks 20 = 2049; Count 1 (6) +3 = kept 0; step 0 +1 = 3; abandon 0 = 3; Count 0 (5) = 3; put Desks 20 = 2048; \
    step 0 +1 = got 2048; Answers 167 = 2048; Count 0 (5) +3 = kept 2048; read 0 (5) +4 = 0; put Desks 20 = 33; step 0 +1 = 3; \
    Count 1 (6) +3 = kept 0; put Desks 20 = 32; step 0 +1 = got 32",
    // What the called desk wants: a writer no count; a reader one of the two, under the marks of one column and no value under a
    // star.
    "S-1 wanted at a desk, expected: open 1 = 0; insert 0 (5) = 0; put Desks 13 = 17; step 0 +1 = 3; abandon 0 = 3; \
    Count 0 (5) = 3; Count 1 (5) +5 = got 0; put Desks 13 = 1; step 0 +5 = changed; delete 0 (5) +1 = 0; put Desks 13 = 17; \
    step 0 +1 = 3; put Desks 13 = 1; step 0 +4 = changed; Count 0 (5) = 0; Desks 8 = 1; Desks 13 = 17; put Desks 13 = 49; \
    step 0 +1 = 3; put Desks 13 = 33; step 0 +1 = 3; put Desks 13 = 18; step 0 +1 = 3; put Desks 13 = 16; step 0 +1 = 3; \
    put Desks 13 = 4294967295; step 0 +1 = 3; Count 1 (5) = 0; put Desks 13 = 17; step 0 +5 = got 0",
    // The begin of a count is refused as a read's is, and not for worn counters.
    "S-1 refusals, expected: open 1 = 0; Count 0 (5,*) = 2; Count 0 (!) = 2; Count 0 (~) = 2; Count 12 (!) = 2; \
    put Table 0 = 2049; Count 12 (5) = 3; put Table 0 = 0; put Desks 8 = 4; Count 0 (5) = 3; put Desks 8 = 0; Count 12 (5) = 4; \
    Count 65535 (5) = 4; Count 11 (5) = 0; Count 11 (5) = 5; read 11 (5) = 5; insert 11 (5) = 5; new = 11; abandon 11 = 0; \
    abandon 11 = 6; put Nodes 0 = 4294967104; insert 0 (5) = 10; Count 0 (5) +5 = got 0; Answers 16 = 4294967104",
];
