//! What is lost, repeated or late, and how it is repaired.
//!
//! Texts of the folder `schedules/`, copied by `checks/schedules.py --write`. Change them there.

use crate::schedules::Schedule;

const A_BURST_IS_LOST_AND_GIVEN_WHOLE: Schedule = Schedule {
    script: r#"group 7 size 3 window 4 history 100
burst 0 61 62 63
cast 0 64
arrive 1 0
arrive 2 1
tick 2
arrive 0 3
arrive 2 4
"#,
    text: r#"1 burst 0.1 0.3 [1,0,0]
 > 0 all 210700010003016101620163
2 cast 0.4 [4,0,0]
 > 1 all 11070004000164
3 arrive accepted changed
 = 0.1 [1,0,0] "a"
 = 0.2 [2,0,0] "b"
 = 0.3 [3,0,0] "c"
4 arrive accepted changed
5 tick entered
 > 2 all 12070200
 > 3 0 13070200010002
6 arrive accepted same
 > 4 2 210700010003016101620163
7 arrive accepted changed
 = 0.1 [1,0,0] "a"
 = 0.2 [2,0,0] "b"
 = 0.3 [3,0,0] "c"
 = 0.4 [4,0,0] "d"
member 0 time [4,0,0] stable 0 entries 2
member 1 time [3,0,0] stable 0 entries 1
member 2 time [4,0,0] stable 0 entries 3
"#,
};

const A_FRAME_COMES_AGAIN: Schedule = Schedule {
    script: r#"group 7 size 2 window 4 history 100
cast 0 6869
arrive 1 0
arrive 1 0
arrive 0 0
"#,
    text: r#"1 cast 0.1 [1,0]
 > 0 all 1107000100026869
2 arrive accepted changed
 = 0.1 [1,0] "hi"
3 arrive repeat
4 arrive repeat
member 0 time [1,0] stable 0 entries 1
member 1 time [1,0] stable 0 entries 1
"#,
};

const A_LOSS_AND_ITS_REPAIR: Schedule = Schedule {
    script: r#"group 7 size 3 window 4 history 100
cast 0 61
cast 0 62
cast 0 63
cast 0 64
arrive 2 0
arrive 2 3
tick 2
arrive 1 5
arrive 0 5
arrive 2 7
arrive 2 6
tick 2
"#,
    text: r#"1 cast 0.1 [1,0,0]
 > 0 all 11070001000161
2 cast 0.2 [2,0,0]
 > 1 all 11070002000162
3 cast 0.3 [3,0,0]
 > 2 all 11070003000163
4 cast 0.4 [4,0,0]
 > 3 all 11070004000164
5 arrive accepted changed
 = 0.1 [1,0,0] "a"
6 arrive accepted changed
7 tick entered
 > 4 all 120702010001
 > 5 0 13070200010101
8 arrive accepted same
9 arrive accepted same
 > 6 2 11070002000162
 > 7 2 11070003000163
10 arrive accepted changed
11 arrive accepted changed
 = 0.2 [2,0,0] "b"
 = 0.3 [3,0,0] "c"
 = 0.4 [4,0,0] "d"
12 tick entered
 > 8 all 120702010004
member 0 time [4,0,0] stable 0 entries 4
member 1 time [0,0,0] stable 0 entries 0
member 2 time [4,0,0] stable 0 entries 6
"#,
};

const A_REQUEST_COMES_LATE: Schedule = Schedule {
    script: r#"group 7 size 2 window 4 history 100
cast 0 61
cast 0 62
arrive 1 1
tick 1
arrive 1 0
tick 1
arrive 0 4
arrive 0 3
"#,
    text: r#"1 cast 0.1 [1,0]
 > 0 all 11070001000161
2 cast 0.2 [2,0]
 > 1 all 11070002000162
3 arrive accepted changed
4 tick entered
 > 2 all 12070100
 > 3 0 13070100010000
5 arrive accepted changed
 = 0.1 [1,0] "a"
 = 0.2 [2,0] "b"
6 tick entered
 > 4 all 120701010002
7 arrive accepted changed
8 arrive accepted same
member 0 time [2,0] stable 2 entries 3
member 1 time [2,0] stable 0 entries 4
"#,
};

const A_THIRD_MEMBER_HANDS_ON_WHAT_IS_LOST: Schedule = Schedule {
    script: r#"group 7 size 3 window 4 history 100
cast 0 61
cast 0 62
arrive 1 0
arrive 1 1
help 2 0
tick 1
arrive 2 2
tick 2
help 2 0
arrive 1 5
arrive 2 7
arrive 2 6
tick 2
arrive 1 8
arrive 1 5
help 2 0
arrive 0 2
arrive 0 8
"#,
    text: r#"1 cast 0.1 [1,0,0]
 > 0 all 11070001000161
2 cast 0.2 [2,0,0]
 > 1 all 11070002000162
3 arrive accepted changed
 = 0.1 [1,0,0] "a"
4 arrive accepted changed
 = 0.2 [2,0,0] "b"
5 help none
6 tick entered
 > 2 all 120701010002
7 arrive accepted changed
8 tick entered
 > 3 all 12070200
 > 4 0 13070200010001
9 help
 > 5 1 2307020100010001
10 arrive accepted same
 > 6 2 11070001000161
 > 7 2 11070002000162
11 arrive accepted changed
12 arrive accepted changed
 = 0.1 [1,0,0] "a"
 = 0.2 [2,0,0] "b"
13 tick entered
 > 8 all 120702010002
14 arrive accepted changed
15 arrive accepted same
16 help none
17 arrive accepted changed
18 arrive accepted changed
member 0 time [2,0,0] stable 2 entries 4
member 1 time [2,0,0] stable 0 entries 4
member 2 time [2,0,0] stable 0 entries 5
"#,
};

const ALL_IS_LOST_AND_TWO_ROUNDS_REPAIR_IT: Schedule = Schedule {
    script: r#"group 7 size 3 window 16 history 100
cast 0 61
cast 0 62
cast 0 63
cast 0 64
cast 1 65
cast 1 66
cast 1 67
cast 2 68
cast 2 69
cast 2 6a
tick 0
tick 1
tick 2
arrive 1 10
arrive 2 10
arrive 0 11
arrive 2 11
arrive 0 12
arrive 1 12
tick 0
tick 1
tick 2
arrive 1 13
arrive 2 13
arrive 1 14
arrive 2 15
arrive 0 16
arrive 2 16
arrive 0 17
arrive 2 18
arrive 0 19
arrive 1 19
arrive 0 20
arrive 1 21
arrive 0 22
arrive 0 23
arrive 0 24
arrive 0 25
arrive 0 26
arrive 0 27
arrive 1 28
arrive 1 29
arrive 1 30
arrive 1 31
arrive 1 32
arrive 1 33
arrive 1 34
arrive 2 35
arrive 2 36
arrive 2 37
arrive 2 38
arrive 2 39
arrive 2 40
arrive 2 41
"#,
    text: r#"1 cast 0.1 [1,0,0]
 > 0 all 11070001000161
2 cast 0.2 [2,0,0]
 > 1 all 11070002000162
3 cast 0.3 [3,0,0]
 > 2 all 11070003000163
4 cast 0.4 [4,0,0]
 > 3 all 11070004000164
5 cast 1.1 [0,1,0]
 > 4 all 11070101000165
6 cast 1.2 [0,2,0]
 > 5 all 11070102000166
7 cast 1.3 [0,3,0]
 > 6 all 11070103000167
8 cast 2.1 [0,0,1]
 > 7 all 11070201000168
9 cast 2.2 [0,0,2]
 > 8 all 11070202000169
10 cast 2.3 [0,0,3]
 > 9 all 1107020300016a
11 tick entered
 > 10 all 120700010004
12 tick entered
 > 11 all 120701010103
13 tick entered
 > 12 all 120702010203
14 arrive accepted changed
15 arrive accepted changed
16 arrive accepted changed
17 arrive accepted changed
18 arrive accepted changed
19 arrive accepted changed
20 tick same
 > 13 all 120700010004
 > 14 1 13070001010002
 > 15 2 13070002010002
21 tick same
 > 16 all 120701010103
 > 17 0 13070100010003
 > 18 2 13070102010002
22 tick same
 > 19 all 120702010203
 > 20 0 13070200010003
 > 21 1 13070201010002
23 arrive accepted same
24 arrive accepted same
25 arrive accepted same
 > 22 0 11070101000165
 > 23 0 11070102000166
 > 24 0 11070103000167
26 arrive accepted same
 > 25 0 11070201000168
 > 26 0 11070202000169
 > 27 0 1107020300016a
27 arrive accepted same
28 arrive accepted same
29 arrive accepted same
 > 28 1 11070001000161
 > 29 1 11070002000162
 > 30 1 11070003000163
 > 31 1 11070004000164
30 arrive accepted same
 > 32 1 11070201000168
 > 33 1 11070202000169
 > 34 1 1107020300016a
31 arrive accepted same
32 arrive accepted same
33 arrive accepted same
 > 35 2 11070001000161
 > 36 2 11070002000162
 > 37 2 11070003000163
 > 38 2 11070004000164
34 arrive accepted same
 > 39 2 11070101000165
 > 40 2 11070102000166
 > 41 2 11070103000167
35 arrive accepted changed
 = 1.1 [0,1,0] "e"
36 arrive accepted changed
 = 1.2 [0,2,0] "f"
37 arrive accepted changed
 = 1.3 [0,3,0] "g"
38 arrive accepted changed
 = 2.1 [0,0,1] "h"
39 arrive accepted changed
 = 2.2 [0,0,2] "i"
40 arrive accepted changed
 = 2.3 [0,0,3] "j"
41 arrive accepted changed
 = 0.1 [1,0,0] "a"
42 arrive accepted changed
 = 0.2 [2,0,0] "b"
43 arrive accepted changed
 = 0.3 [3,0,0] "c"
44 arrive accepted changed
 = 0.4 [4,0,0] "d"
45 arrive accepted changed
 = 2.1 [0,0,1] "h"
46 arrive accepted changed
 = 2.2 [0,0,2] "i"
47 arrive accepted changed
 = 2.3 [0,0,3] "j"
48 arrive accepted changed
 = 0.1 [1,0,0] "a"
49 arrive accepted changed
 = 0.2 [2,0,0] "b"
50 arrive accepted changed
 = 0.3 [3,0,0] "c"
51 arrive accepted changed
 = 0.4 [4,0,0] "d"
52 arrive accepted changed
 = 1.1 [0,1,0] "e"
53 arrive accepted changed
 = 1.2 [0,2,0] "f"
54 arrive accepted changed
 = 1.3 [0,3,0] "g"
member 0 time [4,3,3] stable 0 entries 13
member 1 time [4,3,3] stable 0 entries 13
member 2 time [4,3,3] stable 0 entries 13
"#,
};

const ALL: &[Schedule] = &[
    A_BURST_IS_LOST_AND_GIVEN_WHOLE,
    A_FRAME_COMES_AGAIN,
    A_LOSS_AND_ITS_REPAIR,
    A_REQUEST_COMES_LATE,
    A_THIRD_MEMBER_HANDS_ON_WHAT_IS_LOST,
    ALL_IS_LOST_AND_TWO_ROUNDS_REPAIR_IT,
];

/// A function, since a constant would be looked through in the proof of the loop.
pub fn schedules() -> &'static [Schedule] {
    ALL
}
