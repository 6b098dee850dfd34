//! What waits for what.
//!
//! Texts of the folder `schedules/`, copied by `checks/schedules.py --write`. Change them there.

use crate::schedules::Schedule;

const A_BURST_OVERTAKES_THE_ONE_THAT_IT_ANSWERS: Schedule = Schedule {
    script: r#"group 7 size 3 window 4 history 100
burst 0 6869 796f
arrive 1 0
burst 1 61 62
arrive 2 1
arrive 2 0
"#,
    text: r#"1 burst 0.1 0.2 [1,0,0]
 > 0 all 21070001000202686902796f
2 arrive accepted changed
 = 0.1 [1,0,0] "hi"
 = 0.2 [2,0,0] "yo"
3 burst 1.1 1.2 [2,1,0]
 > 1 all 210701010100020201610162
4 arrive accepted changed
5 arrive accepted changed
 = 0.1 [1,0,0] "hi"
 = 0.2 [2,0,0] "yo"
 = 1.1 [2,1,0] "a"
 = 1.2 [2,2,0] "b"
member 0 time [2,0,0] stable 0 entries 1
member 1 time [2,2,0] stable 0 entries 2
member 2 time [2,2,0] stable 0 entries 2
"#,
};

const AN_ANSWER_OVERTAKES_ITS_QUESTION: Schedule = Schedule {
    script: r#"group 7 size 3 window 4 history 100
cast 0 6869
arrive 1 0
cast 1 796f
arrive 2 1
arrive 2 0
"#,
    text: r#"1 cast 0.1 [1,0,0]
 > 0 all 1107000100026869
2 arrive accepted changed
 = 0.1 [1,0,0] "hi"
3 cast 1.1 [1,1,0]
 > 1 all 1107010101000102796f
4 arrive accepted changed
5 arrive accepted changed
 = 0.1 [1,0,0] "hi"
 = 1.1 [1,1,0] "yo"
member 0 time [1,0,0] stable 0 entries 1
member 1 time [1,1,0] stable 0 entries 2
member 2 time [1,1,0] stable 0 entries 2
"#,
};

const FIVE_MEMBERS_IN_A_RING: Schedule = Schedule {
    script: r#"group 7 size 5 window 4 history 100
cast 0 61
arrive 1 0
cast 1 62
arrive 2 1
arrive 2 0
cast 2 63
arrive 3 2
arrive 3 1
arrive 3 0
cast 3 64
arrive 4 3
arrive 4 2
arrive 4 1
arrive 4 0
cast 4 65
arrive 0 4
arrive 0 3
arrive 0 2
arrive 0 1
"#,
    text: r#"1 cast 0.1 [1,0,0,0,0]
 > 0 all 11070001000161
2 arrive accepted changed
 = 0.1 [1,0,0,0,0] "a"
3 cast 1.1 [1,1,0,0,0]
 > 1 all 110701010100010162
4 arrive accepted changed
5 arrive accepted changed
 = 0.1 [1,0,0,0,0] "a"
 = 1.1 [1,1,0,0,0] "b"
6 cast 2.1 [1,1,1,0,0]
 > 2 all 1107020102000100010163
7 arrive accepted changed
8 arrive accepted changed
9 arrive accepted changed
 = 0.1 [1,0,0,0,0] "a"
 = 1.1 [1,1,0,0,0] "b"
 = 2.1 [1,1,1,0,0] "c"
10 cast 3.1 [1,1,1,1,0]
 > 3 all 11070301030001000100010164
11 arrive accepted changed
12 arrive accepted changed
13 arrive accepted changed
14 arrive accepted changed
 = 0.1 [1,0,0,0,0] "a"
 = 1.1 [1,1,0,0,0] "b"
 = 2.1 [1,1,1,0,0] "c"
 = 3.1 [1,1,1,1,0] "d"
15 cast 4.1 [1,1,1,1,1]
 > 4 all 110704010400010001000100010165
16 arrive accepted changed
17 arrive accepted changed
18 arrive accepted changed
19 arrive accepted changed
 = 1.1 [1,1,0,0,0] "b"
 = 2.1 [1,1,1,0,0] "c"
 = 3.1 [1,1,1,1,0] "d"
 = 4.1 [1,1,1,1,1] "e"
member 0 time [1,1,1,1,1] stable 1 entries 5
member 1 time [1,1,0,0,0] stable 0 entries 2
member 2 time [1,1,1,0,0] stable 0 entries 3
member 3 time [1,1,1,1,0] stable 0 entries 4
member 4 time [1,1,1,1,1] stable 0 entries 5
"#,
};

const TWO_ANSWER_AT_ONCE: Schedule = Schedule {
    script: r#"group 7 size 3 window 4 history 100
cast 0 6869
arrive 1 0
arrive 2 0
cast 1 796f
cast 2 6f6b
arrive 0 2
arrive 0 1
arrive 1 2
arrive 2 1
"#,
    text: r#"1 cast 0.1 [1,0,0]
 > 0 all 1107000100026869
2 arrive accepted changed
 = 0.1 [1,0,0] "hi"
3 arrive accepted changed
 = 0.1 [1,0,0] "hi"
4 cast 1.1 [1,1,0]
 > 1 all 1107010101000102796f
5 cast 2.1 [1,0,1]
 > 2 all 11070201010001026f6b
6 arrive accepted changed
 = 2.1 [1,0,1] "ok"
7 arrive accepted changed
 = 1.1 [1,1,0] "yo"
8 arrive accepted changed
 = 2.1 [1,0,1] "ok"
9 arrive accepted changed
 = 1.1 [1,1,0] "yo"
member 0 time [1,1,1] stable 1 entries 3
member 1 time [1,1,1] stable 0 entries 3
member 2 time [1,1,1] stable 0 entries 3
"#,
};

const TWO_CASTS_COME_REVERSED: Schedule = Schedule {
    script: r#"group 7 size 3 window 4 history 100
cast 0 6869
arrive 1 0
cast 1 796f
cast 1 6f6b
arrive 0 2
arrive 0 1
"#,
    text: r#"1 cast 0.1 [1,0,0]
 > 0 all 1107000100026869
2 arrive accepted changed
 = 0.1 [1,0,0] "hi"
3 cast 1.1 [1,1,0]
 > 1 all 1107010101000102796f
4 cast 1.2 [1,2,0]
 > 2 all 1107010200026f6b
5 arrive accepted changed
6 arrive accepted changed
 = 1.1 [1,1,0] "yo"
 = 1.2 [1,2,0] "ok"
member 0 time [1,2,0] stable 0 entries 3
member 1 time [1,2,0] stable 0 entries 3
member 2 time [0,0,0] stable 0 entries 0
"#,
};

const ALL: &[Schedule] = &[
    A_BURST_OVERTAKES_THE_ONE_THAT_IT_ANSWERS,
    AN_ANSWER_OVERTAKES_ITS_QUESTION,
    FIVE_MEMBERS_IN_A_RING,
    TWO_ANSWER_AT_ONCE,
    TWO_CASTS_COME_REVERSED,
];

/// A function, since a constant would be looked through in the proof of the loop.
pub fn schedules() -> &'static [Schedule] {
    ALL
}
