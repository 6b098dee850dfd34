//! What is refused: full windows, full histories, members and frames that there are not.
//!
//! Texts of the folder `schedules/`, copied by `checks/schedules.py --write`. Change them there.

use crate::schedules::Schedule;

const NAMES_THAT_DO_NOT_EXIST: Schedule = Schedule {
    script: r#"group 7 size 3 window 4 history 100
cast 3 00
arrive 0 9
arrive 3 9
tick 4294967295
cast 0 -
arrive 1 0
arrive 1 1
arrive 1 4294967295
"#,
    text: r#"1 refused NoSuchMember
2 refused NoSuchFrame
3 refused NoSuchMember
4 refused NoSuchMember
5 cast 0.1 [1,0,0]
 > 0 all 110700010000
6 arrive accepted changed
 = 0.1 [1,0,0] ""
7 refused NoSuchFrame
8 refused NoSuchFrame
member 0 time [1,0,0] stable 0 entries 1
member 1 time [1,0,0] stable 0 entries 1
member 2 time [0,0,0] stable 0 entries 0
"#,
};

const ONE_MEMBER_ONLY_LISTENS: Schedule = Schedule {
    script: r#"group 7 size 3 window 1 history 100
cast 0 61
arrive 1 0
arrive 2 0
cast 1 62
arrive 0 1
arrive 2 1
cast 0 63
tick 2
arrive 0 2
cast 0 63
tick 2
"#,
    text: r#"1 cast 0.1 [1,0,0]
 > 0 all 11070001000161
2 arrive accepted changed
 = 0.1 [1,0,0] "a"
3 arrive accepted changed
 = 0.1 [1,0,0] "a"
4 cast 1.1 [1,1,0]
 > 1 all 110701010100010162
5 arrive accepted changed
 = 1.1 [1,1,0] "b"
6 arrive accepted changed
 = 1.1 [1,1,0] "b"
7 refused WindowFull
8 tick entered
 > 2 all 1207020200010001
9 arrive accepted changed
10 cast 0.2 [2,1,0]
 > 3 all 110700020101010163
11 tick same
 > 4 all 1207020200010001
member 0 time [2,1,0] stable 1 entries 4
member 1 time [1,1,0] stable 0 entries 2
member 2 time [1,1,0] stable 0 entries 3
"#,
};

const THE_HISTORY_IS_FULL: Schedule = Schedule {
    script: r#"group 7 size 3 window 4 history 1
cast 0 6869
cast 1 796f
cast 0 6f6b
arrive 0 1
arrive 0 0
tick 0
tick 2
arrive 0 2
tick 2
"#,
    text: r#"1 cast 0.1 [1,0,0]
 > 0 all 1107000100026869
2 cast 1.1 [0,1,0]
 > 1 all 110701010002796f
3 refused HistoryFull
4 refused HistoryFull
5 arrive repeat
6 refused HistoryFull
7 tick entered
 > 2 all 12070200
8 arrive accepted same
9 tick same
 > 3 all 12070200
member 0 time [1,0,0] stable 0 entries 1
member 1 time [0,1,0] stable 0 entries 1
member 2 time [0,0,0] stable 0 entries 1
"#,
};

const THE_WINDOW_FILLS_AND_OPENS: Schedule = Schedule {
    script: r#"group 7 size 3 window 2 history 100
cast 0 61
cast 0 62
cast 0 63
arrive 1 0
arrive 1 1
arrive 2 0
arrive 2 1
tick 1
tick 2
arrive 0 2
cast 0 63
arrive 0 3
cast 0 63
"#,
    text: r#"1 cast 0.1 [1,0,0]
 > 0 all 11070001000161
2 cast 0.2 [2,0,0]
 > 1 all 11070002000162
3 refused WindowFull
4 arrive accepted changed
 = 0.1 [1,0,0] "a"
5 arrive accepted changed
 = 0.2 [2,0,0] "b"
6 arrive accepted changed
 = 0.1 [1,0,0] "a"
7 arrive accepted changed
 = 0.2 [2,0,0] "b"
8 tick entered
 > 2 all 120701010002
9 tick entered
 > 3 all 120702010002
10 arrive accepted changed
11 refused WindowFull
12 arrive accepted changed
13 cast 0.3 [3,0,0]
 > 4 all 11070003000163
member 0 time [3,0,0] stable 2 entries 5
member 1 time [2,0,0] stable 0 entries 3
member 2 time [2,0,0] stable 0 entries 3
"#,
};

const ALL: &[Schedule] = &[
    NAMES_THAT_DO_NOT_EXIST,
    ONE_MEMBER_ONLY_LISTENS,
    THE_HISTORY_IS_FULL,
    THE_WINDOW_FILLS_AND_OPENS,
];

/// A function, since a constant would be looked through in the proof of the loop.
pub fn schedules() -> &'static [Schedule] {
    ALL
}
