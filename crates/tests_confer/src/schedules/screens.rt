//! What stands on screens.
//!
//! Texts of the folder `schedules/`, copied by `checks/schedules.py --write`. Change them there.

use crate::schedules::Schedule;

const A_SCREEN_SCROLLS: Schedule = Schedule {
    script: r#"group 7 size 2 window 64 history 100
say 0 main one
say 0 main two
say 0 main three
say 0 main four
say 0 main five
say 0 main six
say 0 main seven
say 0 main eight
say 0 main nine
say 0 main ten
say 0 main eleven
say 0 main twelve
say 0 main thirteen
say 0 main fourteen
say 0 main fifteen
say 0 main sixteen
say 0 main seventeen
say 0 main eighteen
say 0 main nineteen
say 0 main twenty
say 0 main twenty-one
screen 0
answer 0 0.1 still here
screen 0
screen 1
arrive 1 21
screen 1
arrive 1 0
screen 1
"#,
    text: r#"1 cast 0.1 [1,0]
 > 0 all 11070001000901046d61696e6f6e65
2 cast 0.2 [2,0]
 > 1 all 11070002000901046d61696e74776f
3 cast 0.3 [3,0]
 > 2 all 11070003000b01046d61696e7468726565
4 cast 0.4 [4,0]
 > 3 all 11070004000a01046d61696e666f7572
5 cast 0.5 [5,0]
 > 4 all 11070005000a01046d61696e66697665
6 cast 0.6 [6,0]
 > 5 all 11070006000901046d61696e736978
7 cast 0.7 [7,0]
 > 6 all 11070007000b01046d61696e736576656e
8 cast 0.8 [8,0]
 > 7 all 11070008000b01046d61696e6569676874
9 cast 0.9 [9,0]
 > 8 all 11070009000a01046d61696e6e696e65
10 cast 0.10 [10,0]
 > 9 all 1107000a000901046d61696e74656e
11 cast 0.11 [11,0]
 > 10 all 1107000b000c01046d61696e656c6576656e
12 cast 0.12 [12,0]
 > 11 all 1107000c000c01046d61696e7477656c7665
13 cast 0.13 [13,0]
 > 12 all 1107000d000e01046d61696e746869727465656e
14 cast 0.14 [14,0]
 > 13 all 1107000e000e01046d61696e666f75727465656e
15 cast 0.15 [15,0]
 > 14 all 1107000f000d01046d61696e6669667465656e
16 cast 0.16 [16,0]
 > 15 all 11070010000d01046d61696e7369787465656e
17 cast 0.17 [17,0]
 > 16 all 11070011000f01046d61696e736576656e7465656e
18 cast 0.18 [18,0]
 > 17 all 11070012000e01046d61696e656967687465656e
19 cast 0.19 [19,0]
 > 18 all 11070013000e01046d61696e6e696e657465656e
20 cast 0.20 [20,0]
 > 19 all 11070014000c01046d61696e7477656e7479
21 cast 0.21 [21,0]
 > 20 all 11070015001001046d61696e7477656e74792d6f6e65
22 screen 0
 | [main] 0.2 two
 | [main] 0.3 three
 | [main] 0.4 four
 | [main] 0.5 five
 | [main] 0.6 six
 | [main] 0.7 seven
 | [main] 0.8 eight
 | [main] 0.9 nine
 | [main] 0.10 ten
 | [main] 0.11 eleven
 | [main] 0.12 twelve
 | [main] 0.13 thirteen
 | [main] 0.14 fourteen
 | [main] 0.15 fifteen
 | [main] 0.16 sixteen
 | [main] 0.17 seventeen
 | [main] 0.18 eighteen
 | [main] 0.19 nineteen
 | [main] 0.20 twenty
 | [main] 0.21 twenty-one
23 cast 0.22 [22,0]
 > 21 all 11070016000d0200017374696c6c2068657265
24 screen 0
 | [main] 0.3 three
 | [main] 0.4 four
 | [main] 0.5 five
 | [main] 0.6 six
 | [main] 0.7 seven
 | [main] 0.8 eight
 | [main] 0.9 nine
 | [main] 0.10 ten
 | [main] 0.11 eleven
 | [main] 0.12 twelve
 | [main] 0.13 thirteen
 | [main] 0.14 fourteen
 | [main] 0.15 fifteen
 | [main] 0.16 sixteen
 | [main] 0.17 seventeen
 | [main] 0.18 eighteen
 | [main] 0.19 nineteen
 | [main] 0.20 twenty
 | [main] 0.21 twenty-one
 | [main] 0.22 re 0.1 still here
25 screen 1
26 arrive accepted changed
27 screen 1
28 arrive accepted changed
 = 0.1 [1,0] x01046d61696e6f6e65
29 screen 1
 | [main] 0.1 one
member 0 time [22,0] stable 0 entries 22
member 1 time [1,0] stable 0 entries 2
"#,
};

const NO_SCREEN_SHOWS_IT_TOO_EARLY: Schedule = Schedule {
    script: r#"group 7 size 3 window 4 history 100
say 0 plan when?
arrive 1 0
answer 1 0.1 noon
arrive 2 1
screen 2
arrive 2 0
screen 2
arrive 0 1
screen 0
screen 1
answer 2 2.1 x
"#,
    text: r#"1 cast 0.1 [1,0,0]
 > 0 all 11070001000b0104706c616e7768656e3f
2 arrive accepted changed
 = 0.1 [1,0,0] x0104706c616e7768656e3f
3 cast 1.1 [1,1,0]
 > 1 all 11070101010001070200016e6f6f6e
4 arrive accepted changed
5 screen 2
6 arrive accepted changed
 = 0.1 [1,0,0] x0104706c616e7768656e3f
 = 1.1 [1,1,0] x0200016e6f6f6e
7 screen 2
 | [plan] 0.1 when?
 | [plan] 1.1 re 0.1 noon
8 arrive accepted changed
 = 1.1 [1,1,0] x0200016e6f6f6e
9 screen 0
 | [plan] 0.1 when?
 | [plan] 1.1 re 0.1 noon
10 screen 1
 | [plan] 0.1 when?
 | [plan] 1.1 re 0.1 noon
11 refused UnknownQuestion
member 0 time [1,1,0] stable 0 entries 2
member 1 time [1,1,0] stable 0 entries 2
member 2 time [1,1,0] stable 0 entries 2
"#,
};

const THREE_SCREENS_AGREE: Schedule = Schedule {
    script: r#"group 7 size 3 window 4 history 100
say 0 plan when?
arrive 1 0
answer 1 0.1 noon
arrive 2 1
screen 2
arrive 2 0
answer 2 0.1 fine
arrive 0 2
screen 0
arrive 0 1
arrive 1 2
screen 0
screen 1
screen 2
"#,
    text: r#"1 cast 0.1 [1,0,0]
 > 0 all 11070001000b0104706c616e7768656e3f
2 arrive accepted changed
 = 0.1 [1,0,0] x0104706c616e7768656e3f
3 cast 1.1 [1,1,0]
 > 1 all 11070101010001070200016e6f6f6e
4 arrive accepted changed
5 screen 2
6 arrive accepted changed
 = 0.1 [1,0,0] x0104706c616e7768656e3f
 = 1.1 [1,1,0] x0200016e6f6f6e
7 cast 2.1 [1,1,1]
 > 2 all 1107020102000100010702000166696e65
8 arrive accepted changed
9 screen 0
 | [plan] 0.1 when?
10 arrive accepted changed
 = 1.1 [1,1,0] x0200016e6f6f6e
 = 2.1 [1,1,1] x02000166696e65
11 arrive accepted changed
 = 2.1 [1,1,1] x02000166696e65
12 screen 0
 | [plan] 0.1 when?
 | [plan] 1.1 re 0.1 noon
 | [plan] 2.1 re 0.1 fine
13 screen 1
 | [plan] 0.1 when?
 | [plan] 1.1 re 0.1 noon
 | [plan] 2.1 re 0.1 fine
14 screen 2
 | [plan] 0.1 when?
 | [plan] 1.1 re 0.1 noon
 | [plan] 2.1 re 0.1 fine
member 0 time [1,1,1] stable 1 entries 3
member 1 time [1,1,1] stable 0 entries 3
member 2 time [1,1,1] stable 0 entries 3
"#,
};

const TWO_ROOMS: Schedule = Schedule {
    script: r#"group 7 size 3 window 4 history 100
say 0 plan when?
say 1 lunch pizza?
arrive 2 1
arrive 2 0
answer 2 0.1 noon
answer 2 1.1 yes
screen 2
say 0 Plan loud
arrive 0 1
arrive 0 3
arrive 0 2
screen 0
"#,
    text: r#"1 cast 0.1 [1,0,0]
 > 0 all 11070001000b0104706c616e7768656e3f
2 cast 1.1 [0,1,0]
 > 1 all 11070101000d01056c756e636870697a7a613f
3 arrive accepted changed
 = 1.1 [0,1,0] x01056c756e636870697a7a613f
4 arrive accepted changed
 = 0.1 [1,0,0] x0104706c616e7768656e3f
5 cast 2.1 [1,1,1]
 > 2 all 110702010200010001070200016e6f6f6e
6 cast 2.2 [1,1,2]
 > 3 all 110702020006020101796573
7 screen 2
 | [lunch] 1.1 pizza?
 | [plan] 0.1 when?
 | [plan] 2.1 re 0.1 noon
 | [lunch] 2.2 re 1.1 yes
8 refused BadRoom
9 arrive accepted changed
 = 1.1 [0,1,0] x01056c756e636870697a7a613f
10 arrive accepted changed
11 arrive accepted changed
 = 2.1 [1,1,1] x0200016e6f6f6e
 = 2.2 [1,1,2] x020101796573
12 screen 0
 | [plan] 0.1 when?
 | [lunch] 1.1 pizza?
 | [plan] 2.1 re 0.1 noon
 | [lunch] 2.2 re 1.1 yes
member 0 time [1,1,2] stable 0 entries 4
member 1 time [0,1,0] stable 0 entries 1
member 2 time [1,1,2] stable 0 entries 4
"#,
};

const ALL: &[Schedule] = &[
    A_SCREEN_SCROLLS,
    NO_SCREEN_SHOWS_IT_TOO_EARLY,
    THREE_SCREENS_AGREE,
    TWO_ROOMS,
];

/// A function, since a constant would be looked through in the proof of the loop.
pub fn schedules() -> &'static [Schedule] {
    ALL
}
