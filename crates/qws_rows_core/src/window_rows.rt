//! Windows: whose pixels are whose, revisions, and what is refused.
use crate::rows::try_rows;
use crate::server::Stop;

#[test]
fn punched_window(rt: HostRuntime) -> Result<(), Stop> {
    try_rows(
        rt.alloc(),
        3,
        3,
        "0 create 0 = created 0; 0 region 0 0 0 0 0 3 3 = done; 0 create 0 = created 1; revisions 3 2 1;
         0 region 1 0 0 1 1 1 1 = done; revisions 4 3 1; windows 1 0;
         region 0 0 0 3 1 0 1 1 1 2 1 1 1 0 2 3 1; region 1 1 1 1 1;
         0 destroy 1 = done; region 0 0 0 3 3; region 1; revisions 5 4 1; windows 0;",
    )
}

#[test]
fn foreign_window(rt: HostRuntime) -> Result<(), Stop> {
    try_rows(
        rt.alloc(),
        2,
        1,
        "0 create 0 = created 0; 0 create 0 = created 1; 1 raise 0 = refused 2 0 0; windows 1 0; revisions 2 2 1;",
    )
}

#[test]
fn thirty_three_windows(rt: HostRuntime) -> Result<(), Stop> {
    try_rows(
        rt.alloc(),
        1,
        1,
        "0 create 0 = created 0; 0 create 0 = created 1; 0 create 0 = created 2; 0 create 0 = created 3;
         0 create 0 = created 4; 0 create 0 = created 5; 0 create 0 = created 6; 0 create 0 = created 7;
         0 create 0 = created 8; 0 create 0 = created 9; 0 create 0 = created 10; 0 create 0 = created 11;
         0 create 0 = created 12; 0 create 0 = created 13; 0 create 0 = created 14; 0 create 0 = created 15;
         0 create 0 = created 16; 0 create 0 = created 17; 0 create 0 = created 18; 0 create 0 = created 19;
         0 create 0 = created 20; 0 create 0 = created 21; 0 create 0 = created 22; 0 create 0 = created 23;
         0 create 0 = created 24; 0 create 0 = created 25; 0 create 0 = created 26; 0 create 0 = created 27;
         0 create 0 = created 28; 0 create 0 = created 29; 0 create 0 = created 30; 0 create 0 = created 31;
         0 create 0 = refused 3; 0 raise 32 = refused 1 32; 0 create 2 = refused 4 2;
         windows 31 30 29 28 27 26 25 24 23 22 21 20 19 18 17 16 15 14 13 12 11 10 9 8 7 6 5 4 3 2 1 0;",
    )
}

#[test]
fn comb_of_256_rectangles(rt: HostRuntime) -> Result<(), Stop> {
    try_rows(
        rt.alloc(),
        64,
        64,
        "0 create 0 = created 0; 0 comb 0 = done; needs 0 254;
         0 comb 0 40 0 1 1 42 0 1 1 = done; needs 0 256; revisions 4 1 1;
         0 comb 0 40 0 1 3 = refused 6 0 257; needs 0 256; revisions 4 1 1; 0 raise 0 = done;",
    )
}

#[test]
fn layers_against_raise(rt: HostRuntime) -> Result<(), Stop> {
    try_rows(
        rt.alloc(),
        1,
        1,
        "0 create 1 = created 0; 0 create 0 = created 1;
         0 region 0 0 0 0 0 1 1 = done; 0 region 1 0 0 0 0 1 1 = done;
         0 raise 1 = done; windows 0 1; region 0 0 0 1 1; region 1;
         0 lower 0 = done; windows 0 1; revisions 3 2 1;",
    )
}

#[test]
fn slot_used_again(rt: HostRuntime) -> Result<(), Stop> {
    try_rows(
        rt.alloc(),
        1,
        1,
        "0 create 0 = created 0; 0 region 0 0 0 0 0 1 1 = done; 0 destroy 0 = done; 0 take = refused 16;
         1 create 0 = created 0; 1 region 0 0 0 0 0 1 1 = done; 0 raise 0 = refused 2 0 1; region 0 0 0 1 1;
         0 take = refused 16; 1 take = modified 0; revisions 6 1 1;",
    )
}

#[test]
fn origin_alone(rt: HostRuntime) -> Result<(), Stop> {
    try_rows(
        rt.alloc(),
        2,
        1,
        "0 create 0 = created 0; 0 region 0 0 0 -10 -10 100 100 = done; 0 take = modified 0; revisions 3 1 1;
         0 move 0 1 0 = done; 0 take = refused 16; revisions 4 1 1; region 0 0 0 2 1;",
    )
}

#[test]
fn covered_where_it_moves(rt: HostRuntime) -> Result<(), Stop> {
    try_rows(
        rt.alloc(),
        2,
        1,
        "0 create 0 = created 0; 0 region 0 0 0 0 0 1 1 = done; 0 create 0 = created 1; 0 region 1 0 0 0 0 1 1 = done;
         region 0; 0 move 0 1 0 = done; region 0 1 0 1 1; region 1 0 0 1 1; revisions 5 3 1;",
    )
}
