//! Each command, accepted once, and refused once with each of its causes.
use crate::rows::try_rows;
use crate::server::Stop;

// Slot 0 has a comb whose pixels would need 257 rectangles, behind slot 1, which covers the screen.
#[test]
fn each_command_and_cause(rt: HostRuntime) -> Result<(), Stop> {
    try_rows(
        rt.alloc(),
        64,
        64,
        "0 create 2 = refused 4 2; 0 create 0 = created 0; 0 create 0 = created 1;
         0 region 1 0 0 0 0 64 64 = done; 0 comb 0 40 0 1 3 = done;

         0 region 9 4096 0 0 0 0 0 = refused 7 4096 0; 0 region 9 0 0 0 0 1 1 0 0 0 1 = refused 5 1;
         0 comb 9 1 1 1 1 2 2 2 2 3 3 3 3 = refused 5 32; 0 region 9 0 0 0 0 1 1 = refused 1 9;
         1 region 1 0 0 = refused 2 1 0; 0 region 1 0 0 = refused 6 0 257;
         0 move 9 0 -4097 = refused 7 0 -4097; 0 move 9 0 0 = refused 1 9; 1 move 1 0 0 = refused 2 1 0;
         0 move 1 100 0 = refused 6 0 257;
         0 destroy 9 = refused 1 9; 1 destroy 1 = refused 2 1 0; 0 destroy 1 = refused 6 0 257;
         0 raise 9 = refused 1 9; 1 raise 1 = refused 2 1 0; 0 raise 0 = refused 6 0 257;
         0 lower 9 = refused 1 9; 1 lower 1 = refused 2 1 0; 0 lower 1 = refused 6 0 257;
         windows 1 0; revisions 2 3 1; region 0; region 1 0 0 64 64;

         0 region 0 0 0 0 0 1 1 = done; 0 move 1 1 1 = done; 0 raise 0 = done; 0 lower 0 = done;
         0 destroy 1 = done; 31 times 0 move 0 0 0 = done;

         3 shape 2 2 3 = refused 8 2 2; 3 shape 33 1 33 = refused 8 33 1; 3 shape 1 33 33 = refused 8 1 33;
         3 shape 0 0 0 = refused 8 0 0; 3 shape 2 2 4 = done;
         3 cursor 64 0 = refused 7 64 0; 3 cursor 0 64 = refused 7 0 64; 3 cursor -1 0 = refused 7 -1 0;
         3 cursor 63 63 = done; 3 show 1 = done;

         1 join - = refused 11; 1 join \u{7f} = refused 11;
         1 join 12345678901234567890123456789012345678901234567890123456789012345 = refused 11;
         1 join c = done; 1 join c = refused 9; 0 leave c = refused 12; 0 leave d = refused 12;
         0 known c = known 1; 0 known d = known 0;
         0 send d - 4097 = refused 11; 0 send d m 4097 = refused 15 4097; 0 send d m 4096 = refused 13;
         256 times 0 send c m 1 = sent 1; 0 send c m 1 = refused 14 1;
         1 take = message c 0 m 1; 0 send c m 1 = sent 1; 2 take = refused 16;
         1 leave c = done; 0 send c m 1 = sent 0; 0 known c = known 1;",
    )
}

#[test]
fn a_65th_channel(rt: HostRuntime) -> Result<(), Stop> {
    try_rows(
        rt.alloc(),
        1,
        1,
        "0 join a = done; 0 join b = done; 0 join c = done; 0 join d = done; 0 join e = done; 0 join f = done;
         0 join g = done; 0 join h = done; 0 join i = done; 0 join j = done; 0 join k = done; 0 join l = done;
         0 join m = done; 0 join n = done; 0 join o = done; 0 join p = done; 0 join q = done; 0 join r = done;
         0 join s = done; 0 join t = done; 0 join u = done; 0 join v = done; 0 join w = done; 0 join x = done;
         0 join y = done; 0 join z = done; 0 join A = done; 0 join B = done; 0 join C = done; 0 join D = done;
         0 join E = done; 0 join F = done; 0 join G = done; 0 join H = done; 0 join I = done; 0 join J = done;
         0 join K = done; 0 join L = done; 0 join M = done; 0 join N = done; 0 join O = done; 0 join P = done;
         0 join Q = done; 0 join R = done; 0 join S = done; 0 join T = done; 0 join U = done; 0 join V = done;
         0 join W = done; 0 join X = done; 0 join Y = done; 0 join Z = done; 0 join 0 = done; 0 join 1 = done;
         0 join 2 = done; 0 join 3 = done; 0 join 4 = done; 0 join 5 = done; 0 join 6 = done; 0 join 7 = done;
         0 join 8 = done; 0 join 9 = done; 0 join ! = done; 0 join ~ = done;
         0 join aa = refused 10; 0 leave a = done; 0 join aa = refused 10; 0 known aa = known 0; 1 join a = done;",
    )
}
