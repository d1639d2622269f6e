//! Mailboxes: messages, and who is told that pixels changed.
use crate::rows::try_rows;
use crate::server::Stop;

#[test]
fn regions_behind_256_messages(rt: HostRuntime) -> Result<(), Stop> {
    try_rows(
        rt.alloc(),
        1,
        1,
        "1 join c = done; 256 times 0 send c m 0 = sent 1; 0 send c m 0 = refused 14 1;
         1 create 0 = created 0; 1 region 0 0 0 0 0 1 1 = done;
         256 times 1 take = message c 0 m 0; 1 take = modified 0; 1 take = refused 16;",
    )
}

#[test]
fn told_once_until_taken(rt: HostRuntime) -> Result<(), Stop> {
    try_rows(
        rt.alloc(),
        3,
        1,
        "0 create 0 = created 0; 0 region 0 0 0 0 0 1 1 = done; 0 region 0 0 0 0 0 2 1 = done;
         0 take = modified 0; 0 take = refused 16; 0 region 0 0 0 0 0 3 1 = done; 0 take = modified 0;",
    )
}

#[test]
fn owners_are_told_in_the_order_of_slots(rt: HostRuntime) -> Result<(), Stop> {
    try_rows(
        rt.alloc(),
        2,
        1,
        "0 create 0 = created 0; 0 create 0 = created 1;
         0 region 1 0 0 0 0 1 1 = done; 0 region 0 0 0 1 0 1 1 = done; 0 take = modified 1; 0 take = modified 0;
         1 create 1 = created 2; 0 take = refused 16; 1 region 2 0 0 0 0 2 1 = done;
         0 take = modified 0; 0 take = modified 1; 0 take = refused 16; 1 take = modified 2;",
    )
}

#[test]
fn sixteen_subscribers(rt: HostRuntime) -> Result<(), Stop> {
    try_rows(
        rt.alloc(),
        1,
        1,
        "0 join c = done; 1 join c = done; 2 join c = done; 3 join c = done; 4 join c = done; 5 join c = done;
         6 join c = done; 7 join c = done; 8 join c = done; 9 join c = done; 10 join c = done; 11 join c = done;
         12 join c = done; 13 join c = done; 14 join c = done; 15 join c = done;
         3 send c m 1 = sent 16; 3 leave c = done; 0 send c n 0 = sent 15;
         0 take = message c 3 m 1; 0 take = message c 0 n 0; 3 take = message c 3 m 1; 3 take = refused 16;
         15 take = message c 3 m 1; 15 take = message c 0 n 0; 15 take = refused 16;",
    )
}
