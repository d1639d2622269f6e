//! Gates that the program hands to its clients: one that counts their calls, and one that holds two of them in their turns.
use crate::tests::run_gated;
use qws_base::{Gate, MemSink, MemSource, Place};
use std::sync::atomic::{AtomicU64, Ordering};
use std::test::Fail;
use std::thread;

// Counts the calls that were made.
#[derive(Drop)]
struct Counts {
    calls: AtomicU64,
}

impl Gate for Counts {
    fn at(&self, _client: u32, place: Place) {
        match place {
            Place::InTurn => {}
            Place::AfterTurn => {
                self.calls.fetch_add(1, Ordering::SeqCst);
            }
        }
    }
}

#[test]
fn a_trial_makes_each_call_once(rt: HostRuntime) -> Result<(), Fail> {
    let alloc = rt.alloc();
    let gate = Counts {
        calls: AtomicU64::new(0),
    };
    let source = MemSource::new(Vec::new(alloc), 1, Vec::new(alloc));
    let sink = MemSink::new(alloc, 1000, 1000, Vec::new(alloc))?;
    let words = "trial --seed 7 --clients 4 --calls 200";
    let (status, sink, _kept) = run_gated(&rt, alloc, words, source, sink, &gate)?;
    assert!(rt; status == 0);
    assert!(rt; sink.bytes() == b"clients 4 calls 800 holds\n".as_slice());
    assert!(rt; gate.calls.load(Ordering::SeqCst) == 800);
    Ok(())
}

// How often a client that is held looks whether the other has come.
const LOOKS: u64 = 400_000_000;

// Client 0 does nothing; clients 1 and 2 have a window and a paint each.
const TWO_PAINTERS: &[u8] = b"screen 2 1 000000
clients 3
1 create a 0
1 region a 0 0 0 0 1 1
2 create b 0
2 region b 1 0 0 0 1 1
1 fill a 0 0 1 1 copy ff0000
2 fill b 0 0 1 1 copy 00ff00
end
";

// Holds two clients after their second call, and in their turn, until both have come there.
#[derive(Drop)]
struct Meets {
    published: AtomicU64,
    in_turn: AtomicU64,
    calls: AtomicU64,
    first: AtomicU64,
    second: AtomicU64,
    ran_out: AtomicU64,
}

impl Meets {
    // Waits until two have come, or until somebody has waited too long.
    fn meet(&self, came: &AtomicU64) {
        came.fetch_add(1, Ordering::SeqCst);
        for _ in 0..LOOKS {
            if came.load(Ordering::SeqCst) >= 2 || self.ran_out.load(Ordering::SeqCst) > 0 {
                return;
            }
            thread::yield_now();
        }
        self.ran_out.store(1, Ordering::SeqCst);
    }
}

impl Gate for Meets {
    fn at(&self, client: u32, place: Place) {
        match place {
            Place::InTurn => self.meet(&self.in_turn),
            Place::AfterTurn => {
                self.calls.fetch_add(1, Ordering::SeqCst);
                let own = if client == 1 {
                    &self.first
                } else {
                    &self.second
                };
                if own.fetch_add(1, Ordering::SeqCst) == 1 {
                    self.meet(&self.published);
                }
            }
        }
    }
}

#[test]
fn two_clients_paint_at_the_same_time(rt: HostRuntime) -> Result<(), Fail> {
    let alloc = rt.alloc();
    let gate = Meets {
        published: AtomicU64::new(0),
        in_turn: AtomicU64::new(0),
        calls: AtomicU64::new(0),
        first: AtomicU64::new(0),
        second: AtomicU64::new(0),
        ran_out: AtomicU64::new(0),
    };
    let source = MemSource::new(TWO_PAINTERS.to_vec(alloc)?, 1000, Vec::new(alloc));
    let sink = MemSink::new(alloc, 1000, 1000, Vec::new(alloc))?;
    let (status, sink, kept) = run_gated(&rt, alloc, "run", source, sink, &gate)?;
    assert!(rt; status == 0);
    assert!(rt; gate.ran_out.load(Ordering::SeqCst) == 0);
    assert!(rt; gate.in_turn.load(Ordering::SeqCst) == 2);
    assert!(rt; gate.calls.load(Ordering::SeqCst) == 6);
    let Some(closed) = kept else {
        return Err(Fail::new("no session is kept"));
    };
    assert!(rt; closed.shown() == [0xff_0000, 0x00_ff00].as_slice());
    assert!(rt;
        sink.bytes()
            .ends_with(b"2 1\n255\n\xff\x00\x00\x00\xff\x00")
    );
    Ok(())
}
