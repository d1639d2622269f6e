//! The windows that names stand for.
use qws_base::{Bytes, OutOfMemory, Refusal, Reply};
use script_grammar::{LineCall, Window};
use script_names::Slots;
use std::alloc::Global;
use std::process::Abort;
use std::test::Fail;

fn word(alloc: Global, text: &[u8]) -> Result<Bytes, OutOfMemory> {
    Ok(Bytes::of(text.to_vec(alloc)?))
}

// What the names know after the reply to a `create` of a name.
fn create(alloc: Global, slots: &mut Slots, name: &[u8], reply: &Reply) -> Result<(), OutOfMemory> {
    let call = LineCall::Create {
        name: word(alloc, name)?,
        layer: 0,
    };
    slots.learn(alloc, &call, reply)
}

fn stands_for(rt: &impl Abort, slots: &Slots, name: &[u8], slot: u32) {
    assert!(rt; slots.of_name(name) == slot);
}

#[test]
fn names_without_a_window(rt: HostRuntime) -> Result<(), Fail> {
    let slots = Slots::new(rt.alloc());
    stands_for(&rt, &slots, b"a", 32);
    assert!(rt; slots.of_window(&Window::Numbered { slot: 5 }) == 5);
    Ok(())
}

// Thirty-two creates get the slots 0 to 31, and the thirty-third, which is refused, gives its name no slot.
#[test]
fn names_after_thirty_three_creates(rt: HostRuntime) -> Result<(), Fail> {
    let alloc = rt.alloc();
    let mut slots = Slots::new(alloc);
    for slot in 0u8..32 {
        let name = [b'a' + slot / 16, b'a' + slot % 16];
        let created = Reply::Created {
            slot: u32::from(slot),
        };
        create(alloc, &mut slots, &name, &created)?;
    }
    let refused = Reply::Refused {
        cause: Refusal::NoSlot,
    };
    create(alloc, &mut slots, b"z", &refused)?;
    for slot in 0u8..32 {
        stands_for(
            &rt,
            &slots,
            &[b'a' + slot / 16, b'a' + slot % 16],
            u32::from(slot),
        );
    }
    stands_for(&rt, &slots, b"z", 32);
    Ok(())
}

// The latest create of a name that was answered Created counts, and no other call changes it.
#[test]
fn latest_creates_count(rt: HostRuntime) -> Result<(), Fail> {
    let alloc = rt.alloc();
    let mut slots = Slots::new(alloc);
    create(alloc, &mut slots, b"a", &Reply::Created { slot: 0 })?;
    create(alloc, &mut slots, b"ab", &Reply::Created { slot: 1 })?;
    create(alloc, &mut slots, b"a", &Reply::Created { slot: 2 })?;
    let refused = Reply::Refused {
        cause: Refusal::NoSlot,
    };
    create(alloc, &mut slots, b"a", &refused)?;
    let window = Window::Named {
        name: word(alloc, b"a")?,
    };
    assert!(rt; slots.of_window(&window) == 2);
    slots.learn(alloc, &LineCall::Destroy { window }, &Reply::Done)?;
    slots.learn(alloc, &LineCall::Take, &Reply::Created { slot: 9 })?;
    stands_for(&rt, &slots, b"a", 2);
    stands_for(&rt, &slots, b"ab", 1);
    stands_for(&rt, &slots, b"b", 32);
    Ok(())
}
