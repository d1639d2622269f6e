//! Channels and mailboxes: joins, messages, what stops them, and a full mailbox.
use qcop_channels::{Channels, QcopStop};
use qws_base::Event;
use std::test::Fail;

// What a take gave, without names: the sender and the payload's length, or the slot.
#[derive(Clone, Copy, Debug, PartialEq, Eq)]
enum Taken {
    Message { from: u32, len: usize },
    Modified { slot: u32 },
    Stopped { stop: QcopStop },
}

fn seen_in(answer: Result<Event, QcopStop>) -> Taken {
    match answer {
        Ok(Event::Message { from, payload, .. }) => Taken::Message {
            from,
            len: payload.as_slice().len(),
        },
        Ok(Event::RegionModified { slot }) => Taken::Modified { slot },
        Err(stop) => Taken::Stopped { stop },
    }
}

const EMPTY: Taken = Taken::Stopped {
    stop: QcopStop::Empty,
};

#[test]
fn stops_of_channels(rt: HostRuntime) -> Result<(), Fail> {
    let mut channels = Channels::new(rt.alloc())?;
    assert!(rt; channels.join(0, b"c") == Ok(()));
    assert!(rt; channels.join(0, b"c") == Err(QcopStop::Joined));
    assert!(rt; channels.join(0, &[b'n'; 65]) == Err(QcopStop::BadName));
    assert!(rt; channels.leave(0, b"d") == Err(QcopStop::NotJoined));
    assert!(rt; channels.send(0, b"d", b"m", b"") == Err(QcopStop::NoChannel));
    assert!(rt; channels.send(0, b"c", b"m", &[0; 4097]) == Err(QcopStop::TooLarge { len: 4097 }));
    assert!(rt; seen_in(channels.take(0)) == EMPTY);
    assert!(rt; channels.is_registered(b"c"));
    assert!(rt; !channels.is_registered(b"d"));
    Ok(())
}

#[test]
fn joins_64_channels(rt: HostRuntime) -> Result<(), Fail> {
    let mut channels = Channels::new(rt.alloc())?;
    for number in 0..64u8 {
        assert!(rt; channels.join(0, &[number + 33]) == Ok(()));
    }
    assert!(rt; channels.join(0, b"~~") == Err(QcopStop::TooManyChannels));
    assert!(rt; channels.join(1, b"!") == Ok(()));
    Ok(())
}

#[test]
fn notes_a_region_once(rt: HostRuntime) -> Result<(), Fail> {
    let mut channels = Channels::new(rt.alloc())?;
    assert!(rt; channels.note_region(0, 3) == Ok(()));
    assert!(rt; channels.note_region(0, 3) == Ok(()));
    assert!(rt; seen_in(channels.take(0)) == Taken::Modified { slot: 3 });
    assert!(rt; seen_in(channels.take(0)) == EMPTY);
    assert!(rt; channels.note_region(0, 4) == Ok(()));
    channels.forget_region(0, 4);
    assert!(rt; seen_in(channels.take(0)) == EMPTY);
    Ok(())
}

#[test]
fn copies_channels(rt: HostRuntime) -> Result<(), Fail> {
    let mut channels = Channels::new(rt.alloc())?;
    assert!(rt; channels.join(0, b"c") == Ok(()));
    let mut copy = channels.copy(rt.alloc())?;
    assert!(rt; copy.join(0, b"c") == Err(QcopStop::Joined));
    assert!(rt; seen_in(copy.take(0)) == EMPTY);
    assert!(rt; copy.send(1, b"c", b"m", b"p") == Ok(1));
    assert!(rt; seen_in(copy.take(0)) == Taken::Message { from: 1, len: 1 });
    assert!(rt; seen_in(channels.take(0)) == EMPTY);
    Ok(())
}

#[test]
fn fills_a_mailbox(rt: HostRuntime) -> Result<(), Fail> {
    let mut channels = Channels::new(rt.alloc())?;
    assert!(rt; channels.join(1, b"c") == Ok(()));
    for _ in 0..256u32 {
        assert!(rt; channels.send(0, b"c", b"m", b"") == Ok(1));
    }
    assert!(rt; channels.send(0, b"c", b"m", b"") == Err(QcopStop::MailboxFull { client: 1 }));
    assert!(rt; channels.note_region(1, 0) == Ok(()));
    for _ in 0..256u32 {
        assert!(rt; seen_in(channels.take(1)) == Taken::Message { from: 0, len: 0 });
    }
    assert!(rt; seen_in(channels.take(1)) == Taken::Modified { slot: 0 });
    assert!(rt; seen_in(channels.take(1)) == EMPTY);
    assert!(rt; channels.leave(1, b"c") == Ok(()));
    assert!(rt; channels.send(0, b"c", b"m", b"") == Ok(0));
    Ok(())
}

#[test]
fn copies_a_mailbox_with_events(rt: HostRuntime) -> Result<(), Fail> {
    let mut channels = Channels::new(rt.alloc())?;
    assert!(rt; channels.join(0, b"c") == Ok(()));
    assert!(rt; channels.send(1, b"c", b"m", b"p") == Ok(1));
    assert!(rt; channels.note_region(0, 5) == Ok(()));
    let mut copy = channels.copy(rt.alloc())?;
    assert!(rt; seen_in(copy.take(0)) == Taken::Message { from: 1, len: 1 });
    assert!(rt; seen_in(copy.take(0)) == Taken::Modified { slot: 5 });
    assert!(rt; seen_in(copy.take(0)) == EMPTY);
    assert!(rt; seen_in(channels.take(0)) == Taken::Message { from: 1, len: 1 });
    assert!(rt; seen_in(channels.take(0)) == Taken::Modified { slot: 5 });
    Ok(())
}

#[test]
fn fills_16_mailboxes(rt: HostRuntime) -> Result<(), Fail> {
    let mut channels = Channels::new(rt.alloc())?;
    for k in 0..16u32 {
        assert!(rt; channels.join(15 - k, b"c") == Ok(()));
    }
    assert!(rt; channels.subscriber_count(b"c") == 16);
    for _ in 0..255u32 {
        assert!(rt; channels.send(3, b"c", b"m", b"") == Ok(16));
    }
    assert!(rt; !channels.is_full(15));
    assert!(rt; channels.send(3, b"c", b"m", b"last") == Ok(16));
    assert!(rt; channels.send(3, b"c", b"m", b"") == Err(QcopStop::MailboxFull { client: 15 }));
    assert!(rt; seen_in(channels.take(15)) == Taken::Message { from: 3, len: 0 });
    assert!(rt; channels.send(3, b"c", b"m", b"") == Err(QcopStop::MailboxFull { client: 14 }));
    for _ in 0..254u32 {
        assert!(rt; seen_in(channels.take(15)) == Taken::Message { from: 3, len: 0 });
    }
    assert!(rt; seen_in(channels.take(15)) == Taken::Message { from: 3, len: 4 });
    assert!(rt; seen_in(channels.take(15)) == EMPTY);
    Ok(())
}

#[test]
fn notes_32_slots_behind_256_messages(rt: HostRuntime) -> Result<(), Fail> {
    let mut channels = Channels::new(rt.alloc())?;
    assert!(rt; channels.join(1, b"c") == Ok(()));
    for _ in 0..256u32 {
        assert!(rt; channels.send(1, b"c", b"m", b"") == Ok(1));
    }
    for slot in 0..32u32 {
        assert!(rt; channels.note_region(1, slot) == Ok(()));
        channels.tell_region(1, slot);
    }
    for _ in 0..256u32 {
        assert!(rt; seen_in(channels.take(1)) == Taken::Message { from: 1, len: 0 });
    }
    channels.forget_region(1, 7);
    for slot in 0..32u32 {
        if slot != 7 {
            assert!(rt; seen_in(channels.take(1)) == Taken::Modified { slot });
        }
    }
    assert!(rt; seen_in(channels.take(1)) == EMPTY);
    Ok(())
}
