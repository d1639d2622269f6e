//! The known channels with their subscribers.
ghost use Rattle.std.specs.Prelude.{◌≡◌, ◌<◌, ◌≤◌, ◌+◌, ◌++◌, [], ◌∷◌, true, false, ◌==◌, not, filter, length, OnOk, OnErr, IfOk, IfErr, IfSome, IfNone, None};
ghost use Rattle.indexmap.specs.IndexMap.{index_map_len, spare};
ghost use Rattle.qws_base.specs.Mail.{is_known, is_among, is_subscriber, subscribers_of, channels_joined, channels_left};
ghost use Rattle.qws_base.specs.Refusals.{when};
ghost use Rattle.qws_base.specs.declared.replies.Refusal.TheVariants as cause;
ghost use Rattle.qcop_channels.specs.Views.{channels_of, AreDistinctBelow};
ghost use Rattle.qcop_channels.specs.Stops.{refusal_in, join_cause, leave_cause};

use crate::names::is_name;
use crate::stops::QcopStop;
use crate::subscribers::Subscribers;
use indexmap::IndexMap;
use qws_base::OutOfMemory;
use std::alloc::Global;
use std::marker::Model;

/// The subscribers of each known channel; channels in the order in which they became known.
pub type Known = IndexMap<Vec<u8>, Subscribers>;

/// The most channels that are known.
const MOST_CHANNELS: usize = 64;

/// No channel, with room for 64.
pub fn none_known(alloc: Global) -> Result<Known, OutOfMemory>
    ensures none { IfOk result (λ known. channels_of known.entries ≡ []) }
    ensures room { IfOk result (λ known. 64 ≤ index_map_len known + spare known) }
{
    Ok(IndexMap::with_capacity(alloc, MOST_CHANNELS)?)
}

pub fn is_known(known: &Known, name: &[u8]) -> bool
    ensures { result ≡ is_known (channels_of known.now.entries) name.now }
{
    known.contains_key(name)
}

/// The subscribers of a channel, where it is known.
pub fn subscribers<'a>(known: &'a Known, name: &[u8]) -> Option<&'a [u32]>
    ensures some { IfSome result (λ all. is_known (channels_of known.now.entries) name.now ≡ true) }
    ensures value { IfSome result (λ all. all.now ≡ subscribers_of (channels_of known.now.entries) name.now) }
    ensures clients { IfSome result (λ all. AreDistinctBelow 16 all.now) }
    ensures none { IfNone result (is_known (channels_of known.now.entries) name.now ≡ false) }
{
    match known.get(name) {
        Some(all) => Some(all.as_slice()),
        None => None,
    }
}

/// Whether the client subscribes to the channel.
pub fn is_subscriber(known: &Known, client: u32, name: &[u8]) -> bool
    ensures { result ≡ is_subscriber (channels_of known.now.entries) client name.now }
{
    match known.get(name) {
        Some(all) => all.holds(client),
        None => false,
    }
}

/// Why the client can't join the channel.
pub fn may_join(known: &Known, client: u32, name: &[u8]) -> Result<(), QcopStop>
    ensures refusal { refusal_in result ≡ join_cause (channels_of known.now.entries) client name.now }
{
    if !is_name(name) {
        return Err(QcopStop::BadName);
    }
    if is_subscriber(known, client, name) {
        return Err(QcopStop::Joined);
    }
    if !is_known(known, name) && known.len() >= MOST_CHANNELS {
        return Err(QcopStop::TooManyChannels);
    }
    Ok(())
}

/// A client that joins a channel, with all memory that this takes.
#[derive(Debug, Drop)]
pub struct PreparedJoin {
    client: u32,
    channel: Vec<u8>,
    // The client alone, for a channel that isn't known.
    first: Subscribers,
}

impl Model for PreparedJoin {
    ghost use Rattle.std.specs.Prelude.{◌≡◌, ◌<◌, ◌∷◌, []};
    ghost use Rattle.qcop_channels.specs.Prepared.{JoinView};

    ghost Value = { JoinView };

    ghost view = { λ j. record { client = j.client; channel = j.channel.items } };

    ghost invariant = { λ j. (j.client < 16) × (j.first ≡ j.client ∷ []) };
}

/// The memory that a join takes.
pub fn prepare(alloc: Global, client: u32, name: &[u8]) -> Result<PreparedJoin, OutOfMemory>
    requires { client < 16 }
    ensures { IfOk result (λ join. join ≡ record { client = client; channel = name.now }) }
{
    let channel = name.to_vec(alloc)?;
    let mut first = Subscribers::new(alloc)?;
    first.add(client);
    Ok(PreparedJoin {
        client,
        channel,
        first,
    })
}

/// The client becomes the channel's last subscriber; an unknown channel becomes known, as the last.
pub fn carry(known: &mut Known, join: PreparedJoin)
    requires accepted { join_cause (channels_of known.old.entries) join.client join.channel ≡ None }
    requires room { 64 ≤ index_map_len known.old + spare known.old }
    ensures joined { channels_of known.new.entries ≡ channels_joined (channels_of known.old.entries) join.client join.channel }
    ensures room { 64 ≤ index_map_len known.new + spare known.new }
{
    let PreparedJoin {
        client,
        channel,
        first,
    } = join;
    match known.get_mut(channel.as_slice()) {
        Some(subscribers) => subscribers.add(client),
        None => add_channel(known, channel, first),
    }
}

// A channel that isn't known yet, with its subscribers, as the last.
fn add_channel(known: &mut Known, name: Vec<u8>, subscribers: Subscribers)
    requires unknown { is_known (channels_of known.old.entries) name.items ≡ false }
    requires few { length (channels_of known.old.entries) < 64 }
    requires room { 64 ≤ index_map_len known.old + spare known.old }
    ensures added { channels_of known.new.entries ≡ channels_of known.old.entries ++ record { name = name.items; subscribers = subscribers } ∷ [] }
    ensures room { 64 ≤ index_map_len known.new + spare known.new }
{
    let _ = known.insert(name, subscribers);
}

fn unsubscribe(subscribers: &mut Subscribers, client: u32) -> Result<(), QcopStop>
    ensures left { OnOk result (subscribers.new ≡ filter (λ c. not (c == client)) subscribers.old) }
    ensures kept { OnErr result (subscribers.new ≡ subscribers.old) }
    ensures refusal { refusal_in result ≡ when (not (is_among client subscribers.old)) cause.NotJoined }
    ensures no_other { IfErr result (λ stop. stop ≡ QcopStop.NotJoined) }
{
    if !subscribers.holds(client) {
        return Err(QcopStop::NotJoined);
    }
    subscribers.remove(client);
    Ok(())
}

/// The client is no subscriber any more. The channel stays known.
pub fn leave(known: &mut Known, client: u32, name: &[u8]) -> Result<(), QcopStop>
    ensures left { OnOk result (channels_of known.new.entries ≡ channels_left (channels_of known.old.entries) client name.now) }
    ensures kept { OnErr result (channels_of known.new.entries ≡ channels_of known.old.entries) }
    ensures refusal { refusal_in result ≡ leave_cause (channels_of known.old.entries) client name.now }
    ensures no_other { IfErr result (λ stop. stop ≡ QcopStop.NotJoined) }
    ensures room { index_map_len known.new + spare known.new ≡ index_map_len known.old + spare known.old }
{
    match known.get_mut(name) {
        Some(subscribers) => unsubscribe(subscribers, client),
        None => Err(QcopStop::NotJoined),
    }
}

/// The same channels with the same subscribers.
pub fn copy(alloc: Global, known: &Known) -> Result<Known, OutOfMemory>
    requires { length (channels_of known.now.entries) ≤ 64 }
    ensures same { IfOk result (λ copy. channels_of copy.entries ≡ channels_of known.now.entries) }
    ensures room { IfOk result (λ copy. 64 ≤ index_map_len copy + spare copy) }
{
    let mut copy = none_known(alloc)?;
    for place in 0..known.len() {
        if let Some((name, subscribers)) = known.get_index(place) {
            add_channel(
                &mut copy,
                name.as_slice().to_vec(alloc)?,
                subscribers.copy(alloc)?,
            );
        }
    }
    Ok(copy)
}
