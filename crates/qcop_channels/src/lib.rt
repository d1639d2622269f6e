//! Named channels with their subscribers, and a mailbox for each client.
#![tactic(auto)]

mod channels;
mod mailboxes;
mod names;
mod sending;
mod stops;
mod subscribers;
mod subscriptions;

pub use channels::Channels;
pub use sending::PreparedSend;
pub use stops::QcopStop;
pub use subscriptions::PreparedJoin;
