//! How a message was sent earlier.

ghost use Rattle.std.specs.Prelude.{◌≡◌};
ghost use Rattle.std.specs.Option.{option_copied};
ghost use Rattle.lgm_store.specs.ChannelInfo.{update_in};
ghost use Rattle.lgm_query.specs.inner.SentWith.{is_sent_with, sent_with, passes_update, passed_with};

use crate::filter::Filter;
use lgm_store::ChannelInfo;

/// The updates of an earlier channel with which a message was sent: it has the bytes of the update, or of the channel's
/// announcement, which is sent with either.
#[derive(Clone, Copy)]
pub(crate) struct SentWith {
    /// With the update from node 1.
    first: bool,
    /// With the update from node 2.
    second: bool,
}

impl SentWith {
    /// Compares the bytes of a message with those of an earlier channel, if there are both.
    pub(crate) fn of(message: Option<&[u8]>, before: Option<&ChannelInfo>) -> SentWith
        ensures { result ≡ sent_with (option_copied before.entry) (option_copied message.entry) }
    {
        let (Some(message), Some(stored)) = (message, before) else {
            return SentWith {
                first: false,
                second: false,
            };
        };
        SentWith {
            first: is_sent_with(stored, false, message),
            second: is_sent_with(stored, true, message),
        }
    }

    /// Whether one of these updates passes, so that the message passed. Only timestamps are read.
    pub(crate) fn passed(&self, filter: &Filter, before: &ChannelInfo) -> bool
        ensures { result ≡ passed_with filter.now before.now self.now }
    {
        (self.first && passes(filter, before, false))
            || (self.second && passes(filter, before, true))
    }
}

/// Whether a message is a channel's update, or the channel's announcement if there is an update.
fn is_sent_with(stored: &ChannelInfo, second: bool, message: &[u8]) -> bool
    ensures { result ≡ is_sent_with stored.now.channel (update_in second stored.now) message.now }
{
    let Some(update) = stored.update_raw(second) else {
        return false;
    };
    message == stored.raw() || message == update
}

/// Whether a channel has an update that passes.
fn passes(filter: &Filter, stored: &ChannelInfo, second: bool) -> bool
    ensures { result ≡ passes_update filter.now (update_in second stored.now) }
{
    match stored.update_time(second) {
        Some(time) => filter.passes(time),
        None => false,
    }
}
