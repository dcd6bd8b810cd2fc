//! What a user hears.

ghost use Rattle.std.specs.Prelude.{◌≡◌, Option, Some, None, option_map, if◌then◌else◌};
ghost use Rattle.er_users.specs.Saying.{nothing, is_text};
ghost use Rattle.er_users.specs.Users.{Heard, Message};
ghost use Rattle.er_end.specs.Given.{outcomes_in};
ghost use Rattle.er_end.specs.Shown.{refusal_view};
ghost use Rattle.loop_model.specs.Sessions.{heard_by_user, refusal_heard, notes};
ghost use Rattle.loop_session.specs.Giving.{HeardSo, peer_heard};

use er_end::{Effects, SendRefused, Taking};
use er_users::{MOST_TEXT_OCTETS, Replies, SafeUser};

// The user hears, where there is one, that the connection to this peer came to stand, where it did.
#[tactic(auto, using(crate::proofs::Hearings::heard_nothing, crate::proofs::Hearings::heard_by_none, crate::proofs::Hearings::heard_by_one))]
fn hear_connected<U: SafeUser>(user: &mut Option<U>, peer: Option<u32>, replies: &mut Replies)
    ensures { HeardSo (option_map U.mind user.old) (peer_heard peer) (option_map U.mind user.new) replies.new }
{
    replies.clear();
    let Some(peer) = peer else {
        return;
    };
    if let Some(user) = user {
        user.connected(peer, replies);
    }
}

// The user hears, where there is one, a message that was taken. No message has another length than 1 to 1,023 octets.
#[tactic(auto, using(crate::proofs::Hearings::heard_nothing, crate::proofs::Hearings::heard_by_none, crate::proofs::Hearings::heard_by_one))]
fn hear_message<U: SafeUser>(user: &mut Option<U>, text: &[u8], replies: &mut Replies)
    ensures { HeardSo (option_map U.mind user.old) (if is_text text.now then Some (Message text.now) else None) (option_map U.mind user.new) replies.new }
{
    replies.clear();
    if text.is_empty() || text.len() > MOST_TEXT_OCTETS {
        return;
    }
    if let Some(user) = user {
        user.message(text, replies);
    }
}

/// The user hears, where there is one, what came of an event.
pub fn hear<U: SafeUser>(user: &mut Option<U>, effects: &Effects<'_>, replies: &mut Replies)
    ensures { HeardSo (option_map U.mind user.old) (heard_by_user (outcomes_in effects.now)) (option_map U.mind user.new) replies.new }
{
    match effects.taken {
        Taking::Message(text) => hear_message(user, text, replies),
        Taking::NotAsked | Taking::Nothing => hear_connected(
            user,
            effects.deeds.connected,
            replies,
        ),
    }
}

/// The user hears, where there is one, that a text of its own was refused, where it was, and why.
#[tactic(auto, using(crate::proofs::Hearings::noted_refusal))]
pub fn hear_refused<U: SafeUser>(user: &mut Option<U>, text: &[u8], why: &Option<SendRefused>)
    ensures { option_map U.mind user.new ≡ notes (refusal_heard text.now (option_map refusal_view why.now)) (option_map U.mind user.old) }
{
    let Some(why) = why else {
        return;
    };
    if let Some(user) = user {
        user.refused(text, why);
    }
}
