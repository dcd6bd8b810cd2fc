//! The way up of a payload, and what goes down then.

ghost use Rattle.std.specs.Prelude.{◌≡◌, Some};
ghost use Rattle.er_base.specs.Causes.{by_this_end};
ghost use Rattle.safety_automaton.specs.Keys.{key_at};
ghost use Rattle.hdlc_station.specs.Told.{deed_of};
ghost use Rattle.er_end_model.specs.Steps.{why_of, hand_answer, on_block, on_link_up, on_link_deed};
ghost use Rattle.er_end.specs.KeptLayers.{kept};
ghost use Rattle.er_end.specs.Coming.{carrier_of, comes_to, CanCome, IsCalledBy};

use crate::came::{Brought, Came};
use crate::layers::Layers;
use crate::sapdu_room::SapduRoom;
use crate::short_sapdu::ShortSapdu;
use er_base::{Cause, Release};
use hdlc_station::LinkDeed;
use safety_automaton::{KeyFinder, SafeState};
use sapdu::peers_di;
use x224_class2::TransportDeed;

// The reason of a DR for what breaks a rule of the procedure (ITU-T X.224, 13.5.3).
const PROTOCOL_ERROR: u8 = 133;

// Why a DR releases: by the peer where its user data is a DI.
fn why_of(di: Option<(u8, u8)>) -> Release
    ensures { result ≡ why_of di }
{
    match di {
        Some((reason, sub)) => Release::by_peer_di(reason, sub),
        None => Cause::DisconnectWithoutDi.release(),
    }
}

// The release for a TPDU that the transport refused: that of its causes which has this sub-reason.
fn refused(sub: u8) -> Release
    ensures { result ≡ by_this_end 2 sub }
{
    Release {
        sub,
        ..Cause::TpduRefused.release()
    }
}

impl Layers {
    // A payload goes up through the blocks and the transport to the safety side: what it came to.
    #[tactic(auto, unfolding(crate::specs::KeptLayers::upper_hears, crate::specs::KeptLayers::upper_deed))]
    fn rise<K: KeyFinder>(&mut self, keys: &K, payload: &[u8], room: &mut SapduRoom) -> Came
        ensures came { comes_to result self.new ≡ on_block kept (key_at (K.entries keys.now)) payload.now self.old }
        ensures called { CanCome result self.new }
    {
        match self.joiner.add(payload) {
            Err(_) => Came::Refused {
                why: Cause::BlockRefused.release(),
                reason: PROTOCOL_ERROR,
            },
            Ok(None) => Came::Nothing,
            Ok(Some(tpdu)) => match self.transport.receive(tpdu) {
                TransportDeed::Nothing => Came::Nothing,
                TransportDeed::Called(user) => {
                    let by = Brought::InCr;
                    self.side.text_comes(keys, self.moment, by, user, room)
                }
                TransportDeed::Confirmed(user) => {
                    let by = Brought::InCc;
                    self.side.text_comes(keys, self.moment, by, user, room)
                }
                TransportDeed::Message(text) => {
                    let by = Brought::InDt;
                    self.side.text_comes(keys, self.moment, by, text, room)
                }
                TransportDeed::Disconnected(user) => {
                    let flag = self.side.safe.role().other().flag();
                    Came::PeerDisconnects {
                        why: why_of(peers_di(user, flag)),
                    }
                }
                TransportDeed::Refused { sub, dr_reason } => Came::Refused {
                    why: refused(sub),
                    reason: dr_reason,
                },
            },
        }
    }

    // The answer of the safety side goes down: to a CR in its CC, else as a message.
    fn reply(&mut self, by: Brought, answer: &ShortSapdu)
        requires { IsCalledBy by self.old }
        ensures { self.new ≡ hand_answer kept (carrier_of by) answer.now self.old }
    {
        match by {
            Brought::InCr => {
                if !answer.is_empty() {
                    self.transport.accept(answer.octets());
                }
            }
            Brought::InCc => self.hand_message(answer.octets()),
            Brought::InDt => {
                self.take_from_transport();
                self.hand_message(answer.octets());
            }
        }
    }

    // What goes down then.
    fn act(&mut self, came: Came, room: &mut SapduRoom)
        requires { CanCome came self.old }
        ensures { self.new ≡ comes_to came self.old }
    {
        match came {
            Came::Nothing => {}
            Came::Answers { by, answer } => self.reply(by, &answer),
            Came::Connects { by, answer, peer } => {
                self.reply(by, &answer);
                self.connected = Some(peer);
            }
            Came::SafetyReleased { why, di } => self.release_by_safety(why, di, room),
            Came::PeerDisconnects { why } => self.answer_dr(why, room),
            Came::Refused { why, reason } => {
                self.release_by_dr(why, reason, ShortSapdu::none(), room);
            }
        }
    }

    // The link came up: the caller connects with AU1.
    fn come_up(&mut self, room: &mut SapduRoom)
        ensures { self.new ≡ on_link_up kept self.old }
    {
        if self.transport.may_connect() && self.side.safe.state() == SafeState::Ready {
            let au1 = room.start(&mut self.side.safe);
            if !au1.is_empty() {
                self.transport.connect(au1.octets());
            }
        }
    }

    /// What the station told goes up.
    pub(crate) fn link_comes<K: KeyFinder>(
        &mut self,
        keys: &K,
        deed: &LinkDeed,
        room: &mut SapduRoom,
    )
        ensures { self.new ≡ on_link_deed kept (key_at (K.entries keys.now)) (deed_of deed.now) self.old }
    {
        match deed.payload {
            Some(payload) => {
                let came = self.rise(keys, payload, room);
                self.act(came, room);
            }
            None => {
                if deed.up {
                    self.come_up(room);
                } else if let Some(why) = deed.released {
                    self.set_released(why);
                }
            }
        }
    }
}
