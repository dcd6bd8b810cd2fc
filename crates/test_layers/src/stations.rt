//! Stations with go-back: rows worked out by hand. Stations with selective reject begin.

ghost use Rattle.std.specs.Prelude.{◌≡◌, ◌≤◌, false, IfOk};
ghost use Rattle.er_base.specs.Stored.{HasRoom};
ghost use Rattle.er_settings.specs.Ranges.{AllAllowed};
ghost use Rattle.hdlc_station.specs.Stations.{is_selective};

use er_base::{Moment, Release, Room, decimal, decimal_word, hex_word, octets_of};
use er_settings::Settings;
use er_settings::laws::allowed_are_bounded;
use hdlc_frames::{Found, Frame};
use hdlc_station::{Counts, Full, LinkDeed, Reject, Station};
use std::alloc::Global;
use std::test::Fail;

// A row: its name, how the station is made (role, modulo, window), the events, and what each event told and wrote, ended by
// a semicolon. Events: s start, f a frame (address and body), h a payload handed down, t a tick, c close, b o l a what is no
// frame (FCS, short, long, aborted), n the counts, d the deadline. Behind each event the answer that is owed is sent.
const ROWS: &str =
    "RNR marks the peer busy and RR unmarks it|calling 8 7|s f0173 h41 f0125 h42 f0121|7e013febdf7e ;up ;7e0100419dcf7e ;;;7e010242b6ce7e ;
a gap is rejected once and then RR says it again|called 8 7|f013f f010241 f010442 f010040 f010442|up 7e017383577e ;7e01095e8b7e ;7e010116077e ;took 40 7e012114267e ;7e01295caa7e ;
a repeated I frame is not taken again|called 8 7|f013f f010041 f010041|up 7e017383577e ;took 41 7e012114267e ;7e01295caa7e ;
the answer was lost and the set-up frame comes again|called 8 7|f013f f013f f010041 f013f f013f|up 7e017383577e ;7e017383577e ;took 41 7e012114267e ;R 1 3 7e011fe9fe7e ;;
a window of one|calling 8 1|s f0173 h41 h42 f0121 f0141|7e013febdf7e ;up ;7e0100419dcf7e ;;7e010242b6ce7e ;;
REJ sends from the rejected frame on|calling 8 7|s f0173 h41 h42 h43 f0129|7e013febdf7e ;up ;7e0100419dcf7e ;7e010242b6ce7e ;7e010443ef8b7e ;7e010242b6ce7e 7e010443ef8b7e ;
RR and I frames of the called station|called 8 7|f013f h61 f010041 f012241|up 7e017383577e ;;took 41 7e03206114787e ;took 41 7e014112457e ;
N(R) one above V(S)|calling 8 7|s f0173 h41 f0141|7e013febdf7e ;up ;7e0100419dcf7e ;R 1 3 7e031f59cd7e ;
SREJ|calling 8 7|s f0173 f010d|7e013febdf7e ;up ;R 1 3 7e031f59cd7e ;
an unknown control|calling 8 7|s f0173 f016f|7e013febdf7e ;up ;R 1 3 7e031f59cd7e ;
DISC|called 8 7|f013f f0153 f010041|up 7e017383577e ;R 1 4 7e017383577e ;;
DM|calling 8 7|s f010f|7e013febdf7e ;R 1 4 ;
FRMR with information|calling 8 7|s f0173 f0187aabb|7e013febdf7e ;up ;R 1 4 ;
UA with information|calling 8 7|s f017300|7e013febdf7e ;R 1 3 7e031f59cd7e ;
frames of another address are stray|called 8 7|f053f f0103 f030041 n|;;;0 0 0 0 3 ;
what is no frame is counted by its kind|called 8 7|b b o l a a a n|;;;;;;;2 1 1 3 0 ;
the set-up is never answered|calling 8 7|s d t999 t1000 t2000 t3000 t4000 t5000 d t6000 t7000 d|7e013febdf7e ;1000 ;;7e013febdf7e ;7e013febdf7e ;7e013febdf7e ;7e013febdf7e ;7e013febdf7e ;6000 ;R 1 1 7e015381767e ;;none ;
no progress, then a moment below the last one|calling 8 7|s f0173 t5000 h41 d t3000 d t6000 h42 t6500 f0121 d f0141 d|7e013febdf7e ;up ;;7e0100419dcf7e ;6000 ;;6000 ;7e0100419dcf7e ;7e010242b6ce7e ;;;7500 ;;none ;
sixteen payloads wait|calling 8 7|s h41 h41 h41 h41 h41 h41 h41 h41 h41 h41 h41 h41 h41 h41 h41 h41 h42 f0173|7e013febdf7e ;;;;;;;;;;;;;;;;;full 16 ;up 7e0100419dcf7e 7e0102412dfc7e 7e010441fda87e 7e0106414d9b7e 7e0108415d017e 7e010a41ed327e 7e010c413d667e ;
close|calling 8 7|s f0173 c h41 f0121|7e013febdf7e ;up ;7e015381767e ;;;
close before start|calling 8 7|c s|;;
SABME and two octets of control|calling 128 31|s f0173 h41 f010102 h42|7e017fef9d7e ;up ;7e01000041e8b37e ;;7e01020042cb347e ;
SABM is unknown at modulo 128|called 128 31|f013f f017f f013f|;up 7e017383577e ;R 1 3 7e011fe9fe7e ;
the first of 31 frames is lost at modulo 128|calling 128 31|s f0173 h00 h01 h02 h03 h04 h05 h06 h07 h08 h09 h0a h0b h0c h0d h0e h0f h10 h11 h12 h13 h14 h15 h16 h17 h18 h19 h1a h1b h1c h1d h1e h7f f010900 f01013e|7e017fef9d7e ;up ;7e0100000065e07e ;7e0102000154447e ;7e0104000216a07e ;7e0106000327047e ;7e0108000483607e ;7e010a0005b2c47e ;7e010c0006f0207e ;7e010e0007c1847e ;7e01100008b8e97e ;7e01120009894d7e ;7e0114000acba97e ;7e0116000bfa0d7e ;7e0118000c5e697e ;7e011a000d6fcd7e ;7e011c000e2d297e ;7e011e000f1c8d7e ;7e01200010dff37e ;7e01220011ee577e ;7e01240012acb37e ;7e012600139d177e ;7e0128001439737e ;7e012a001508d77e ;7e012c00164a337e ;7e012e00177b977e ;7e0130001802fa7e ;7e01320019335e7e ;7e0134001a71ba7e ;7e0136001b401e7e ;7e0138001ce47a7e ;7e013a001dd5de7e ;7e013c001e973a7e ;;7e0100000065e07e 7e0102000154447e 7e0104000216a07e 7e0106000327047e 7e0108000483607e 7e010a0005b2c47e 7e010c0006f0207e 7e010e0007c1847e 7e01100008b8e97e 7e01120009894d7e 7e0114000acba97e 7e0116000bfa0d7e 7e0118000c5e697e 7e011a000d6fcd7e 7e011c000e2d297e 7e011e000f1c8d7e 7e01200010dff37e 7e01220011ee577e 7e01240012acb37e 7e012600139d177e 7e0128001439737e 7e012a001508d77e 7e012c00164a337e 7e012e00177b977e 7e0130001802fa7e 7e01320019335e7e 7e0134001a71ba7e 7e0136001b401e7e 7e0138001ce47a7e 7e013a001dd5de7e 7e013c001e973a7e ;7e013e007fa0fd7e ;
numbers wrap behind 127|calling 128 31|s f0173 h55 f010102 h55 f010104 h55 f010106 h55 f010108 h55 f01010a h55 f01010c h55 f01010e h55 f010110 h55 f010112 h55 f010114 h55 f010116 h55 f010118 h55 f01011a h55 f01011c h55 f01011e h55 f010120 h55 f010122 h55 f010124 h55 f010126 h55 f010128 h55 f01012a h55 f01012c h55 f01012e h55 f010130 h55 f010132 h55 f010134 h55 f010136 h55 f010138 h55 f01013a h55 f01013c h55 f01013e h55 f010140 h55 f010142 h55 f010144 h55 f010146 h55 f010148 h55 f01014a h55 f01014c h55 f01014e h55 f010150 h55 f010152 h55 f010154 h55 f010156 h55 f010158 h55 f01015a h55 f01015c h55 f01015e h55 f010160 h55 f010162 h55 f010164 h55 f010166 h55 f010168 h55 f01016a h55 f01016c h55 f01016e h55 f010170 h55 f010172 h55 f010174 h55 f010176 h55 f010178 h55 f01017a h55 f01017c h55 f01017e h55 f010180 h55 f010182 h55 f010184 h55 f010186 h55 f010188 h55 f01018a h55 f01018c h55 f01018e h55 f010190 h55 f010192 h55 f010194 h55 f010196 h55 f010198 h55 f01019a h55 f01019c h55 f01019e h55 f0101a0 h55 f0101a2 h55 f0101a4 h55 f0101a6 h55 f0101a8 h55 f0101aa h55 f0101ac h55 f0101ae h55 f0101b0 h55 f0101b2 h55 f0101b4 h55 f0101b6 h55 f0101b8 h55 f0101ba h55 f0101bc h55 f0101be h55 f0101c0 h55 f0101c2 h55 f0101c4 h55 f0101c6 h55 f0101c8 h55 f0101ca h55 f0101cc h55 f0101ce h55 f0101d0 h55 f0101d2 h55 f0101d4 h55 f0101d6 h55 f0101d8 h55 f0101da h55 f0101dc h55 f0101de h55 f0101e0 h55 f0101e2 h55 f0101e4 h55 f0101e6 h55 f0101e8 h55 f0101ea h55 f0101ec h55 f0101ee h55 f0101f0 h55 f0101f2 h55 f0101f4 h55 f0101f6 h55 f0101f8 h55 f0101fa h55 f0101fc h55 f0101fe h55 f010100 h55 f010102 h55 f010104 h55 f010106|7e017fef9d7e ;up ;7e010000554de57e ;;7e01020055f5507e ;;7e010400552c867e ;;7e0106005594337e ;;7e010800558f237e ;;7e010a005537967e ;;7e010c0055ee407e ;;7e010e005556f57e ;;7e01100055d8607e ;;7e0112005560d57e ;;7e01140055b9037e ;;7e0116005501b67e ;;7e011800551aa67e ;;7e011a0055a2137e ;;7e011c00557bc57e ;;7e011e0055c3707e ;;7e0120005576e67e ;;7e01220055ce537e ;;7e0124005517857e ;;7e01260055af307e ;;7e01280055b4207e ;;7e012a00550c957e ;;7e012c0055d5437e ;;7e012e00556df67e ;;7e01300055e3637e ;;7e013200555bd67e ;;7e0134005582007e ;;7e013600553ab57e ;;7e0138005521a57e ;;7e013a005599107e ;;7e013c005540c67e ;;7e013e0055f8737e ;;7e014000553be37e ;;7e0142005583567e ;;7e014400555a807e ;;7e01460055e2357e ;;7e01480055f9257e ;;7e014a005541907e ;;7e014c005598467e ;;7e014e005520f37e ;;7e01500055ae667e ;;7e0152005516d37e ;;7e01540055cf057e ;;7e0156005577b07e ;;7e015800556ca07e ;;7e015a0055d4157e ;;7e015c00550dc37e ;;7e015e0055b5767e ;;7e0160005500e07e ;;7e01620055b8557e ;;7e0164005561837e ;;7e01660055d9367e ;;7e01680055c2267e ;;7e016a00557a937e ;;7e016c0055a3457e ;;7e016e00551bf07e ;;7e0170005595657e ;;7e017200552dd07e ;;7e01740055f4067e ;;7e017600554cb37e ;;7e0178005557a37e ;;7e017a0055ef167e ;;7e017c005536c07e ;;7e017d5e00558e757e ;;7e01800055a1e97e ;;7e01820055195c7e ;;7e01840055c08a7e ;;7e01860055783f7e ;;7e01880055632f7e ;;7e018a0055db9a7e ;;7e018c0055024c7e ;;7e018e0055baf97e ;;7e01900055346c7e ;;7e019200558cd97e ;;7e01940055550f7e ;;7e01960055edba7e ;;7e01980055f6aa7e ;;7e019a00554e1f7e ;;7e019c005597c97e ;;7e019e00552f7c7e ;;7e01a000559aea7e ;;7e01a20055225f7e ;;7e01a40055fb897e ;;7e01a60055433c7e ;;7e01a80055582c7e ;;7e01aa0055e0997e ;;7e01ac0055394f7e ;;7e01ae005581fa7e ;;7e01b000550f6f7e ;;7e01b20055b7da7e ;;7e01b400556e0c7e ;;7e01b60055d6b97e ;;7e01b80055cda97e ;;7e01ba0055751c7e ;;7e01bc0055acca7e ;;7e01be0055147f7e ;;7e01c00055d7ef7e ;;7e01c200556f5a7e ;;7e01c40055b68c7e ;;7e01c600550e397e ;;7e01c8005515297e ;;7e01ca0055ad9c7e ;;7e01cc0055744a7e ;;7e01ce0055ccff7e ;;7e01d00055426a7e ;;7e01d20055fadf7e ;;7e01d4005523097e ;;7e01d600559bbc7e ;;7e01d8005580ac7e ;;7e01da005538197e ;;7e01dc0055e1cf7e ;;7e01de0055597a7e ;;7e01e00055ecec7e ;;7e01e2005554597e ;;7e01e400558d8f7e ;;7e01e60055353a7e ;;7e01e800552e2a7e ;;7e01ea0055969f7e ;;7e01ec00554f497e ;;7e01ee0055f7fc7e ;;7e01f0005579697e ;;7e01f20055c1dc7e ;;7e01f40055180a7e ;;7e01f60055a0bf7e ;;7e01f80055bbaf7e ;;7e01fa0055031a7e ;;7e01fc0055dacc7e ;;7e01fe005562797e ;;7e010000554de57e ;;7e01020055f5507e ;;7e010400552c867e ;;
V(R) wraps behind 7|called 8 7|f013f f010055 f010255 f010455 f010655 f010855 f010a55 f010c55 f010e55 f010055 f010255|up 7e017383577e ;took 55 7e012114267e ;took 55 7e014112457e ;took 55 7e016110647e ;took 55 7e01811e837e ;took 55 7e01a11ca27e ;took 55 7e01c11ac17e ;took 55 7e01e118e07e ;took 55 7e010116077e ;took 55 7e012114267e ;took 55 7e014112457e ;
a set-up frame that comes again clears the gap|called 8 7|f013f f010241 f013f f010241|up 7e017383577e ;7e01095e8b7e ;7e017383577e ;7e01095e8b7e ;
REJ starts T1 anew|calling 8 7|s f0173 h41 t500 f0109 d|7e013febdf7e ;up ;7e0100419dcf7e ;;7e0100419dcf7e ;1500 ;
an I frame leaves the busy mark|calling 8 7|s f0173 f0105 h41 f030055 f0101|7e013febdf7e ;up ;;;took 55 7e0321a4157e ;7e012041aeec7e ;
DISC under the peer's address is stray|called 8 7|f013f f0353 n|up 7e017383577e ;;0 0 0 0 1 ;
RR with information|calling 8 7|s f0173 f010155|7e013febdf7e ;up ;R 1 3 7e031f59cd7e ;
RNR with information|calling 8 7|s f0173 f010555|7e013febdf7e ;up ;R 1 3 7e031f59cd7e ;
REJ with information|calling 8 7|s f0173 f010955|7e013febdf7e ;up ;R 1 3 7e031f59cd7e ;
SABM with information|called 8 7|f013f f013f55|up 7e017383577e ;R 1 3 7e011fe9fe7e ;
DISC with information|called 8 7|f013f f015355|up 7e017383577e ;R 1 3 7e011fe9fe7e ;
S frames before UA are stray|calling 8 7|s f0101 f0105 f0109 n f0173|7e013febdf7e ;;;;0 0 0 0 3 ;up ;
DISC, DM, UA and FRMR before SABM are stray|called 8 7|f0153 f031f f0373 f0397 n f013f|;;;;0 0 0 0 4 ;up 7e017383577e ;
close in Setting|calling 8 7|s c|7e013febdf7e ;7e015381767e ;
SABM at a calling station|calling 8 7|s f0173 f033f|7e013febdf7e ;up ;R 1 3 7e031f59cd7e ;";

// The octets of room that a call of a station wants at the most: 62 frames, twice the greatest window, and one. A clause says 130032.
const ROOM: usize = 63 * 2064;

// Settings by the words of the modulo and the window.
fn settings_of(modulo: &str, window: &str) -> Result<Settings, Fail>
    ensures { IfOk result (λ settings. AllAllowed settings) }
{
    let window = decimal(window.as_bytes()).ok_or("window")?;
    if modulo == "128" {
        Ok(Settings::extended(window, 15, 128, 1_000, 5, 40_000)?)
    } else {
        Ok(Settings::new(window, 15, 128, 1_000, 5, 40_000)?)
    }
}

// A station, of whose window the room for a call is known.
#[derive(Drop)]
struct Played {
    station: Station,
    ghost small: { station.core.window ≤ 31 },
    ghost way: { is_selective station ≡ false },
}

// A station made as the words say.
fn made(alloc: Global, making: &str) -> Result<Played, Fail> {
    allowed_are_bounded();
    let (role, numbers) = making.split_once(' ').ok_or("role")?;
    let (modulo, window) = numbers.split_once(' ').ok_or("modulo")?;
    let settings = settings_of(modulo, window)?;
    let station = if role == "calling" {
        Station::calling(alloc, &settings, Reject::GoBack)?
    } else {
        Station::called(alloc, &settings, Reject::GoBack)?
    };
    Ok(Played { station })
}

impl Played {
    // One event, and the answer that is owed.
    fn event(&mut self, alloc: Global, word: &[u8], told: &mut Vec<u8>) -> Result<(), Fail> {
        let mut out = Room::with_capacity(alloc, ROOM)?;
        self.act(alloc, word, &mut out, told)?;
        tell_octets(out.held(), told)?;
        let mut answer = Room::with_capacity(alloc, ROOM)?;
        self.station.finish(&mut answer);
        tell_octets(answer.held(), told)?;
        told.push(b';')?;
        Ok(())
    }

    // One event, and what it told.
    fn act(
        &mut self,
        alloc: Global,
        word: &[u8],
        out: &mut Room,
        told: &mut Vec<u8>,
    ) -> Result<(), Fail>
        requires { HasRoom out.old 130032 }
    {
        let (kind, rest) = word.split_first().ok_or("event")?;
        match *kind {
            b's' => {
                self.station.start(Moment::new(0), out);
                Ok(())
            }
            b'c' => {
                self.station.close(out);
                Ok(())
            }
            b't' => self.tick(rest, out, told),
            b'h' => self.hand(alloc, rest, out, told),
            b'n' => tell_counts(&self.station.counts(), told),
            b'd' => tell_deadline(self.station.deadline(), told),
            b'f' => self.frame(alloc, rest, out, told),
            kind => tell(
                &self.station.receive(Moment::new(0), &nothing(kind), out),
                told,
            ),
        }
    }

    fn tick(&mut self, word: &[u8], out: &mut Room, told: &mut Vec<u8>) -> Result<(), Fail>
        requires { HasRoom out.old 130032 }
    {
        let now = decimal(word).ok_or("moment")?;
        match self.station.tick(Moment::capped(now), out) {
            Some(release) => tell_release(release, told),
            None => Ok(()),
        }
    }

    // A payload is handed down.
    fn hand(
        &mut self,
        alloc: Global,
        word: &[u8],
        out: &mut Room,
        told: &mut Vec<u8>,
    ) -> Result<(), Fail>
        requires { HasRoom out.old 130032 }
    {
        let mut payload = Vec::new(alloc);
        octets_of(word, &mut payload)?;
        let payload = payload.as_slice();
        if payload.len() > 1026 {
            return Err("a payload")?;
        }
        match self.station.hand(Moment::new(0), payload, out) {
            Ok(()) => Ok(()),
            Err(Full { waiting }) => {
                told.extend_from_slice(b"full ")?;
                tell_number(waiting as u64, told)
            }
        }
    }

    // A frame comes: its address and its body.
    fn frame(
        &mut self,
        alloc: Global,
        word: &[u8],
        out: &mut Room,
        told: &mut Vec<u8>,
    ) -> Result<(), Fail>
        requires { HasRoom out.old 130032 }
    {
        let mut octets = Vec::new(alloc);
        octets_of(word, &mut octets)?;
        let (address, body) = octets.as_slice().split_first().ok_or("a frame")?;
        let found = Found::Frame(Frame {
            address: *address,
            body,
        });
        let deed = self.station.receive(Moment::new(0), &found, out);
        tell(&deed, told)
    }
}

// What is no frame.
fn nothing(kind: u8) -> Found<'static> {
    match kind {
        b'b' => Found::BadFcs,
        b'o' => Found::TooShort,
        b'l' => Found::TooLong,
        _ => Found::Aborted,
    }
}

fn tell(deed: &LinkDeed<'_>, told: &mut Vec<u8>) -> Result<(), Fail> {
    if deed.up {
        told.extend_from_slice(b"up ")?;
    }
    if let Some(payload) = deed.payload {
        told.extend_from_slice(b"took ")?;
        hex_word(payload, told)?;
        told.push(b' ')?;
    }
    if let Some(release) = deed.released {
        tell_release(release, told)?;
    }
    Ok(())
}

// A number.
fn tell_number(number: u64, told: &mut Vec<u8>) -> Result<(), Fail> {
    decimal_word(number, told)?;
    told.push(b' ')?;
    Ok(())
}

// Why a station was released.
fn tell_release(release: Release, told: &mut Vec<u8>) -> Result<(), Fail> {
    told.extend_from_slice(b"R ")?;
    tell_number(release.reason as u64, told)?;
    tell_number(release.sub as u64, told)
}

// The frames that were ignored, by their kind.
fn tell_counts(counts: &Counts, told: &mut Vec<u8>) -> Result<(), Fail> {
    tell_number(counts.bad_fcs, told)?;
    tell_number(counts.short, told)?;
    tell_number(counts.long, told)?;
    tell_number(counts.aborted, told)?;
    tell_number(counts.stray, told)
}

// The moment at which a station wants a tick.
fn tell_deadline(deadline: Option<u64>, told: &mut Vec<u8>) -> Result<(), Fail> {
    if let Some(moment) = deadline {
        return tell_number(moment, told);
    }
    told.extend_from_slice(b"none ")?;
    Ok(())
}

// The frames that were written, a word each: flags stand between them alone.
fn tell_octets(octets: &[u8], told: &mut Vec<u8>) -> Result<(), Fail> {
    let mut inside = false;
    for octet in octets {
        hex_word(&[*octet], told)?;
        if *octet == 0x7e {
            if inside {
                told.push(b' ')?;
            }
            inside = !inside;
        }
    }
    Ok(())
}

// Whether the events of a row tell and write what they must.
fn is_told(alloc: Global, row: &str) -> Result<bool, Fail> {
    let (making, row) = row.split_once('|').ok_or("making")?;
    let (events, expected) = row.split_once('|').ok_or("events")?;
    let mut station = made(alloc, making)?;
    let mut told = Vec::new(alloc);
    for word in events.split(' ') {
        station.event(alloc, word.as_bytes(), &mut told)?;
    }
    Ok(told.as_slice() == expected.as_bytes())
}

#[test]
fn rows(rt: HostRuntime) -> Result<(), Fail> {
    for row in ROWS.split('\n') {
        let (name, row) = row.split_once('|').ok_or("name")?;
        assert!(rt; is_told(rt.alloc(), row)?, "{name}");
    }
    Ok(())
}

#[test]
fn a_selective_station_begins(rt: HostRuntime) -> Result<(), Fail> {
    let settings = Settings::new(4, 15, 128, 1_000, 5, 40_000)?;
    let mut out = Room::with_capacity(rt.alloc(), 2064)?;
    Station::called(rt.alloc(), &settings, Reject::Selective)?.start(Moment::new(0), &mut out);
    assert!(rt; out.held().is_empty());
    Station::calling(rt.alloc(), &settings, Reject::Selective)?.start(Moment::new(0), &mut out);
    assert!(rt; out.held() == b"\x7E\x01\x3F\xEB\xDF\x7E".as_slice());
    Ok(())
}
