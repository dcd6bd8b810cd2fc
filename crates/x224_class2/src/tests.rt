//! One transport by itself, and two that talk.

ghost use Rattle.std.specs.Prelude.{◌≡◌, ◌<◌, ◌≤◌, length};
ghost use Rattle.x224_class2.specs.Kept.{stage_behind};
ghost use Rattle.x224_class2.specs.Resting.{deed_of};

use crate::stage::Stage;
use crate::{Transport, TransportDeed};
use er_base::{NoMemory, Room, decimal, decimal_word, hex_word, next_word, octets_of};
use er_settings::Settings;
use std::alloc::Global;
use std::process::Abort;
use std::test::Fail;

// The octets and the answers of these scripts were worked out by hand from ITU-T X.224 (clauses 6, 10 and
// 13) and from this profile's rules. A line is a call and, behind `|`, its answer. Of more than twelve octets
// the first five and their number are shown.

// A line may begin with a new side: its role, its credit and its size.

// A side, the stage that its deeds tell, and room for a TPDU.
#[derive(Drop)]
struct Player {
    is_caller: bool,
    stage: Stage,
    out: Room,
    delivered: u8,
    side: Transport,
    ghost seven_bits: { delivered < 128 },
    ghost role: { side.is_caller ≡ is_caller },
    ghost known: { side.stage ≡ stage },
    ghost room: { 1024 ≤ out.capacity },
}

impl Player {
    fn new(alloc: Global, is_caller: bool, credit: u64, size: u64) -> Result<Player, Fail> {
        let settings = Settings::new(7, credit, size, 1_000, 5, 40_000)?;
        let out = Room::with_capacity(alloc, 1_024)?;
        let side = if is_caller {
            Transport::caller(alloc, &settings)?
        } else {
            Transport::callee(alloc, &settings)?
        };
        Ok(Player {
            is_caller,
            stage: Stage::New,
            out,
            delivered: 0,
            side,
        })
    }

    fn open(&mut self, user: &[u8]) -> &'static [u8] {
        if user.is_empty() || user.len() > 32 {
            return b"unable";
        }
        if self.is_caller && self.stage == Stage::New {
            self.side.connect(user);
            self.stage = Stage::Calling;
            return b"ok";
        }
        if self.stage == Stage::Called {
            self.side.accept(user);
            self.stage = Stage::Open;
            return b"ok";
        }
        b"unable"
    }

    fn hand(&mut self, message: &[u8]) -> &'static [u8] {
        if self.stage != Stage::Open || message.is_empty() || message.len() > 1_032 {
            return b"unable";
        }
        match self.side.hand(message) {
            Ok(()) => b"ok",
            Err(_) => b"full",
        }
    }

    fn taken(&mut self) -> &'static [u8] {
        if self.side.untaken() == 0 {
            return b"unable";
        }
        self.side.taken();
        b"ok"
    }

    fn next(&mut self) -> &[u8] {
        self.out.clear();
        let _some = self.side.next_tpdu(&mut self.out);
        self.out.held()
    }

    // The number of the DT that was given last.
    fn number_given(&self) -> u8
        ensures { result < 128 }
    {
        self.out.held().get(4).map_or(0, |octet| *octet % 128)
    }

    fn receive(&mut self, tpdu: &[u8], answer: &mut Vec<u8>) -> Result<(), NoMemory> {
        let deed = self.side.receive(tpdu);
        let stage = stage_after(self.stage, &deed);
        let told = put_deed(&deed, answer);
        self.stage = stage;
        told
    }
}

fn stage_after(stage: Stage, deed: &TransportDeed) -> Stage
    ensures { result ≡ stage_behind (deed_of deed.now) stage }
{
    match deed {
        TransportDeed::Nothing | TransportDeed::Message(_) => stage,
        TransportDeed::Called(_) => Stage::Called,
        TransportDeed::Confirmed(_) => Stage::Open,
        TransportDeed::Disconnected(_) | TransportDeed::Refused { .. } => Stage::Over,
    }
}

fn put_deed(deed: &TransportDeed, answer: &mut Vec<u8>) -> Result<(), NoMemory> {
    match deed {
        TransportDeed::Nothing => answer.extend_from_slice(b"nothing")?,
        TransportDeed::Called(user) => {
            answer.extend_from_slice(b"called ")?;
            put_octets(user, answer)?;
        }
        TransportDeed::Confirmed(user) => {
            answer.extend_from_slice(b"confirmed ")?;
            put_octets(user, answer)?;
        }
        TransportDeed::Message(octets) => {
            answer.extend_from_slice(b"message ")?;
            put_octets(octets, answer)?;
        }
        TransportDeed::Disconnected(user) => {
            answer.extend_from_slice(b"disconnected ")?;
            put_octets(user, answer)?;
        }
        TransportDeed::Refused { sub, dr_reason } => {
            answer.extend_from_slice(b"refused ")?;
            decimal_word(u64::from(*sub), answer)?;
            answer.push(b' ')?;
            decimal_word(u64::from(*dr_reason), answer)?;
        }
    }
    Ok(())
}

fn put_octets(octets: &[u8], answer: &mut Vec<u8>) -> Result<(), NoMemory> {
    if octets.len() <= 12 {
        return hex_word(octets, answer);
    }
    hex_word(&octets[..5], answer)?;
    answer.push(b' ')?;
    decimal_word(octets.len() as u64, answer)
}

// The octets of a hexadecimal word and, where a number follows, so many octets 41 behind them.
fn octets_in(alloc: Global, words: &[u8]) -> Result<Vec<u8>, Fail> {
    let mut octets = Vec::new(alloc);
    let Some((word, rest)) = next_word(words) else {
        return Ok(octets);
    };
    octets_of(word, &mut octets)?;
    for _ in 0..count_in(rest) {
        octets.push(0x41)?;
    }
    Ok(octets)
}

fn count_in(words: &[u8]) -> u64 {
    next_word(words)
        .and_then(|(word, _)| decimal(word))
        .unwrap_or(0)
}

// Messages of one octet, each of which is given and acknowledged; the answer is the last DT.
fn exchange(
    alloc: Global,
    player: &mut Player,
    words: &[u8],
    answer: &mut Vec<u8>,
) -> Result<(), Fail> {
    for _ in 0..count_in(words) {
        let mut told = Vec::new(alloc);
        told.extend_from_slice(player.hand(b"A"))?;
        answer.clear();
        put_octets(player.next(), answer)?;
        let ack = [0x04, 0x61, 0x00, 0x01, (player.number_given() + 1) % 128];
        player.receive(&ack, &mut told)?;
    }
    Ok(())
}

// Messages of one octet, each of which comes, is taken and acknowledged; the answer is the last AK.
fn deliver(
    alloc: Global,
    player: &mut Player,
    words: &[u8],
    answer: &mut Vec<u8>,
) -> Result<(), Fail> {
    for _ in 0..count_in(words) {
        let mut told = Vec::new(alloc);
        let data = [0x04, 0xF0, 0x00, 0x01, 0x80 + player.delivered, 0x41];
        player.delivered = (player.delivered + 1) % 128;
        player.receive(&data, &mut told)?;
        told.extend_from_slice(player.taken())?;
        answer.clear();
        put_octets(player.next(), answer)?;
    }
    Ok(())
}

// Appends the answer to a call.
fn play(alloc: Global, player: &mut Player, line: &[u8], answer: &mut Vec<u8>) -> Result<(), Fail> {
    let Some((call, words)) = next_word(line) else {
        return Ok(());
    };
    if call == b"exchange".as_slice() {
        return exchange(alloc, player, words, answer);
    }
    if call == b"deliver".as_slice() {
        return deliver(alloc, player, words, answer);
    }
    let octets = octets_in(alloc, words)?;
    if call == b"open".as_slice() {
        answer.extend_from_slice(player.open(&octets))?;
    } else if call == b"hand".as_slice() {
        answer.extend_from_slice(player.hand(&octets))?;
    } else if call == b"taken".as_slice() {
        answer.extend_from_slice(player.taken())?;
    } else if call == b"next".as_slice() {
        put_octets(player.next(), answer)?;
    } else if call == b"receive".as_slice() {
        player.receive(&octets, answer)?;
    } else if call == b"counts".as_slice() {
        decimal_word(player.side.untaken() as u64, answer)?;
        answer.push(b' ')?;
        decimal_word(player.side.waiting() as u64, answer)?;
    }
    Ok(())
}

// The player that a role, a credit and a size name.
fn player_of(alloc: Global, words: &[u8]) -> Result<Player, Fail> {
    let mut is_caller = false;
    let mut numbers = [0; 2];
    let mut rest = words;
    if let Some((role, after)) = next_word(rest) {
        is_caller = role == b"caller".as_slice();
        rest = after;
    }
    for number in &mut numbers {
        if let Some((word, after)) = next_word(rest) {
            *number = decimal(word).unwrap_or(0);
            rest = after;
        }
    }
    Player::new(alloc, is_caller, numbers[0], numbers[1])
}

// Plays each line of the scripts, and compares its answers.
#[test]
fn plays_the_scripts(rt: HostRuntime) -> Result<(), Fail> {
    let alloc = rt.alloc();
    let mut player = Player::new(alloc, true, 1, 128)?;
    let mut played = 0u32;
    for line in SCRIPTS.split('\n') {
        if line.starts_with('#') {
            continue;
        }
        let calls = match line.split_once(':') {
            Some((words, calls)) => {
                player = player_of(alloc, words.as_bytes())?;
                calls
            }
            None => line,
        };
        for part in calls.split(';') {
            if let Some((call, wanted)) = part.split_once('|') {
                let mut answer = Vec::new(alloc);
                play(alloc, &mut player, call.as_bytes(), &mut answer)?;
                let wanted = wanted.trim().as_bytes();
                assert_eq!(rt; answer.trim_ascii(), wanted, "{line}");
                played = played.saturating_add(1);
            }
        }
    }
    assert_eq!(rt; played, 407);
    Ok(())
}

const SCRIPTS: &str =
    "# messages of one segment, of exactly the size less five, of one octet more, and of 1,032 octets in nine
caller 15 128: open 42 | ok; next | 09ef0000000120c0010742; next | -
receive 09df0001000120c0010743 | confirmed 43; next | -; counts | 0 0
hand 42 | ok; next | 04f000018042; hand - 123 | ok; next | 04f0000181 128; hand - 124 | ok; counts | 0 1
next | 04f0000102 128; counts | 0 1; next | 04f000018341; counts | 0 0; hand - 1032 | ok
next | 04f0000104 128; next | 04f0000105 128; next | 04f0000106 128; next | 04f0000107 128
next | 04f0000108 128; next | 04f0000109 128; next | 04f000010a 128; next | 04f000010b 128; next | 04f000018c 53
# the edge: it comes from the newest AK, and no AK lowers it
hand 4243 | ok; next | 04f000018d4243; hand 44 | ok; next | 04f000018e44; hand 45 | ok; next | -; counts | 0 1
receive 046100010f | nothing; next | 04f000018f45; hand 46 | ok; next | -; receive 046f000110 | nothing
next | 04f000019046; receive 0460000110 | refused 2 133; next | -; receive 046f000111 | nothing; counts | 0 0
# an AK with a number that was acknowledged before, and one ahead of what was given
caller 15 128: open 42 | ok; receive 09d50001000120c0010743 | confirmed 43; next | 09ef0000000120c0010742
hand 41 | ok; next | 04f000018041; receive 0465000101 | nothing; receive 0465000101 | nothing
receive 0465000100 | refused 2 133
caller 15 128: open 42 | ok; receive 09d50001000120c0010743 | confirmed 43; next | 09ef0000000120c0010742
hand 41 | ok; next | 04f000018041; receive 0465000102 | refused 2 133
# numbers past 127, given and received
caller 15 128: open 42 | ok; next | 09ef0000000120c0010742; receive 09d10001000120c0010743 | confirmed 43
exchange 127 | 04f00001fe41; exchange 1 | 04f00001ff41; exchange 1 | 04f000018041; exchange 130 | 04f000018241
deliver 127 | 046f00017f; deliver 1 | 046f000100; deliver 2 | 046f000102; receive 04f000010142 | refused 2 133
# one credit: a message is acknowledged once it was taken, and no DT comes before that
callee 1 1024: receive 09e10000000120c0010d42 | called 42; next | -; open 43 | ok; next | 09d10001000120c0010a43
receive 04f000018044 | message 44; next | -; counts | 1 0; taken | ok; next | 0461000101; next | -
receive 04f0000101 1019 | nothing; next | 0461000102; receive 04f0000182 13 | message 4141414141 1032; next | -
taken | ok; taken | unable; next | 0461000103; receive 04f000018344 | message 44; receive 04f000018444 | refused 2 133
next | -; receive 04f000018444 | nothing
# 1,033 octets joined, with and without EOT; a DT above the agreed size
callee 3 1024: receive 09e10000000120c0010a42 | called 42; open 43 | ok; next | 09d30001000120c0010a43
receive 04f000010041 | nothing; next | 0463000101; receive 04f0000101 1019 | nothing
receive 04f0000182 13 | refused 3 133
callee 3 1024: receive 09e10000000120c0010a42 | called 42; open 43 | ok; next | 09d30001000120c0010a43
receive 04f000010041 | nothing; next | 0463000101; receive 04f0000101 1019 | nothing
receive 04f0000102 13 | refused 3 133
callee 3 1024: receive 09e10000000120c0010742 | called 42; open 43 | ok
receive 04f0000180 123 | message 4141414141 123; receive 04f0000181 124 | refused 2 133
# sixteen messages wait, and a seventeenth is refused
caller 15 128: open 42 | ok; next | 09ef0000000120c0010742; receive 06d0000100012043 | confirmed 43
hand 01 | ok; hand 02 | ok; hand 03 | ok; hand 04 | ok; hand 05 | ok; hand 06 | ok; hand 07 | ok; hand 08 | ok
hand 09 | ok; hand 0a | ok; hand 0b | ok; hand 0c | ok; hand 0d | ok; hand 0e | ok; hand 0f | ok; hand 10 | ok
hand 11 | full; next | -; receive 0462000100 | nothing; next | 04f000018001; hand 11 | ok; hand 12 | full
next | 04f000018102; next | -; counts | 0 15
# what is refused in each stage, and by which reason; DR
caller 2 256: receive 09d20001000120c00107 | refused 2 133
caller 2 256: receive 0680000100018041 | refused 2 133
callee 2 256: receive 06800001000180 | refused 2 133
callee 2 256: receive 09d20001000120c00107 | refused 2 133
callee 2 256: receive 09e20001000120c0010742 | refused 2 133
callee 2 256: receive 09e20000000220c0010742 | refused 2 133
caller 2 256: open 42 | ok; receive 0680000100018041 | disconnected 41; next | -; receive 06800001000180 | nothing
caller 2 256: open 42 | ok; receive 06800001000280 | refused 2 133
caller 2 256: open 42 | ok; receive 04f000018041 | refused 2 133
caller 2 256: open 42 | ok; receive 0461000100 | refused 2 133
caller 2 256: open 42 | ok; receive 09e20000000120c00107 | refused 2 133
caller 2 256: open 42 | ok; receive 05c000010001 | refused 2 133
caller 2 256: open 42 | ok; receive 0470000101 | refused 2 133
caller 2 256: open 42 | ok; receive 09d20000000120c00108 | refused 2 133
caller 2 256: open 42 | ok; receive 09d20001000120c30108 | refused 2 138
caller 2 256: open 42 | ok; receive 09d20001000140c00108 | refused 2 130
caller 2 256: open 42 | ok; receive 09d20001000120c0010e | refused 2 133
caller 2 256: open 42 | ok; receive - | refused 2 133
caller 2 256: open 42 | ok; receive 05d200010001 | refused 2 138
caller 2 256: open 42 | ok; receive 04ff000180 | refused 2 133
caller 2 256: open 42 | ok; receive 04f0000180 | refused 2 133
caller 2 256: open 42 | ok; receive 09d20001000120c00107 | confirmed -; receive 09d20001000120c00107 | refused 2 133
caller 2 256: open 42 | ok; receive 09d20001000120c00107 | confirmed -; receive 09e20000000120c00107 | refused 2 133
caller 2 256: open 42 | ok; receive 09d20001000120c00107 | confirmed -; receive 05c000010001 | refused 2 133
caller 2 256: open 42 | ok; receive 09d20001000120c00107 | confirmed -; receive 0470000101 | refused 2 133
caller 2 256: open 42 | ok; receive 09d20001000120c00107 | confirmed -; receive 04f000028041 | refused 2 133
caller 2 256: open 42 | ok; receive 09d20001000120c00107 | confirmed -; receive 0462000200 | refused 2 133
caller 2 256: open 42 | ok; receive 09d20001000120c00107 | confirmed -; receive 06800002000180 | refused 2 133
caller 2 256: open 42 | ok; receive 09d20001000120c00107 | confirmed -; receive 06800001000180 | disconnected -
caller 2 256: open 42 | ok; receive 09d20001000120c00107 | confirmed -; receive 0462000180 | refused 2 133
callee 2 256: receive 09e20000000120c0010742 | called 42; receive 09e20000000120c0010742 | refused 2 133
callee 2 256: receive 09e20000000120c0010742 | called 42; receive 0680000100018045 | disconnected 45
open 42 | unable; hand 42 | unable
# a callee's edge begins at the credit of the CR, not at its own
callee 15 128: receive 09e10000000120c0010742 | called 42; open 43 | ok; next | 09df0001000120c0010743; hand 41 | ok; hand 42 | ok; next | 04f000018041; next | -
# the references of a CC, and what comes before the callee accepts
caller 2 256: open 42 | ok; receive 09d20001000220c00107 | refused 2 133
callee 2 256: receive 09e20000000120c0010742 | called 42; receive 046f000100 | refused 2 133
callee 2 256: receive 09e20000000120c0010742 | called 42; receive 04f000018041 | refused 2 133
# of two rules that a DT breaks, its number comes before the length of its message
callee 3 1024: receive 09e10000000120c0010a42 | called 42; open 43 | ok; next | 09d30001000120c0010a43; receive 04f0000100 1019 | nothing; receive 04f0000102 20 | refused 2 133
# the CC goes before an owed AK, and an AK before data
callee 15 128: receive 09ef0000000120c0010742 | called 42; open 43 | ok; receive 04f000018044 | message 44; taken | ok; next | 09df0001000120c0010743; next | 046f000101; next | -
callee 15 128: receive 09ef0000000120c0010742 | called 42; open 43 | ok; next | 09df0001000120c0010743; hand 41 | ok; receive 04f000018044 | message 44; taken | ok; next | 046f000101; next | 04f000018041; next | -
# an AK grants the credit of the settings whatever waits, and names no DT of a message that wasn't taken
callee 15 128: receive 09ef0000000120c0010742 | called 42; open 43 | ok; next | 09df0001000120c0010743; receive 04f000018044 | message 44; receive 04f000018145 | message 45; receive 04f000010246 | nothing; taken | ok; next | 046f000101; next | -; counts | 1 0
callee 15 128: receive 09ef0000000120c0010742 | called 42; open 43 | ok; next | 09df0001000120c0010743; receive 04f000010044 | nothing; receive 04f000010145 | nothing; receive 04f000018246 | message 444546; next | 046f000102; taken | ok; next | 046f000103
# negotiation: the callee answers the least of the proposal, 1,024 and its own size
callee 1 128: receive 09e10000000120c0010742 | called 42; open 43 | ok; next | 09d10001000120c0010743
callee 1 128: receive 09e10000000120c0010842 | called 42; open 43 | ok; next | 09d10001000120c0010743
callee 1 128: receive 09e10000000120c0010942 | called 42; open 43 | ok; next | 09d10001000120c0010743
callee 1 128: receive 09e10000000120c0010a42 | called 42; open 43 | ok; next | 09d10001000120c0010743
callee 1 128: receive 09e10000000120c0010b42 | called 42; open 43 | ok; next | 09d10001000120c0010743
callee 1 128: receive 09e10000000120c0010c42 | called 42; open 43 | ok; next | 09d10001000120c0010743
callee 1 128: receive 09e10000000120c0010d42 | called 42; open 43 | ok; next | 09d10001000120c0010743
callee 1 256: receive 09e10000000120c0010742 | called 42; open 43 | ok; next | 09d10001000120c0010743
callee 1 256: receive 09e10000000120c0010842 | called 42; open 43 | ok; next | 09d10001000120c0010843
callee 1 256: receive 09e10000000120c0010942 | called 42; open 43 | ok; next | 09d10001000120c0010843
callee 1 256: receive 09e10000000120c0010a42 | called 42; open 43 | ok; next | 09d10001000120c0010843
callee 1 256: receive 09e10000000120c0010b42 | called 42; open 43 | ok; next | 09d10001000120c0010843
callee 1 256: receive 09e10000000120c0010c42 | called 42; open 43 | ok; next | 09d10001000120c0010843
callee 1 256: receive 09e10000000120c0010d42 | called 42; open 43 | ok; next | 09d10001000120c0010843
callee 1 512: receive 09e10000000120c0010742 | called 42; open 43 | ok; next | 09d10001000120c0010743
callee 1 512: receive 09e10000000120c0010842 | called 42; open 43 | ok; next | 09d10001000120c0010843
callee 1 512: receive 09e10000000120c0010942 | called 42; open 43 | ok; next | 09d10001000120c0010943
callee 1 512: receive 09e10000000120c0010a42 | called 42; open 43 | ok; next | 09d10001000120c0010943
callee 1 512: receive 09e10000000120c0010b42 | called 42; open 43 | ok; next | 09d10001000120c0010943
callee 1 512: receive 09e10000000120c0010c42 | called 42; open 43 | ok; next | 09d10001000120c0010943
callee 1 512: receive 09e10000000120c0010d42 | called 42; open 43 | ok; next | 09d10001000120c0010943
callee 1 1024: receive 09e10000000120c0010742 | called 42; open 43 | ok; next | 09d10001000120c0010743
callee 1 1024: receive 09e10000000120c0010842 | called 42; open 43 | ok; next | 09d10001000120c0010843
callee 1 1024: receive 09e10000000120c0010942 | called 42; open 43 | ok; next | 09d10001000120c0010943
callee 1 1024: receive 09e10000000120c0010a42 | called 42; open 43 | ok; next | 09d10001000120c0010a43
callee 1 1024: receive 09e10000000120c0010b42 | called 42; open 43 | ok; next | 09d10001000120c0010a43
callee 1 1024: receive 09e10000000120c0010c42 | called 42; open 43 | ok; next | 09d10001000120c0010a43
callee 1 1024: receive 09e10000000120c0010d42 | called 42; open 43 | ok; next | 09d10001000120c0010a43
# negotiation: no CC above the proposal
caller 1 128: open 42 | ok; next | 09e10000000120c0010742
caller 1 128: open 42 | ok; receive 09d10001000120c0010743 | confirmed 43
caller 1 128: open 42 | ok; receive 09d10001000120c0010843 | refused 2 133
caller 1 128: open 42 | ok; receive 09d10001000120c0010943 | refused 2 133
caller 1 128: open 42 | ok; receive 09d10001000120c0010a43 | refused 2 133
caller 1 128: open 42 | ok; receive 09d10001000120c0010b43 | refused 2 133
caller 1 128: open 42 | ok; receive 09d10001000120c0010c43 | refused 2 133
caller 1 128: open 42 | ok; receive 09d10001000120c0010d43 | refused 2 133
caller 1 256: open 42 | ok; next | 09e10000000120c0010842
caller 1 256: open 42 | ok; receive 09d10001000120c0010743 | confirmed 43
caller 1 256: open 42 | ok; receive 09d10001000120c0010843 | confirmed 43
caller 1 256: open 42 | ok; receive 09d10001000120c0010943 | refused 2 133
caller 1 256: open 42 | ok; receive 09d10001000120c0010a43 | refused 2 133
caller 1 256: open 42 | ok; receive 09d10001000120c0010b43 | refused 2 133
caller 1 256: open 42 | ok; receive 09d10001000120c0010c43 | refused 2 133
caller 1 256: open 42 | ok; receive 09d10001000120c0010d43 | refused 2 133
caller 1 512: open 42 | ok; next | 09e10000000120c0010942
caller 1 512: open 42 | ok; receive 09d10001000120c0010743 | confirmed 43
caller 1 512: open 42 | ok; receive 09d10001000120c0010843 | confirmed 43
caller 1 512: open 42 | ok; receive 09d10001000120c0010943 | confirmed 43
caller 1 512: open 42 | ok; receive 09d10001000120c0010a43 | refused 2 133
caller 1 512: open 42 | ok; receive 09d10001000120c0010b43 | refused 2 133
caller 1 512: open 42 | ok; receive 09d10001000120c0010c43 | refused 2 133
caller 1 512: open 42 | ok; receive 09d10001000120c0010d43 | refused 2 133
caller 1 1024: open 42 | ok; next | 09e10000000120c0010a42
caller 1 1024: open 42 | ok; receive 09d10001000120c0010743 | confirmed 43
caller 1 1024: open 42 | ok; receive 09d10001000120c0010843 | confirmed 43
caller 1 1024: open 42 | ok; receive 09d10001000120c0010943 | confirmed 43
caller 1 1024: open 42 | ok; receive 09d10001000120c0010a43 | confirmed 43
caller 1 1024: open 42 | ok; receive 09d10001000120c0010b43 | refused 2 133
caller 1 1024: open 42 | ok; receive 09d10001000120c0010c43 | refused 2 133
caller 1 1024: open 42 | ok; receive 09d10001000120c0010d43 | refused 2 133";
