//! Ends of levels link and link-sr: rows worked out by hand.

use drill_ends::{EndEvent, StationEnd, StationPlan, Told};
use er_base::{Moment, decimal_word, hex_word, octets_of};
use er_settings::Settings;
use std::alloc::Global;
use std::test::Fail;

// A row: its name, the kind, the events of a called station of window 4 (r octets that come, h a payload that is handed down, c- a release by
// the user), and what each told.
const ROWS: &str =
    "a gap is filled|selective|r7e013febdf7e r7e010202b28c7e r7e010000109c7e|up 7e017383577e ;7e010d7acd7e ;took 00 took 02 7e014112457e ;
two gaps|selective|r7e013febdf7e r7e010202b28c7e r7e010606f6ad7e r7e010000109c7e r7e01040454bd7e|up 7e017383577e ;7e010d7acd7e ;7e014d7d5e8f7e ;took 00 took 02 7e014112457e ;took 04 took 06 7e01811e837e ;
a gap with go-back|go-back|r7e013febdf7e r7e010202b28c7e r7e010000109c7e r7e010202b28c7e|up 7e017383577e ;7e01095e8b7e ;took 00 7e012114267e ;took 02 7e014112457e ;
REJ|selective|r7e013febdf7e r7e01095e8b7e h41|up 7e017383577e ;R 1 3 7e011fe9fe7e ;refused ;
SREJ with go-back|go-back|r7e013febdf7e r7e010d7acd7e h41|up 7e017383577e ;R 1 3 7e011fe9fe7e ;refused ;
the user releases|selective|r7e013febdf7e r7e010202b28c7e c- r7e010000109c7e|up 7e017383577e ;7e010d7acd7e ;R 0 0 7e035331457e ;;";

fn told_of(alloc: Global, kind: &str, events: &str) -> Result<Vec<u8>, Fail> {
    let settings = Settings::new(4, 15, 128, 1_000, 5, 40_000)?;
    let plan = StationPlan::new(kind == "selective", settings);
    let mut end = StationEnd::new(alloc, false, &plan)?;
    let mut text = Vec::new(alloc);
    for word in events.split(' ') {
        event(alloc, &mut end, word.as_bytes(), &mut text)?;
    }
    Ok(text)
}

fn is_told(alloc: Global, row: &str) -> Result<bool, Fail> {
    let (kind, row) = row.split_once('|').ok_or("kind")?;
    let (events, expected) = row.split_once('|').ok_or("events")?;
    let text = told_of(alloc, kind, events)?;
    Ok(text.as_slice() == expected.as_bytes())
}

#[test]
fn rows(rt: HostRuntime) -> Result<(), Fail> {
    for row in ROWS.split('\n') {
        let (name, row) = row.split_once('|').ok_or("name")?;
        assert!(rt; is_told(rt.alloc(), row)?, "{name}");
    }
    Ok(())
}

fn event(alloc: Global, end: &mut StationEnd, word: &[u8], text: &mut Vec<u8>) -> Result<(), Fail> {
    let (kind, rest) = word.split_first().ok_or("event")?;
    let mut octets = Vec::new(alloc);
    octets_of(rest, &mut octets)?;
    let told = match *kind {
        b'r' => end.answer(alloc, Moment::new(0), &EndEvent::Receive(octets.as_slice()))?,
        b'h' => end.answer(alloc, Moment::new(0), &EndEvent::Send(octets.as_slice()))?,
        _ => end.answer(alloc, Moment::new(0), &EndEvent::Release(0))?,
    };
    for one in told.iter() {
        tell(one, text)?;
    }
    text.push(b';')?;
    Ok(())
}

fn tell(told: &Told, text: &mut Vec<u8>) -> Result<(), Fail> {
    match told {
        Told::Up => text.extend_from_slice(b"up ")?,
        Told::Arrived(payload) => {
            text.extend_from_slice(b"took ")?;
            hex_word(payload.as_slice(), text)?;
            text.push(b' ')?;
        }
        Told::Released(release) => {
            text.extend_from_slice(b"R ")?;
            decimal_word(release.reason as u64, text)?;
            text.push(b' ')?;
            decimal_word(release.sub as u64, text)?;
            text.push(b' ')?;
        }
        Told::Frame(frame) => {
            hex_word(frame.as_slice(), text)?;
            text.push(b' ')?;
        }
        Told::Refused(_) => text.extend_from_slice(b"refused ")?,
        _ => text.extend_from_slice(b"more ")?,
    }
    Ok(())
}
