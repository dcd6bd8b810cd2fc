//! What a carrier gives, whichever way the octets are cut.

ghost use Rattle.std.specs.Prelude.{◌≤◌, length, IfOk};
ghost use Rattle.relay_script.specs.ScriptRanges.{IsScriptInRange};

use er_base::{NoMemory, Room, Side, octets_of};
use relay_carrier::Carrier;
use relay_script::{Script, read};
use std::alloc::Global;
use std::test::Fail;

// A script with a semicolon for each LF, the side, what comes from it and what is given for it, as worked out by hand.
const WORKED: &str = "\
relay 1;lose e sabm 1|e|7e013febdf7e7e013febdf7e|7e7e013febdf7e
relay 1;repeat r ua 1|r|7e017383577e|7e017383577e7e017383577e
relay 1;alter e any 2 3 01|e|7e013febdf7e7e013febdf7e|7e013febdf7e7e013eebdf7e
relay 1;put r any 1 ff|r|7e017383577e|ff7e017383577e
relay 1;lose e sabm 1;put e sabm 1 00|e|7e013febdf7e7e013febdf7e|007e7e013febdf7e
relay 1;close e sabm 1|e|7e013febdf7e7e013febdf7e|7e013febdf7e
relay 1|e|00007e013febdf7e7e013febdf7e7e013febde7e|00007e013febdf7e7e013febdf7e7e013febde7e
relay 1|r|7e017383577e|7e017383577e
relay 1;lose e any 1|e|7e013febdf7e013febdf7e7e0100010004f0000180ff82987e|7e013febdf7e7e0100010004f0000180ff82987e
relay 1;repeat e sabm 2|e|7e013febdf7e013febdf7e7e0100010004f0000180ff82987e|7e013febdf7e013febdf7e013febdf7e7e0100010004f0000180ff82987e
relay 1;alter e i 1 2 02;alter r any 1 7 01|e|7e013febdf7e7e0100010004f0000180ff82987e|7e013febdf7e7e0300010004f0000180ff82987e
relay 1;put r ua 1 7e;repeat r any 1;alter r ua 1 1 ff|e|7e013febdf7e|7e013febdf7e
relay 1;put r ua 1 7e;repeat r any 1;alter r ua 1 1 ff|r|7e017383577e7e017383577e|817e017383577e7e017383577e7e017383577e
relay 1;lose e bad 1;lose e dt 1;repeat e other 1|e|7e013febdf7e7e013febde7e7e0100010004f0000180ff82987e7e01ffe7197e7e0102010004f0000181ffa01a7e|7e013febdf7e7e7e7e01ffe7197e7e01ffe7197e7e0102010004f0000181ffa01a7e
relay 1;close e dt 2;put e dt 2 00|e|7e013febdf7e7e0100010004f0000180ff82987e7e0102010004f0000181ffa01a7e7e013febdf7e|7e013febdf7e7e0100010004f0000180ff82987e007e0102010004f0000181ffa01a7e";

// The script of a text in which semicolons stand for LF.
fn script_of(alloc: Global, text: &str) -> Result<Script, Fail>
    ensures { IfOk result (λ script. IsScriptInRange script) }
{
    let mut octets = Vec::new(alloc);
    for octet in text.as_bytes() {
        octets.push(if *octet == b';' { b'\n' } else { *octet })?;
    }
    Ok(read(alloc, octets.as_slice())?)
}

// Takes octets once, where no line has closed the connection; what is given is added.
fn take_once(
    alloc: Global,
    script: &Script,
    carrier: &mut Carrier,
    octets: &[u8],
    all: &mut Vec<u8>,
) -> Result<usize, NoMemory>
    requires { IsScriptInRange script.now }
    ensures { IfOk result (λ used. used ≤ length octets.now) }
{
    if carrier.is_closed() {
        return Ok(octets.len());
    }
    let mut came = Room::with_capacity(alloc, 4_096)?;
    let mut given = Vec::new(alloc);
    let taken = carrier.take(alloc, script, 0, octets, &mut came, &mut given)?;
    all.extend_from_slice(given.as_slice())?;
    Ok(taken.used)
}

// Takes a piece whole.
fn take_all(
    alloc: Global,
    script: &Script,
    carrier: &mut Carrier,
    piece: &[u8],
    all: &mut Vec<u8>,
) -> Result<(), NoMemory>
    requires { IsScriptInRange script.now }
{
    let mut rest = piece;
    for _ in 0..piece.len() {
        let used = take_once(alloc, script, carrier, rest, all)?;
        rest = rest.split_at(used).1;
    }
    Ok(())
}

// The side ends, where no line has closed the connection.
fn end(alloc: Global, carrier: &mut Carrier, all: &mut Vec<u8>) -> Result<(), NoMemory> {
    if carrier.is_closed() {
        return Ok(());
    }
    let mut came = Room::with_capacity(alloc, 4_096)?;
    let mut given = Vec::new(alloc);
    carrier.end(0, &mut came, &mut given)?;
    all.extend_from_slice(given.as_slice())?;
    Ok(())
}

// All that is given of octets that come so many at a time, what is held in the end with it.
fn given(
    alloc: Global,
    script: &Script,
    side: Side,
    octets: &[u8],
    cut: usize,
) -> Result<Vec<u8>, NoMemory>
    requires { IsScriptInRange script.now }
{
    let mut carrier = Carrier::new(alloc, side)?;
    let mut all = Vec::new(alloc);
    for piece in octets.chunks(cut.max(1)) {
        take_all(alloc, script, &mut carrier, piece, &mut all)?;
    }
    end(alloc, &mut carrier, &mut all)?;
    Ok(all)
}

// Whether a row is so at each of four cuts.
fn is_so(alloc: Global, row: &str) -> Result<bool, Fail> {
    let mut parts = row.split('|');
    let (Some(text), Some(side), Some(sent), Some(wanted)) = (
        parts.next(),
        parts.next(),
        parts.next(),
        parts.next(),
    ) else {
        return Ok(false);
    };
    let script = script_of(alloc, text)?;
    let side = if side == "e" { Side::E } else { Side::R };
    let mut came = Vec::new(alloc);
    octets_of(sent.as_bytes(), &mut came)?;
    let mut expected = Vec::new(alloc);
    octets_of(wanted.as_bytes(), &mut expected)?;
    for cut in [1, 2, 5, 4_096] {
        if given(alloc, &script, side, came.as_slice(), cut)?.as_slice() != expected.as_slice() {
            return Ok(false);
        }
    }
    Ok(true)
}

#[test]
fn worked_rows(rt: HostRuntime) -> Result<(), Fail> {
    for row in WORKED.split('\n') {
        assert!(rt; is_so(rt.alloc(), row)?);
    }
    Ok(())
}

// A flag, so many zeros, and a SABM behind its own flag.
fn long_run(alloc: Global, zeros: usize) -> Result<Vec<u8>, NoMemory> {
    let mut octets = Vec::new(alloc);
    octets.push(0x7e)?;
    octets.resize(zeros.saturating_add(1), 0)?;
    octets.extend_from_slice(&[0x7e, 0x01, 0x3f, 0xeb, 0xdf, 0x7e])?;
    Ok(octets)
}

// The same with a flag in the place of what stands behind the flag that follows the zeros.
fn lost_behind(alloc: Global, zeros: usize) -> Result<Vec<u8>, NoMemory> {
    let mut octets = Vec::new(alloc);
    octets.push(0x7e)?;
    octets.resize(zeros.saturating_add(1), 0)?;
    octets.extend_from_slice(&[0x7e, 0x7e])?;
    Ok(octets)
}

// Whether the first unit behind a run is that which closes it, or the SABM behind it.
fn loses(alloc: Global, zeros: usize, text: &str, wanted: &[u8], cut: usize) -> Result<bool, Fail> {
    let script = script_of(alloc, text)?;
    let came = long_run(alloc, zeros)?;
    let all = given(alloc, &script, Side::E, came.as_slice(), cut)?;
    Ok(all.as_slice() == wanted)
}

#[test]
fn longest_unit(rt: HostRuntime) -> Result<(), Fail> {
    let unit = [0x7e, 0x01, 0x3f, 0xeb, 0xdf, 0x7e];
    assert!(rt; loses(rt.alloc(), 4_094, "relay 1;lose e bad 1", &unit, 4_096)?);
    assert!(rt; loses(rt.alloc(), 4_094, "relay 1;lose e bad 1", &unit, 7)?);
    let kept = lost_behind(rt.alloc(), 4_095)?;
    assert!(rt;
        loses(
            rt.alloc(),
            4_095,
            "relay 1;lose e any 1",
            kept.as_slice(),
            4_096
        )?
    );
    assert!(rt;
        loses(
            rt.alloc(),
            4_095,
            "relay 1;lose e any 1",
            kept.as_slice(),
            11
        )?
    );
    Ok(())
}
