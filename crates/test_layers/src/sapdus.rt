//! SaPDUs, written and read.

ghost use Rattle.sapdu.specs.SpellingLaws.{HasUserOctets, HasNumber};
ghost use Rattle.sapdu.specs.Reading.{view};

use er_base::{NoMemory, Room, decimal, octets_of};
use sapdu::{MOST_OCTETS, SaPdu, laws, read, write_into};
use std::alloc::Global;
use std::test::Fail;

// The octets were worked out by hand from the layouts of SUBSET-037: engine 5 calls the radio block
// centre 9, with Rb 0102030405060708, Ra 1112131415161718 and MACs 2122232425262728 (hexadecimal).

const AU1: &[u8] = b"\x42\x00\x00\x05\x01\x01\x02\x03\x04\x05\x06\x07\x08";

const AU2: &[u8] =
    b"\x25\x00\x00\x09\x01\x11\x12\x13\x14\x15\x16\x17\x18\x21\x22\x23\x24\x25\x26\x27\x28";

const AU3: &[u8] = b"\x06\x21\x22\x23\x24\x25\x26\x27\x28";

const AR: &[u8] = b"\x13\x21\x22\x23\x24\x25\x26\x27\x28";

const DT: &[u8] = b"\x0A\x61\x62\x21\x22\x23\x24\x25\x26\x27\x28";

const DI: &[u8] = b"\x11\x04\x01";

const MAC: u64 = 0x2122_2324_2526_2728;

// Whether the octets are read as this SaPDU, and it is written as these octets.
fn is_spelled(alloc: Global, octets: &[u8], pdu: &SaPdu, flag: bool) -> Result<bool, NoMemory>
    requires user { HasUserOctets (view pdu.now) }
    requires number { HasNumber (view pdu.now) }
{
    if read(octets) != Ok((*pdu, flag)) {
        return Ok(false);
    }
    let mut out = Room::with_capacity(alloc, MOST_OCTETS)?;
    laws::lengths_of_spellings();
    write_into(pdu, flag, &mut out);
    Ok(out.held() == octets)
}

#[test]
fn reads_and_writes_each_kind(rt: HostRuntime) -> Result<(), Fail> {
    let (alloc, user) = (rt.alloc(), b"ab");
    let au1 = SaPdu::Au1 {
        id: 5,
        feature: 1,
        rb: 0x0102_0304_0506_0708,
    };
    let au2 = SaPdu::Au2 {
        id: 9,
        feature: 1,
        ra: 0x1112_1314_1516_1718,
        mac: MAC,
    };
    assert!(rt; is_spelled(alloc, AU1, &au1, false)?);
    assert!(rt; is_spelled(alloc, AU2, &au2, true)?);
    assert!(rt; is_spelled(alloc, AU3, &SaPdu::Au3 { mac: MAC }, false)?);
    assert!(rt; is_spelled(alloc, AR, &SaPdu::Ar { mac: MAC }, true)?);
    assert!(rt; is_spelled(alloc, DT, &SaPdu::Dt { user, mac: MAC }, false)?);
    assert!(rt; is_spelled(alloc, DI, &SaPdu::Di { reason: 4, sub: 1 }, true)?);
    Ok(())
}

// A header, how many octets there are, each like it, and what is wrong with them, if anything.
const READ: &str = "\
42 0|Short { need: 1, found: 0 }
42 12|Short { need: 13, found: 12 }
43 14|Long { max: 13, found: 14 }
24 20|Short { need: 21, found: 20 }
25 22|Long { max: 21, found: 22 }
06 8|Short { need: 9, found: 8 }
07 10|Long { max: 9, found: 10 }
12 8|Short { need: 9, found: 8 }
13 10|Long { max: 9, found: 10 }
0a 9|Short { need: 10, found: 9 }
0b 1033|Long { max: 1032, found: 1033 }
10 2|Short { need: 3, found: 2 }
11 4|Long { max: 3, found: 4 }
ff 1|Kind(255)
0c 13|Kind(12)
43 13|
24 21|
07 9|
12 9|
0b 10|
0a 1032|
10 3|";

// Whether so many octets, at most 1,100 and each like the header, are read so.
fn is_read_so(alloc: Global, row: &str) -> Result<bool, Fail> {
    let (header, row) = row.split_once(' ').ok_or("no count")?;
    let (count, fault) = row.split_once('|').ok_or("no fault")?;
    let mut octets = Vec::new(alloc);
    octets_of(header.as_bytes(), &mut octets)?;
    let header = octets.first().copied().unwrap_or(0);
    let count = decimal(count.as_bytes()).ok_or("no count")?.min(1_100);
    octets.resize(count as usize, header)?;
    let shown = match read(octets.as_slice()) {
        Ok(_) => String::new(alloc),
        Err(fault) => format!(in alloc; "{fault:?}")?,
    };
    Ok(shown.as_str() == fault)
}

#[test]
fn refuses_what_is_no_sapdu(rt: HostRuntime) -> Result<(), Fail> {
    for row in READ.split('\n') {
        assert!(rt; is_read_so(rt.alloc(), row)?, "{row}");
    }
    Ok(())
}
