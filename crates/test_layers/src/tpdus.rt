//! TPDUs, written and read.

use er_base::{decimal, octets_of};
use std::alloc::Global;
use std::test::Fail;
use x224_tpdu::read;

// Octets in hexadecimal, with so many of 41 behind them, and how the text of what is read of them begins. They were worked out by
// hand from the tables of ITU-T X.224, clause 13, and from this profile's order of faults, and compared with a second reader written
// in Python. Of the codes there is each octet next to one, and the first and last octet of each; of parameters each order and number.
const ROWS: &str = "\
-|Err(Empty)
05c000010001|Ok(Dc { dst: 1, src: 1 })
04f0000180|Err(UserData { max: 1019, found: 0 })
04f000018041|Ok(Dt { dst: 1, last: true, number: 0, user: [65] })
0461000180|Err(Value { code: 96, octet: 128 })
09ef0000000141c00107|Err(Class(65))
09ef0000000120c00106|Err(Value { code: 192, octet: 6 })
09df0001000120c50107|Err(Parameter(197))
0361ff|Err(Length { li: 3, found: 3 })
00|Err(Length { li: 0, found: 1 })
ff|Err(Length { li: 255, found: 1 })
00e0000000012000|Err(Length { li: 0, found: 8 })
01|Err(Length { li: 1, found: 1 })
04f00001|Err(Length { li: 4, found: 4 })
05c0000100|Err(Length { li: 5, found: 5 })
06e000000001|Err(Length { li: 6, found: 6 })
fe01|Err(Length { li: 254, found: 2 })
04c0000100|Err(Length { li: 4, found: 5 })
06c00001000100|Err(Length { li: 6, found: 7 })
03f00001|Err(Length { li: 3, found: 4 })
05f000018041|Err(Length { li: 5, found: 6 })
03600001|Err(Length { li: 3, found: 4 })
056000010000|Err(Length { li: 5, found: 6 })
05e000000001|Err(Length { li: 5, found: 6 })
05d000010001|Err(Length { li: 5, found: 6 })
058000010001|Err(Length { li: 5, found: 6 })
03700001|Err(Length { li: 3, found: 4 })
0100|Err(Code(0))
015f|Err(Code(95))
0171|Err(Code(113))
017f|Err(Code(127))
0181|Err(Code(129))
018f|Err(Code(143))
01bf|Err(Code(191))
01c1|Err(Code(193))
01cf|Err(Code(207))
01f1|Err(Code(241))
01ff|Err(Code(255))
0160|Err(Length { li: 1, found: 2 })
016f|Err(Length { li: 1, found: 2 })
0170|Err(Length { li: 1, found: 2 })
0180|Err(Length { li: 1, found: 2 })
01c0|Err(Length { li: 1, found: 2 })
01d0|Err(Length { li: 1, found: 2 })
01df|Err(Length { li: 1, found: 2 })
01e0|Err(Length { li: 1, found: 2 })
01ef|Err(Length { li: 1, found: 2 })
01f0|Err(Length { li: 1, found: 2 })
06e00000000100|Err(Class(0))
06df0001000100|Err(Class(0))
06e0000000011f|Err(Class(31))
06df000100011f|Err(Class(31))
06e00000000121|Err(Class(33))
06df0001000121|Err(Class(33))
06e00000000140|Err(Class(64))
06df0001000140|Err(Class(64))
06e000000001ff|Err(Class(255))
06df00010001ff|Err(Class(255))
06e00000000120|Ok(Cr { credit: 0, dst: 0, src: 1, size: 128, user: [] })
09e00000000120c00107|Ok(Cr { credit: 0, dst: 0, src: 1, size: 128, user: [] })
09e00000000120c0010d|Ok(Cr { credit: 0, dst: 0, src: 1, size: 8192, user: [] })
0fe50000000120c10101c20102c00108|Ok(Cr { credit: 5, dst: 0, src: 1, size: 256, user: [] })
0fe50000000120c10101c00108c20102|Ok(Cr { credit: 5, dst: 0, src: 1, size: 256, user: [] })
0fe50000000120c20102c10101c00108|Ok(Cr { credit: 5, dst: 0, src: 1, size: 256, user: [] })
0fe50000000120c20102c00108c10101|Ok(Cr { credit: 5, dst: 0, src: 1, size: 256, user: [] })
0fe50000000120c00108c10101c20102|Ok(Cr { credit: 5, dst: 0, src: 1, size: 256, user: [] })
0fe50000000120c00108c20102c10101|Ok(Cr { credit: 5, dst: 0, src: 1, size: 256, user: [] })
08e000000001200100|Ok(Cr { credit: 0, dst: 0, src: 1, size: 128, user: [] })
0ae00000000120c0020708|Err(Parameter(192))
08e00000000120c000|Err(Parameter(192))
0ce00000000120c00107c00107|Err(Parameter(192))
0ee00000000120c00107c100c00107|Err(Parameter(192))
07e00000000120c0|Err(Parameter(192))
07e0000000012001|Err(Parameter(1))
08e00000000120c001|Err(Parameter(192))
09e00000000120850207|Err(Parameter(133))
0be00000000120c00107c101|Err(Parameter(193))
0ae00000000120ff02c001|Ok(Cr { credit: 0, dst: 0, src: 1, size: 128, user: [] })
06d00001000120|Ok(Cc { credit: 0, dst: 1, src: 1, size: 128, user: [] })
09d00001000120c0010a|Ok(Cc { credit: 0, dst: 1, src: 1, size: 1024, user: [] })
08d00001000120c100|Ok(Cc { credit: 0, dst: 1, src: 1, size: 128, user: [] })
08d00001000120c200|Ok(Cc { credit: 0, dst: 1, src: 1, size: 128, user: [] })
0ddf0001000120c100c00109c200|Ok(Cc { credit: 15, dst: 1, src: 1, size: 512, user: [] })
08d00001000120c300|Err(Parameter(195))
08d00001000120bf00|Err(Parameter(191))
08d000010001200000|Err(Parameter(0))
0cd00001000120c00107c00107|Err(Parameter(192))
0bd00001000120c00107e000|Err(Parameter(224))
0680000100010a|Ok(Dr { dst: 1, src: 1, reason: 10, user: [] })
0880000100010ae000|Ok(Dr { dst: 1, src: 1, reason: 10, user: [] })
0b80000100010ae000e00101|Ok(Dr { dst: 1, src: 1, reason: 10, user: [] })
0980000100010ac00107|Err(Parameter(192))
0880000100010ae100|Err(Parameter(225))
0780000100010ae0|Err(Parameter(224))
0880000100010ae001|Err(Parameter(224))
0470000105|Ok(Er { dst: 1, cause: 5 })
0670000105ff00|Ok(Er { dst: 1, cause: 5 })
0c70000105c00106c00106c100|Ok(Er { dst: 1, cause: 5 })
0570000105c1|Err(Parameter(193))
0670000105c101|Err(Parameter(193))
09e00000000120c00106|Err(Value { code: 192, octet: 6 })
09e00000000120c0010e|Err(Value { code: 192, octet: 14 })
09d00001000120c00100|Err(Value { code: 192, octet: 0 })
09d00001000120c001ff|Err(Value { code: 192, octet: 255 })
0460000100|Ok(Ak { credit: 0, dst: 1, number: 0 })
046f00017f|Ok(Ak { credit: 15, dst: 1, number: 127 })
0460000180|Err(Value { code: 96, octet: 128 })
046f0001ff|Err(Value { code: 96, octet: 255 })
04f000010041|Ok(Dt { dst: 1, last: false, number: 0, user: [65] })
04f00001ff41|Ok(Dt { dst: 1, last: true, number: 127, user: [65] })
04f0abcd7f4142|Ok(Dt { dst: 43981, last: false, number: 127, user: [65, 66] })
05c012345678|Ok(Dc { dst: 4660, src: 22136 })
05c00001000141|Err(UserData { max: 0, found: 1 })
046000010041|Err(UserData { max: 0, found: 1 })
047000010541|Err(UserData { max: 0, found: 1 })
046000018041|Err(Value { code: 96, octet: 128 })
07e00000000121c0|Err(Class(33))
0ad00001000120c00106c1|Err(Parameter(193))
06e00000000120 32|Ok(Cr { credit: 0, dst: 0, src: 1, size: 128, user: [65,
06e00000000120 33|Err(UserData { max: 32, found: 33 })
06d00001000120 32|Ok(Cc { credit: 0, dst: 1, src: 1, size: 128, user: [65,
06d00001000120 33|Err(UserData { max: 32, found: 33 })
06800001000180 64|Ok(Dr { dst: 1, src: 1, reason: 128, user: [65,
06800001000180 65|Err(UserData { max: 64, found: 65 })
04f0000180 1019|Ok(Dt { dst: 1, last: true, number: 0, user: [65,
04f0000180 1020|Err(UserData { max: 1019, found: 1020 })
fee0000000012001f6 246|Ok(Cr { credit: 0, dst: 0, src: 1, size: 128, user: [] })
fee0000000012001f7 246|Err(Parameter(1))
ffe0000000012001f7 247|Err(Length { li: 255, found: 256 })";

// Whether the octets of a row are read so.
fn is_read(alloc: Global, row: &str) -> Result<bool, Fail> {
    let (word, wanted) = row.split_once('|').ok_or("no answer")?;
    let (word, more) = word.split_once(' ').unwrap_or((word, "0"));
    let more = decimal(more.as_bytes()).ok_or("no count")?.min(1_100);
    let mut octets = Vec::new(alloc);
    octets_of(word.as_bytes(), &mut octets)?;
    for _ in 0..more {
        octets.push(0x41)?;
    }
    let answer = format!(in alloc; "{:?}", read(octets.as_slice()))?;
    Ok(answer.as_str().starts_with(wanted))
}

#[test]
fn reads_each_row(rt: HostRuntime) -> Result<(), Fail> {
    for row in ROWS.split('\n') {
        assert!(rt; is_read(rt.alloc(), row)?, "{row}");
    }
    Ok(())
}
