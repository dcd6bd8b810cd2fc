//! Words, numbers and octets.

use er_base::{
    LineFault, NoMemory, Octets, PrintedWord, TextFault, laws, put_line, read_exact, read_number16,
    read_text,
};
use std::alloc::AllocError;
use std::io;
use std::io::ErrorKind;
use std::test::Fail;

#[test]
fn makes_want_of_memory(rt: HostRuntime) {
    let want = NoMemory::from(AllocError);
    let is_made = NoMemory::of_system(&io::Error::from(ErrorKind::OutOfMemory)) == Some(want)
        && NoMemory::of_system(&io::Error::from(ErrorKind::NotFound)).is_none()
        && TextFault::from(AllocError) == TextFault::NoMemory(want);
    assert!(rt; is_made);
}

// Whether the word 0aFF is read as its two octets.
fn is_read(read: Result<Octets, LineFault>) -> bool {
    match read {
        Ok(text) => text.as_slice() == [0x0A, 0xFF].as_slice(),
        Err(_) => false,
    }
}

#[test]
fn reads_arguments(rt: HostRuntime) {
    let number = read_number16(rt.alloc(), b"0123456789abCDef");
    let is_whole = number == Ok(0x0123_4567_89AB_CDEF)
        && is_read(read_text(rt.alloc(), b"0aFF", 2))
        && is_read(read_exact(rt.alloc(), b"0aFF", 2));
    assert!(rt; is_whole);
}

#[test]
fn prints_a_line(rt: HostRuntime) -> Result<(), Fail> {
    let mut out = Vec::from_slice(rt.alloc(), b"> ".as_slice())?;
    let words = [
        PrintedWord::Decimal(7),
        PrintedWord::Hexadecimal(b"\x0A\xFF"),
        PrintedWord::Hexadecimal(b""),
        PrintedWord::Plain(b"e"),
    ];
    put_line(&PrintedWord::Plain(b"send"), &words, &mut out)?;
    assert!(rt; out.as_slice() == b"> send 7 0aff - e\n".as_slice());
    laws::printed_lines();
    laws::printed_words();
    Ok(())
}
