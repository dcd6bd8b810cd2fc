//! Lines of scenarios, read.

use er_scenario::{laws, print, read};
use std::alloc::Global;
use std::test::Fail;

// The level of a drill, its lines as they are written and as they are printed, by hand from the table of lines. Drills stand between `~`.
const PRINTED: &str = "\
safe|fixed 64 0 16777215 0123456789abcdef23456789abcdef01456789abcdef0123 89abcdef0123456789abcdef0123456789abcdef01234567
|fixed 64 0 16777215 0123456789abcdef23456789abcdef01456789abcdef0123 89abcdef0123456789abcdef0123456789abcdef01234567
~safe|link 64 0 16777215 0123456789abcdef23456789abcdef01456789abcdef0123 - 0000000000000000 FFFFFFFFffffffff
|link 64 0 16777215 0123456789abcdef23456789abcdef01456789abcdef0123 - 0000000000000000 ffffffffffffffff
~full|link 1 5 9 0123456789abcdef23456789abcdef01456789abcdef0123 89abcdef0123456789abcdef0123456789abcdef01234567 0123456789abcdef 00000000000000aB
|link 1 5 9 0123456789abcdef23456789abcdef01456789abcdef0123 89abcdef0123456789abcdef0123456789abcdef01234567 0123456789abcdef 00000000000000ab
~link|wire 64
send 1 r 0aFf
repeat 3 e
release 1 r 255
drain 1 100000
|wire 64
send 1 r 0aff
repeat 3 e
release 1 r 255
drain 1 100000
~safe| send  1 e -
pass 1 e
alter 1 e 18446744073709551615 FF
copy 1 e 64 r
|send 1 e -
pass 1 e
alter 1 e 18446744073709551615 ff
copy 1 e 64 r
~full|lose 2 r
put 1 r 00
take 1 r
tick 1000000000000000
|lose 2 r
put 1 r 00
take 1 r
tick 1000000000000000
~safe|set show 1
set setup 1000
set n2 10
set t1 60000
set size 1024
set credit 1
set window 1
|set window 1
set credit 1
set size 1024
set t1 60000
set n2 10
set setup 1000
set show 1
~safe|set window 1
set window 2
set n2 5
|set window 2
~safe|set show 1
set size 256
set show 0
set credit 3
|set credit 3
set size 256
~link|set n2 1
set modulo 128
set window 31
|set modulo 128
set window 31
set n2 1
~link|set modulo 128
set window 31
set window 7
set modulo 8
|~safe|set modulo 128
|set modulo 128
~link|set window 4
|set window 4
~link-sr|set window 4
|~link-sr|set window 3
wire 64
tick 5
drain 64 1
|set window 3
wire 64
tick 5
drain 64 1
~link-sr|set n2 1
set modulo 128
set window 31
|set modulo 128
set window 31
set n2 1
~link-sr|set modulo 128
|set modulo 128
~link-sr|set modulo 128
set window 31
set window 4
set modulo 8
|~safe|# set window 9


pass 1 e
#|pass 1 e
";

// Whether a drill is read, and printed as it must be.
fn is_printed(alloc: Global, drill: &str) -> Result<bool, Fail> {
    let (level, lines) = drill.split_once('|').ok_or("no level")?;
    let (written, again) = lines.split_once('|').ok_or("no lines")?;
    let text = format!(in alloc; "drill 1 {level}\n{written}")?;
    let scenario = read(alloc, text.as_bytes())?;
    let mut out = Vec::new(alloc);
    print(alloc, &scenario, &mut out)?;
    let expected = format!(in alloc; "drill 1 {level}\n{again}")?;
    Ok(out.as_slice() == expected.as_bytes())
}

#[test]
fn prints_each_line_as_it_is_written(rt: HostRuntime) -> Result<(), Fail> {
    for drill in PRINTED.split('~') {
        assert!(rt; is_printed(rt.alloc(), drill)?, "{drill}");
    }
    laws::printed_is_read();
    Ok(())
}
