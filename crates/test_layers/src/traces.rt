//! Lines of traces, read and printed.

ghost use Rattle.er_settings.specs.Ranges.{AllAllowed};

use er_base::{Moment, Release};
use er_trace::{
    Outcome, Trace, laws, print_entry, print_header, print_octets, print_outcome, print_send, read,
};
use std::alloc::Global;
use std::test::Fail;

// Each line as it is written and as it is printed, by hand from the table of lines; outcomes are dropped. Traces stand between `~`.
const PRINTED: &str = "\
> 0 0 call 5 9 0123456789abCDEF
> 1000000000000000 18446744073709551615 answer 16777215 0000000000000001
>  7 1  octets -
> 7 1 octets 7E01
> 7 1 send -
> 7 1 send 0aFf
> 7 1 take
> 7 1 release 255
> 7 1 tick
> 7 1 ended
> 7 1 fault
> 7 1 stalled
> 7 1 full 256
> 7 1 unserved 18446744073709551615
|> 0 0 call 5 9 0123456789abcdef
> 1000000000000000 18446744073709551615 answer 16777215 0000000000000001
> 7 1 octets -
> 7 1 octets 7e01
> 7 1 send -
> 7 1 send 0aff
> 7 1 take
> 7 1 release 255
> 7 1 tick
> 7 1 ended
> 7 1 fault
> 7 1 stalled
> 7 1 full 256
> 7 1 unserved 18446744073709551615
~> 7 1 tick
# > 7 1 foo


> 6 2 tick|> 7 1 tick
> 6 2 tick
~< 1 connected 16777215
< 0 accepted 41
< 18446744073709551615 taken -|~< 1 none
< 1 refused released 255 0
< 1 refused notconnected
< 1 refused length 0|~< 1 refused full 18446744073709551615
< 1 released 0 255 local
< 1 released 1 5 peer
< 1 octets 7e|~> 7 1 take
< 1 taken 41
> 8 1 take
< 1 none|> 7 1 take
> 8 1 take
";

// A trace printed again, without outcomes.
fn printed(alloc: Global, trace: &Trace) -> Result<Vec<u8>, Fail>
    requires { AllAllowed trace.now.settings }
{
    let mut out = Vec::new(alloc);
    print_header(&trace.settings, &mut out)?;
    for entry in trace.entries.as_slice() {
        print_entry(entry, &mut out)?;
    }
    Ok(out)
}

// Whether a trace is read, and printed as it must be.
fn is_printed(alloc: Global, row: &str) -> Result<bool, Fail> {
    let (written, again) = row.split_once('|').ok_or("no lines")?;
    let text = format!(in alloc; "trace 1 1 2 512 100 10 600000\n{written}")?;
    let expected = format!(in alloc; "trace 1 1 2 512 100 10 600000\n{again}")?;
    let trace = read(alloc, text.as_bytes())?;
    Ok(printed(alloc, &trace)?.as_slice() == expected.as_bytes())
}

#[test]
fn prints_each_event_as_it_is_written(rt: HostRuntime) -> Result<(), Fail> {
    for row in PRINTED.split('~') {
        assert!(rt; is_printed(rt.alloc(), row)?, "{row}");
    }
    laws::printed_is_read();
    Ok(())
}

const SENT: &[u8] = b"\x0A\xFF";

const LOCAL: Release = Release {
    reason: 1,
    sub: 5,
    by_peer: false,
};

const PEER: Release = Release {
    reason: 0,
    sub: 7,
    by_peer: true,
};

const OUTCOMES: [Outcome<'static>; 11] = [
    Outcome::Connected(9),
    Outcome::Accepted(SENT),
    Outcome::Taken(SENT),
    Outcome::Empty,
    Outcome::RefusedReleased(PEER),
    Outcome::RefusedNotConnected,
    Outcome::RefusedLength(1_024),
    Outcome::RefusedFull(16),
    Outcome::Released(LOCAL),
    Outcome::Released(PEER),
    Outcome::Octets(b"\x7E"),
];

const LENT: &str = "\
> 7 1 octets -
> 8 2 send 0aff
< 1 connected 9
< 1 accepted 0aff
< 1 taken 0aff
< 1 none
< 1 refused released 0 7
< 1 refused notconnected
< 1 refused length 1024
< 1 refused full 16
< 1 released 1 5 local
< 1 released 0 7 peer
< 1 octets 7e
";

#[test]
fn prints_outcomes_and_what_is_lent(rt: HostRuntime) -> Result<(), Fail> {
    let mut out = Vec::new(rt.alloc());
    print_octets(Moment::new(7), 1, b"", &mut out)?;
    print_send(Moment::new(8), 2, SENT, &mut out)?;
    for outcome in &OUTCOMES {
        print_outcome(1, outcome, &mut out)?;
    }
    assert!(rt; out.as_slice() == LENT.as_bytes());
    Ok(())
}
