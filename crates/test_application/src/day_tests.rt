//! A day: an application comes, talks, and goes; another one comes, and drains.

use crate::running::{first_word, keys, serve};
use crate::script::Script;
use crate::train::Train;
use application_loop::ServiceEnd;
use er_base::NoMemory;
use key_store::KeyStore;
use std::alloc::Global;
use std::test::Fail;

// What the first application says; the third line is out of the grammar.
const SAID: &[u8] = b"send 1 6f6b
send 7 00
say 1
counts
keys
send 1
release 300 1
release 1 256
";

// What it is told, from the time on that it came to a train which is connected and then sends a message.
const TOLD: &[u8] = b"connected 1 5
message 1 6f6e65
gone 7
fault 3 word
counts 1 1 1 1
keys 1
fault 6 count
gone 300
fault 8 value
";

// What the second one is told, which comes behind a message that nobody took, and drains.
const TOLD_THEN: &[u8] = b"connected 1 5
message 1 74776f
released 1 0 0 local
";

// A train is connected; one application comes, is told and talks, and goes; a message comes meanwhile; another application comes, and drains.
fn write_day(script: &mut Script, train: &mut Train, keys: &KeyStore) -> Result<(), NoMemory> {
    script.accept()?;
    script.talk(1, train, keys, false)?;
    script.accept()?;
    train.send(b"one");
    script.talk(1, train, keys, true)?;
    script.bring(2, SAID)?;
    script.shut(2)?;
    train.send(b"two");
    script.talk(1, train, keys, false)?;
    script.accept()?;
    script.bring(3, b"drain\n")?;
    script.wait(3)
}

fn acts_of_day(alloc: Global) -> Result<Script, Fail> {
    let keys = keys(alloc)?;
    let mut script = Script::new(alloc);
    let mut train = Train::begin(alloc, first_word())?;
    let written = write_day(&mut script, &mut train, &keys);
    drop(train);
    written?;
    Ok(script)
}

#[test]
fn a_day(rt: HostRuntime) -> Result<(), Fail> {
    let script = acts_of_day(rt.alloc())?;
    let ran = serve(rt.alloc(), script.acts, &[2, 3], 60_000)?;
    let first = ran.told(rt.alloc(), 2)?;
    let second = ran.told(rt.alloc(), 3)?;
    assert_eq!(rt; first.as_slice(), TOLD);
    assert_eq!(rt; second.as_slice(), TOLD_THEN);
    assert_eq!(rt; ran.end, Ok(ServiceEnd::Drained));
    Ok(())
}
