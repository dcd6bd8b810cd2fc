//! A slow application: what it can't take waits, and nothing is lost.

use crate::running::{first_word, keys, serve};
use crate::script::Script;
use crate::train::Train;
use er_base::NoMemory;
use key_store::KeyStore;
use std::alloc::Global;
use std::test::Fail;

// Lines without a word, each of which is a fault: with the last of six times as many, more than 262,144 octets wait.
const LINES: [u8; 2_679] = [b'\n'; 2_679];

// An application comes that takes nothing, while so much waits for it that nothing more is taken; a train comes, and sends a message; then the application
// takes all.
fn write_slow_day(script: &mut Script, train: &mut Train, keys: &KeyStore) -> Result<(), NoMemory> {
    script.accept()?;
    script.room(1, 0)?;
    for _ in 0..6 {
        script.bring(1, &LINES)?;
    }
    script.accept()?;
    script.room(2, 60_000)?;
    script.talk(2, train, keys, false)?;
    train.send(b"late");
    script.talk(2, train, keys, false)?;
    script.room(1, 700_000)?;
    script.wait(3)
}

fn acts_of_slow_day(alloc: Global) -> Result<Script, Fail> {
    let keys = keys(alloc)?;
    let mut script = Script::new(alloc);
    let mut train = Train::begin(alloc, first_word())?;
    let written = write_slow_day(&mut script, &mut train, &keys);
    drop(train);
    written?;
    Ok(script)
}

#[test]
fn nothing_is_lost(rt: HostRuntime) -> Result<(), Fail> {
    let script = acts_of_slow_day(rt.alloc())?;
    let ran = serve(rt.alloc(), script.acts, &[1], 0)?;
    let told = ran.told(rt.alloc(), 1)?;
    assert!(rt; told.starts_with(b"fault 1 word\nfault 2 word\n"));
    assert!(rt; told.ends_with(b"fault 16074 word\nconnected 1 5\nmessage 1 6c617465\n"));
    Ok(())
}
