//! A call with an application.

use crate::running::call;
use crate::script::Script;
use application_loop::ServiceEnd;
use std::alloc::Global;
use std::test::Fail;

// What the application is told that has a key file read that is refused, and releases the call, which isn't connected.
const TOLD: &[u8] = b"keys version 3
refused 1 41 notconnected
released 1 0 3 local
";

// An application comes to a call whose peer says nothing: a message is refused, and it releases.
fn acts_of_call(alloc: Global) -> Result<Script, Fail> {
    let mut script = Script::new(alloc);
    script.accept()?;
    script.bring(2, b"keys\nsend 1 41\nrelease 1 3\n")?;
    script.wait(2)?;
    Ok(script)
}

#[test]
fn a_call(rt: HostRuntime) -> Result<(), Fail> {
    let script = acts_of_call(rt.alloc())?;
    let ran = call(rt.alloc(), script.acts, &[2])?;
    let told = ran.told(rt.alloc(), 2)?;
    assert_eq!(rt; told.as_slice(), TOLD);
    assert_eq!(rt; ran.end, Ok(ServiceEnd::Closed));
    Ok(())
}
