//! Users: which connection gets which, what each hears, and when it is let go.

ghost use Rattle.std.specs.Prelude.{[]};
ghost use Rattle.er_users.specs.Users.{Callers, mind_of};

use crate::lines::{count_of, lines_of};
use crate::script::Script;
use crate::serving::{randoms_behind, serve_in_memory};
use crate::train::{Train, keys, put, trains};
use arrayvec::ArrayVec;
use er_base::NoMemory;
use er_end::SendRefused;
use er_users::{Lister, Replies, SafeUser};
use key_store::KeyStore;
use std::alloc::Global;
use std::cell::RefCell;
use std::rc::Rc;
use std::test::Fail;

// What users heard, line by line, in the order of time.
type Heard = ArrayVec<u8, 2048>;

// A user that says each message back, and that writes down, under its name, what it hears, and that it is let go.
struct Witness {
    name: u8,
    heard: Rc<RefCell<Heard>>,
}

fn write_down(heard: &RefCell<Heard>, name: u8, word: &[u8], more: &[u8]) {
    if let Ok(mut heard) = heard.try_borrow_mut() {
        put(&mut heard, &[name, b' ']);
        put(&mut heard, word);
        put(&mut heard, more);
        put(&mut heard, b"\n");
    }
}

impl Drop for Witness {
    fn drop(self) {
        write_down(&self.heard, self.name, b"let go", b"");
        let Witness { name: _, heard: _ } = self;
    }
}

impl SafeUser for Witness {
    ghost mind = { λ _. mind_of Callers [] };

    #[tactic(auto, unfolding(er_users::specs::Users::said))]
    fn connected(&mut self, peer: u32, _out: &mut Replies) {
        let digit = b'0' + (peer % 10) as u8;
        write_down(&self.heard, self.name, b"connected ", &[digit]);
    }

    #[tactic(auto, unfolding(er_users::specs::Users::said))]
    fn message(&mut self, text: &[u8], out: &mut Replies) {
        write_down(&self.heard, self.name, b"message ", text);
        out.say(text);
    }

    #[tactic(auto, unfolding(er_users::specs::Users::said))]
    fn refused(&mut self, text: &[u8], _why: &SendRefused) {
        write_down(&self.heard, self.name, b"refused ", text);
    }

    #[tactic(auto, unfolding(er_users::specs::Users::said))]
    fn released(&mut self, reason: u8, sub: u8, by_peer: bool) {
        let by = if by_peer { b'p' } else { b'l' };
        let why = [b'0' + reason % 10, b'0' + sub % 10, by];
        write_down(&self.heard, self.name, b"released ", &why);
    }
}

// Two trains are accepted, and speak in turn for so many rounds.
fn begun(
    alloc: Global,
    keys: &KeyStore,
    rounds: u8,
    trains: &mut Vec<Train>,
) -> Result<Script, NoMemory> {
    let mut script = Script::new(alloc);
    script.accept()?;
    script.accept()?;
    for _ in 0..rounds {
        for place in 0..2 {
            script.speak(alloc, keys, place, trains)?;
        }
    }
    Ok(script)
}

// What two trains do in three rounds.
fn three_rounds(alloc: Global, keys: &KeyStore) -> Result<Script, NoMemory> {
    let mut trains = trains(alloc, 2, 0, 10)?;
    let script = begun(alloc, keys, 3, &mut trains)?;
    Ok(script)
}

// What two trains do, of which the first takes nothing any more and leaves behind its third report, and the second is cut off.
fn one_leaves(alloc: Global, keys: &KeyStore) -> Result<Script, NoMemory> {
    let mut trains = trains(alloc, 2, 0, 10)?;
    let mut script = begun(alloc, keys, 5, &mut trains)?;
    script.stop_taking(1)?;
    script.leave(alloc, keys, 0, &mut trains, 7)?;
    script.speak(alloc, keys, 1, &mut trains)?;
    script.shut(2)?;
    Ok(script)
}

// Three users are handed in: the first connection gets the last of them, and the first of them stays without one until the loop is over.
// The first train leaves behind its third report, which was on its way by then. Its wire has no room any more, so its connection
// stays open to the end; its user is let go as it is released.
const WRITTEN_DOWN: &str = "\
c connected 5
b connected 6
c message position-report-00000001
b message position-report-00000001
c message position-report-00000002
b message position-report-00000002
c message position-report-00000003
c released 07p
c let go
b message position-report-00000003
b released 15l
b let go
a let go
";

#[test]
fn a_user_hears_each_thing_once_and_is_let_go(rt: HostRuntime) -> Result<(), Fail> {
    let alloc = rt.alloc();
    let keys = keys(alloc)?;
    let script = one_leaves(alloc, &keys)?;
    let heard = Rc::new(alloc, RefCell::new(Heard::new()))?;
    let mut users: Vec<Box<dyn SafeUser>> = Vec::new(alloc);
    for name in *b"abc" {
        let heard = heard.clone()?;
        users.push(Box::new(alloc, Witness { name, heard })?)?;
    }
    let _sink = serve_in_memory(alloc, &keys, script, users, &mut randoms_behind(0))?;
    let heard = heard.try_borrow()?;
    assert_eq!(rt; heard.as_slice(), WRITTEN_DOWN.as_bytes());
    Ok(())
}

#[test]
fn the_first_connection_gets_the_user_that_was_handed_in_last(rt: HostRuntime) -> Result<(), Fail> {
    let alloc = rt.alloc();
    let keys = keys(alloc)?;
    let script = three_rounds(alloc, &keys)?;
    let mut first = Vec::new(alloc);
    first.push(Vec::from_slice(alloc, b"A")?)?;
    let mut last = Vec::new(alloc);
    last.push(Vec::from_slice(alloc, b"B")?)?;
    let mut users: Vec<Box<dyn SafeUser>> = Vec::new(alloc);
    users.push(Box::new(alloc, Lister::new(first))?)?;
    users.push(Box::new(alloc, Lister::new(last))?)?;
    let sink = serve_in_memory(alloc, &keys, script, users, &mut randoms_behind(0))?;
    for (conn, said) in [(b"1", b"> send 42"), (b"2", b"> send 41")] {
        let lines = lines_of(alloc, sink.held(), conn)?;
        assert_eq!(rt; count_of(lines.as_slice(), said), 1);
    }
    Ok(())
}
