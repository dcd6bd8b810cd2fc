//! A user that leaves, and when it is let go; and one whose texts are too many, and are refused.

ghost use Rattle.std.specs.Prelude.{[], None};
ghost use Rattle.er_users.specs.Users.{Callers, mind_of};

use crate::lines::lines_of;
use crate::script::Script;
use crate::serving::{plan, randoms_behind};
use crate::train::{centre, keys, put, trains};
use arrayvec::ArrayVec;
use er_base::NoMemory;
use er_end::SendRefused;
use er_users::{Replies, SafeUser};
use key_store::KeyStore;
use link_memory::{Act, MemoryCabinet, MemorySink, MemoryWires};
use link_trait::Clock;
use outside::Parts;
use readiness_loop::serve;
use std::alloc::Global;
use std::cell::RefCell;
use std::rc::Rc;
use std::test::Fail;

// The rounds in which the train speaks: it is connected, and its three reports come.
const ROUNDS: u8 = 9;

// What happens, line by line, in the order of time.
type Happened = ArrayVec<u8, 2048>;

fn write_down(happened: &RefCell<Happened>, word: &[u8], more: &[u8]) {
    if let Ok(mut happened) = happened.try_borrow_mut() {
        put(&mut happened, word);
        put(&mut happened, more);
        put(&mut happened, b"\n");
    }
}

// A clock at which it is always the moment 0, and that writes down that it is asked.
#[derive(Drop)]
struct AskedClock {
    happened: Rc<RefCell<Happened>>,
}

impl Clock for AskedClock {
    ghost state = { λ _. record { answers = None } };

    fn now(&mut self) -> u64 {
        write_down(&self.happened, b"asked", b"");
        0
    }
}

// A user that says each message back and leaves with sub-reason 0 at the second, and that writes down what it hears, and that it is
// let go.
struct Leaver {
    messages: u8,
    happened: Rc<RefCell<Happened>>,
}

impl Drop for Leaver {
    fn drop(self) {
        write_down(&self.happened, b"let go", b"");
        let Leaver {
            messages: _,
            happened: _,
        } = self;
    }
}

impl SafeUser for Leaver {
    ghost mind = { λ _. mind_of Callers [] };

    #[tactic(auto, unfolding(er_users::specs::Users::said))]
    fn connected(&mut self, _peer: u32, _out: &mut Replies) {
        write_down(&self.happened, b"connected", b"");
    }

    #[tactic(auto, unfolding(er_users::specs::Users::said))]
    fn message(&mut self, text: &[u8], out: &mut Replies) {
        write_down(&self.happened, b"message ", text);
        out.say(text);
        self.messages = self.messages.saturating_add(1);
        if self.messages == 2 {
            out.leave(0);
        }
    }

    #[tactic(auto, unfolding(er_users::specs::Users::said))]
    fn refused(&mut self, text: &[u8], _why: &SendRefused) {
        write_down(&self.happened, b"refused ", text);
    }

    #[tactic(auto, unfolding(er_users::specs::Users::said))]
    fn released(&mut self, reason: u8, sub: u8, by_peer: bool) {
        let by = if by_peer { b'p' } else { b'l' };
        let why = [b'0' + reason % 10, b'0' + sub % 10, by];
        write_down(&self.happened, b"released ", &why);
    }
}

// A user that says eight texts to each thing that it hears, and that writes down which of them are refused, and why.
#[derive(Drop)]
struct Talker {
    happened: Rc<RefCell<Happened>>,
}

fn say_eight(out: &mut Replies) {
    for text in b"ABCDEFGH" {
        out.say(&[*text]);
    }
}

// The words of a refusal in a trace.
fn words_of(why: &SendRefused) -> &'static [u8] {
    match why {
        SendRefused::Released(_) => b" released\n",
        SendRefused::NotConnected => b" notconnected\n",
        SendRefused::Length(_) => b" length\n",
        SendRefused::Full(16) => b" full 16\n",
        SendRefused::Full(_) => b" full\n",
    }
}

impl SafeUser for Talker {
    ghost mind = { λ _. mind_of Callers [] };

    #[tactic(auto, unfolding(er_users::specs::Users::said))]
    fn connected(&mut self, _peer: u32, out: &mut Replies) {
        say_eight(out);
    }

    #[tactic(auto, unfolding(er_users::specs::Users::said))]
    fn message(&mut self, _text: &[u8], out: &mut Replies) {
        say_eight(out);
    }

    #[tactic(auto, unfolding(er_users::specs::Users::said))]
    fn refused(&mut self, text: &[u8], why: &SendRefused) {
        if let Ok(mut happened) = self.happened.try_borrow_mut() {
            put(&mut happened, text);
            put(&mut happened, words_of(why));
        }
    }

    #[tactic(auto, unfolding(er_users::specs::Users::said))]
    fn released(&mut self, _reason: u8, _sub: u8, _by_peer: bool) {}
}

// A train is accepted, and speaks for so many rounds.
fn acts(alloc: Global, keys: &KeyStore) -> Result<Vec<Act>, NoMemory> {
    let mut trains = trains(alloc, 1, 0, 3)?;
    let mut script = Script::new(alloc);
    script.accept()?;
    for _ in 0..ROUNDS {
        script.speak(alloc, keys, 0, &mut trains)?;
    }
    let Script { acts, .. } = script;
    Ok(acts)
}

// What is printed of the train and this user, while what happens is written down.
fn printed(
    alloc: Global,
    keys: &KeyStore,
    user: Box<dyn SafeUser>,
    happened: &Rc<RefCell<Happened>>,
) -> Result<MemorySink, Fail> {
    let mut wires = MemoryWires::new(alloc, acts(alloc, keys)?, 65_536, 1_000, 65_536)?;
    let mut clock = AskedClock {
        happened: happened.clone()?,
    };
    let mut sink = MemorySink::with_capacity(alloc, 65_536)?;
    let mut randoms = randoms_behind(0);
    let mut users: Vec<Box<dyn SafeUser>> = Vec::new(alloc);
    users.push(user)?;
    let mut cabinet = MemoryCabinet::new(alloc);
    let mut outside = Parts::new(
        &mut cabinet,
        &mut sink,
        &mut wires,
        &mut clock,
        &mut randoms,
    );
    serve(
        alloc,
        keys,
        &plan(1_000),
        "here",
        centre(),
        users,
        &mut outside,
    )?;
    Ok(sink)
}

// How often the part stands in the text.
fn count_of(text: &[u8], part: &[u8]) -> u16 {
    let mut count: u16 = 0;
    let mut rest = text;
    for _ in 0..text.len() {
        if rest.starts_with(part) {
            count = count.saturating_add(1);
        }
        rest = rest.get(1..).unwrap_or(&[]);
    }
    count
}

// Whether the part stands in the text.
fn has(text: &[u8], part: &[u8]) -> bool {
    count_of(text, part) > 0
}

// Whether a run prints that it leaves, and its user hears it and is let go before the clock is asked again.
fn leaves(alloc: Global) -> Result<bool, Fail> {
    let keys = keys(alloc)?;
    let happened = Rc::new(alloc, RefCell::new(Happened::new()))?;
    let leaver = Leaver {
        messages: 0,
        happened: happened.clone()?,
    };
    let sink = printed(alloc, &keys, Box::new(alloc, leaver)?, &happened)?;
    let lines = lines_of(alloc, sink.held(), b"1")?;
    let happened = happened.try_borrow()?;
    let heard = b"message position-report-00000002\nreleased 00l\nlet go\nasked\n";
    Ok(has(lines.as_slice(), b"> release 0\n") && has(happened.as_slice(), heard))
}

#[test]
fn a_user_that_leaves_is_let_go_before_the_next_turn(rt: HostRuntime) -> Result<(), Fail> {
    assert!(rt; leaves(rt.alloc())?);
    Ok(())
}

// Each text of a user that is refused, as a trace has it, and as the user writes it down.
const REFUSED: [(&[u8], &[u8]); 8] = [
    (b"> send 41\n< refused full 16\n", b"A full 16\n"),
    (b"> send 42\n< refused full 16\n", b"B full 16\n"),
    (b"> send 43\n< refused full 16\n", b"C full 16\n"),
    (b"> send 44\n< refused full 16\n", b"D full 16\n"),
    (b"> send 45\n< refused full 16\n", b"E full 16\n"),
    (b"> send 46\n< refused full 16\n", b"F full 16\n"),
    (b"> send 47\n< refused full 16\n", b"G full 16\n"),
    (b"> send 48\n< refused full 16\n", b"H full 16\n"),
];

// Whether each text is as often refused in the lines as the user heard.
fn are_heard(lines: &[u8], happened: &[u8]) -> bool {
    for (printed, heard) in REFUSED {
        if count_of(lines, printed) != count_of(happened, heard) {
            return false;
        }
    }
    has(happened, b"G full 16\nH full 16\n")
}

fn hears_refusals(alloc: Global) -> Result<bool, Fail> {
    let keys = keys(alloc)?;
    let happened = Rc::new(alloc, RefCell::new(Happened::new()))?;
    let talker = Talker {
        happened: happened.clone()?,
    };
    let sink = printed(alloc, &keys, Box::new(alloc, talker)?, &happened)?;
    let lines = lines_of(alloc, sink.held(), b"1")?;
    let happened = happened.try_borrow()?;
    Ok(are_heard(lines.as_slice(), happened.as_slice()))
}

#[test]
fn a_user_hears_which_of_its_texts_are_refused(rt: HostRuntime) -> Result<(), Fail> {
    assert!(rt; hears_refusals(rt.alloc())?);
    Ok(())
}
