//! The users that the loop ships.

use er_users::{Echo, Lister, Replies, SafeUser, Silent, Tally};
use std::test::Fail;

// What was said: the number of texts, the last of them, the leave.
fn is_said(replies: &Replies, count: usize, last: &[u8], leaving: Option<u8>) -> bool {
    let same_last = match replies.len().checked_sub(1) {
        Some(place) if place < replies.len() => replies.text(place) == last,
        _ => last.is_empty(),
    };
    replies.len() == count && same_last && replies.leaving() == leaving
}

#[test]
fn each_kind_says_its_own(rt: HostRuntime) -> Result<(), Fail> {
    let mut texts = Vec::new(rt.alloc());
    texts.push(Vec::from_slice(rt.alloc(), b"one")?)?;
    texts.push(Vec::from_slice(rt.alloc(), b"two")?)?;
    let mut out = Replies::new(rt.alloc())?;
    let (mut echo, mut tally, mut silent) = (Echo::new(), Tally::new(), Silent::new());
    let mut lister = Lister::new(texts);
    lister.connected(5, &mut out);
    assert!(rt; is_said(&out, 2, b"two", None));
    for (count, leave) in [(b"1", None), (b"2", Some(0)), (b"3", None)] {
        out.clear();
        lister.message(b"text", &mut out);
        assert!(rt; is_said(&out, 0, b"", leave));
        out.clear();
        tally.message(b"text", &mut out);
        assert!(rt; is_said(&out, 1, count, None));
    }
    out.clear();
    silent.message(b"text", &mut out);
    assert!(rt; is_said(&out, 0, b"", None));
    out.clear();
    echo.message(b"text", &mut out);
    assert!(rt; is_said(&out, 1, b"text", None));
    Ok(())
}
