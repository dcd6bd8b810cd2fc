//! What a run over wires tells while it goes on: at most a line a second of what isn't as usual, and counts every ten minutes.

use crate::held::KeysHeld;
use counted::JournalCounts;
use er_base::{NoMemory, Release};
use journal::{Began, EventTally};
use std::alloc::Global;
use std::fmt::Write;
use std::net::SocketAddr;
use std::time::Duration;

// What waits to be told of one by one; the rest is counted.
const MOST_WAITING: usize = 64;

// The least time between two lines, in seconds.
const BETWEEN_LINES: u64 = 1;

// The time between counts, in seconds.
const BETWEEN_COUNTS: u64 = 600;

// What isn't as usual.
#[derive(Clone, Copy)]
enum Uncommon {
    // A release that no user asked for.
    Released(Release),
    // A connection that got no end, since as many as can be are live.
    Full,
    // One that got no end, since no user was left.
    Unserved,
}

// Something uncommon that came at a connection, and its peer's address where it is known.
#[derive(Clone, Copy)]
struct News {
    conn: u64,
    what: Uncommon,
    peer: Option<SocketAddr>,
}

/// What waits to be told of a run.
#[derive(Drop)]
pub struct Watch {
    /// What the key file of a server has for its radio block centre.
    pub keys: Option<KeysHeld>,
    /// The radio block centre of a server: of anything else nothing is told before the end.
    pub rbc: Option<u64>,
    waiting: Vec<News>,
    // What came besides, since the last line.
    more: u64,
    // By the monotonic clock.
    newest_line: Option<Duration>,
    newest_counts: Option<Duration>,
    // How many connections and messages there were at the newest counts.
    counted: u64,
}

impl Watch {
    /// Nothing came yet. Later calls but those that make a line take no memory.
    pub fn new(alloc: Global, rbc: Option<u64>) -> Result<Watch, NoMemory> {
        Ok(Watch {
            keys: None,
            rbc,
            waiting: Vec::with_capacity(alloc, MOST_WAITING)?,
            more: 0,
            newest_line: None,
            newest_counts: None,
            counted: 0,
        })
    }

    /// An event was recorded that counts this: what isn't as usual waits to be told.
    pub fn hear(&mut self, tally: &EventTally) {
        let Some(what) = unusual(tally) else {
            return;
        };
        if self.rbc.is_none() {
            return;
        }
        let news = News {
            conn: tally.conn,
            what,
            peer: None,
        };
        if self.waiting.len() >= MOST_WAITING || self.waiting.push(news).is_err() {
            self.more = self.more.saturating_add(1);
        }
    }

    /// Whether something waits to be told of this connection, whose address isn't known.
    pub fn wants_address(&self, conn: u64) -> bool {
        self.waiting
            .iter()
            .any(|news| news.conn == conn && news.peer.is_none())
    }

    /// The connections of which something waits to be told, and whose address isn't known: the first of them.
    pub fn unknown(&self) -> Option<u64> {
        match self.waiting.first() {
            Some(news) if news.peer.is_none() => Some(news.conn),
            _ => None,
        }
    }

    /// The address of a connection's peer.
    pub fn meet(&mut self, conn: u64, peer: Option<SocketAddr>) {
        for news in self.waiting.iter_mut() {
            if news.conn == conn {
                news.peer = peer;
            }
        }
    }

    /// Whether a line is to be told now.
    pub fn has_line(&self, now: Duration) -> bool {
        let is_time = match self.newest_line {
            Some(newest) => now.saturating_sub(newest) >= Duration::from_secs(BETWEEN_LINES),
            None => true,
        };
        is_time && !self.waiting.is_empty()
    }

    /// The line that is told now: of what came first, and how much came besides.
    pub fn line(&mut self, alloc: Global, now: Duration) -> Result<String, NoMemory> {
        self.newest_line = Some(now);
        let mut line = String::new(alloc);
        line.push_str("euroradio: ")?;
        if let Some(news) = self.waiting.first() {
            put_news(&mut line, news)?;
        }
        let more = self
            .more
            .saturating_add(self.waiting.len().saturating_sub(1) as u64);
        if more > 0 {
            write!(line, "; and {more} more that were not as usual")?;
        }
        self.waiting.clear();
        self.more = 0;
        Ok(line)
    }

    /// Whether counts are to be told now: ten minutes behind those before, where something happened.
    pub fn has_counts(&mut self, now: Duration, counts: &JournalCounts) -> bool {
        if self.rbc.is_none() {
            return false;
        }
        let Some(newest) = self.newest_counts else {
            self.newest_counts = Some(now);
            return false;
        };
        if now.saturating_sub(newest) < Duration::from_secs(BETWEEN_COUNTS) {
            return false;
        }
        self.newest_counts = Some(now);
        let counted = counts
            .opened
            .saturating_add(counts.turned_away)
            .saturating_add(counts.accepted);
        let has_more = counted != self.counted;
        self.counted = counted;
        has_more
    }
}

/// The line of counts.
pub fn counts_line(alloc: Global, counts: &JournalCounts) -> Result<String, NoMemory> {
    let mut line = String::new(alloc);
    write!(
        line,
        "euroradio: connections {}, turned away {}, connected {}",
        counts.opened, counts.turned_away, counts.connected
    )?;
    write!(
        line,
        ", messages accepted {}, said {}, refused {}, ignored {}",
        counts.accepted, counts.said, counts.refused, counts.ignored
    )?;
    for known in counts.releases.iter() {
        let release = known.release;
        let side = side(release.by_peer);
        write!(
            line,
            ", released {}.{} {side} {}",
            release.reason, release.sub, known.count
        )?;
    }
    Ok(line)
}

// What of an event isn't as usual.
fn unusual(tally: &EventTally) -> Option<Uncommon> {
    match tally.released {
        Some(release) if release.reason != 0 => Some(Uncommon::Released(release)),
        _ => match tally.began {
            Began::Nothing | Began::End => None,
            Began::Full => Some(Uncommon::Full),
            Began::Unserved => Some(Uncommon::Unserved),
        },
    }
}

/// Who released.
pub fn side(by_peer: bool) -> &'static str {
    if by_peer { "peer" } else { "local" }
}

fn put_news(line: &mut String, news: &News) -> Result<(), NoMemory> {
    write!(line, "connection {}", news.conn)?;
    if let Some(peer) = news.peer {
        write!(line, " of {peer}")?;
    }
    match news.what {
        Uncommon::Released(release) => {
            let side = side(release.by_peer);
            let words = release.words();
            write!(
                line,
                ": released {}.{} {side}: {words}",
                release.reason, release.sub
            )?;
        }
        Uncommon::Full => line.push_str(": turned away, since 256 are live or memory is wanting")?,
        Uncommon::Unserved => line.push_str(": turned away, since 65536 were served")?,
    }
    Ok(())
}
