//! Prints the lines to an application.

ghost use Rattle.std.specs.Prelude.{◌≡◌, ◌++◌, OnOk, OnErr};
ghost use Rattle.application_lines.specs.Notices as notice;
ghost use Rattle.application_lines.specs.Notices.{releaser_name, notice_text};
ghost use Rattle.application_lines.specs.Lending.{refusal_lent, notice_lent};

use crate::notice::{Notice, Refusal};
use crate::whys::fault_word;
use er_base::PrintedWord::{Decimal, Hexadecimal, Plain};
use er_base::{NoMemory, Release, Why, put_line};

fn put_connected(connection: u64, peer: u32, out: &mut Vec<u8>) -> Result<(), NoMemory>
    ensures ok { OnOk result (out.new.items ≡ out.old.items ++ notice_text (notice.Connected connection peer)) }
    ensures err { OnErr result (out.new.items ≡ out.old.items) }
{
    let words = [Decimal(connection), Decimal(peer as u64)];
    put_line(&Plain(b"connected"), &words, out)
}

fn put_message(connection: u64, text: &[u8], out: &mut Vec<u8>) -> Result<(), NoMemory>
    ensures ok { OnOk result (out.new.items ≡ out.old.items ++ notice_text (notice.Message connection text.now)) }
    ensures err { OnErr result (out.new.items ≡ out.old.items) }
{
    let words = [Decimal(connection), Hexadecimal(text)];
    put_line(&Plain(b"message"), &words, out)
}

fn put_refused(
    connection: u64,
    text: &[u8],
    refusal: &Refusal,
    out: &mut Vec<u8>,
) -> Result<(), NoMemory>
    ensures ok { OnOk result (out.new.items
        ≡ out.old.items ++ notice_text (notice.Refused connection text.now (refusal_lent refusal.now))) }
    ensures err { OnErr result (out.new.items ≡ out.old.items) }
{
    let connection = Decimal(connection);
    let text = Hexadecimal(text);
    match refusal {
        Refusal::Released { reason, sub } => {
            let reason = Decimal(*reason as u64);
            let sub = Decimal(*sub as u64);
            let words = [connection, text, Plain(b"released"), reason, sub];
            put_line(&Plain(b"refused"), &words, out)
        }
        Refusal::NotConnected => {
            let words = [connection, text, Plain(b"notconnected")];
            put_line(&Plain(b"refused"), &words, out)
        }
        Refusal::Length(length) => {
            let words = [connection, text, Plain(b"length"), Decimal(*length as u64)];
            put_line(&Plain(b"refused"), &words, out)
        }
        Refusal::Full(waiting) => {
            let words = [connection, text, Plain(b"full"), Decimal(*waiting as u64)];
            put_line(&Plain(b"refused"), &words, out)
        }
    }
}

// The word for who released.
fn releaser(by_peer: bool) -> &'static [u8]
    ensures { result.now ≡ releaser_name by_peer }
{
    if by_peer { b"peer" } else { b"local" }
}

fn put_released(connection: u64, release: &Release, out: &mut Vec<u8>) -> Result<(), NoMemory>
    ensures ok { OnOk result (out.new.items ≡ out.old.items ++ notice_text (notice.Released connection release.now)) }
    ensures err { OnErr result (out.new.items ≡ out.old.items) }
{
    let words = [
        Decimal(connection),
        Decimal(release.reason as u64),
        Decimal(release.sub as u64),
        Plain(releaser(release.by_peer)),
    ];
    put_line(&Plain(b"released"), &words, out)
}

fn put_gone(connection: u64, out: &mut Vec<u8>) -> Result<(), NoMemory>
    ensures ok { OnOk result (out.new.items ≡ out.old.items ++ notice_text (notice.Gone connection)) }
    ensures err { OnErr result (out.new.items ≡ out.old.items) }
{
    let words = [Decimal(connection)];
    put_line(&Plain(b"gone"), &words, out)
}

fn put_counts(
    live: u64,
    opened: u64,
    connected: u64,
    messages: u64,
    out: &mut Vec<u8>,
) -> Result<(), NoMemory>
    ensures ok { OnOk result (out.new.items ≡ out.old.items ++ notice_text (notice.Counts live opened connected messages)) }
    ensures err { OnErr result (out.new.items ≡ out.old.items) }
{
    let words = [
        Decimal(live),
        Decimal(opened),
        Decimal(connected),
        Decimal(messages),
    ];
    put_line(&Plain(b"counts"), &words, out)
}

fn put_keys(entries: u64, out: &mut Vec<u8>) -> Result<(), NoMemory>
    ensures ok { OnOk result (out.new.items ≡ out.old.items ++ notice_text (notice.Keys entries)) }
    ensures err { OnErr result (out.new.items ≡ out.old.items) }
{
    let words = [Decimal(entries)];
    put_line(&Plain(b"keys"), &words, out)
}

fn put_fault(line: u64, why: Why, out: &mut Vec<u8>) -> Result<(), NoMemory>
    ensures ok { OnOk result (out.new.items ≡ out.old.items ++ notice_text (notice.Fault line why)) }
    ensures err { OnErr result (out.new.items ≡ out.old.items) }
{
    let words = [Decimal(line), Plain(fault_word(why))];
    put_line(&Plain(b"fault"), &words, out)
}

/// Appends a line to an application. After want of memory `out` is as it was.
pub fn print_notice(notice: &Notice<'_>, out: &mut Vec<u8>) -> Result<(), NoMemory>
    ensures ok { OnOk result (out.new.items ≡ out.old.items ++ notice_text (notice_lent notice.now)) }
    ensures err { OnErr result (out.new.items ≡ out.old.items) }
{
    match notice {
        Notice::Connected { connection, peer } => put_connected(*connection, *peer, out),
        Notice::Message { connection, text } => put_message(*connection, text, out),
        Notice::Refused {
            connection,
            text,
            refusal,
        } => put_refused(*connection, text, refusal, out),
        Notice::Released {
            connection,
            release,
        } => put_released(*connection, release, out),
        Notice::Gone { connection } => put_gone(*connection, out),
        Notice::Counts {
            live,
            opened,
            connected,
            messages,
        } => put_counts(*live, *opened, *connected, *messages, out),
        Notice::Keys { entries } => put_keys(*entries, out),
        Notice::KeysFault { words } => put_line(&Plain(b"keys"), words, out),
        Notice::Fault { line, why } => put_fault(*line, *why, out),
    }
}
