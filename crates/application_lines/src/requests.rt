//! Reads an application's line.

ghost use Rattle.std.specs.Prelude.{IfOk};
ghost use Rattle.er_base.specs.Rows.{AnswersAsWordsSay};
ghost use Rattle.er_base.specs.Words.{words_of};
ghost use Rattle.application_lines.specs.Requests.{request_said, IsRequestInRange};
ghost use Rattle.application_lines.specs.Readings.{request_behind, none_behind};

use crate::arguments::{has_no_word, read_connection, read_message, read_sub_reason, two_words};
use crate::request::Request;
use crate::request_name::RequestName;
use er_base::{LineFault, Why, next_word};
use std::alloc::Global;

// `send C HEX`, from what stands behind its first word.
fn send(alloc: Global, rest: &[u8]) -> Result<Request, LineFault>
    ensures said { AnswersAsWordsSay result (request_behind RequestName.Send (words_of rest.now)) }
    ensures range { IfOk result (λ request. IsRequestInRange request) }
{
    let Some((connection, text)) = two_words(rest) else {
        return Err(LineFault::Refused(Why::Count));
    };
    Ok(Request::Send {
        connection: read_connection(connection)?,
        text: read_message(alloc, text)?,
    })
}

// `release C X`, from what stands behind its first word.
fn release(rest: &[u8]) -> Result<Request, LineFault>
    ensures said { AnswersAsWordsSay result (request_behind RequestName.Release (words_of rest.now)) }
    ensures range { IfOk result (λ request. IsRequestInRange request) }
{
    let Some((connection, sub)) = two_words(rest) else {
        return Err(LineFault::Refused(Why::Count));
    };
    Ok(Request::Release {
        connection: read_connection(connection)?,
        sub: read_sub_reason(sub)?,
    })
}

// Nothing stands behind the first word.
fn alone(rest: &[u8]) -> Result<(), LineFault>
    ensures { AnswersAsWordsSay result (none_behind (words_of rest.now)) }
{
    if !has_no_word(rest) {
        return Err(LineFault::Refused(Why::Count));
    }
    Ok(())
}

fn drain(rest: &[u8]) -> Result<Request, LineFault>
    ensures said { AnswersAsWordsSay result (request_behind RequestName.Drain (words_of rest.now)) }
    ensures range { IfOk result (λ request. IsRequestInRange request) }
{
    alone(rest)?;
    Ok(Request::Drain)
}

fn keys(rest: &[u8]) -> Result<Request, LineFault>
    ensures said { AnswersAsWordsSay result (request_behind RequestName.Keys (words_of rest.now)) }
    ensures range { IfOk result (λ request. IsRequestInRange request) }
{
    alone(rest)?;
    Ok(Request::Keys)
}

fn counts(rest: &[u8]) -> Result<Request, LineFault>
    ensures said { AnswersAsWordsSay result (request_behind RequestName.Counts (words_of rest.now)) }
    ensures range { IfOk result (λ request. IsRequestInRange request) }
{
    alone(rest)?;
    Ok(Request::Counts)
}

// What a line says whose first word names it, from what stands behind that word.
fn read_behind(alloc: Global, name: RequestName, rest: &[u8]) -> Result<Request, LineFault>
    ensures said { AnswersAsWordsSay result (request_behind name (words_of rest.now)) }
    ensures range { IfOk result (λ request. IsRequestInRange request) }
{
    match name {
        RequestName::Send => send(alloc, rest),
        RequestName::Release => release(rest),
        RequestName::Drain => drain(rest),
        RequestName::Keys => keys(rest),
        RequestName::Counts => counts(rest),
    }
}

/// What a line says, or its first fault.
#[tactic(auto, unfolding(crate::specs::Requests::request_said))]
pub fn read_request(alloc: Global, line: &[u8]) -> Result<Request, LineFault>
    ensures said { AnswersAsWordsSay result (request_said (words_of line.now)) }
    ensures range { IfOk result (λ request. IsRequestInRange request) }
{
    let Some((first, rest)) = next_word(line) else {
        return Err(LineFault::Refused(Why::Word));
    };
    let Some(name) = RequestName::named(first) else {
        return Err(LineFault::Refused(Why::Word));
    };
    read_behind(alloc, name, rest)
}
