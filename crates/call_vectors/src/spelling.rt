// Calls and replies as the file spells them.
ghost use Rattle.std.specs.Prelude.{◌≡◌, IfOk, length};
ghost use Rattle.std.specs.String.{string_bytes};
ghost use Rattle.call_vectors.specs.Spelling.{call_text, ending_text, global_text, line_text, lines_text, refusal_text, reply_text};

use acceptance::globals::GlobalSort;
use calls::asked::{Answer, Call, GlobalCell};
use calls::causes::SessionCause;
use faults::Ending;
use session::playing::Reply;
use std::alloc::{AllocError, Global};
use text::refusals::Refusal;

fn global_of(sort: &str, name: &str, index: &str) -> Option<GlobalCell> {
    Some(GlobalCell {
        sort: match sort {
            "x" => GlobalSort::Simple,
            "a" => GlobalSort::Array,
            _ => return None,
        },
        name: name.parse().ok()?,
        index: index.parse().ok()?,
    })
}

// The call that some words spell.
fn spelled(words: &[&str]) -> Option<Call> {
    match words {
        ["open"] => Some(Call::Open),
        ["post", sort, name, index, word] => Some(Call::Post {
            global: global_of(sort, name, index)?,
            word: word.parse().ok()?,
        }),
        ["reading", sort, name, index] => Some(Call::Reading {
            global: global_of(sort, name, index)?,
        }),
        ["begin"] => Some(Call::Begin),
        ["grant", ticket, count] => Some(Call::Grant {
            ticket: ticket.parse().ok()?,
            count: count.parse().ok()?,
        }),
        ["close", ticket] => Some(Call::Close {
            ticket: ticket.parse().ok()?,
        }),
        _ => None,
    }
}

// The call that a text spells. Nothing is promised of it, since the whole list is spelled again from the calls and compared with its text.
pub(crate) fn call_of(heap: Global, text: &str) -> Result<Option<Call>, AllocError> {
    let mut words = Vec::new(heap);
    for word in text.split(' ') {
        words.push(word)?;
    }
    Ok(spelled(&words))
}

fn global_text(heap: Global, global: GlobalCell) -> Result<String, AllocError>
    ensures { IfOk result (λ t. string_bytes t ≡ global_text global) }
{
    let GlobalCell { sort, name, index } = global;
    let sort = match sort {
        GlobalSort::Simple => "x",
        GlobalSort::Array => "a",
    };
    format!(in heap; "{sort} {name} {index}")
}

fn call_text(heap: Global, call: Call) -> Result<String, AllocError>
    ensures { IfOk result (λ t. string_bytes t ≡ call_text call) }
{
    match call {
        Call::Open => String::from_str(heap, "open"),
        Call::Post { global, word } => {
            let global = global_text(heap, global)?;
            format!(in heap; "post {global} {word}")
        }
        Call::Reading { global } => {
            let global = global_text(heap, global)?;
            format!(in heap; "reading {global}")
        }
        Call::Begin => String::from_str(heap, "begin"),
        Call::Grant { ticket, count } => format!(in heap; "grant {ticket} {count}"),
        Call::Close { ticket } => format!(in heap; "close {ticket}"),
    }
}

fn refusal_text(heap: Global, refusal: Refusal<SessionCause>) -> Result<String, AllocError>
    ensures { IfOk result (λ t. string_bytes t ≡ refusal_text refusal) }
{
    let Refusal { cause, line } = refusal.numbered();
    format!(in heap; "refused {cause} {line}")
}

fn ending_text(heap: Global, ending: Ending) -> Result<String, AllocError>
    ensures { IfOk result (λ t. string_bytes t ≡ ending_text ending) }
{
    match ending {
        Ending::Finished => String::from_str(heap, "f 0 0"),
        Ending::Stopped => String::from_str(heap, "s 0 0"),
        Ending::Fault { fault, line } => {
            let number = u8::from(fault);
            format!(in heap; "x {number} {line}")
        }
    }
}

fn reply_text(heap: Global, reply: Reply) -> Result<String, AllocError>
    ensures { IfOk result (λ t. string_bytes t ≡ reply_text reply) }
{
    match reply {
        Ok(Answer::Opened) => String::from_str(heap, "opened"),
        Ok(Answer::Posted) => String::from_str(heap, "posted"),
        Ok(Answer::Word(word)) => format!(in heap; "word {word}"),
        Ok(Answer::Began { ticket }) => format!(in heap; "ticket {ticket}"),
        Ok(Answer::Running) => String::from_str(heap, "running"),
        Ok(Answer::Over) => String::from_str(heap, "over"),
        Ok(Answer::Closed { ending, count }) => {
            let ending = ending_text(heap, ending)?;
            format!(in heap; "closed {ending} {count}")
        }
        Err(refusal) => refusal_text(heap, refusal),
    }
}

fn line_text(heap: Global, call: Call, reply: Reply) -> Result<String, AllocError>
    ensures { IfOk result (λ t. string_bytes t ≡ line_text call reply) }
{
    let call = call_text(heap, call)?;
    let reply = reply_text(heap, reply)?;
    format!(in heap; "{call} = {reply}\n")
}

// The lines of a list: each call, in order, with its reply.
pub(crate) fn lines_text(
    heap: Global,
    calls: &[Call],
    replies: &[Reply],
) -> Result<String, AllocError>
    ensures { IfOk result (λ t. string_bytes t ≡ lines_text calls.now replies.now) }
{
    let mut text = String::new(heap);
    for (call, reply) in calls.iter().zip(replies) {
        let line = line_text(heap, *call, *reply)?;
        text.push_str(line.as_str())?;
    }
    Ok(text)
}
