ghost use Rattle.std.specs.Prelude.{◌≡◌, ◌∷◌, [], map, IfOk};
ghost use Rattle.std.specs.Fmt.{decimal};
ghost use Rattle.std.specs.List.{join_with_byte};
ghost use Rattle.std.specs.String.{string_bytes};
ghost use Rattle.fwd_script.specs.Words.{hex_text};
ghost use Rattle.fwd_script.specs.Texts.{scan_name, input_name, source_name, session_name, refusal_name, out_words, requests_words, faulted_words, list_text, told_words, maybe_text, yes_text, text_of};

use fwd_model::{Answer, Refusal, SessionFault, SourceFault};
use fwd_modes::InputFault;
use fwd_msgpack::ScanFault;
use std::alloc::{AllocError, Global};

/// The line of an answer, without its line feed.
pub fn print_answer(alloc: Global, answer: &Answer) -> Result<String, AllocError>
    ensures { IfOk result (λ text. string_bytes text ≡ text_of answer.now) }
{
    match answer {
        Answer::Accepted { out } => with_out(alloc, "accepted", out.as_slice()),
        Answer::Requests { waiting, out } => requests(alloc, *waiting, out.as_slice()),
        Answer::Faulted {
            fault,
            waiting,
            out,
        } => faulted(alloc, *fault, *waiting, out.as_slice()),
        Answer::Admitted { request, entries } => {
            format!(in alloc; "admitted {request} entries {entries}")
        }
        Answer::NoRoute => String::from_str(alloc, "fault NoRoute"),
        Answer::Full => String::from_str(alloc, "fault Full"),
        Answer::NumbersSpent => String::from_str(alloc, "fault NumbersSpent"),
        Answer::Closed { chunks } => format!(in alloc; "closed {chunks}"),
        Answer::Chose { server } => with_maybe(alloc, "server", server.map(u64::from)),
        Answer::Done => String::from_str(alloc, "done"),
        Answer::Took { number, entries } => format!(in alloc; "took {number} entries {entries}"),
        Answer::TookNothing => String::from_str(alloc, "took -"),
        Answer::Frame { out } => {
            let out = hex_word(alloc, out.as_slice())?;
            format!(in alloc; "frame {out}")
        }
        Answer::Quiet { out } => with_out(alloc, "quiet", out.as_slice()),
        Answer::Ready { out } => with_out(alloc, "ready", out.as_slice()),
        Answer::Acked { out } => with_out(alloc, "acked", out.as_slice()),
        Answer::SessionFaulted(fault) => with_name(alloc, "fault", session_fault_name(*fault)),
        Answer::Settled { entries } => format!(in alloc; "settled {entries}"),
        Answer::Late { late } => with_name(alloc, "late", yes_or_no(*late)),
        Answer::Ended { numbers } => {
            let list = number_list(alloc, numbers.as_slice())?;
            with_name(alloc, "ended", &list)
        }
        Answer::Told { requests, out } => told(alloc, requests.as_slice(), out.as_slice()),
        Answer::Forgot { requests } => format!(in alloc; "forgot {requests}"),
        Answer::Refused(refusal) => with_name(alloc, "refused", refusal_name(*refusal)),
        Answer::Memory => String::from_str(alloc, "memory"),
    }
}

/// A word, and the bytes that were appended to what waits to be sent.
fn with_out(alloc: Global, word: &str, out: &[u8]) -> Result<String, AllocError>
    ensures { IfOk result (λ text.
        string_bytes text ≡ join_with_byte 32 (out_words word.now out.now)) }
{
    let out = hex_word(alloc, out)?;
    format!(in alloc; "{word} out {out}")
}

/// A word, and a name.
fn with_name(alloc: Global, word: &str, name: &str) -> Result<String, AllocError>
    ensures { IfOk result (λ text.
        string_bytes text ≡ join_with_byte 32 (word.now ∷ name.now ∷ [])) }
{
    format!(in alloc; "{word} {name}")
}

/// A word, and the number in decimal, or `-` for none.
fn with_maybe(alloc: Global, word: &str, number: Option<u64>) -> Result<String, AllocError>
    ensures { IfOk result (λ text.
        string_bytes text ≡ join_with_byte 32 (word.now ∷ maybe_text number ∷ [])) }
{
    match number {
        Some(number) => format!(in alloc; "{word} {number}"),
        None => format!(in alloc; "{word} -"),
    }
}

/// A fault that closed a connection, and the requests before it.
fn faulted(
    alloc: Global,
    fault: SourceFault,
    waiting: usize,
    out: &[u8],
) -> Result<String, AllocError>
    ensures { IfOk result (λ text.
        string_bytes text ≡ join_with_byte 32 (faulted_words fault waiting out.now)) }
{
    let name = source_fault_name(fault);
    let requests = requests(alloc, waiting, out)?;
    format!(in alloc; "fault {name} {requests}")
}

/// How many requests wait, and the bytes that were appended to what waits to be sent.
fn requests(alloc: Global, waiting: usize, out: &[u8]) -> Result<String, AllocError>
    ensures { IfOk result (λ text.
        string_bytes text ≡ join_with_byte 32 (requests_words waiting out.now)) }
{
    let out = hex_word(alloc, out)?;
    format!(in alloc; "requests {waiting} out {out}")
}

/// Which requests are told, and the bytes that were appended to what waits to be sent.
fn told(alloc: Global, requests: &[u64], out: &[u8]) -> Result<String, AllocError>
    ensures { IfOk result (λ text.
        string_bytes text ≡ join_with_byte 32 (told_words requests.now out.now)) }
{
    let list = number_list(alloc, requests)?;
    let out = hex_word(alloc, out)?;
    format!(in alloc; "told {list} out {out}")
}

/// The bytes in lower-case hexadecimal digits, or `-` for no bytes.
fn hex_word(alloc: Global, bytes: &[u8]) -> Result<String, AllocError>
    ensures { IfOk result (λ text. string_bytes text ≡ hex_text bytes.now) }
{
    if bytes.is_empty() {
        return String::from_str(alloc, "-");
    }
    hex::encode(alloc, bytes)
}

/// Yes or no, in a word.
fn yes_or_no(yes: bool) -> &'static str
    ensures { result.now ≡ yes_text yes }
{
    if yes { "yes" } else { "no" }
}

/// The numbers in decimal with one comma between each two, or `-` for no numbers.
fn number_list(alloc: Global, numbers: &[u64]) -> Result<String, AllocError>
    ensures { IfOk result (λ text. string_bytes text ≡ list_text numbers.now) }
{
    match numbers {
        [] => String::from_str(alloc, "-"),
        [first, rest @ ..] => with_commas(alloc, *first, rest),
    }
}

/// The first number, and each other after a comma.
fn with_commas(alloc: Global, first: u64, rest: &[u64]) -> Result<String, AllocError>
    ensures { IfOk result (λ text.
        string_bytes text ≡ join_with_byte 44 (map decimal (first ∷ rest.now))) }
{
    let mut text = first.to_string(alloc)?;
    for number in rest {
        let next = format!(in alloc; ",{number}")?;
        text.push_str(&next)?;
    }
    Ok(text)
}

/// The name of a fault that closed a connection.
pub fn source_fault_name(fault: SourceFault) -> &'static str
    ensures { result.now ≡ source_name fault }
{
    match fault {
        SourceFault::Scan(fault) => scan_fault_name(fault),
        SourceFault::Input(fault) => input_fault_name(fault),
        SourceFault::NotPing => "NotPing",
        SourceFault::Denied => "Denied",
        SourceFault::Closed => "Closed",
    }
}

fn scan_fault_name(fault: ScanFault) -> &'static str
    ensures { result.now ≡ scan_name fault }
{
    match fault {
        ScanFault::Reserved => "Reserved",
        ScanFault::TooDeep => "TooDeep",
        ScanFault::TooLong => "TooLong",
    }
}

fn input_fault_name(fault: InputFault) -> &'static str
    ensures { result.now ≡ input_name fault }
{
    match fault {
        InputFault::BadShape => "BadShape",
        InputFault::BadTag => "BadTag",
        InputFault::BadEntry => "BadEntry",
        InputFault::BadOption => "BadOption",
        InputFault::Compressed => "Compressed",
    }
}

/// The name of a fault that put a session down.
pub fn session_fault_name(fault: SessionFault) -> &'static str
    ensures { result.now ≡ session_name fault }
{
    match fault {
        SessionFault::BadReply => "BadReply",
        SessionFault::WrongAck => "WrongAck",
        SessionFault::EarlyAck => "EarlyAck",
        SessionFault::NotHelo => "NotHelo",
        SessionFault::Denied => "Denied",
        SessionFault::BadDigest => "BadDigest",
    }
}

/// The name of a refusal.
pub fn refusal_name(refusal: Refusal) -> &'static str
    ensures { result.now ≡ refusal_name refusal }
{
    match refusal {
        Refusal::NotUp => "NotUp",
        Refusal::Closed => "Closed",
        Refusal::NoSuch => "NoSuch",
        Refusal::NotNow => "NotNow",
    }
}
