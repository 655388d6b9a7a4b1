//! The sentences about a stop: what it is about, what is wrong, and what to do next.
ghost use Rattle.std.specs.Prelude.{◌≡◌, IfOk, string_bytes};
ghost use Rattle.cli_orders.specs.RowCauses.{cause_numbered};
ghost use Rattle.cli_orders.specs.Sentences.{about, card_sentence, device_sentence};
ghost use Rattle.cli_orders.specs.Sentences.{import_sentence, is_silent, other_port};
ghost use Rattle.cli_orders.specs.Sentences.{refused_sentence, row_sentence, row_words, sentence};
ghost use Rattle.cli_orders.specs.Sentences.{stop_sentence};

use crate::advice::{Advice, advice_text};
use crate::cause_words::CauseWords;
use crate::found_cause::FoundCause;
use crate::hints::fault_hint;
use crate::order_names::{OrderKind, OrderNames};
use crate::row_causes::cause_numbered;
use crate::stop::Stop;
use crate::stop_words::{
    device_words, open_advice, open_words, other_words, refusal_advice, refusal_words, store_words,
};
use base_types::NoMemory;
use csv_cards::CsvCause;
use std::alloc::Global;
use sync_core::{Fault, Refusal};
use vcard_text::CardFault;

/// The sentence about the file of this name.
fn about(alloc: Global, name: &str, words: &str, advice: Advice) -> Result<String, NoMemory>
    ensures { IfOk result (λ text. string_bytes text ≡ about name.now words.now advice) }
{
    let advice = advice_text(alloc, advice, name)?;
    Ok(format!(in alloc; "{name}: {words}{advice}\n")?)
}

/// The sentence about a card that isn't accepted.
fn card_sentence(alloc: Global, fault: CardFault) -> Result<String, NoMemory>
    ensures { IfOk result (λ text. string_bytes text ≡ card_sentence fault) }
{
    let hint = fault_hint(fault);
    Ok(format!(in alloc; "the card isn't accepted: {fault}{hint}\n")?)
}

/// Why a row isn't accepted.
fn cause_text(alloc: Global, cause: Option<CsvCause>) -> Result<String, NoMemory>
    ensures { IfOk result (λ text. string_bytes text ≡ row_words cause) }
{
    match cause {
        Some(cause) => {
            let words = CauseWords(cause);
            Ok(format!(in alloc; "{words}")?)
        }
        None => Ok(format!(in alloc; "it isn't accepted")?),
    }
}

/// Why a row isn't accepted, by the number of the cause.
fn numbered_text(alloc: Global, number: u8) -> Result<String, NoMemory>
    ensures { IfOk result (λ text. string_bytes text ≡ row_words (cause_numbered number)) }
{
    cause_text(alloc, cause_numbered(number))
}

/// The sentence about a row that isn't accepted.
fn row_sentence(alloc: Global, rows: &str, row: u64, number: u8) -> Result<String, NoMemory>
    ensures { IfOk result (λ text. string_bytes text ≡ row_sentence rows.now row number) }
{
    let words = numbered_text(alloc, number)?;
    let advice = advice_text(alloc, Advice::CheckFile, rows)?;
    Ok(format!(in alloc; "{rows}: row {row}: {words}{advice}\n")?)
}

/// The sentence about a file of rows that isn't accepted, or that is none.
fn import_sentence(
    alloc: Global,
    rows: &str,
    row: u64,
    number: u8,
    cause: FoundCause,
) -> Result<String, NoMemory>
    ensures { IfOk result (λ text. string_bytes text ≡ import_sentence rows.now row number cause) }
{
    match cause {
        FoundCause::IsCard => about(alloc, rows, "this is a vCard", Advice::ConvertFile),
        _ => row_sentence(alloc, rows, row, number),
    }
}

/// The sentence about a refusal.
fn refused_sentence(
    alloc: Global,
    names: &OrderNames,
    refusal: Refusal,
    cause: FoundCause,
) -> Result<String, NoMemory>
    ensures { IfOk result (λ text. string_bytes text ≡ refused_sentence names.now refusal cause) }
{
    match refusal {
        Refusal::BadCard(fault) => card_sentence(alloc, fault),
        Refusal::BadImport { row, cause: number } => {
            import_sentence(alloc, names.other.as_str(), row, number, cause)
        }
        _ => {
            let words = refusal_words(refusal);
            about(alloc, names.file.as_str(), words, refusal_advice(refusal))
        }
    }
}

/// A port to try in place of this one.
fn other_port(port: u16) -> u16
    ensures { result ≡ other_port port }
{
    if port < 1_024 || port == 65_535 {
        8_080
    } else {
        port + 1
    }
}

/// The sentence about another file, a port, or standard input or output.
fn device_sentence(alloc: Global, names: &OrderNames, cause: FoundCause) -> Result<String, NoMemory>
    ensures { IfOk result (λ text. string_bytes text ≡ device_sentence names.now cause) }
{
    let port = names.port;
    let other = other_port(port);
    match cause {
        FoundCause::PortTaken => {
            Ok(format!(in alloc; "port {port} is taken; try --port {other}\n")?)
        }
        FoundCause::PortDenied => {
            Ok(format!(in alloc; "you may not use port {port}; try --port {other}\n")?)
        }
        FoundCause::Missing
        | FoundCause::IsFolder
        | FoundCause::Denied
        | FoundCause::TooLong
        | FoundCause::Unreadable
        | FoundCause::NoFolder
        | FoundCause::FolderDenied
        | FoundCause::SocketTaken
        | FoundCause::NotSocket => {
            about(
                alloc,
                names.other.as_str(),
                other_words(cause),
                Advice::Nothing,
            )
        }
        FoundCause::LongPath => {
            about(
                alloc,
                names.other.as_str(),
                other_words(FoundCause::LongPath),
                Advice::Nothing,
            )
        }
        _ => {
            let words = device_words(names.kind);
            Ok(format!(in alloc; "{words}\n")?)
        }
    }
}

/// The sentence about a stop.
fn sentence(
    alloc: Global,
    names: &OrderNames,
    stop: Stop,
    cause: FoundCause,
) -> Result<String, NoMemory>
    ensures { IfOk result (λ text. string_bytes text ≡ sentence names.now stop cause) }
{
    let file = names.file.as_str();
    match stop {
        Stop::Refused(refusal) => refused_sentence(alloc, names, refusal, cause),
        Stop::Fault(Fault::Store) => about(alloc, file, store_words(cause), Advice::Nothing),
        Stop::Fault(Fault::Memory) => {
            Ok(format!(in alloc; "memory ran out; give the program more\n")?)
        }
        Stop::Open(fault) => {
            let advice = open_advice(names.kind, fault, cause);
            about(alloc, file, open_words(fault, cause), advice)
        }
        Stop::Serve(_) => {
            Ok(format!(in alloc; "a connection failed; those after it were served\n")?)
        }
        Stop::Device => device_sentence(alloc, names, cause),
    }
}

/// Whether the words for a stop are printed already: `check` prints why it refuses a file.
fn is_silent(kind: OrderKind, stop: Stop) -> bool
    ensures { result ≡ is_silent kind stop }
{
    match kind {
        OrderKind::Check => match stop {
            Stop::Refused(_) => true,
            _ => false,
        },
        _ => false,
    }
}

/// What is said of a stop before its line, for example
/// `office.db: there is no such file; contacts init office.db makes one`. It ends in a line feed.
/// Empty if the words are printed already.
///
/// `cause` is what the host found about the file or the port that the stop is about.
pub fn stop_sentence(
    alloc: Global,
    names: &OrderNames,
    stop: Stop,
    cause: FoundCause,
) -> Result<String, NoMemory>
    ensures { IfOk result (λ text. string_bytes text ≡ stop_sentence names.now stop cause) }
{
    if is_silent(names.kind, stop) {
        Ok(String::new(alloc))
    } else {
        sentence(alloc, names, stop, cause)
    }
}
