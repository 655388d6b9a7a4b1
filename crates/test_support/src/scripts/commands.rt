//! Parses commands from lines of words.
use crate::printout::Printout;
use crate::supply::Supply;
use book_service::Command;
use csv_cards::Form;
use vcard_text::{Items, Text, unescape};

/// The words of a line, after its command. One that is left out is empty.
type Words<'a> = [&'a str; 4];

fn number(word: &str) -> Option<u64> {
    word.parse::<u64>().ok()
}

/// The octets of the word, unescaped.
fn octets(word: &str, supply: &mut Supply) -> Items<u8> {
    let text = unescape(supply.alloc, word);
    match supply.keep(text) {
        Some(text) => Items::from_vec(text.into_bytes()),
        None => Items::new(supply.alloc),
    }
}

/// The octets of a card with the UID and the lines, which are unescaped.
fn card_octets(uid: &str, lines: &str, supply: &mut Supply) -> Items<u8> {
    let lines = octets(lines, supply);
    let mut text = Printout::new(supply.alloc);
    text.add_all(&["BEGIN:VCARD\r\nVERSION:4.0\r\nUID:", uid, "\r\n"]);
    text.add_octets(lines.as_slice());
    text.add("\r\nEND:VCARD\r\n");
    supply.note(text.result());
    Items::from_vec(text.into_octets())
}

/// `put BOOK UID EXPECT TEXT`
fn put(words: Words<'_>, supply: &mut Supply) -> Command {
    let [book, uid, expect, text] = words;
    Command::Put {
        book: supply.text(book),
        uid: supply.text(uid),
        expect: number(expect),
        text: octets(text, supply),
    }
}

/// `card BOOK UID LINES`: a put of a card with the UID and the lines.
fn card(words: Words<'_>, supply: &mut Supply) -> Command {
    let [book, uid, lines, _] = words;
    Command::Put {
        book: supply.text(book),
        uid: supply.text(uid),
        expect: None,
        text: card_octets(uid, lines, supply),
    }
}

/// `remove BOOK UID EXPECT`
fn remove(words: Words<'_>, supply: &mut Supply) -> Command {
    let [book, uid, expect, _] = words;
    Command::Remove {
        book: supply.text(book),
        uid: supply.text(uid),
        expect: number(expect),
    }
}

/// `move BOOK UID TO EXPECT`
fn move_card(words: Words<'_>, supply: &mut Supply) -> Command {
    let [book, uid, to, expect] = words;
    Command::MoveCard {
        book: supply.text(book),
        uid: supply.text(uid),
        to: supply.text(to),
        expect: number(expect),
    }
}

/// `report BOOK TOKEN LIMIT`
fn report(words: Words<'_>, supply: &mut Supply) -> Command {
    let [book, token, limit, _] = words;
    Command::Report {
        book: supply.text(book),
        token: supply.text(if token == "-" { "" } else { token }),
        limit: number(limit),
    }
}

/// `import BOOK KEY BODY`
fn import(words: Words<'_>, supply: &mut Supply) -> Command {
    let [book, key, body, _] = words;
    Command::Import {
        book: supply.text(book),
        key: supply.text(key),
        body: octets(body, supply),
    }
}

/// `get BOOK UID`
fn get(book: Text, uid: Text) -> Command {
    Command::Get { book, uid }
}

/// `people BOOK UID`
fn people(book: Text, uid: Text) -> Command {
    Command::People { book, uid }
}

/// `forget BOOK UPTO`
fn forget(book: Text, upto: Option<u64>) -> Command {
    let upto = upto.unwrap_or(0);
    Command::Forget { book, upto }
}

/// `export BOOK FORM`, where the form is `cards`, or `columns` for any other word.
fn export(book: Text, form: &str) -> Command {
    let form = if form == "cards" {
        Form::Cards
    } else {
        Form::Columns
    };
    Command::Export { book, form }
}

/// What a line is read as.
#[derive(Clone, Copy)]
enum Kind {
    Create,
    Tally,
    Books,
    Get,
    People,
    Put,
    Card,
    Remove,
    Move,
    Report,
    Import,
    Forget,
    Export,
}

const KINDS: [(&str, Kind); 12] = [
    ("create", Kind::Create),
    ("tally", Kind::Tally),
    ("get", Kind::Get),
    ("people", Kind::People),
    ("put", Kind::Put),
    ("card", Kind::Card),
    ("remove", Kind::Remove),
    ("move", Kind::Move),
    ("report", Kind::Report),
    ("import", Kind::Import),
    ("forget", Kind::Forget),
    ("export", Kind::Export),
];

/// The kind of that name; `Books` for any other word.
fn kind_named(name: &str) -> Kind {
    for (known, kind) in KINDS {
        if known == name {
            return kind;
        }
    }
    Kind::Books
}

/// The words, of which the last may have spaces: that is the fourth or, of an import and a card,
/// the third.
fn words_in(line: &str, kind: Kind) -> Words<'_> {
    let most = if matches!(kind, Kind::Import | Kind::Card) {
        3
    } else {
        4
    };
    let mut words = line.splitn(most, ' ');
    let first = words.next().unwrap_or_default();
    let second = words.next().unwrap_or_default();
    let third = words.next().unwrap_or_default();
    [first, second, third, words.next().unwrap_or_default()]
}

/// A command that has no more than a book and a UID, a number or a form.
fn short_command(kind: Kind, first: &str, second: &str, supply: &mut Supply) -> Command {
    let book = supply.text(first);
    match kind {
        Kind::Create => Command::CreateBook { book },
        Kind::Tally => Command::TallyOf { book },
        Kind::Get => get(book, supply.text(second)),
        Kind::People => people(book, supply.text(second)),
        Kind::Forget => forget(book, number(second)),
        Kind::Export => export(book, second),
        _ => Command::Books,
    }
}

/// The command of that kind with these words.
fn command_of(kind: Kind, words: Words<'_>, supply: &mut Supply) -> Command {
    match kind {
        Kind::Put => put(words, supply),
        Kind::Card => card(words, supply),
        Kind::Remove => remove(words, supply),
        Kind::Move => move_card(words, supply),
        Kind::Report => report(words, supply),
        Kind::Import => import(words, supply),
        short => short_command(short, words[0], words[1], supply),
    }
}

/// Parses a command, which is one of
///
/// - `create BOOK`, `tally BOOK`, `books`
/// - `get BOOK UID`, `people BOOK UID`
/// - `put BOOK UID EXPECT TEXT`, `card BOOK UID LINES`, `remove BOOK UID EXPECT`,
///   `move BOOK UID TO EXPECT`
/// - `import BOOK KEY BODY`, `forget BOOK UPTO`, `export BOOK cards` or `columns`
/// - `report BOOK TOKEN LIMIT`
///
/// Any other line is read as `books`. A word that isn't a number, such as `-`, is no EXPECT and no
/// LIMIT, and 0 as UPTO. Further words are ignored. A token `-` is the empty text. A text, lines
/// and a body may have spaces, and `\n` in them is a line feed.
pub fn parse_command(line: &str, supply: &mut Supply) -> Command {
    let (name, rest) = line.split_once(' ').unwrap_or((line, ""));
    let kind = kind_named(name);
    command_of(kind, words_in(rest, kind), supply)
}
