// Puts the four questions to books, row by row of a table, and prints each row's name with the answer.
// A row is a name, a book, MODE/SUBMODE in octal, and a question:
//     judge FIELD        number INDEX FIELD        weigh LIST        write SIZE LIST
// A field is parts of hex digits, a list is numbers; `N*` before one of them stands for N repetitions.
// The books are `plain`, `four`, and each kind over plain words: `routing`, `message`, `labels`, `winds`.
#![tactic(auto)]

use anyhow::{Context, anyhow};
use books::book::Book;
use books::faults::FieldFault;
use books::plain::PlainWords;
use four_kinds::FourKinds;
use kinds::over::Over;
use labels::kind::Labels;
use std::alloc::Global;
use std::fmt;
use texts::characters::Characters;
use texts::message::Message;
use texts::routing::Routing;
use trial_tools::repetition;
use winds::kind::Winds;
use wire::modes::Modes;

/// What a place holds before it is written, so that one sees what a refused writing left.
const BLANK: u8 = 0xAA;

#[derive(Drop)]
enum Question {
    Judge(Vec<u8>),
    Number(usize, Vec<u8>),
    Weigh(Vec<i32>),
    Write(usize, Vec<i32>),
}

#[derive(Drop)]
enum Answer {
    Count(Result<usize, FieldFault>),
    Number(Option<i32>),
    /// The place is told after a refusal too.
    Written(Result<(), FieldFault>, Vec<u8>),
}

fn show_fault<W: fmt::Write>(fault: FieldFault, f: &mut fmt::Formatter<W>) -> fmt::Result {
    let rule = fault.rule.number();
    let place = fault.place;
    write!(f, "rule={rule} place={place}")
}

fn show_place<W: fmt::Write>(place: &[u8], f: &mut fmt::Formatter<W>) -> fmt::Result {
    f.write_str(" bytes=")?;
    for byte in place {
        write!(f, "{byte:02X}")?;
    }
    Ok(())
}

impl fmt::Display for Answer {
    fn fmt<W: fmt::Write>(&self, f: &mut fmt::Formatter<W>) -> fmt::Result {
        match self {
            Answer::Count(Ok(count)) => write!(f, "{count}"),
            Answer::Count(Err(fault)) => show_fault(*fault, f),
            Answer::Number(Some(number)) => write!(f, "{number}"),
            Answer::Number(None) => f.write_str("none"),
            Answer::Written(Ok(()), place) => {
                f.write_str("written")?;
                show_place(place, f)
            }
            Answer::Written(Err(fault), place) => {
                show_fault(*fault, f)?;
                show_place(place, f)
            }
        }
    }
}

// No `hex::decode`, nor the `push_part` that rests on it: a byte is read as a number, so `+5` is one, and half a byte has its own error.
fn read_hex(heap: Global, hex: &str) -> anyhow::Result<Vec<u8>> {
    if hex.len() % 2 != 0 {
        return Err(anyhow!("half a byte"));
    }
    let mut bytes = Vec::new(heap);
    for two in hex.as_bytes().chunks(2) {
        bytes.push(u8::from_str_radix(std::str::from_utf8(two)?, 16)?)?;
    }
    Ok(bytes)
}

fn read_field(heap: Global, words: &[&str]) -> anyhow::Result<Vec<u8>> {
    let mut field = Vec::new(heap);
    for word in words {
        let (times, hex) = repetition(word)?;
        let bytes = read_hex(heap, hex)?.repeat(heap, times)?;
        field.extend_from_slice(&bytes)?;
    }
    Ok(field)
}

fn read_list(heap: Global, words: &[&str]) -> anyhow::Result<Vec<i32>> {
    let mut list = Vec::new(heap);
    for word in words {
        let (times, number) = repetition(word)?;
        let length = list.len().saturating_add(times);
        list.resize(length, number.parse::<i32>()?)?;
    }
    Ok(list)
}

fn read_modes(word: &str) -> anyhow::Result<Modes> {
    let (mode, submode) = word.split_once('/').context("no mode and submode")?;
    let mode = u8::from_str_radix(mode, 8)?;
    let submode = u8::from_str_radix(submode, 8)?;
    Ok(Modes { mode, submode })
}

fn read_question(heap: Global, words: &[&str]) -> anyhow::Result<Question> {
    match words {
        ["judge", field @ ..] => Ok(Question::Judge(read_field(heap, field)?)),
        ["number", index, field @ ..] => {
            let index = index.parse::<usize>()?;
            Ok(Question::Number(index, read_field(heap, field)?))
        }
        ["weigh", list @ ..] => Ok(Question::Weigh(read_list(heap, list)?)),
        ["write", size, list @ ..] => {
            let size = size.parse::<usize>()?;
            Ok(Question::Write(size, read_list(heap, list)?))
        }
        _ => Err(anyhow!("no such question")),
    }
}

fn ask(heap: Global, book: &dyn Book, at: Modes, question: &Question) -> anyhow::Result<Answer> {
    match question {
        Question::Judge(field) => Ok(Answer::Count(book.judge(at, field))),
        Question::Number(index, field) => Ok(Answer::Number(book.number(at, field, *index))),
        Question::Weigh(list) => Ok(Answer::Count(book.weigh(at, list))),
        Question::Write(size, list) => {
            let mut place = vec![in heap; BLANK; *size]?;
            let told = book.write(at, list, &mut place);
            Ok(Answer::Written(told, place))
        }
    }
}

/// A kind laid over plain words.
fn over<K>(kind: K) -> Over<K, PlainWords> {
    Over {
        kind,
        below: PlainWords,
    }
}

fn ask_by_name(heap: Global, name: &str, at: Modes, question: &Question) -> anyhow::Result<Answer> {
    let routing = over(Characters { text: Routing });
    let message = over(Characters { text: Message });
    let labels = over(Labels);
    let winds = over(Winds);
    let book: Option<&dyn Book> = match name {
        "plain" => Some(&PlainWords),
        "routing" => Some(&routing),
        "message" => Some(&message),
        "labels" => Some(&labels),
        "winds" => Some(&winds),
        "four" => Some(&FourKinds),
        _ => None,
    };
    ask(heap, book.context("no such book")?, at, question)
}

fn answer_row(heap: Global, row: &str) -> anyhow::Result<Answer> {
    let words = row.split(' ').collect::<Vec<&str>>(heap)?;
    let [book, at, question @ ..] = words.as_slice() else {
        return Err(anyhow!("a short row"));
    };
    let at = read_modes(at)?;
    let question = read_question(heap, question)?;
    ask_by_name(heap, book, at, &question)
}

fn run_row(rt: &HostRuntime, heap: Global, row: &str) -> anyhow::Result<()> {
    let (name, row) = row.split_once(' ').context("no name")?;
    let answer = answer_row(heap, row)?;
    Ok(println!(rt; "{name} {answer}")?)
}

fn main(rt: HostRuntime) -> anyhow::Result<()> {
    let heap = rt.alloc();
    for line in rt.lines(heap) {
        run_row(&rt, heap, line?.as_str())?;
    }
    Ok(())
}
