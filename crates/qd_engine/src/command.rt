//! The commands of the program: what each reports, and with that what it reads.

ghost use Rattle.std.specs.Prelude.{◌≡◌, IfSome};
ghost use Rattle.qd_engine.specs.Words.{texts, lifted, certificate, generate, sample, alone, with_number, with_order, report_of_words, command_by, has_numbers, have_numbers, most_simples, is_read, form_of};
ghost use Rattle.qd_engine.specs.Sources.{IsServed};

use crate::maker_words::maker_of;
use crate::number_words::number_word;
use named_cocycles::{Maker, sample_modulus};
use qd_doc::Form;

/// Where the group and the cocycle of a command come from.
#[derive(Clone, Copy)]
pub enum Input {
    /// A document that is read has them.
    Read,
    /// This names them, and nothing is read.
    Made(Maker),
    /// They are the sample with this number, and nothing is read.
    Sampled(u32),
}

/// A part of a report that needs no rows of values.
#[derive(Clone, Copy)]
pub enum Part {
    /// Nothing.
    Blank,
    /// The lines of the group and of the cocycle.
    Head,
    /// The lines of the classes, each with its rank, and that of the sum of the ranks.
    Classes,
    /// The document of the group and of the cocycle.
    Document,
    /// The line that a report ends with.
    End,
}

/// A part of a report on rows of values.
#[derive(Clone, Copy)]
pub enum RowPart {
    /// Nothing.
    Blank,
    /// The line of the conductor.
    Conductor,
    /// The line of the modulus and of the least root of the cyclotomic polynomial modulo it.
    Modulus,
    /// The lines of the simples.
    Simples,
    /// The lines of the matrix S.
    S,
    /// The lines of the fusion numbers that aren't 0, where the rows are lifted.
    Fusion,
    /// The lines of the indicators of this order, where the rows are lifted.
    Indicators {
        /// The order, at least 1.
        order: u32,
    },
    /// The line of the sample with this number, where the rows are lifted.
    Summary {
        /// The number of the sample.
        sample: u32,
    },
    /// A document with the rows, in order of the simples.
    Document,
    /// The line that a report ends with.
    End,
}

/// Where rows of values come from.
#[derive(Clone, Copy)]
pub enum RowSource {
    /// The document states them.
    Stated,
    /// They are lifted from characters modulo this number.
    Lifted {
        /// The modulus.
        modulus: u32,
    },
}

/// What a command reports on rows of values.
#[derive(Clone, Copy)]
pub struct RowReport {
    /// Where the rows come from.
    pub source: RowSource,
    /// Its parts, in order.
    pub parts: [RowPart; 7],
}

/// What the program is asked to do: where its group and its cocycle come from, the parts of its report, in order, and then those on
/// rows, where it has them.
#[derive(Clone, Copy)]
pub struct Command {
    /// Where the group and the cocycle come from.
    pub input: Input,
    /// The parts that need no rows.
    pub parts: [Part; 3],
    /// The parts on rows. A command whose rows the document states reads one with characters.
    pub rows: Option<RowReport>,
}

/// Whether a document has a group and a normalised 3-cocycle of it.
const CHECK: Command = Command {
    input: Input::Read,
    parts: [Part::Head, Part::End, Part::Blank],
    rows: None,
};

/// The conjugacy classes of a document's group, with the rank of each.
const CLASSES: Command = Command {
    input: Input::Read,
    parts: [Part::Head, Part::Classes, Part::End],
    rows: None,
};

/// The simples by the rows that a document states, where these are good tables of its classes, and their matrix S.
const VERIFY: Command = Command {
    input: Input::Read,
    parts: [Part::Head, Part::Classes, Part::Blank],
    rows: Some(RowReport {
        source: RowSource::Stated,
        parts: [
            RowPart::Conductor,
            RowPart::Simples,
            RowPart::S,
            RowPart::End,
            RowPart::Blank,
            RowPart::Blank,
            RowPart::Blank,
        ],
    }),
};

/// The report on the simples by rows that are lifted from this modulus, with these parts after their lines.
fn lifted(modulus: u32, after: [RowPart; 4]) -> Command
    ensures report { result ≡ lifted modulus after }
{
    let [first, second, third, fourth] = after;
    Command {
        input: Input::Read,
        parts: [Part::Head, Part::Classes, Part::Blank],
        rows: Some(RowReport {
            source: RowSource::Lifted { modulus },
            parts: [
                RowPart::Conductor,
                RowPart::Modulus,
                RowPart::Simples,
                first,
                second,
                third,
                fourth,
            ],
        }),
    }
}

/// A document with the rows that are lifted from this modulus.
fn certificate(modulus: u32) -> Command
    ensures report { result ≡ certificate modulus }
{
    Command {
        input: Input::Read,
        parts: [Part::Blank; 3],
        rows: Some(RowReport {
            source: RowSource::Lifted { modulus },
            parts: [
                RowPart::Document,
                RowPart::Blank,
                RowPart::Blank,
                RowPart::Blank,
                RowPart::Blank,
                RowPart::Blank,
                RowPart::Blank,
            ],
        }),
    }
}

/// The document of the group and of the cocycle that this names.
fn generate(maker: Maker) -> Command
    ensures report { result ≡ generate maker }
{
    Command {
        input: Input::Made(maker),
        parts: [Part::Document, Part::Blank, Part::Blank],
        rows: None,
    }
}

/// The summary of the fusion numbers of the sample with this number.
fn sample(number: u32) -> Command
    ensures report { result ≡ sample number }
{
    Command {
        input: Input::Sampled(number),
        parts: [Part::Blank; 3],
        rows: Some(RowReport {
            source: RowSource::Lifted {
                modulus: sample_modulus(number),
            },
            parts: [
                RowPart::Summary { sample: number },
                RowPart::End,
                RowPart::Blank,
                RowPart::Blank,
                RowPart::Blank,
                RowPart::Blank,
                RowPart::Blank,
            ],
        }),
    }
}

/// The command of a word that stands alone.
fn alone(word: &str) -> Option<Command>
    ensures command { result ≡ alone word.now }
    ensures served { IfSome result IsServed }
{
    match word {
        "check" => Some(CHECK),
        "classes" => Some(CLASSES),
        "verify" => Some(VERIFY),
        _ => None,
    }
}

/// The command of a word that a number follows: a modulus, or that of a sample.
fn with_number(word: &str, number: u32) -> Option<Command>
    ensures command { result ≡ with_number word.now number }
    ensures served { IfSome result IsServed }
{
    match word {
        "simples" => Some(lifted(
            number,
            [RowPart::End, RowPart::Blank, RowPart::Blank, RowPart::Blank],
        )),
        "data" => Some(lifted(
            number,
            [RowPart::S, RowPart::End, RowPart::Blank, RowPart::Blank],
        )),
        "fusion" => Some(lifted(
            number,
            [RowPart::S, RowPart::Fusion, RowPart::End, RowPart::Blank],
        )),
        "certificate" => Some(certificate(number)),
        "sample" => Some(sample(number)),
        _ => None,
    }
}

/// The command of a word that a modulus and an order follow.
fn with_order(word: &str, modulus: u32, order: u32) -> Option<Command>
    ensures command { result ≡ with_order word.now modulus order }
    ensures served { IfSome result IsServed }
{
    match word {
        "indicators" if order >= 1 => {
            Some(lifted(
                modulus,
                [
                    RowPart::S,
                    RowPart::Fusion,
                    RowPart::Indicators { order },
                    RowPart::End,
                ],
            ))
        }
        _ => None,
    }
}

/// The command of a word that these numbers follow.
fn report_of_words(word: &str, numbers: &[String]) -> Option<Command>
    ensures command { result ≡ report_of_words word.now (texts numbers.now) }
    ensures served { IfSome result IsServed }
{
    match numbers {
        [] => alone(word),
        [number] => with_number(word, number_word(number.as_str())?),
        [modulus, order] => with_order(
            word,
            number_word(modulus.as_str())?,
            number_word(order.as_str())?,
        ),
        _ => None,
    }
}

/// The command of a word and those that follow it; `None` where they are not in the grammar.
pub fn command_by(word: &str, words: &[String]) -> Option<Command>
    ensures command { result ≡ command_by word.now (texts words.now) }
    ensures served { IfSome result IsServed }
{
    match word {
        "gen" => Some(generate(maker_of(words)?)),
        _ => report_of_words(word, words),
    }
}

impl Input {
    /// Whether it is read.
    pub fn is_read(&self) -> bool
        ensures read { result ≡ is_read self.now }
    {
        matches!(self, Input::Read)
    }
}

impl RowPart {
    /// Whether the part says something of fusion numbers.
    fn has_numbers(&self) -> bool
        ensures numbers { result ≡ has_numbers self.now }
    {
        matches!(
            self,
            RowPart::Fusion | RowPart::Indicators { .. } | RowPart::Summary { .. }
        )
    }
}

/// Whether some part says something of fusion numbers.
pub fn have_numbers(parts: &[RowPart]) -> bool
    ensures numbers { result ≡ have_numbers parts.now }
{
    parts.iter().any(|part| part.has_numbers())
}

/// The most simples that a report with these parts takes.
pub fn most_simples(parts: &[RowPart]) -> u32
    ensures most { result ≡ most_simples parts.now }
{
    if have_numbers(parts) { 64 } else { 256 }
}

/// The form of document that a command reads.
pub fn form_of(command: &Command) -> Form
    ensures form { result ≡ form_of command.now }
{
    match command.rows {
        Some(
            RowReport {
                source: RowSource::Stated,
                ..
            },
        ) => Form::WithCharacters,
        _ => Form::Bare,
    }
}
