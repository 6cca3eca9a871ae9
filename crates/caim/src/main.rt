// Conducts one sitting from a text and prints what every call answered: `caim FILE`, or `caim`
// with the text on standard input.
#![tactic(auto)]

use anyhow::anyhow;
use console::notices::Stated;
use console::setup::{NotTaken, Setup};
use console::text::{Line, Lines};
use console::turn::respond;
use market::band::Band;
use market::board::Board;
use market::book::DepthBook;
use market::fault::Fault;
use market::interface::Market;
use script::answer::{Answer, answer_line};
use script::lex::{Unread, words};
use script::line::{MarketKind, ShareKind, Statement, statement_of};
use session::state::Session;
use std::alloc::{AllocError, Global};
use std::io::Read;
use std::process::ExitCode;
use std::{env, fs};
use terms::refusal::Refusal;

// Why a text is not read to its end.
#[derive(Drop)]
enum Stop {
    // at a line that cannot be read, as was told on standard error
    Unreadable,
    // at a band that was refused, as was printed
    Refused,
    Failed(anyhow::Error),
}

impl From<anyhow::Error> for Stop {
    fn from(error: anyhow::Error) -> Stop {
        Stop::Failed(error)
    }
}

impl From<AllocError> for Stop {
    fn from(error: AllocError) -> Stop {
        Stop::Failed(error.into())
    }
}

// The text: of the file that is named, or of standard input.
fn source(rt: &HostRuntime) -> anyhow::Result<Vec<u8>> {
    let mut args = env::args(rt)?;
    let _program = args.next();
    let Some(path) = args.next() else {
        let mut text = Vec::new(rt.alloc());
        let _len = rt.stdin().read_to_end(&mut text)?;
        return Ok(text);
    };
    if args.next().is_some() {
        return Err(anyhow!("caim: one file at most"));
    }
    Ok(fs::read(rt, path)?)
}

// Tells on standard error what cannot be read. The runtime is no part of a line: it is lent wherever
// something is read or printed.
fn complain(rt: &HostRuntime, line: Line<'_>) -> anyhow::Result<()> {
    let number = line.number;
    let what = String::from_utf8_lossy(rt.alloc(), line.bytes)?;
    eprintln!(rt; "line {number}: cannot read {what:?}")?;
    Ok(())
}

// Stops at what cannot be read of a line.
fn unreadable(rt: &HostRuntime, line: Line<'_>) -> Stop {
    match complain(rt, line) {
        Ok(()) => Stop::Unreadable,
        Err(error) => Stop::Failed(error),
    }
}

// Why a line makes no statement. It is small, for it is moved at each line; what is told of it is
// made where the reading stops.
#[derive(Drop)]
enum NoStatement<'a> {
    NoWords,
    NoLegs(AllocError),
    Unread(Line<'a>),
}

impl NoStatement<'_> {
    #[cold]
    #[inline(never)]
    fn stop(self, rt: &HostRuntime) -> Stop {
        match self {
            NoStatement::NoWords => Stop::Failed(anyhow!("out of memory")),
            NoStatement::NoLegs(error) => error.into(),
            NoStatement::Unread(line) => unreadable(rt, line),
        }
    }
}

// The statement that a line makes, unless it is blank.
fn read_line<'a>(heap: Global, line: Line<'a>) -> Result<Option<Statement>, NoStatement<'a>> {
    let words = match words(heap, line.bytes) {
        Ok(words) => words,
        Err(Unread::Memory) => return Err(NoStatement::NoWords),
        Err(Unread::Unknown { start, end }) => {
            let bytes = &line.bytes[start..end];
            return Err(NoStatement::Unread(Line { bytes, ..line }));
        }
    };
    if words.is_empty() {
        return Ok(None);
    }
    match statement_of(heap, &words) {
        Ok(Some(statement)) => Ok(Some(statement)),
        Ok(None) => Err(NoStatement::Unread(line)),
        Err(error) => Err(NoStatement::NoLegs(error)),
    }
}

fn print_answer(
    rt: &HostRuntime,
    line: Line<'_>,
    statement: &Statement,
    answer: &Result<Answer, Refusal<Fault>>,
) -> anyhow::Result<()> {
    let text = answer_line(rt.alloc(), line.number, statement.first_word(), answer)?;
    println!(rt; "{text}")?;
    Ok(())
}

// Makes the calls of these lines, and prints their answers.
fn play<M: Market<Fault = Fault> + Drop, S: Drop>(
    rt: &HostRuntime,
    mut session: Session<M, S>,
    lines: Lines<'_>,
) -> Result<(), Stop>
where
    M::Notice: Stated + Drop,
{
    for line in lines {
        let statement = match read_line(rt.alloc(), line) {
            Ok(Some(statement)) => statement,
            Ok(None) => continue,
            Err(why) => return Err(why.stop(rt)),
        };
        let Some(answer) = respond(&mut session, &statement) else {
            return Err(unreadable(rt, line));
        };
        print_answer(rt, line, &statement, &answer)?;
    }
    Ok(())
}

// A sitting over this market, under the band if there is one.
fn sit<M: Market<Fault = Fault> + Drop>(
    rt: &HostRuntime,
    market: M,
    setup: Setup,
    lines: Lines<'_>,
) -> Result<(), Stop>
where
    M::Notice: Stated + Drop,
{
    let rule = setup.share.unwrap_or(ShareKind::ProRata);
    match setup.band {
        Some(width) => {
            let market = Band::new(market, width);
            play(rt, Session::new(rt.alloc(), market, rule)?, lines)
        }
        None => play(rt, Session::new(rt.alloc(), market, rule)?, lines),
    }
}

// Takes the headings of a text, and gives the lines from the first call on.
fn headings<'a>(
    rt: &HostRuntime,
    setup: &mut Setup,
    mut lines: Lines<'a>,
) -> Result<Lines<'a>, Stop> {
    let mut calls = lines;
    // No `for`: the lines from a call on are handed on, and beside a `for` a copy would be stepped too.
    while let Some(line) = lines.next() {
        match read_line(rt.alloc(), line) {
            Ok(None) => {}
            Ok(Some(statement)) => match setup.heading(&statement) {
                Ok(()) => {}
                Err(NotTaken::Call) => return Ok(calls),
                Err(NotTaken::Again) => return Err(unreadable(rt, line)),
                Err(NotTaken::Refused(refusal)) => {
                    print_answer(rt, line, &statement, &Err(refusal))?;
                    return Err(Stop::Refused);
                }
            },
            Err(why) => return Err(why.stop(rt)),
        }
        calls = lines;
    }
    Ok(lines)
}

fn run(rt: &HostRuntime) -> Result<(), Stop> {
    let text = source(rt)?;
    let mut setup = Setup::new();
    let calls = headings(rt, &mut setup, Lines::of(&text))?;
    match setup.market.unwrap_or(MarketKind::Board) {
        MarketKind::Board => sit(rt, Board::new(), setup, calls),
        MarketKind::Book => sit(rt, DepthBook::new(rt.alloc())?, setup, calls),
    }
}

// A line that cannot be read has been told on standard error: the status says that it was there.
fn main(rt: HostRuntime) -> anyhow::Result<ExitCode> {
    match run(&rt) {
        Ok(()) | Err(Stop::Refused) => Ok(ExitCode::SUCCESS),
        Err(Stop::Unreadable) => Ok(ExitCode::FAILURE),
        Err(Stop::Failed(error)) => Err(error),
    }
}
