// The lines printed: for each call its line in the text, its first word and what it answered.
ghost use Rattle.std.specs.Prelude.{◌≡◌, true, IfOk, Some, string_bytes};
ghost use Rattle.script.specs.Answers.{line_of, one_line, price_text, reading_text, refusal_text, text_of};

use crate::keyword::Keyword;
use market::fault::Fault;
use std::alloc::{AllocError, Global};
use std::fmt;
use terms::answer::{Placing, Reading};
use terms::refusal::Refusal;
use terms::synthetic::Synthetic;

// What a call answered that was not refused.
#[derive(Clone, Copy)]
pub enum Answer {
    // the number given to what was listed
    Number(u32),
    Plain(u32),
    Placing(Placing),
    Reading(Reading),
}

// A synthetic price, with a word where it is a customer's.
#[derive(Drop)]
struct ShownPrice(Option<Synthetic>);

impl fmt::Display for ShownPrice {
    ghost output = { λ p. Some (price_text p.0) };

    fn fmt<W: fmt::Write>(&self, f: &mut fmt::Formatter<W>) -> fmt::Result {
        match self.0 {
            None => f.write_str("none"),
            Some(
                Synthetic {
                    price,
                    customer: true,
                },
            ) => write!(f, "{price} customer"),
            Some(Synthetic { price, .. }) => write!(f, "{price}"),
        }
    }
}

// A reading, as it is printed.
#[derive(Drop)]
struct ShownReading(Reading);

impl fmt::Display for ShownReading {
    ghost output = { λ r. Some (reading_text r.0) };

    fn fmt<W: fmt::Write>(&self, f: &mut fmt::Formatter<W>) -> fmt::Result {
        let bid = ShownPrice(self.0.sbb);
        let offer = ShownPrice(self.0.sbo);
        let running = self.0.running;
        let due = self.0.due;
        let buy = self.0.buy;
        let sell = self.0.sell;
        write!(
            f,
            "sbb {bid}, sbo {offer}, running {running}, due {due}, buy {buy}, sell {sell}"
        )
    }
}

impl fmt::Display for Answer {
    ghost output = { λ a. Some (text_of a) };

    fn fmt<W: fmt::Write>(&self, f: &mut fmt::Formatter<W>) -> fmt::Result {
        match self {
            Answer::Number(n) => write!(f, "number {n}"),
            Answer::Plain(n) => write!(f, "answer {n}"),
            Answer::Placing(Placing::Booked) => f.write_str("booked"),
            Answer::Placing(Placing::Held(n)) => write!(f, "held {n}"),
            Answer::Reading(reading) => ShownReading(*reading).fmt(f),
        }
    }
}

// A refusal, with what is told beside its number.
#[derive(Drop)]
struct ShownRefusal(Refusal<Fault>);

impl fmt::Display for ShownRefusal {
    ghost output = { λ r. Some (refusal_text r.0) };

    fn fmt<W: fmt::Write>(&self, f: &mut fmt::Formatter<W>) -> fmt::Result {
        let number = self.0.number();
        match self.0 {
            Refusal::Due(due) => write!(f, "refused {number}, due {due}"),
            Refusal::NotAdmitted(fault) => {
                let component = fault.component;
                let cause = fault.cause.number();
                write!(f, "refused {number}, component {component} cause {cause}")
            }
            Refusal::Stop(clause) => {
                let clause = clause.number();
                write!(f, "refused {number}, clause {clause}")
            }
            _ => write!(f, "refused {number}"),
        }
    }
}

// The line printed for a call.
#[derive(Drop)]
struct ShownLine {
    number: usize,
    call: Keyword,
    answer: Result<Answer, Refusal<Fault>>,
}

impl fmt::Display for ShownLine {
    ghost output = { λ l. Some (line_of l.number l.call l.answer) };

    fn fmt<W: fmt::Write>(&self, f: &mut fmt::Formatter<W>) -> fmt::Result {
        let number = self.number;
        let call = self.call;
        match self.answer {
            Ok(answer) => write!(f, "{number} {call}: {answer}"),
            Err(refusal) => {
                let refused = ShownRefusal(refusal);
                write!(f, "{number} {call}: {refused}")
            }
        }
    }
}

// The line printed for a call, without its line feed.
pub fn answer_line(
    heap: Global,
    line: usize,
    call: Keyword,
    answer: &Result<Answer, Refusal<Fault>>,
) -> Result<String, AllocError>
    ensures value { IfOk result (λ s. string_bytes s ≡ line_of line call answer.now) }
    ensures single { IfOk result (λ s. one_line (string_bytes s) ≡ true) }
{
    let line = ShownLine {
        number: line,
        call,
        answer: *answer,
    };
    line.to_string(heap)
}
