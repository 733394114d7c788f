// What the calls answer.
ghost use Rattle.std.specs.Prelude.{◌≡◌};
ghost use Rattle.terms.specs.Answer.{as_answer, as_report};

use crate::refusal::Refusal;

// What an accepted enrolment, submission, withdrawal or fold answers.
#[derive(Clone, Copy, Debug, PartialEq, Eq)]
pub struct Accepted {
    pub flag: u8,
    pub advance: i64,
}

impl Accepted {
    // "zeros for an accepted enrolment", and for a fold.
    pub const ZEROS: Accepted = Accepted {
        flag: 0,
        advance: 0,
    };
}

// What a report counts.
#[derive(Clone, Copy, Debug, PartialEq, Eq)]
pub struct Totals {
    pub standing: u16,
    pub flagged: u16,
    pub total: i64,
}

// An answer in numbers, as a line says it and as a program in C is told.
#[derive(Clone, Copy)]
pub struct Answer {
    pub number: u8,
    pub flag: u8,
    pub advance: i64,
}

impl Answer {
    // The number of an answer that refuses nothing.
    pub const ACCEPTED: u8 = 0;
}

// A report in numbers.
#[derive(Clone, Copy)]
pub struct Report {
    pub number: u8,
    pub standing: u16,
    pub flagged: u16,
    pub total: i64,
}

// A refusal's number comes with zeros in the other fields.
impl From<Result<Accepted, Refusal>> for Answer {
    ghost from_gives = { λ answer told. told ≡ as_answer answer };

    fn from(answer: Result<Accepted, Refusal>) -> Answer {
        match answer {
            Ok(accepted) => Answer {
                number: Answer::ACCEPTED,
                flag: accepted.flag,
                advance: accepted.advance,
            },
            Err(refusal) => Answer {
                number: refusal.into(),
                flag: 0,
                advance: 0,
            },
        }
    }
}

impl From<Result<Totals, Refusal>> for Report {
    ghost from_gives = { λ answer told. told ≡ as_report answer };

    fn from(answer: Result<Totals, Refusal>) -> Report {
        match answer {
            Ok(totals) => Report {
                number: Answer::ACCEPTED,
                standing: totals.standing,
                flagged: totals.flagged,
                total: totals.total,
            },
            Err(refusal) => Report {
                number: refusal.into(),
                standing: 0,
                flagged: 0,
                total: 0,
            },
        }
    }
}
