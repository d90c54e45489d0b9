// Answers as they are recorded.
use blockfile::{FaultReport, Layer, StoredKind};
use runs::Stand;
use standpoint::Refusal;
use std::fmt;

// What a call answers; grades are given by their codes.
#[derive(Clone, Copy)]
pub enum Answer {
    Performed,
    Settled(u32, Stand),
    Graded(u32),
    Nothing,
    Pending,
    Passes(u32),
    Refused(Refusal),
    Stopped(FaultReport),
    Code(u32),
    Truth(bool),
    // The outcome of another call, or an explanation of another statement; recorded nowhere.
    Unasked,
}

impl Answer {
    // What a reasoner says of a statement.
    pub(crate) fn said<K: StoredKind>(said: reasoner::Answer<K::Grade>) -> Answer {
        match said {
            reasoner::Answer::Graded(grade) => Answer::Graded(K::encode(grade)),
            reasoner::Answer::Nothing => Answer::Nothing,
            reasoner::Answer::Pending => Answer::Pending,
        }
    }
}

impl fmt::Display for Answer {
    fn fmt<W: fmt::Write>(&self, f: &mut fmt::Formatter<W>) -> fmt::Result {
        match *self {
            Answer::Performed => write!(f, "ok"),
            Answer::Settled(count, Stand::Open) => write!(f, "{count} open"),
            Answer::Settled(count, Stand::Ended) => write!(f, "{count} ended"),
            Answer::Settled(count, Stand::Full) => write!(f, "{count} full"),
            Answer::Graded(code) => write!(f, "grade {code}"),
            Answer::Nothing => write!(f, "none"),
            Answer::Pending => write!(f, "pending"),
            Answer::Passes(code) => write!(f, "passes {code}"),
            Answer::Refused(refusal) => write_refusal(refusal, f),
            Answer::Stopped(report) => write_report(report, f),
            Answer::Code(code) => write!(f, "{code}"),
            Answer::Truth(true) => write!(f, "yes"),
            Answer::Truth(false) => write!(f, "no"),
            Answer::Unasked => write!(f, "not what was asked"),
        }
    }
}

fn write_refusal<W: fmt::Write>(refusal: Refusal, f: &mut fmt::Formatter<W>) -> fmt::Result {
    let number = refusal.number();
    match refusal {
        Refusal::WrongStep(place) => write!(f, "refused {number} {place}"),
        _ => write!(f, "refused {number}"),
    }
}

fn write_report<W: fmt::Write>(report: FaultReport, f: &mut fmt::Formatter<W>) -> fmt::Result {
    let layer = match report.layer {
        Layer::File => "file",
        Layer::Block => "block",
        Layer::Record => "record",
    };
    let number = report.why.number();
    let block = report.block;
    let place = report.place;
    write!(f, "refused {layer} {number} block {block} record {place}")
}
