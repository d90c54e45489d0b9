// Recorded cases, read from their text.
use crate::call::{Call, Line, ReasonerCall};
use crate::fault::Fault;
use crate::kinds::KindName;
use crate::meaning::{Said, read_line};
use std::alloc::Global;

// A case: its number, its kind, and its calls in order.
#[derive(Drop)]
pub struct Case<'a> {
    pub number: u32,
    // None until a line names it.
    pub kind: Option<KindName>,
    // The calls that need no reasoner.
    pub lines: Vec<Line<'a, Call>>,
    pub reasoners: Vec<Reasoner<'a>>,
}

// A reasoner: how many rows it has, and its calls in order.
#[derive(Drop)]
pub struct Reasoner<'a> {
    pub rows: usize,
    pub lines: Vec<Line<'a, ReasonerCall<'a>>>,
}

impl<'a> Reasoner<'a> {
    // Whether a file is loaded.
    pub(crate) fn loads(&self) -> bool {
        let mut calls = self.lines.iter();
        calls.any(|line| matches!(line.call, ReasonerCall::Load(_)))
    }
}

// All cases of the text; refuses the first line that has no meaning.
pub(crate) fn read_cases(heap: Global, text: &str) -> Result<Vec<Case<'_>>, Fault> {
    let mut cases = Vec::new(heap);
    for (index, line) in text.lines().enumerate() {
        let number = index.saturating_add(1);
        let (line, _) = line.split_once("#").unwrap_or((line, ""));
        let (call, recorded) = parts(line);
        if let Some(said) = read_line(call, number)? {
            take_line(heap, &mut cases, number, said, recorded)?;
        }
    }
    Ok(cases)
}

// The call of a line, and the recorded answer, if there is one.
fn parts(line: &str) -> (&str, Option<&str>) {
    match line.split_once(" -> ") {
        Some((call, recorded)) => (call, Some(recorded)),
        None => (line, None),
    }
}

fn take_line<'a>(
    heap: Global,
    cases: &mut Vec<Case<'a>>,
    number: usize,
    said: Said<'a>,
    recorded: Option<&'a str>,
) -> Result<(), Fault> {
    match said {
        Said::Case(number) => cases.push(Case {
            number,
            kind: None,
            lines: Vec::new(heap),
            reasoners: Vec::new(heap),
        })?,
        Said::Kind(kind) => last_case(cases, number)?.kind = Some(kind),
        Said::Make(rows) => last_case(cases, number)?.reasoners.push(Reasoner {
            rows,
            lines: Vec::new(heap),
        })?,
        Said::Call(call) => last_case(cases, number)?.lines.push(Line {
            number,
            call,
            recorded,
        })?,
        Said::ReasonerCall(call) => last_reasoner(cases, number)?.lines.push(Line {
            number,
            call,
            recorded,
        })?,
    }
    Ok(())
}

// The case to which the line belongs.
fn last_case<'a, 'b>(
    cases: &'b mut Vec<Case<'a>>,
    number: usize,
) -> Result<&'b mut Case<'a>, Fault> {
    cases.last_mut().ok_or(Fault::Unread(number))
}

// The reasoner to which the line belongs.
fn last_reasoner<'a, 'b>(
    cases: &'b mut Vec<Case<'a>>,
    number: usize,
) -> Result<&'b mut Reasoner<'a>, Fault> {
    let case = last_case(cases, number)?;
    case.reasoners.last_mut().ok_or(Fault::Unread(number))
}
