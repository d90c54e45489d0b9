// What lines say.
use crate::call::{Call, ReasonerCall};
use crate::fault::Fault;
use crate::kinds::KindName;
use crate::words::Words;

// What a line says.
#[derive(Clone, Copy)]
pub enum Said<'a> {
    Case(u32),
    Kind(KindName),
    Make(usize),
    Call(Call),
    ReasonerCall(ReasonerCall<'a>),
}

// What the line of this number says, if it is not blank; refuses it if it has no meaning.
pub(crate) fn read_line(line: &str, number: usize) -> Result<Option<Said<'_>>, Fault> {
    let mut words = Words::new(line);
    let Some(name) = words.word() else {
        return Ok(None);
    };
    let said = meaning(name, &mut words);
    Ok(Some(said.ok_or(Fault::Unread(number))?))
}

fn meaning<'a>(name: &str, words: &mut Words<'a>) -> Option<Said<'a>> {
    Some(match name {
        "case" => Said::Case(words.number()?),
        "kind" => Said::Kind(words.kind_name()?),
        "make" => Said::Make(words.number()?),
        "check" | "accept" | "step" | "verdict" | "start" | "join" | "noworse" => {
            Said::Call(call(name, words)?)
        }
        "load" => Said::ReasonerCall(ReasonerCall::Load(words.word()?)),
        _ => Said::ReasonerCall(ReasonerCall::Replayed(replayed_call(name, words)?)),
    })
}

fn call(name: &str, words: &mut Words<'_>) -> Option<Call> {
    Some(match name {
        "check" => Call::Check(words.sizes()?),
        "accept" => Call::Accept(words.statement()?, words.number()?),
        "step" => Call::Step(words.step()?),
        "verdict" => Call::Verdict,
        "start" => Call::Start,
        "join" => Call::Join(words.number()?, words.number()?),
        "noworse" => Call::NoWorse(words.number()?, words.number()?),
        _ => return None,
    })
}

fn replayed_call(name: &str, words: &mut Words<'_>) -> Option<replay::Call<u32>> {
    Some(match name {
        "begin" => replay::Call::Begin(words.sizes()?),
        "add" => replay::Call::Add(words.statement()?, words.number()?),
        "settle" => replay::Call::Settle(words.number()?),
        "ask" => replay::Call::Ask(words.statement()?),
        "explain" => replay::Call::Explain(words.statement()?, words.number()?),
        _ => return None,
    })
}
