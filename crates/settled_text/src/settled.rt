// The text of a reasoner: a line for each settled statement, and one for how it stands.
ghost use Rattle.std.specs.Prelude.{◌≡◌, ◌≤◌, length, IfOk};
ghost use Rattle.settled_text.specs.Text.{statement_text, stand_word, stand_text, Written, RowsLine, RunLine};

use crate::writing::{Line, copy_line, push_next_number, push_number};
use blockfile::StoredKind;
use runs::Stand;
use saturation::{Phase, Table};
use standpoint::{Refusal, Statement};

// Writes line k of the text, from 0, and answers its length with the line feed, which is 0 past the last, where nothing is
// written; refuses before begin, and then a buffer that is too short.
pub fn settled_line<K: StoredKind>(
    reasoner: &Table<'_, K::Grade>,
    k: usize,
    buffer: &mut [u8],
) -> Result<usize, Refusal>
    ensures rows { RowsLine K.StoredKind.coded reasoner.now k buffer.old buffer.new result }
    ensures run { RunLine K.StoredKind.coded reasoner.now k buffer.old buffer.new result }
    ensures within { IfOk result (λ n. n ≤ length buffer.old) }
{
    if let Phase::Idle = reasoner.phase {
        return Err(Refusal::NotBegun);
    }
    if let Some((statement, grade)) = reasoner.settled_at(k) {
        return statement_line(statement, K::encode(grade), buffer);
    }
    if k == reasoner.settled {
        return stand_line(reasoner.stand(), k as u32, buffer);
    }
    Ok(0)
}

fn statement_line(statement: Statement, code: u32, buffer: &mut [u8]) -> Result<usize, Refusal>
    ensures { Written (statement_text statement code) buffer.old buffer.new result }
{
    let mut line = Line::new();
    push_number(&mut line, statement.shape);
    push_next_number(&mut line, statement.first);
    push_next_number(&mut line, statement.second);
    push_next_number(&mut line, statement.third);
    push_next_number(&mut line, statement.fourth);
    push_next_number(&mut line, statement.fifth);
    push_next_number(&mut line, code);
    line.push('\n');
    copy_line(&line, buffer)
}

fn stand_line(stand: Stand, count: u32, buffer: &mut [u8]) -> Result<usize, Refusal>
    ensures { Written (stand_text stand count) buffer.old buffer.new result }
{
    let mut line = Line::new();
    line.push_str(word(stand));
    push_number(&mut line, count);
    line.push('\n');
    copy_line(&line, buffer)
}

fn word(stand: Stand) -> &'static str
    ensures value { result.now ≡ stand_word stand }
    ensures bound { length result.now ≤ 6 }
{
    match stand {
        Stand::Open => "open ",
        Stand::Ended => "ended ",
        Stand::Full => "full ",
    }
}
