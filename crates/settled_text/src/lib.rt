//! The lines that `settled` prints, made in lent buffers.
#![tactic(auto)]

ghost use Rattle.settled_text.specs.Text.{refused_text, Written};
ghost use Rattle.blockfile.specs.Faults.{report_of};

use blockfile::LoadFault;
pub use settled::settled_line;
use standpoint::Refusal;
use writing::{Line, copy_line, push_number};

mod settled;
mod writing;

// Writes the line of a stopped load and answers its length with the line feed; refuses a buffer that is too short.
pub fn refused_line(fault: LoadFault, buffer: &mut [u8]) -> Result<usize, Refusal>
    ensures { Written (refused_text (report_of fault)) buffer.old buffer.new result }
{
    let report = fault.report();
    let mut line = Line::new();
    line.push_str("refused ");
    push_number(&mut line, report.why.number());
    line.push_str(" block ");
    push_number(&mut line, report.block);
    line.push_str(" record ");
    push_number(&mut line, report.place);
    line.push('\n');
    copy_line(&line, buffer)
}
