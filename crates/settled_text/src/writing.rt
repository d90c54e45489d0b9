// Writing a line, part by part.
ghost use Rattle.std.specs.Prelude.{◌≡◌, ◌+◌, ◌≤◌, ◌∷◌, ◌++◌};
ghost use Rattle.arrayvec.specs.ArrayString.{array_string_len};
ghost use Rattle.settled_text.specs.Text.{Written};

use arrayvec::ArrayString;
use itoa::{Buffer, Integer};
use standpoint::Refusal;

// A line of at most 80 bytes, held in place.
// Numbers are not pushed by `write!`: of an `Err` of it nothing is known, not even that the line is full.
pub(crate) type Line = ArrayString<80>;

// The number in decimal.
pub(crate) fn push_number<N: Integer>(line: &mut Line, number: N)
    requires { array_string_len line.old + N.MAX_STR_LEN ≤ 80 }
    ensures bytes { line.new.bytes ≡ line.old.bytes ++ N.text number }
    ensures bound { array_string_len line.new ≤ array_string_len line.old + N.MAX_STR_LEN }
{
    let mut digits = Buffer::new();
    line.push_str(digits.format(number));
}

// A blank and the number.
pub(crate) fn push_next_number<N: Integer>(line: &mut Line, number: N)
    requires { array_string_len line.old + 1 + N.MAX_STR_LEN ≤ 80 }
    ensures bytes { line.new.bytes ≡ line.old.bytes ++ (32 ∷ N.text number) }
    ensures bound { array_string_len line.new ≤ array_string_len line.old + 1 + N.MAX_STR_LEN }
{
    line.push(' ');
    push_number(line, number);
}

// Copies the line to the front of the buffer and answers its length.
pub(crate) fn copy_line(line: &Line, buffer: &mut [u8]) -> Result<usize, Refusal>
    ensures { Written line.now.bytes buffer.old buffer.new result }
{
    let len = line.len();
    if buffer.len() < len {
        return Err(Refusal::BufferTooShort);
    }
    buffer[..len].copy_from_slice(line.as_str().as_bytes());
    Ok(len)
}
