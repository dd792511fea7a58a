// Why a text is refused, and the tests that every reader makes of a line alike: of its shape, its sum and its kind.
ghost use Rattle.std.specs.Prelude.{◌≡◌, ◌≤◌, true, false, IfOk, OnOk, IfErr};
ghost use Rattle.rules.specs.Lines.{unless};
ghost use Rattle.frames.specs.Faults.{number_of, told, line_fault_of};
ghost use Rattle.frames.specs.Kinds.{text_number, row_for, row_of};

use crate::kinds::{Row, Text, look_up};

// The least bytes of a line: a kind and a check.
const LEAST: usize = 2;

// Why a text is refused, each with its number in the rules' table.
#[derive(Clone, Copy, PartialEq, Eq)]
pub enum Refusal {
    Length = 1,
    Shape = 2,
    Sum = 3,
    Kind = 4,
    Order = 5,
    Content = 6,
    Room = 7,
    Root = 8,
    Unrefuting = 13,
}

// A refusal, and the line told.
#[derive(Clone, Copy)]
pub struct Fault {
    pub refusal: Refusal,
    pub line: u32,
}

impl From<Refusal> for u8 {
    fn from(refusal: Refusal) -> u8
        ensures { result ≡ number_of refusal }
    {
        refusal as u8
    }
}

// A refusal where a test fails.
#[inline]
pub fn ensure(passes: bool, refusal: Refusal) -> Result<(), Refusal>
    ensures ok { OnOk result (passes ≡ true) }
    ensures err { IfErr result (λ e. (passes ≡ false) × (e ≡ refusal)) }
    ensures number { told result ≡ unless passes (number_of refusal) }
{
    if passes {
        return Ok(());
    }
    Err(refusal)
}

// 2, 3 and 4 by the bytes of a line, their sum and its kind; of a line without these the row of its kind.
pub fn line_row(text: Text, kind: u8, bytes: usize, sum: u32) -> Result<Row, Refusal>
    requires { bytes ≤ 4294967295 }
    ensures number { told result ≡ line_fault_of bytes sum (row_for (text_number text) kind) 0 }
    ensures row { IfOk result (λ r. row_of r ≡ row_for (text_number text) kind) }
{
    ensure(LEAST <= bytes, Refusal::Shape)?;
    ensure(sum == 0, Refusal::Sum)?;
    let Some(row) = look_up(text, kind) else {
        return Err(Refusal::Kind);
    };
    ensure(row.digits as usize == bytes * 2, Refusal::Kind)?;
    Ok(row)
}
