// Values and stamp codes, as a sheet prints them.
use std::fmt;

// How many counters a time has in the code of a stamp.
const COUNTERS: u64 = 65_536;

// A value in thousandths of its unit: in units, with three decimals.
#[derive(Clone, Copy, Debug)]
pub struct Units(pub i32);

impl fmt::Display for Units {
    ghost use Rattle.std.specs.Prelude.{Some};
    ghost use Rattle.sheet_lines.specs.Numbers.{units_text};

    ghost output = { λ value. Some (units_text value.0) };

    fn fmt<W: fmt::Write>(&self, f: &mut fmt::Formatter<W>) -> fmt::Result {
        let thousandths = self.0.unsigned_abs();
        let sign = if self.0 < 0 { "-" } else { "" };
        let units = thousandths / 1000;
        let tenths = thousandths / 100 % 10;
        let hundredths = thousandths / 10 % 10;
        let last = thousandths % 10;
        write!(f, "{sign}{units}.{tenths}{hundredths}{last}")
    }
}

// A stamp's code: as the stamp.
#[derive(Clone, Copy, Debug)]
pub struct Code(pub u64);

impl fmt::Display for Code {
    ghost use Rattle.std.specs.Prelude.{Some};
    ghost use Rattle.sheet_lines.specs.Numbers.{code_text};

    ghost output = { λ code. Some (code_text code.0) };

    fn fmt<W: fmt::Write>(&self, f: &mut fmt::Formatter<W>) -> fmt::Result {
        write!(f, "{}.{}", self.0 / COUNTERS, self.0 % COUNTERS)
    }
}
