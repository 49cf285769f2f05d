//! A sheet as every program prints it.
#![tactic(auto)]

ghost use Rattle.std.specs.Prelude.{◌≡◌, ◌+◌, ◌*◌, ◌^◌, ◌<◌, ◌≤◌, ◌++◌, length, drop, Some, take};
ghost use Rattle.sheet_text.specs.Sheets.{sheet_text, text_of};
ghost use Rattle.sheet_text.specs.Room.{heading_size, row_size, Written};

use heading::put_heading;
use pen::tail::{LONG_NUMBER_SIZE, NUMBER_SIZE, Tail};
use row::put_row;
use seismic::row::Row;
use seismic::sheet::Sheet;
use std::fmt;

mod heading;
mod row;

/// No heading is longer: two words and five numbers of 32 bits, each with the byte after it.
pub const HEADING_SIZE: usize = 6 + 5 + 5 * NUMBER_SIZE;

/// No row's line is longer: five numbers of 32 bits and five of 64.
pub const ROW_SIZE: usize = 5 * NUMBER_SIZE + 5 * LONG_NUMBER_SIZE;

/// A sheet as text: its heading, and a line a level, from below.
#[derive(Clone, Copy, Debug)]
pub struct SheetText<'a> {
    pub sheet: &'a Sheet,
    /// The rows that were lent to it, which may be more than it wrote.
    pub rows: &'a [Row],
}

impl<'a> SheetText<'a> {
    // The rows that the sheet wrote.
    fn written(&self) -> &'a [Row]
        ensures written { result.now ≡ take self.now.sheet.now.levels self.now.rows.now }
        ensures few { length result.now < 2 ^ 32 }
    {
        let count = self.rows.len().min(self.sheet.levels as usize);
        &self.rows[..count]
    }

    /// Writes the text to the front of `out`, and answers how many bytes that takes; further bytes stay as they were. Where
    /// `out` has no room for the longest heading, and for the longest line a row, nothing is written.
    pub fn write(&self, out: &mut [u8]) -> Option<usize>
        ensures { Written self.now.sheet.now self.now.rows.now out.old result out.new }
    {
        let rows = self.written();
        if out.len() < HEADING_SIZE + rows.len() * ROW_SIZE {
            return None;
        }
        Some(write_lines(self.sheet, rows, out))
    }
}

// Writes the heading and a line a row to the front of a buffer that holds them, and answers how many bytes they take.
fn write_lines(sheet: &Sheet, rows: &[Row], out: &mut [u8]) -> usize
    requires { heading_size + length rows.now * row_size ≤ length out.old }
    ensures count { result ≡ length (text_of sheet.now rows.now) }
    ensures bytes { out.new ≡ text_of sheet.now rows.now ++ drop result out.old }
{
    let mut line = Tail::new();
    put_heading(sheet, &mut line).unwrap();
    let mut at = line.copy_to(out).unwrap();
    for row in rows {
        line.clear();
        put_row(row, &mut line).unwrap();
        at += line.copy_to(&mut out[at..]).unwrap();
    }
    at
}

impl fmt::Display for SheetText<'_> {
    ghost output = { λ text. Some (sheet_text text.sheet.now text.rows.now) };

    fn fmt<W: fmt::Write>(&self, f: &mut fmt::Formatter<W>) -> fmt::Result {
        let mut line = Tail::new();
        put_heading(self.sheet, &mut line).unwrap();
        write!(f, "{line}")?;
        for row in self.written() {
            line.clear();
            put_row(row, &mut line).unwrap();
            write!(f, "{line}")?;
        }
        Ok(())
    }
}
