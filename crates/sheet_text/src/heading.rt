//! A sheet's heading.
ghost use Rattle.std.specs.Prelude.{◌≡◌, ◌≤◌, [], length, Some};
ghost use Rattle.tokens.specs.Text.{line_of};
ghost use Rattle.sheet_text.specs.Sheets.{sheet_words, verdict_words};
ghost use Rattle.sheet_text.specs.Room.{heading_size, verdict_size};

use pen::tail::Tail;
use seismic::sheet::Sheet;
use seismic::verdict::Verdict;

// Puts the words of a heading into its line, from the last to the first. There is room for them.
pub(crate) fn put_heading(sheet: &Sheet, line: &mut Tail) -> Option<()>
    requires { line.old ≡ [] }
    ensures all { result ≡ Some tt }
    ensures put { line.new ≡ line_of (sheet_words sheet.now) [] }
    ensures short { length line.new ≤ heading_size }
{
    put_verdict(sheet.verdict, line)?;
    line.number(sheet.base_shear, b' ')?;
    line.number(sheet.weight, b' ')?;
    line.number(sheet.levels, b' ')?;
    line.word(b"SHEET", b' ')
}

// Puts those of a verdict, which end it.
fn put_verdict(verdict: Verdict, line: &mut Tail) -> Option<()>
    requires { line.old ≡ [] }
    ensures all { result ≡ Some tt }
    ensures put { line.new ≡ line_of (verdict_words verdict) [] }
    ensures short { length line.new ≤ verdict_size }
{
    match verdict {
        Verdict::Pass => line.word(b"PASS", b'\n'),
        Verdict::Fail { storey, limit } => {
            line.number(limit.number(), b'\n')?;
            line.number(storey, b' ')?;
            line.word(b"FAIL", b' ')
        }
    }
}
