//! A row's line.
ghost use Rattle.std.specs.Prelude.{◌≡◌, ◌≤◌, [], length, Some};
ghost use Rattle.tokens.specs.Text.{line_of};
ghost use Rattle.sheet_text.specs.Sheets.{movement_words, row_line};
ghost use Rattle.sheet_text.specs.Room.{movement_size, row_size};

use pen::tail::Tail;
use seismic::row::Row;

// Puts the words of a row into its line, from the last to the first. There is room for them.
#[inline]
pub(crate) fn put_row(row: &Row, line: &mut Tail) -> Option<()>
    requires { line.old ≡ [] }
    ensures all { result ≡ Some tt }
    ensures put { line.new ≡ row_line row.now }
    ensures short { length line.new ≤ row_size }
{
    put_movement(row, line)?;
    line.number(row.shear, b' ')?;
    line.number(row.force, b' ')?;
    line.number(row.height.decimetres(), b' ')?;
    line.number(row.weight, b' ')?;
    line.number(row.level, b' ')?;
    Some(())
}

// Puts those that end it: how the storey and its level move.
#[inline]
#[tactic(auto, using(std::proofs::lemmas::Grind::common_steps, std::proofs::lemmas::Int::wraps))]
fn put_movement(row: &Row, line: &mut Tail) -> Option<()>
    requires { line.old ≡ [] }
    ensures all { result ≡ Some tt }
    ensures put { line.new ≡ line_of (movement_words row.now) [] }
    ensures short { length line.new ≤ movement_size }
{
    line.long_number(row.separation, b'\n')?;
    line.signed_number(row.mb, b' ')?;
    line.long_number(row.ma, b' ')?;
    line.long_number(row.displacement, b' ')?;
    line.long_number(row.drift, b' ')
}
