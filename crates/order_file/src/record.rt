//! The records, each read from a line of its own.
ghost use Rattle.std.specs.Prelude.{◌≡◌, Option};
ghost use Rattle.tokens.specs.TextLines.{Left, Took, left, numbered};
ghost use Rattle.order_file.specs.Records.{read_kit, read_level, read_load, read_card};

use records::card::Card;
use records::kit_numbers::KitNumbers;
use records::level::Level;
use records::line::Line;
use tokens::fault::Fault;
use tokens::text_line::TextLine;

/// A record that a line can hold: a kit's numbers, a level, a load or a card, its fields in the order in which the order
/// file has them.
pub trait Record: Sized {
    ghost layout: { Left → Option (Self × Left) };

    /// The record whose fields stand next in the line, or a fault of layout; words that follow them stay in the line. What a
    /// fault leaves of the line is not said.
    fn read(line: &mut TextLine<'_>) -> Result<Self, Fault>
        ensures took { Took (λ x. x) result (left line.new) (numbered line.old) (layout (left line.old)) }
        ensures same { numbered line.new ≡ numbered line.old };
}

impl Record for KitNumbers {
    ghost layout = { read_kit };

    fn read(line: &mut TextLine<'_>) -> Result<KitNumbers, Fault> {
        Ok(KitNumbers {
            levels: line.field()?,
            floor_weight: line.field()?,
            roof_weight: line.field()?,
            height: line.field()?,
            stiffness: line.field()?,
            mass_centre: line.field()?,
            torsion_centre: line.field()?,
            width: line.field()?,
        })
    }
}

impl Record for Level {
    ghost layout = { read_level };

    fn read(line: &mut TextLine<'_>) -> Result<Level, Fault> {
        Ok(Level {
            weight: line.field()?,
            height: line.field()?,
            stiffness: line.field()?,
            mass_centre: line.field()?,
            torsion_centre: line.field()?,
            width: line.field()?,
        })
    }
}

impl Record for Line {
    ghost layout = { read_load };

    fn read(line: &mut TextLine<'_>) -> Result<Line, Fault> {
        Ok(Line {
            level: line.field()?,
            load: line.field()?,
        })
    }
}

impl Record for Card {
    ghost layout = { read_card };

    fn read(line: &mut TextLine<'_>) -> Result<Card, Fault> {
        Ok(Card {
            soil: line.field()?,
            group: line.field()?,
            c: line.field()?,
            a0: line.field()?,
            ta: line.field()?,
            tb: line.field()?,
            period: line.field()?,
            q: line.field()?,
            correction: line.field()?,
            walls: line.field()?,
            load_factor: line.field()?,
            gap: line.field()?,
        })
    }
}
