//! The line that a frame's denial is told on.
ghost use Rattle.std.specs.Prelude.{◌≡◌};
ghost use Rattle.order_file.specs.File.{filed};
ghost use Rattle.order_frame.specs.Refusals.{kit_count, listed_line, found_line};

use frames::denial::FrameDenial;
use order_file::contents::OrderFile;

// The line of the record that the denial is about, where the file has it.
pub(crate) fn record_line(file: &OrderFile, denial: FrameDenial) -> Option<u32>
    ensures { result ≡ found_line (filed file.now) denial }
{
    match denial {
        FrameDenial::KitOutOfRange | FrameDenial::KitTooHigh => file.kit_line(),
        FrameDenial::TooManyLevels { level }
        | FrameDenial::OutOfRange { level }
        | FrameDenial::TooHigh { level } => listed_line(file, level),
    }
}

// The line of a level of the frame, counted from the ground.
fn listed_line(file: &OrderFile, level: u32) -> Option<u32>
    ensures { result ≡ listed_line (filed file.now) level }
{
    file.level_line(level.saturating_sub(kit_count(file)))
}

// How many levels stand below the first that the file lists.
fn kit_count(file: &OrderFile) -> u32
    ensures { result ≡ kit_count file.now.kit }
{
    file.kit.map_or(0, |numbers| numbers.levels)
}
