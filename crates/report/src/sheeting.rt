//! The way from an order file to the text of its sheet: the loads are booked in turn, and then the sheet is made.
ghost use Rattle.std.specs.Prelude.{◌≡◌, ◌≤◌, ◌+◌, [], length, Some, Err};
ghost use Rattle.records.specs.Limits.{level_limit};
ghost use Rattle.seismic.specs.Refusals.{sheet_denial};
ghost use Rattle.order_file.specs.File.{filed};
ghost use Rattle.orders.specs.Orders.{order_list};
ghost use Rattle.orders.specs.Tables.{booked};
ghost use Rattle.report.specs.Reports.{frame_of, judged, levels_of, shear_line};
ghost use Rattle.report.specs.Buffers.{buffer_size};
ghost use Rattle.report.specs.Sheetings.{AllBooked, Booked, Shown, Told, shears_judged};

use crate::refusal::Refusal;
use frames::frame::Frame;
use order_file::contents::OrderFile;
use order_frame::open;
use order_frame::opened::Opened;
use orders::order::Order;
use orders::state::Open;
use records::failure::Failure;
use records::limits::MOST_LEVELS;
use records::line::Line;
use seismic::denial::{ShearDenial, SheetDenial};
use seismic::row::Row;
use sheet_text::SheetText;
use std::alloc::Global;

// Writes the text of the sheet of an order file to the front of `out`, or answers the first refusal.
pub(crate) fn write_sheet(
    bytes: &[u8],
    out: &mut [u8],
    heap: Global,
) -> Result<usize, Failure<Refusal>>
    requires { buffer_size ≤ length out.old }
    ensures { Told out.old result out.new (judged bytes.now) }
{
    let Opened { file, frame } = open(bytes, heap).map_err(Failure::widen)?;
    let mut order = Order::open(frame, heap)?;
    book_all(&mut order, &file)?;
    Ok(write_shears(&order, &file, out)?)
}

// Books the loads of the file on a new order, up to the first that is denied.
fn book_all<F: Frame>(order: &mut Order<F, Open>, file: &OrderFile) -> Result<(), Refusal>
    requires new { booked order.old.lines ≡ [] }
    requires frame { F.Frame.list order.old.frame ≡ frame_of (filed file.now) }
    ensures booked { AllBooked (filed file.now) result (booked order.new.lines) }
    ensures frame { order.new.frame ≡ order.old.frame }
{
    for (before, load) in file.loads.iter().enumerate() {
        book(order, file, before as u32 + 1, load)?;
    }
    Ok(())
}

// Books load `number` of the file, after those before it.
fn book<F: Frame>(
    order: &mut Order<F, Open>,
    file: &OrderFile,
    number: u32,
    load: &Line,
) -> Result<(), Refusal>
    requires number { number ≡ length (booked order.old.lines) + 1 }
    requires within { number ≤ length file.now.loads.items }
    requires frame { F.Frame.list order.old.frame ≡ frame_of (filed file.now) }
    ensures booked { Booked (filed file.now) (booked order.old.lines) load.now result (booked order.new.lines) }
    ensures frame { order.new.frame ≡ order.old.frame }
{
    order.load(*load).map_err(|denial| Refusal::NoLoad {
        denial,
        line: file.load_line(number).unwrap(),
    })
}

// Writes the text of the sheet of an order with the file's loads on it.
fn write_shears<F: Frame>(
    order: &Order<F, Open>,
    file: &OrderFile,
    out: &mut [u8],
) -> Result<usize, Refusal>
    requires loaded { order_list F.Frame.list order.now ≡ levels_of (filed file.now) }
    requires room { buffer_size ≤ length out.old }
    ensures { Shown out.old result out.new (shears_judged (filed file.now)) }
{
    let mut rows = [Row::default(); MOST_LEVELS as usize];
    match order.sheet(&file.card, &mut rows) {
        Ok(sheet) => {
            let text = SheetText {
                sheet: &sheet,
                rows: &rows,
            };
            Ok(text.write(out).unwrap())
        }
        Err(denial) => Err(refusal_of(file, denial)),
    }
}

// The refusal of a denied sheet. Rows are never too few: as many are lent as a frame may have levels.
fn refusal_of(file: &OrderFile, denial: SheetDenial) -> Refusal
    requires few { length (levels_of (filed file.now)) ≤ level_limit }
    requires denied { sheet_denial (length (levels_of (filed file.now))) file.now.card level_limit ≡ Some denial }
    ensures { shears_judged (filed file.now) ≡ Err result }
{
    match denial {
        SheetDenial::NoShears(denial) => {
            let line = shear_line(file, denial);
            Refusal::NoSheet { denial, line }
        }
        SheetDenial::TooFewRows { .. } => unreachable!(),
    }
}

// The line that is to blame where there are no shears.
fn shear_line(file: &OrderFile, denial: ShearDenial) -> u32
    ensures { result ≡ shear_line (filed file.now) denial }
{
    match denial {
        ShearDenial::NoLevels => 0,
        ShearDenial::BadCard(_) => file.card_line(),
    }
}
