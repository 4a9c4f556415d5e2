// The weights of the units that take part in a division, in their order.
ghost use Rattle.std.specs.Prelude.{◌≡◌, ◌≤◌, length, take};
ghost use Rattle.apportion.specs.Shares.{bit};
ghost use Rattle.sheet.specs.Layout.{sheet_of};
ghost use Rattle.sheet.specs.Inner.Views.{sheet_in, unit_in};
ghost use Rattle.weights.specs.Inner.By.{takes_part, weight_of, weights_by};

use crate::basis::{Basis, Unit};
use crate::kinds::is_read;
use crate::units::{common_water_weight, unread_weight};
use sheet::RowView;
use sheet::rows::Field;

// What a division goes by.
#[derive(Clone, Copy)]
pub enum By {
    Load,
    Area,
    Unread,
    Read,
    Water,
    Persons,
}

fn weight(unit: Unit<'_>, by: By) -> u64
    ensures { result ≡ weight_of unit.entry.basis.now.rules by (sheet_in unit.entry.row) (unit_in unit.entry.row) }
{
    match by {
        By::Load => u64::from(unit.row.field(Field::HeatLoad)),
        By::Area => u64::from(unit.row.field(Field::HeatedArea)),
        By::Unread => unread_weight(unit.row),
        By::Read => unit.read_weight(),
        By::Water => unit.water_weight(),
        By::Persons => common_water_weight(unit.row),
    }
}

fn part(row: RowView<'_>, by: By) -> bool
    ensures { result ≡ takes_part by (unit_in row.entry) }
{
    match by {
        By::Unread => !is_read(row),
        By::Read => is_read(row),
        _ => true,
    }
}

// Writes the weights one after the other; returns how many there are.
pub fn gather<'a>(basis: &'a Basis<'a>, by: By, out: &mut [u64; 160]) -> usize
    ensures few { result ≤ (sheet_of basis.now.sheet.bytes.now).unit_count }
    ensures weights { take result out.new ≡ weights_by basis.now.rules by (sheet_of basis.now.sheet.bytes.now) }
{
    let mut m = 0;
    for row in basis.sheet.rows() {
        out[m] = weight(Unit { basis, row }, by);
        m += usize::from(part(row, by));
    }
    m
}
