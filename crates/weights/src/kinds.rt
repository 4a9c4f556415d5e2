// What a row's status and water class say.
ghost use Rattle.std.specs.Prelude.{◌≡◌, eqb};
ghost use Rattle.sheet.specs.Inner.Views.{unit_in};
ghost use Rattle.month.specs.Weights.{is_read, has_no_device};

use sheet::{RowView, Status, WaterClass};

pub fn is_read(row: RowView<'_>) -> bool
    ensures { result ≡ is_read (unit_in row.entry) }
{
    row.status() == Status::Read
}

// Counts as without a device: status 1 and 4.
pub fn has_no_device(row: RowView<'_>) -> bool
    ensures { result ≡ has_no_device (unit_in row.entry) }
{
    matches!(row.status(), Status::NoDevice | Status::LaterFault)
}

pub(crate) fn is_by_volume(row: RowView<'_>) -> bool
    ensures { result ≡ eqb (unit_in row.entry).water_class 1 }
{
    row.water_class() == WaterClass::ByVolume
}

pub(crate) fn is_by_persons(row: RowView<'_>) -> bool
    ensures { result ≡ eqb (unit_in row.entry).water_class 2 }
{
    row.water_class() == WaterClass::ByPersons
}
