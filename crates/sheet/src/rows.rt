// The unit rows (document 01, "The sheet"): the fields of a row.
ghost use Rattle.std.specs.Prelude.{◌≡◌, ◌+◌, ◌*◌, ◌≤◌, ◌<◌, length, get_or};
ghost use Rattle.sheet.specs.Layout.{sheet_of};
ghost use Rattle.sheet.specs.Inner.Fields.{row_field, row_fields, unit_row_at, unit_of, field_at};

use crate::bytes::{read8, read16, read32};

// In layout order.
#[derive(Clone, Copy)]
pub enum Field {
    Id,
    Status,
    WaterClass,
    LocationFactor,
    HeatedArea,
    RiserSurface,
    HeatLoad,
    Reading,
    Litres,
    Persons,
    Reserved,
}

const FIELDS: [Field; 11] = [
    Field::Id,
    Field::Status,
    Field::WaterClass,
    Field::LocationFactor,
    Field::HeatedArea,
    Field::RiserSurface,
    Field::HeatLoad,
    Field::Reading,
    Field::Litres,
    Field::Persons,
    Field::Reserved,
];

// Of the row at byte `at`.
#[tactic(auto, unfolding(crate::specs::Layout::unit_row))]
pub(crate) fn field_at(s: &[u8], at: usize, field: Field) -> u32
    requires { at + 32 ≤ length s.now }
    ensures { result ≡ row_field (unit_row_at s.now at) field }
{
    match field {
        Field::Id => read32(s, at),
        Field::Status => read8(s, at + 4),
        Field::WaterClass => read8(s, at + 5),
        Field::LocationFactor => read16(s, at + 6),
        Field::HeatedArea => read32(s, at + 8),
        Field::RiserSurface => read32(s, at + 12),
        Field::HeatLoad => read32(s, at + 16),
        Field::Reading => read32(s, at + 20),
        Field::Litres => read32(s, at + 24),
        Field::Persons => read16(s, at + 28),
        Field::Reserved => read16(s, at + 30),
    }
}

// Field k of any bytes: 0 where the row isn't wholly inside or there is no field k.
pub fn row_field(s: &[u8], at: usize, k: usize) -> u32
    ensures { result ≡ field_at s.now at k }
{
    let Some(&field) = FIELDS.get(k) else {
        return 0;
    };
    if s.len() < 32 {
        return 0;
    }
    if s.len() - 32 < at {
        return 0;
    }
    field_at(s, at, field)
}

// Field k of unit i; 0 where there is no field k.
pub fn numbered_field(s: &[u8], i: usize, k: usize) -> u32
    requires { (i < (sheet_of s.now).unit_count) × (80 + 32 * i ≤ length s.now) }
    ensures { result ≡ get_or (row_fields (unit_of (sheet_of s.now) i)) k 0 }
{
    row_field(s, 48 + 32 * i, k)
}

// Of unit i, in a sheet that is still being checked.
pub fn unit_field(s: &[u8], i: usize, field: Field) -> u32
    requires { (i < (sheet_of s.now).unit_count) × (80 + 32 * i ≤ length s.now) }
    ensures { result ≡ row_field (unit_of (sheet_of s.now) i) field }
{
    field_at(s, 48 + 32 * i, field)
}
