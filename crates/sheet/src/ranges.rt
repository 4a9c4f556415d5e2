// Lowest and highest value of each field (document 01, "The sheet").
ghost use Rattle.std.specs.Prelude.{◌≡◌, map, ◌+◌, ◌*◌, ◌≤◌, ◌<◌, eqb, length, if◌then◌else◌};
ghost use Rattle.sheet.specs.Layout.{sheet_of};
ghost use Rattle.sheet.specs.Check.{passes, ◌within◌, ◌to◌, entry, header_tests, row_tests};
ghost use Rattle.sheet.specs.Inner.Fields.{unit_of};
ghost use Rattle.sheet.specs.Inner.FieldRanges.{header_range, allowed, row_ranges, refusal_by, LimitsOf};

use crate::header::header_field;
use crate::refusal::Refusal;
use crate::rows::unit_field;
use crate::{header, rows, tables};

#[derive(Clone, Copy)]
pub struct Range {
    pub low: u32,
    pub high: u32,
}

impl Range {
    pub fn contains(self, x: u32) -> bool
        ensures { result ≡ passes (x within self) }
    {
        self.low <= x && x <= self.high
    }
}

// Entry `code` of a table.
fn entry(table: &[Range], code: u32) -> Range
    ensures { result ≡ entry table.now code }
{
    table.get(code as usize).copied().unwrap_or(tables::ZERO)
}

// The header's fields, in layout order.
pub fn header_ranges(s: &[u8]) -> [Range; 17]
    requires { 48 ≤ length s.now }
    ensures { result ≡ map header_range (header_tests (sheet_of s.now)) }
{
    let model = header_field(s, header::Field::Model);
    let source = header_field(s, header::Field::WaterSource);
    let other = entry(&tables::OTHER_WATER_READING, source);
    [
        Range { low: 1, high: 12 },
        Range { low: 1, high: 5 },
        Range { low: 1, high: 160 },
        Range { low: 0, high: 3 },
        entry(&tables::BASE_PERCENT, model),
        entry(&tables::COMMON_HEAT_PERCENT, model),
        entry(&tables::COMMON_WATER_PERCENT, source),
        entry(&tables::UNMETERED_FACTOR, model),
        entry(&tables::LOSS_FACTOR, source),
        tables::ANY_WH,
        Range {
            low: 0,
            high: 100_000,
        },
        entry(&tables::FIRST_WATER_READING, source),
        other,
        other,
        other,
        other,
        other,
    ]
}

// What model and source allow in every row.
#[derive(Clone, Copy)]
pub struct RowLimits {
    pub status: Range,
    pub class: Range,
    pub reading: Range,
}

pub fn row_limits(s: &[u8]) -> RowLimits
    requires { 48 ≤ length s.now }
    ensures { LimitsOf (sheet_of s.now) result }
{
    let model = header_field(s, header::Field::Model);
    let source = header_field(s, header::Field::WaterSource);
    RowLimits {
        status: entry(&tables::STATUS, model),
        class: entry(&tables::WATER_CLASS, source),
        reading: entry(&tables::READING, model),
    }
}

// b is 0 where the unit isn't read.
fn if_read(status: u32, reading: Range) -> Range
    ensures { result ≡ (if eqb status 0 then reading else 0 to 0) }
{
    if status == 0 { reading } else { tables::ZERO }
}

// What is allowed in the fields of row i after the id, in layout order.
pub fn row_ranges(s: &[u8], i: usize, limits: RowLimits) -> [Range; 10]
    requires { (i < (sheet_of s.now).unit_count) × (80 + 32 * i ≤ length s.now) × LimitsOf (sheet_of s.now) limits }
    ensures { result ≡ map allowed (row_tests (sheet_of s.now) (unit_of (sheet_of s.now) i)) }
{
    let status = unit_field(s, i, rows::Field::Status);
    let class = unit_field(s, i, rows::Field::WaterClass);
    let statuses = limits.status;
    let classes = limits.class;
    let readings = limits.reading;
    [
        statuses,
        classes,
        tables::LOCATION_FACTOR,
        tables::HEATED_AREA,
        tables::RISER_SURFACE,
        tables::HEAT_LOAD,
        if_read(status, readings),
        entry(&tables::LITRES, class),
        entry(&tables::PERSONS, class),
        tables::ZERO,
    ]
}

// x stands in a field of a row and isn't allowed there: 6 outside the field's fixed range, else 20.
pub fn field_refusal(x: u32, fixed: Range, row: u32) -> Refusal
    ensures { result ≡ refusal_by (passes (x within fixed)) row }
{
    if fixed.contains(x) {
        Refusal::FieldConflict(row)
    } else {
        Refusal::RowField(row)
    }
}
