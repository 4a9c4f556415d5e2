// The header (document 01, "The sheet"): its fields after the version.
ghost use Rattle.std.specs.Prelude.{◌≡◌, true, false, map, ◌≤◌, length, MatchResult};
ghost use Rattle.sheet.specs.declared.refusal.Refusal.TheVariants.{HeaderField};
ghost use Rattle.sheet.specs.Refusals.{first_refusal};
ghost use Rattle.sheet.specs.Layout.{sheet_of};
ghost use Rattle.sheet.specs.Check.{passes, ◌within◌, header_tests, header_rule};
ghost use Rattle.sheet.specs.Inner.Fields.{header_field};
ghost use Rattle.sheet.specs.Inner.FieldRanges.{header_offset};

use crate::bytes::{read8, read16, read32};
use crate::ranges::{self, Range};
use crate::refusal::Refusal;

// In layout order.
#[derive(Clone, Copy)]
pub enum Field {
    Month,
    Model,
    UnitCount,
    WaterSource,
    BasePercent,
    CommonHeatPercent,
    CommonWaterPercent,
    UnmeteredFactor,
    LossFactor,
    SharedMeter,
    Price,
    WaterReading1,
    WaterReading2,
    WaterReading3,
    WaterReading4,
    WaterReading5,
    WaterReading6,
}

pub(crate) const FIELDS: [Field; 17] = [
    Field::Month,
    Field::Model,
    Field::UnitCount,
    Field::WaterSource,
    Field::BasePercent,
    Field::CommonHeatPercent,
    Field::CommonWaterPercent,
    Field::UnmeteredFactor,
    Field::LossFactor,
    Field::SharedMeter,
    Field::Price,
    Field::WaterReading1,
    Field::WaterReading2,
    Field::WaterReading3,
    Field::WaterReading4,
    Field::WaterReading5,
    Field::WaterReading6,
];

impl Field {
    // The first byte in the sheet.
    fn offset(self) -> usize
        ensures { (result ≡ header_offset self) × (result ≤ 44) }
    {
        match self {
            Field::Month => 6,
            Field::Model => 7,
            Field::UnitCount => 8,
            Field::WaterSource => 10,
            Field::BasePercent => 11,
            Field::CommonHeatPercent => 12,
            Field::CommonWaterPercent => 13,
            Field::UnmeteredFactor => 14,
            Field::LossFactor => 15,
            Field::SharedMeter => 16,
            Field::Price => 20,
            Field::WaterReading1 => 24,
            Field::WaterReading2 => 28,
            Field::WaterReading3 => 32,
            Field::WaterReading4 => 36,
            Field::WaterReading5 => 40,
            Field::WaterReading6 => 44,
        }
    }
}

#[tactic(auto, unfolding(crate::specs::Layout::sheet_of))]
pub fn header_field(s: &[u8], field: Field) -> u32
    requires { 48 ≤ length s.now }
    ensures { result ≡ header_field (sheet_of s.now) field }
{
    let at = field.offset();
    match field {
        Field::UnitCount => read16(s, at),
        Field::SharedMeter
        | Field::Price
        | Field::WaterReading1
        | Field::WaterReading2
        | Field::WaterReading3
        | Field::WaterReading4
        | Field::WaterReading5
        | Field::WaterReading6 => read32(s, at),
        _ => read8(s, at),
    }
}

// 4 of one field.
fn check_field(s: &[u8], field: Field, range: Range) -> Result<(), Refusal>
    requires { 48 ≤ length s.now }
    ensures { let passed = passes (header_field (sheet_of s.now) field within range) in MatchResult result (λ done. passed ≡ true) (λ r. (passed ≡ false) × (r ≡ HeaderField (header_offset field))) }
{
    if !range.contains(header_field(s, field)) {
        return Err(Refusal::HeaderField(field.offset() as u32));
    }
    Ok(())
}

// 4: the first field that isn't within its range. The compiler unrolls loops of at most ten turns, and then the ranges take no stack.
pub(crate) fn check_header(s: &[u8]) -> Result<(), Refusal>
    requires { 48 ≤ length s.now }
    ensures { result ≡ first_refusal (map header_rule (header_tests (sheet_of s.now))) }
{
    let ranges = ranges::header_ranges(s);
    for k in 0..9 {
        check_field(s, FIELDS[k], ranges[k])?;
    }
    for k in 9..17 {
        check_field(s, FIELDS[k], ranges[k])?;
    }
    Ok(())
}
