// Step 1: hot water (article 5).
ghost use Rattle.std.specs.Prelude.{◌≡◌, ◌≤◌};
ghost use Rattle.apportion.specs.Shares.{sum};
ghost use Rattle.sheet.specs.Layout.{sheet_of};
ghost use Rattle.month.specs.Month.{hot_water_wh};

use sheet::header::Field;
use sheet::{Sheet, WaterSource};

// h1 + .. + h6
fn all_readings(sheet: Sheet<'_>) -> u64
    ensures { (result ≡ sum (sheet_of sheet.entry.bytes.now).water_readings) × (result ≤ 24000000000) }
{
    u64::from(sheet.header(Field::WaterReading1))
        + u64::from(sheet.header(Field::WaterReading2))
        + u64::from(sheet.header(Field::WaterReading3))
        + u64::from(sheet.header(Field::WaterReading4))
        + u64::from(sheet.header(Field::WaterReading5))
        + u64::from(sheet.header(Field::WaterReading6))
}

// Rounded up (own).
pub fn hot_water(sheet: Sheet<'_>) -> u64
    ensures { result ≡ hot_water_wh (sheet_of sheet.entry.bytes.now) }
{
    let reading = u64::from(sheet.header(Field::WaterReading1));
    match sheet.water_source() {
        WaterSource::NoWater => 0,
        WaterSource::Meter => reading,
        WaterSource::HeatedColdWater => {
            let factor = u64::from(sheet.header(Field::LossFactor));
            ((100 + factor) * 54 * reading + 99) / 100
        }
        WaterSource::SummerReadings => (115 * all_readings(sheet) + 599) / 600,
    }
}
