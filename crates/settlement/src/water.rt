// Step 6: each unit's water, and its part of the common water.
ghost use Rattle.std.specs.Prelude.{◌≡◌, take, replicate};
ghost use Rattle.month.specs.Steps.{whole_wh, water, common_water};
ghost use Rattle.weights.specs.Inner.Months.{sheet_of_month};

use crate::divide::{divide_by, split};
use sheet::header::Field;
use weights::Month;
use weights::gather::By;

pub(crate) fn water_shares<'a>(
    month: &'a Month<'a>,
    units: &mut [u32; 160],
    common: &mut [u32; 160],
)
    requires { (units.old ≡ replicate 160 0) × (common.old ≡ replicate 160 0) }
    ensures units_after { take (sheet_of_month month.now).unit_count units.new ≡ water whole_wh month.now.basis.rules (sheet_of_month month.now) }
    ensures common_after { take (sheet_of_month month.now).unit_count common.new ≡ common_water whole_wh month.now.basis.rules (sheet_of_month month.now) }
{
    let percent = u64::from(month.basis.sheet.header(Field::CommonWaterPercent));
    let parts = split(percent, month.hot_water);
    divide_by(month, By::Water, parts.units, units);
    divide_by(month, By::Persons, parts.common, common);
}
