// Steps 2 to 5: units' heat and common heat.
ghost use Rattle.std.specs.Prelude.{◌≡◌, true, ◌+◌, ◌≤◌, ◌<◌, length, take, replicate, if◌then◌else◌};
ghost use Rattle.sheet.specs.Layout.{sheet_of};
ghost use Rattle.month.specs.Weights.{unread_units, all_metered};
ghost use Rattle.month.specs.Steps.{whole_wh, pool_shares, in_unit_order, heat, common_heat};
ghost use Rattle.weights.specs.Inner.Months.{sheet_of_month};
ghost use Rattle.settlement.specs.Inner.Heat.{HeatParts, UnitsHeat, ByReadings};

use crate::divide::{Parts, divide_by, share, split};
use sheet::{Model, Sheet, header, rows};
use weights::gather::{By, gather};
use weights::{Month, all_metered, is_read};

// Step 2.
pub(crate) fn heat_parts<'a>(month: &'a Month<'a>) -> Parts
    ensures { HeatParts month.now.basis.rules (sheet_of_month month.now) result }
{
    let sheet = month.basis.sheet;
    let space_heat = u64::from(sheet.header(header::Field::SharedMeter)) - month.hot_water;
    if all_metered(&month.basis) {
        return Parts {
            units: month.metered,
            common: space_heat - month.metered,
        };
    }
    let percent = u64::from(sheet.header(header::Field::CommonHeatPercent));
    split(percent, space_heat)
}

// Step 2's exception: each unit's heat is its b.
fn heat_by_meters<'a>(month: &'a Month<'a>, out: &mut [u32; 160])
    requires { all_metered (sheet_of_month month.now) ≡ true }
    ensures { take (sheet_of_month month.now).unit_count out.new ≡ heat whole_wh month.now.basis.rules (sheet_of_month month.now) }
{
    let sheet = month.basis.sheet;
    for (i, heat) in out[..sheet.unit_count()].iter_mut().enumerate() {
        *heat = sheet.row(i).field(rows::Field::Reading);
    }
}

// Step 3, models 3 to 5: the units not read, last the metered pool; returns how many are not read.
fn pool_shares<'a>(month: &'a Month<'a>, total: u64, out: &mut [u32; 160]) -> usize
    requires { ByReadings month.now total out.old }
    ensures few { (result < 160) × (result ≡ length (unread_units (sheet_of_month month.now))) }
    ensures shares { take (result + 1) out.new ≡ pool_shares whole_wh month.now.basis.rules (sheet_of_month month.now) }
{
    let mut weights = [0u64; 160];
    let m = gather(&month.basis, By::Unread, &mut weights);
    weights[m] = 10000 * month.basis.totals.area - month.basis.totals.unread;
    share(month.basis.rules, total, &weights[..m + 1], out);
    m
}

// The shares of the units not read and of the read ones, back in the order of the units.
fn merge(sheet: Sheet<'_>, unread: &[u32; 160], read: &[u32; 160], out: &mut [u32; 160])
    ensures { take (sheet_of sheet.entry.bytes.now).unit_count out.new ≡ in_unit_order whole_wh (sheet_of sheet.entry.bytes.now).units unread.now read.now }
{
    let mut q = 0;
    let mut r = 0;
    for i in 0..sheet.unit_count() {
        let is_read = is_read(sheet.row(i));
        out[i] = if is_read { read[r] } else { unread[q] };
        q += usize::from(!is_read);
        r += usize::from(is_read);
    }
}

// Steps 3 and 4, models 3 to 5.
fn heat_by_readings<'a>(month: &'a Month<'a>, total: u64, out: &mut [u32; 160])
    requires { ByReadings month.now total out.old }
    ensures { take (sheet_of_month month.now).unit_count out.new ≡ heat whole_wh month.now.basis.rules (sheet_of_month month.now) }
{
    let mut unread = [0u32; 160];
    let mut read = [0u32; 160];
    let m = pool_shares(month, total, &mut unread);
    let pool = u64::from(unread[m]);
    divide_by(month, By::Read, pool, &mut read);
    merge(month.basis.sheet, &unread, &read, out);
}

// Each unit's heat: by its meter, by q, by p, or by steps 3 and 4.
fn unit_heat<'a>(month: &'a Month<'a>, total: u64, out: &mut [u32; 160])
    requires { UnitsHeat month.now total out.old }
    ensures { take (sheet_of_month month.now).unit_count out.new ≡ heat whole_wh month.now.basis.rules (sheet_of_month month.now) }
{
    if all_metered(&month.basis) {
        heat_by_meters(month, out);
        return;
    }
    match month.basis.sheet.model() {
        Model::ByLoad => divide_by(month, By::Load, total, out),
        Model::ByArea => divide_by(month, By::Area, total, out),
        _ => heat_by_readings(month, total, out),
    }
}

// Steps 3 to 5: each unit's heat, and its part of the common heat.
pub(crate) fn heat_shares<'a>(
    month: &'a Month<'a>,
    parts: Parts,
    units: &mut [u32; 160],
    common: &mut [u32; 160],
)
    requires { UnitsHeat month.now parts.units units.old × (parts.common ≤ 4000000000) × (common.old ≡ replicate 160 0) }
    ensures units_after { take (sheet_of_month month.now).unit_count units.new ≡ heat whole_wh month.now.basis.rules (sheet_of_month month.now) }
    ensures common_after { take (sheet_of_month month.now).unit_count common.new ≡ common_heat whole_wh month.now.basis.rules (sheet_of_month month.now) parts.common }
{
    unit_heat(month, parts.units, units);
    divide_by(month, By::Area, parts.common, common);
}
