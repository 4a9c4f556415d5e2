// Refusals 8 to 12 (document 01, "Refused sheets and calls").
ghost use Rattle.std.specs.Prelude.{◌≡◌, ◌&&◌, [], ◌∷◌, ◌*◌, ◌≤◌, leb, ltb, eqb, length};
ghost use Rattle.std.specs.Coded.{Coded-set};
ghost use Rattle.apportion.specs.Shares.{sum};
ghost use Rattle.sheet.specs.Tests.{any};
ghost use Rattle.sheet.specs.Layout.{sheet_of};
ghost use Rattle.sheet.specs.Refusals.{first_refusal};
ghost use Rattle.sheet.specs.WattHours.{amount_of};
ghost use Rattle.weights.specs.Inner.Metered.{metered_heat};
ghost use Rattle.month.specs.Weights.{read_units, all_metered, metered_sum, has_pool, total_area, unread_weights};
ghost use Rattle.month.specs.Month.{hot_water_wh, space_heat_wh, zero_water_divisor, zero_divisor, month_rules};

use crate::basis::Basis;
use crate::hot_water::hot_water;
use crate::metered::{all_metered, metered_heat};
use sheet::header::Field;
use sheet::{Model, Refusal, Wh};

// What a month is settled by, H and C; there is no C where the meters' sum is past the upper end.
#[derive(Clone, Copy)]
pub(crate) struct Figures<'a> {
    pub basis: Basis<'a>,
    pub hot_water: u64,
    pub metered: Option<Wh>,
    pub ghost water_is: { hot_water ≡ hot_water_wh (sheet_of basis.sheet.bytes.now) },
    pub ghost metered_is: { metered ≡ amount_of (metered_heat (sheet_of basis.sheet.bytes.now)) } by { Coded-set metered-code metered (amount_of (metered_heat (sheet_of basis.sheet.bytes.now))) },
}

// Something is needed, and there is none.
fn lacks(need: u64, whole: u64) -> bool
    ensures { result ≡ (ltb 0 need && eqb whole 0) }
{
    0 < need && whole == 0
}

// 9, of step 6.
fn zero_water_divisor(basis: &Basis<'_>) -> bool
    ensures { result ≡ zero_water_divisor (sheet_of basis.now.sheet.bytes.now) }
{
    let t = basis.totals;
    let common = u64::from(basis.sheet.header(Field::CommonWaterPercent));
    (t.class1 + t.class2 == 0)
        | lacks(t.class1, t.litres)
        | lacks(t.class2, t.persons2)
        | lacks(common, t.persons)
}

// 9, of steps 3 and 4.
fn zero_heat_divisor(basis: &Basis<'_>) -> bool
    ensures { result ≡ any ((eqb (sheet_of basis.now.sheet.bytes.now).model 1 && eqb basis.now.totals.load 0) ∷ (eqb (sheet_of basis.now.sheet.bytes.now).model 4 && eqb basis.now.totals.surface 0) ∷ []) }
{
    match basis.sheet.model() {
        Model::ByLoad => basis.totals.load == 0,
        Model::ByAllocatorsAndRisers => basis.totals.surface == 0,
        _ => false,
    }
}

// 10.
fn no_readings(basis: &Basis<'_>) -> bool
    ensures { result ≡ (leb 3 (sheet_of basis.now.sheet.bytes.now).model && eqb (length (read_units (sheet_of basis.now.sheet.bytes.now))) 0) }
{
    basis.sheet.model().has_readings() && basis.totals.read == 0
}

// 12.
fn pool_exceeded(basis: &Basis<'_>) -> bool
    ensures { result ≡ (has_pool (sheet_of basis.now.sheet.bytes.now) && ltb (10000 * total_area (sheet_of basis.now.sheet.bytes.now)) (sum (unread_weights (sheet_of basis.now.sheet.bytes.now)))) }
{
    let t = basis.totals;
    basis.sheet.model().has_readings() & !all_metered(basis) & (10000 * t.area < t.unread)
}

impl<'a> Figures<'a> {
    pub(crate) fn of(basis: Basis<'a>) -> Figures<'a>
        ensures { result.basis ≡ basis.entry }
    {
        Figures {
            basis,
            hot_water: hot_water(basis.sheet),
            metered: metered_heat(&basis),
        }
    }

    // 9.
    fn zero_divisor(&self) -> bool
        ensures { result ≡ zero_divisor (sheet_of self.now.basis.sheet.bytes.now) }
    {
        (0 < self.hot_water) & zero_water_divisor(&self.basis) | zero_heat_divisor(&self.basis)
    }

    // 11.
    fn meters_exceed(&self) -> bool
        requires { self.now.hot_water ≤ (sheet_of self.now.basis.sheet.bytes.now).shared_meter }
        ensures { result ≡ (all_metered (sheet_of self.now.basis.sheet.bytes.now) && ltb (space_heat_wh (sheet_of self.now.basis.sheet.bytes.now)) (metered_sum (sheet_of self.now.basis.sheet.bytes.now))) }
    {
        let space_heat = u64::from(self.basis.sheet.header(Field::SharedMeter)) - self.hot_water;
        Wh::sum_past(self.metered, space_heat)
    }

    // 8 to 12, in this order.
    pub(crate) fn check(&self) -> Result<(), Refusal>
        ensures { result ≡ first_refusal (month_rules (sheet_of self.now.basis.sheet.bytes.now)) }
    {
        if u64::from(self.basis.sheet.header(Field::SharedMeter)) < self.hot_water {
            return Err(Refusal::HotWaterExceedsMeter);
        }
        if self.zero_divisor() {
            return Err(Refusal::ZeroDivisor);
        }
        if no_readings(&self.basis) {
            return Err(Refusal::NoReadings);
        }
        if self.meters_exceed() {
            return Err(Refusal::MetersExceedHeat);
        }
        if pool_exceeded(&self.basis) {
            return Err(Refusal::UnmeteredExceedsHeat);
        }
        Ok(())
    }
}
