// The weight of a unit in each division (document 01, steps 3, 4 and 6).
ghost use Rattle.std.specs.Prelude.{◌≡◌, ◌&&◌, ◌+◌, ◌*◌, ◌-◌, ◌≤◌, ltb, eqb, if◌then◌else◌};
ghost use Rattle.sheet.specs.RuleSets.{limits_risers};
ghost use Rattle.sheet.specs.Inner.Views.{sheet_in, unit_in};
ghost use Rattle.month.specs.Weights.{limited, r_by, area_weight, surface_weight, read_weight, unread_weight, water_weight, common_water_weight};

use crate::basis::Unit;
use crate::kinds::{has_no_device, is_by_persons, is_by_volume};
use crate::totals::only_if;
use sheet::rows::Field;
use sheet::{Model, RowView, RuleSet, header, limits_risers};

// Step 3.
pub(crate) fn unread_weight(row: RowView<'_>) -> u64
    ensures { (result ≡ unread_weight (sheet_in row.entry) (unit_in row.entry)) × (result ≤ 350000000) }
{
    let p = u64::from(row.field(Field::HeatedArea));
    if has_no_device(row) {
        let factor = u64::from(row.sheet.header(header::Field::UnmeteredFactor));
        return p * u64::from(row.field(Field::LocationFactor)) * factor;
    }
    p * 10000
}

// (100 − v) × x × a + v × y × b
fn mixed(v: u64, x: u64, a: u64, y: u64, b: u64) -> u64
    requires { (v ≤ 100) × (x ≤ 50000) × (a ≤ 1600000) × (y ≤ 10000) × (b ≤ 8000000) }
    ensures { (result ≡ (100 - v) * x * a + v * y * b) × (result ≤ 16000000000000) }
{
    (100 - v) * x * a + v * y * b
}

// Articles 8 (6), (7) and 9 (6), (7).
fn limited(base: u64, r: u64) -> u64
    requires { (base ≤ 80000000000) × (r ≤ 16000000000000) }
    ensures { (result ≡ limited base r) × (result ≤ 24000000000000) }
{
    r.clamp(40 * base, 300 * base)
}

// Step 4 without any reading: p × KF, for model 4 s × KF.
fn factor_weight(row: RowView<'_>) -> u64
    ensures { result ≡ (if eqb (sheet_in row.entry).model 4 then (unit_in row.entry).riser_surface else (unit_in row.entry).heated_area) * (unit_in row.entry).location_factor }
{
    let factor = u64::from(row.field(Field::LocationFactor));
    match row.sheet.model() {
        Model::ByAllocatorsAndRisers => u64::from(row.field(Field::RiserSurface)) * factor,
        _ => u64::from(row.field(Field::HeatedArea)) * factor,
    }
}

// Where the rules limit risers and the unit has some (2026-01).
fn riser_limits(rules: RuleSet, surface: u64) -> bool
    ensures { result ≡ (limits_risers rules && ltb 0 surface) }
{
    limits_risers(rules) && 0 < surface
}

// Step 6: what a litre or a person of a class weighs; 1 if the other class has no unit.
fn class_factor(units: u64, others: u64, amount: u64) -> u64
    requires { (units ≤ 160) × (amount ≤ 160000000) }
    ensures { (result ≡ (if eqb others 0 then 1 else units * amount)) × (result ≤ 25600000000) }
{
    if others == 0 {
        return 1;
    }
    units * amount
}

// Step 6, common water: a unit of class 0 has no persons.
pub(crate) fn common_water_weight(row: RowView<'_>) -> u64
    ensures { (result ≡ common_water_weight (unit_in row.entry)) × (result ≤ 50) }
{
    u64::from(row.field(Field::Persons))
}

// A unit of a sheet of model 3 or 4, which has readings of heat cost allocators.
#[derive(Clone, Copy)]
struct AllocatorUnit<'a> {
    unit: Unit<'a>,
    ghost allocators: { (sheet_in unit.row).model ≤ 4 },
}

impl<'a> AllocatorUnit<'a> {
    // Step 4: r by the unit's own p or s and the sum of it over the read units.
    fn r_by(self, own: u64, whole: u64) -> u64
        requires { (own ≤ 10000) × (whole ≤ 1600000) }
        ensures { (result ≡ r_by (sheet_in self.entry.unit.row) (unit_in self.entry.unit.row) own whole) × (result ≤ 16000000000000) }
    {
        let row = self.unit.row;
        mixed(
            u64::from(row.sheet.header(header::Field::BasePercent)),
            u64::from(row.field(Field::Reading)),
            whole,
            own,
            self.unit.basis.totals.readings,
        )
    }

    // Step 4, model 3.
    fn area_weight(self) -> u64
        ensures { result ≡ area_weight (sheet_in self.entry.unit.row) (unit_in self.entry.unit.row) }
    {
        let area = u64::from(self.unit.row.field(Field::HeatedArea));
        let factor = u64::from(self.unit.row.field(Field::LocationFactor));
        let totals = self.unit.basis.totals;
        let r = self.r_by(area, totals.readarea);
        limited(area * totals.readings, r) * factor
    }

    // Step 4, model 4.
    fn surface_weight(self) -> u64
        ensures { result ≡ surface_weight self.entry.unit.basis.now.rules (sheet_in self.entry.unit.row) (unit_in self.entry.unit.row) }
    {
        let surface = u64::from(self.unit.row.field(Field::RiserSurface));
        let factor = u64::from(self.unit.row.field(Field::LocationFactor));
        let totals = self.unit.basis.totals;
        let r = self.r_by(surface, totals.surface);
        if !riser_limits(self.unit.basis.rules, surface) {
            return r * factor;
        }
        limited(surface * totals.readings, r) * factor
    }
}

impl<'a> Unit<'a> {
    // Step 4.
    pub(crate) fn read_weight(self) -> u64
        ensures { result ≡ read_weight self.entry.basis.now.rules (sheet_in self.entry.row) (unit_in self.entry.row) }
    {
        let row = self.row;
        if self.basis.totals.readings == 0 {
            return factor_weight(row);
        }
        match row.sheet.model() {
            Model::ByAllocatorsAndArea => AllocatorUnit { unit: self }.area_weight(),
            Model::ByAllocatorsAndRisers => AllocatorUnit { unit: self }.surface_weight(),
            _ => u64::from(row.field(Field::Reading)),
        }
    }

    // Step 6, units' water: without a jump that depends on the unit's class.
    pub(crate) fn water_weight(self) -> u64
        ensures { result ≡ water_weight (sheet_in self.entry.row) (unit_in self.entry.row) }
    {
        let row = self.row;
        let t = self.basis.totals;
        let litre = class_factor(t.class1, t.class2, t.persons2);
        let person = class_factor(t.class2, t.class1, t.litres);
        only_if(
            is_by_volume(row),
            litre * u64::from(row.field(Field::Litres)),
        ) + only_if(
            is_by_persons(row),
            person * u64::from(row.field(Field::Persons)),
        )
    }
}
