// The sums over the units that the steps need, in one pass.
ghost use Rattle.std.specs.Prelude.{◌≡◌};
ghost use Rattle.sheet.specs.Layout.{sheet_of};
ghost use Rattle.sheet.specs.Inner.Views.{sheet_in, unit_in};
ghost use Rattle.weights.specs.Inner.Totals.{only_if, of_unit, plus_totals, totals_in, Within};

use crate::kinds::{is_by_persons, is_by_volume, is_read};
use crate::units::{common_water_weight, unread_weight};
use sheet::rows::Field;
use sheet::{RowView, Sheet};

// P, Σq, n1, n2, L, N2, persons, the weight of the units not read, how many are read, A, S, B.
#[derive(Clone, Copy, Default)]
pub struct Totals {
    pub area: u64,
    pub load: u64,
    pub class1: u64,
    pub class2: u64,
    pub litres: u64,
    pub persons2: u64,
    pub persons: u64,
    pub unread: u64,
    pub read: u64,
    pub readarea: u64,
    pub surface: u64,
    pub readings: u64,
}

pub(crate) fn only_if(b: bool, x: u64) -> u64
    ensures { result ≡ only_if b x }
{
    if b { x } else { 0 }
}

// What a unit adds. A unit of another class than 1 has no litres, and one that isn't read no reading.
fn of_row(row: RowView<'_>) -> Totals
    ensures { (result ≡ of_unit (sheet_in row.entry) (unit_in row.entry)) × Within 1 result }
{
    let read = is_read(row);
    let by_volume = is_by_volume(row);
    let by_persons = is_by_persons(row);
    let p = u64::from(row.field(Field::HeatedArea));
    Totals {
        area: p,
        load: u64::from(row.field(Field::HeatLoad)),
        class1: only_if(by_volume, 1),
        class2: only_if(by_persons, 1),
        litres: u64::from(row.field(Field::Litres)),
        persons2: only_if(by_persons, u64::from(row.field(Field::Persons))),
        persons: common_water_weight(row),
        unread: only_if(!read, unread_weight(row)),
        read: only_if(read, 1),
        readarea: only_if(read, p),
        surface: only_if(read, u64::from(row.field(Field::RiserSurface))),
        readings: u64::from(row.field(Field::Reading)),
    }
}

fn plus(a: Totals, b: Totals) -> Totals
    requires { Within 160 a × Within 1 b }
    ensures { result ≡ plus_totals a b }
{
    Totals {
        area: a.area + b.area,
        load: a.load + b.load,
        class1: a.class1 + b.class1,
        class2: a.class2 + b.class2,
        litres: a.litres + b.litres,
        persons2: a.persons2 + b.persons2,
        persons: a.persons + b.persons,
        unread: a.unread + b.unread,
        read: a.read + b.read,
        readarea: a.readarea + b.readarea,
        surface: a.surface + b.surface,
        readings: a.readings + b.readings,
    }
}

impl Totals {
    pub fn of_sheet(sheet: Sheet<'_>) -> Totals
        ensures { result ≡ totals_in (sheet_of sheet.entry.bytes.now) }
    {
        let mut t = Totals::default();
        for row in sheet.rows() {
            t = plus(t, of_row(row));
        }
        t
    }
}
