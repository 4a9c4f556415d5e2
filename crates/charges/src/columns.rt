// The columns of the list: an amount's parts, unit by unit.
ghost use Rattle.std.specs.Prelude.{◌≡◌, ◌*◌, ◌≤◌, ◌<◌, length, get_or};
ghost use Rattle.sheet.specs.RuleSets.{newest};
ghost use Rattle.month.specs.Steps.{shares_under};
ghost use Rattle.settlement.specs.Inner.Numbers.{Put};
ghost use Rattle.charges.specs.Charges.{columns, by_unit};
ghost use Rattle.charges.specs.Inner.Columns.{column_place, Chargeable, Within};

use crate::amounts::Amounts;
use settlement::share;

// One part into each unit's three numbers.
fn put_column(parts: &[u32], column: usize, charges: &mut [u32])
    requires { (length parts.now ≤ 160) × (column < 3) × (length charges.old ≡ 3 * length parts.now) }
    ensures { Put (column_place column) (length parts.now) (λ i. get_or parts.now i 0) charges.old charges.new }
{
    for (i, &part) in parts.iter().enumerate() {
        charges[3 * i + column] = part;
    }
}

// An amount divided by the weights, into its column.
fn charge(amount: u32, column: usize, weights: &[u64], charges: &mut [u32])
    requires { Chargeable weights.now charges.old × (amount ≤ 100000000) × (column < 3) }
    ensures { Put (column_place column) (length weights.now) (λ i. get_or (shares_under newest amount weights.now) i 0) charges.old charges.new }
{
    let mut parts = [0u32; 160];
    let parts = &mut parts[..weights.len()];
    share(sheet::NEWEST, u64::from(amount), weights, parts);
    put_column(parts, column, charges);
}

// All three columns.
pub(crate) fn write_charges(a: Amounts, weights: &[u64], charges: &mut [u32])
    requires { Chargeable weights.now charges.old × Within a }
    ensures { charges.new ≡ by_unit (length weights.now) (columns newest a weights.now) }
{
    charge(a.power, 0, weights, charges);
    charge(a.buyer, 1, weights, charges);
    charge(a.supplier, 2, weights, charges);
}
