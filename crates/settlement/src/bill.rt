// Step 7: a bill and its parts.
ghost use Rattle.std.specs.Prelude.{◌≡◌, ◌*◌, ◌≤◌, length};
ghost use Rattle.sheet.specs.Layout.{sheet_of};
ghost use Rattle.month.specs.Month.{cents_for, bill_cents};
ghost use Rattle.settlement.specs.Inner.Numbers.{Billed, with_costs};

use crate::layout::{energy_weights, put_costs};
use sheet::header::Field;
use sheet::{RuleSet, Sheet, ties};

// Reading × price / 1,000,000 in cents, half up.
pub fn cents_for(reading: u64, price: u64) -> u64
    requires { (reading ≤ 4000000000) × (price ≤ 100000) }
    ensures { (result ≡ cents_for reading price) × (result ≤ 400000000) }
{
    (reading * price + 500000) / 1000000
}

// The month's bill, of M.
pub fn bill_cents(sheet: Sheet<'_>) -> u64
    ensures { (result ≡ bill_cents (sheet_of sheet.entry.bytes.now)) × (result ≤ 400000000) }
{
    cents_for(
        u64::from(sheet.header(Field::SharedMeter)),
        u64::from(sheet.header(Field::Price)),
    )
}

// The bill divided over the 4n energies of a statement, by the rules, in arrays of N places.
fn costs_with_room<const N: usize>(rules: RuleSet, n: usize, bill: u64, statement: &mut [u32])
    requires billed { Billed n bill statement.old }
    requires room { (4 * n ≤ N) × (N ≤ 640) }
    ensures { statement.new ≡ with_costs rules n bill statement.old }
{
    let mut weights = [0u64; N];
    let mut remainders = [0u64; N];
    let mut cents = [0u32; N];
    let m = 4 * n;
    energy_weights(n, statement, &mut weights[..m]);
    apportion::apportion(
        ties(rules),
        bill,
        &weights[..m],
        &mut remainders[..m],
        &mut cents[..m],
    );
    put_costs(n, &cents[..m], statement);
}

// Few units need little room.
pub(crate) fn write_costs(rules: RuleSet, n: usize, bill: u64, statement: &mut [u32])
    requires { Billed n bill statement.old }
    ensures { statement.new ≡ with_costs rules n bill statement.old }
{
    if n <= 16 {
        costs_with_room::<64>(rules, n, bill, statement);
    } else {
        costs_with_room::<640>(rules, n, bill, statement);
    }
}
