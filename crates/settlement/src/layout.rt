// The statement's numbers, unit by unit: four Wh, then four cents.
ghost use Rattle.std.specs.Prelude.{◌≡◌, ◌+◌, ◌*◌, ◌≤◌, ◌<◌, length, get_or, set};
ghost use Rattle.month.specs.Steps.{whole_wh, unit_by_unit};
ghost use Rattle.settlement.specs.Inner.Numbers.{Put, energy_place, cost_place};

fn put_four(to: &mut [u32], at: usize, a: u32, b: u32, c: u32, d: u32)
    requires { (at < 1280) × (at + 4 ≤ length to.old) }
    ensures { to.new ≡ set (set (set (set to.old at a) (at + 1) b) (at + 2) c) (at + 3) d }
{
    to[at] = a;
    to[at + 1] = b;
    to[at + 2] = c;
    to[at + 3] = d;
}

// Each unit's energies: heat, common heat, water, common water.
pub(crate) fn put_energies(
    n: usize,
    a: &[u32; 160],
    b: &[u32; 160],
    c: &[u32; 160],
    d: &[u32; 160],
    statement: &mut [u32],
)
    requires { (n ≤ 160) × (length statement.old ≡ 8 * n) }
    ensures { Put energy_place (4 * n) (λ k. get_or (unit_by_unit whole_wh n a.now b.now c.now d.now) k 0) statement.old statement.new }
{
    for i in 0..n {
        put_four(statement, 8 * i, a[i], b[i], c[i], d[i]);
    }
}

// The energies as weights.
pub(crate) fn energy_weights(n: usize, statement: &[u32], weights: &mut [u64])
    requires { (n ≤ 160) × (length statement.now ≡ 8 * n) × (length weights.old ≡ 4 * n) }
    ensures { Put (λ k. k) (4 * n) (λ k. get_or statement.now (energy_place k) 0) weights.old weights.new }
{
    for i in 0..n {
        let at = 4 * i;
        let from = 8 * i;
        weights[at] = u64::from(statement[from]);
        weights[at + 1] = u64::from(statement[from + 1]);
        weights[at + 2] = u64::from(statement[from + 2]);
        weights[at + 3] = u64::from(statement[from + 3]);
    }
}

// The cents, behind each unit's energies.
pub(crate) fn put_costs(n: usize, cents: &[u32], statement: &mut [u32])
    requires { (n ≤ 160) × (length statement.old ≡ 8 * n) × (length cents.now ≡ 4 * n) }
    ensures { Put cost_place (4 * n) (λ k. get_or cents.now k 0) statement.old statement.new }
{
    for i in 0..n {
        let k = 4 * i;
        put_four(
            statement,
            8 * i + 4,
            cents[k],
            cents[k + 1],
            cents[k + 2],
            cents[k + 3],
        );
    }
}
