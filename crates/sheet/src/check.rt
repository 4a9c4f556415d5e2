// The check of a sheet: refusals 1 to 7 and 20 (document 01, "Refused sheets and calls"; 2026-03).
ghost use Rattle.std.specs.Prelude.{◌≡◌, ◌+◌, ◌*◌, ◌≤◌, ◌<◌, length, take};
ghost use Rattle.std.proofs.Math.Option.{none};
ghost use Rattle.sheet.specs.Refusals.{first_refusal};
ghost use Rattle.sheet.specs.Layout.{sheet_of};
ghost use Rattle.sheet.specs.Inner.Fields.{unit_of, id_before};
ghost use Rattle.sheet.specs.Check.{checked, row_rules, not_above, same_list, sheet_magic};

use crate::header::header_field;
use crate::refusal::Refusal;
use crate::rows::{Field, unit_field};
use crate::tables::ROW_FIELDS;
use crate::{bytes, header, ranges};

const MAGIC: [u8; 4] = *b"HCS\0";

// 7: the first id has none before it.
fn not_above(s: &[u8], i: usize) -> bool
    requires { (i < (sheet_of s.now).unit_count) × (80 + 32 * i ≤ length s.now) }
    ensures { result ≡ not_above (unit_of (sheet_of s.now) i).id (id_before (sheet_of s.now) i) }
{
    if i == 0 {
        return false;
    }
    unit_field(s, i, Field::Id) <= unit_field(s, i - 1, Field::Id)
}

// 6, 20 and 7: rows, and in a row its fields, in layout order, left at the first fault.
fn check_rows(s: &[u8], n: usize) -> Result<(), Refusal>
    requires { (n ≡ (sheet_of s.now).unit_count) × ((n ≤ 160) × (48 + 32 * n ≤ length s.now)) }
    ensures { result ≡ first_refusal (row_rules (sheet_of s.now) 0 none (sheet_of s.now).units) }
{
    let limits = ranges::row_limits(s);
    let mut found = Ok(());
    'rows: for i in 0..n {
        let allowed = ranges::row_ranges(s, i, limits);
        for (k, &(field, fixed)) in ROW_FIELDS.iter().enumerate() {
            let x = unit_field(s, i, field);
            if !allowed[k].contains(x) {
                found = Err(ranges::field_refusal(x, fixed, i as u32));
                break 'rows;
            }
        }
        if not_above(s, i) {
            found = Err(Refusal::IdOrder(i as u32));
            break 'rows;
        }
    }
    found
}

// Where a unit takes `width` bytes after the header: 32 in a sheet alone; 64 in a sheet with its statement behind it, as an archive record holds them.
pub(crate) fn check(s: &[u8], width: usize) -> Result<(), Refusal>
    requires { (32 ≤ width) × (width ≤ 64) }
    ensures { result ≡ checked width s.now }
{
    if s.len() < 48 {
        return Err(Refusal::TooShort);
    }
    if s[..4] != MAGIC[..] {
        return Err(Refusal::BadMagic);
    }
    if bytes::read16(s, 4) != 1 {
        return Err(Refusal::UnsupportedVersion);
    }
    header::check_header(s)?;
    let n = header_field(s, header::Field::UnitCount) as usize;
    if s.len() != 48 + width * n {
        return Err(Refusal::WrongLength);
    }
    check_rows(s, n)
}
