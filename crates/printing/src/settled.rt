// A sheet settled for printing.
ghost use Rattle.std.specs.Prelude.{◌≡◌, ◌*◌, ◌≤◌, length};
ghost use Rattle.sheet.specs.RuleSets.{newest};
ghost use Rattle.sheet.specs.Layout.{sheet_of};
ghost use Rattle.month.specs.Month.{settled, statement_of, month_of, settled_sheet};
ghost use Rattle.printing.specs.Printed.{text_of, longest};

use sheet::{Refusal, Sheet};

// A sheet that passes 1 to 12, and its statement.
#[derive(Clone, Copy)]
pub(crate) struct SettledMonth<'a> {
    pub(crate) sheet: Sheet<'a>,
    pub(crate) statement: &'a [u32],
    pub(crate) ghost is: { statement.now ≡ statement_of newest (sheet_of sheet.bytes.now) },
    pub(crate) ghost numbers: { length statement.now ≡ 8 * (sheet_of sheet.bytes.now).unit_count },
    pub(crate) ghost short: { length (text_of (settled (month_of newest (sheet_of sheet.bytes.now)))) ≤ longest (settled (month_of newest (sheet_of sheet.bytes.now))) },
}

impl<'a> SettledMonth<'a> {
    ghost use Rattle.std.specs.Prelude.{IsOk};
    ghost use Rattle.sheet.specs.Check.{checked};
    ghost use Rattle.printing.specs.Inner.Placed.{AreBytes};
    ghost use Rattle.printing.specs.Inner.Outcomes.{settled_in};

    // A sheet that passes 1 to 7, by the newest rules. The statement stands at the room's front.
    pub(crate) fn settle(
        sheet: Sheet<'a>,
        room: &'a mut [u32; 1280],
    ) -> Result<SettledMonth<'a>, Refusal>
        requires bytes { AreBytes sheet.bytes.now }
        requires passed { IsOk (checked 32 sheet.bytes.now) }
        ensures { settled_in result ≡ settled_sheet newest sheet.entry.bytes.now }
    {
        let statement = &mut room[..8 * sheet.unit_count()];
        settlement::settle_checked(sheet::NEWEST, sheet, statement)?;
        Ok(SettledMonth { sheet, statement })
    }
}
