// The rows of a sheet one after the other, each through its view.
ghost use Rattle.std.specs.Prelude.{◌≡◌};
ghost use Rattle.sheet.specs.Inner.Rows.{rows_left};

use crate::view::{RowView, Sheet};

// From row `next` on.
#[derive(Clone, Copy)]
pub struct Rows<'a> {
    sheet: Sheet<'a>,
    next: usize,
}

impl<'a> Sheet<'a> {
    ghost use Rattle.sheet.specs.Layout.{sheet_of};

    pub fn rows(self) -> Rows<'a>
        ensures sheet { result.sheet.bytes ≡ self.entry.bytes }
        ensures units { rows_left result ≡ (sheet_of self.entry.bytes.now).units }
    {
        Rows {
            sheet: self,
            next: 0,
        }
    }
}

impl<'a> Iterator for Rows<'a> {
    ghost use Rattle.std.specs.Iterator.{item_count};
    ghost use Rattle.sheet.specs.Inner.Rows.{GivesRow};

    type Item = RowView<'a>;

    ghost next_gives = { GivesRow };

    ghost remaining = { item_count rows_left };

    fn next(&mut self) -> Option<RowView<'a>> {
        if self.next >= self.sheet.unit_count() {
            return None;
        }
        let row = self.sheet.row(self.next);
        self.next += 1;
        Some(row)
    }
}
