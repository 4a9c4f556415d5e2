// A sheet, and the small view through which one of its rows is looked at.
ghost use Rattle.std.specs.Prelude.{◌≡◌, ◌+◌, ◌*◌, ◌<◌};
ghost use Rattle.sheet.specs.Layout.{sheet_of};
ghost use Rattle.sheet.specs.Inner.Fields.{row_place};
ghost use Rattle.sheet.specs.Inner.Fits.{Fits, Fits-prop};

use crate::check::check;
use crate::codes::{Model, Status, WaterClass, WaterSource};
use crate::refusal::Refusal;
use crate::{header, rows};

// Bytes that have all that 1 to 7 ask for but the mark.
#[derive(Clone, Copy)]
pub struct Sheet<'a> {
    pub bytes: &'a [u8],
    pub ghost fits: { Fits 32 bytes.now } by { Fits-prop 32 bytes.now },
}

// Where a row of the sheet starts in its bytes.
#[derive(Clone, Copy)]
pub struct RowView<'a> {
    pub sheet: Sheet<'a>,
    pub start: usize,
    pub ghost aligned: { start ≡ 48 + 32 * row_place start },
    pub ghost inside: { row_place start < (sheet_of sheet.bytes.now).unit_count },
}

impl<'a> Sheet<'a> {
    ghost use Rattle.std.specs.Prelude.{◌≤◌, IfOk, length, take, drop};
    ghost use Rattle.sheet.specs.Refusals.{outcome_of};
    ghost use Rattle.sheet.specs.Check.{checked};
    ghost use Rattle.sheet.specs.Inner.Codes.{model_code, source_code};
    ghost use Rattle.sheet.specs.Inner.Fields.{header_field};

    // Any bytes: 1 to 7.
    pub fn check(bytes: &'a [u8]) -> Result<Sheet<'a>, Refusal>
        ensures answer { outcome_of result ≡ checked 32 bytes.now }
        ensures sheet { IfOk result (λ sheet. sheet.bytes ≡ bytes.entry) }
    {
        check(bytes, 32)?;
        Ok(Sheet { bytes })
    }

    // Any bytes as a sheet and, behind it, its statement, 32 bytes more a unit, as an archive record holds them.
    pub fn split_record(body: &'a [u8]) -> Result<(Sheet<'a>, &'a [u8]), Refusal>
        ensures answer { outcome_of result ≡ checked 64 body.now }
        ensures sheet { IfOk result (λ parts. parts.0.bytes.now ≡ take (48 + 32 * (sheet_of body.now).unit_count) body.now) }
        ensures statement { IfOk result (λ parts. parts.1.now ≡ drop (48 + 32 * (sheet_of body.now).unit_count) body.now) }
    {
        check(body, 64)?;
        let end = 48 + 32 * header::header_field(body, header::Field::UnitCount) as usize;
        let (bytes, statement) = body.split_at(end);
        Ok((Sheet { bytes }, statement))
    }

    pub fn header(self, field: header::Field) -> u32
        ensures { result ≡ header_field (sheet_of self.entry.bytes.now) field }
    {
        header::header_field(self.bytes, field)
    }

    pub fn unit_count(self) -> usize
        ensures { (result ≡ (sheet_of self.entry.bytes.now).unit_count) × (result ≤ 160) }
    {
        self.header(header::Field::UnitCount) as usize
    }

    pub fn model(self) -> Model
        ensures { model_code result ≡ (sheet_of self.entry.bytes.now).model }
    {
        Model::try_from(self.header(header::Field::Model)).unwrap()
    }

    pub fn water_source(self) -> WaterSource
        ensures { source_code result ≡ (sheet_of self.entry.bytes.now).water_source }
    {
        WaterSource::try_from(self.header(header::Field::WaterSource)).unwrap()
    }
}

impl<'a> Sheet<'a> {
    ghost use Rattle.sheet.specs.Inner.Fields.{unit_of};
    ghost use Rattle.sheet.specs.Inner.Views.{unit_in};

    // Row i, from 0.
    pub fn row(self, i: usize) -> RowView<'a>
        requires { i < (sheet_of self.bytes.now).unit_count }
        ensures sheet { result.sheet.bytes ≡ self.entry.bytes }
        ensures unit { unit_in result ≡ unit_of (sheet_of self.entry.bytes.now) i }
    {
        RowView {
            sheet: self,
            start: 48 + 32 * i,
        }
    }
}

impl<'a> RowView<'a> {
    ghost use Rattle.sheet.specs.Inner.Codes.{status_code, class_code};
    ghost use Rattle.sheet.specs.Inner.Fields.{row_field};
    ghost use Rattle.sheet.specs.Inner.Views.{unit_in};

    pub fn field(self, field: rows::Field) -> u32
        ensures { result ≡ row_field (unit_in self.entry) field }
    {
        rows::field_at(self.sheet.bytes, self.start, field)
    }

    pub fn status(self) -> Status
        ensures { status_code result ≡ (unit_in self.entry).status }
    {
        Status::try_from(self.field(rows::Field::Status)).unwrap()
    }

    pub fn water_class(self) -> WaterClass
        ensures { class_code result ≡ (unit_in self.entry).water_class }
    {
        WaterClass::try_from(self.field(rows::Field::WaterClass)).unwrap()
    }
}
