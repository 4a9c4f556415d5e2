// Why a sheet or a call is refused (document 01, "Refused sheets and calls", 19 by request 2026-02, 20 by 2026-03, 21 and 22 by 2026-04, 23 to 25 by 2026-07). The row cases hold the row's place, from 0; the header case holds the byte offset in the sheet, or 0 where it is about what a call is given beside it (2026-05).
ghost use Rattle.std.specs.Prelude.{◌≡◌};
ghost use Rattle.sheet.specs.Refusals.{number_of, place_of};

#[derive(Clone, Copy)]
pub enum Refusal {
    TooShort,
    BadMagic,
    UnsupportedVersion,
    HeaderField(u32),
    WrongLength,
    RowField(u32),
    IdOrder(u32),
    HotWaterExceedsMeter,
    ZeroDivisor,
    NoReadings,
    MetersExceedHeat,
    UnmeteredExceedsHeat,
    BufferLength,
    BadArchive,
    BadYearBook,
    OtherBuilding,
    MonthState,
    NoSuchUnit,
    BadYearSums,
    FieldConflict(u32),
    NegativeCommonHeat,
    BadGroup,
    FundShort,
    RateTooHigh,
    FundFull,
}

impl Refusal {
    // What a refusal tells: the document's number; the row from 0 for 6, 7 and 20, what 4 holds, else 0.
    fn told(self) -> (u32, u32)
        ensures { (result.0 ≡ number_of self) × (result.1 ≡ place_of self) }
    {
        match self {
            Refusal::TooShort => (1, 0),
            Refusal::BadMagic => (2, 0),
            Refusal::UnsupportedVersion => (3, 0),
            Refusal::HeaderField(k) => (4, k),
            Refusal::WrongLength => (5, 0),
            Refusal::RowField(i) => (6, i),
            Refusal::IdOrder(i) => (7, i),
            Refusal::HotWaterExceedsMeter => (8, 0),
            Refusal::ZeroDivisor => (9, 0),
            Refusal::NoReadings => (10, 0),
            Refusal::MetersExceedHeat => (11, 0),
            Refusal::UnmeteredExceedsHeat => (12, 0),
            Refusal::BufferLength => (13, 0),
            Refusal::BadArchive => (14, 0),
            Refusal::BadYearBook => (15, 0),
            Refusal::OtherBuilding => (16, 0),
            Refusal::MonthState => (17, 0),
            Refusal::NoSuchUnit => (18, 0),
            Refusal::BadYearSums => (19, 0),
            Refusal::FieldConflict(i) => (20, i),
            Refusal::NegativeCommonHeat => (21, 0),
            Refusal::BadGroup => (22, 0),
            Refusal::FundShort => (23, 0),
            Refusal::RateTooHigh => (24, 0),
            Refusal::FundFull => (25, 0),
        }
    }

    pub fn number(self) -> u32
        ensures { result ≡ number_of self }
    {
        self.told().0
    }

    pub fn place(self) -> u32
        ensures { result ≡ place_of self }
    {
        self.told().1
    }
}
