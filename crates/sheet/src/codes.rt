// The kinds that a sheet names by a number: its model and hot-water source, a unit's status and water class (document 01, "The sheet").
ghost use Rattle.std.specs.Prelude.{◌≡◌, leb};
ghost use Rattle.sheet.specs.Inner.Codes.{model_code, DecodesModel, DecodesSource, DecodesStatus, DecodesClass};

// A number that stands for no kind.
#[derive(Clone, Copy)]
pub struct UnknownCode(pub u32);

#[derive(Clone, Copy, PartialEq, Eq)]
pub enum Model {
    ByLoad,
    ByArea,
    ByAllocatorsAndArea,
    ByAllocatorsAndRisers,
    ByMeters,
}

impl TryFrom<u32> for Model {
    type Error = UnknownCode;

    ghost try_from_gives = { DecodesModel };

    fn try_from(code: u32) -> Result<Model, UnknownCode> {
        match code {
            1 => Ok(Model::ByLoad),
            2 => Ok(Model::ByArea),
            3 => Ok(Model::ByAllocatorsAndArea),
            4 => Ok(Model::ByAllocatorsAndRisers),
            5 => Ok(Model::ByMeters),
            _ => Err(UnknownCode(code)),
        }
    }
}

impl Model {
    // 3 to 5: there are readings.
    pub fn has_readings(self) -> bool
        ensures { result ≡ leb 3 (model_code self) }
    {
        match self {
            Model::ByLoad | Model::ByArea => false,
            Model::ByAllocatorsAndArea | Model::ByAllocatorsAndRisers | Model::ByMeters => true,
        }
    }
}

// Where the hot water's heat is known from.
#[derive(Clone, Copy, PartialEq, Eq)]
pub enum WaterSource {
    NoWater,
    Meter,
    HeatedColdWater,
    SummerReadings,
}

impl TryFrom<u32> for WaterSource {
    type Error = UnknownCode;

    ghost try_from_gives = { DecodesSource };

    fn try_from(code: u32) -> Result<WaterSource, UnknownCode> {
        match code {
            0 => Ok(WaterSource::NoWater),
            1 => Ok(WaterSource::Meter),
            2 => Ok(WaterSource::HeatedColdWater),
            3 => Ok(WaterSource::SummerReadings),
            _ => Err(UnknownCode(code)),
        }
    }
}

#[derive(Clone, Copy, PartialEq, Eq)]
pub enum Status {
    Read,
    NoDevice,
    FirstFault,
    NextFault,
    LaterFault,
}

impl TryFrom<u32> for Status {
    type Error = UnknownCode;

    ghost try_from_gives = { DecodesStatus };

    fn try_from(code: u32) -> Result<Status, UnknownCode> {
        match code {
            0 => Ok(Status::Read),
            1 => Ok(Status::NoDevice),
            2 => Ok(Status::FirstFault),
            3 => Ok(Status::NextFault),
            4 => Ok(Status::LaterFault),
            _ => Err(UnknownCode(code)),
        }
    }
}

#[derive(Clone, Copy, PartialEq, Eq)]
pub enum WaterClass {
    NoClass,
    ByVolume,
    ByPersons,
}

impl TryFrom<u32> for WaterClass {
    type Error = UnknownCode;

    ghost try_from_gives = { DecodesClass };

    fn try_from(code: u32) -> Result<WaterClass, UnknownCode> {
        match code {
            0 => Ok(WaterClass::NoClass),
            1 => Ok(WaterClass::ByVolume),
            2 => Ok(WaterClass::ByPersons),
            _ => Err(UnknownCode(code)),
        }
    }
}
