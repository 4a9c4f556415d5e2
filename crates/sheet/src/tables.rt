// Lowest and highest: of a row's fields, and by model, hot-water source or water class (document 01, "The sheet"; 2026-03).
use crate::ranges::Range;
use crate::rows::Field;

pub const ZERO: Range = Range { low: 0, high: 0 };

const BASE_BY_AREA: Range = Range { low: 20, high: 30 };

const BASE_BY_SURFACE: Range = Range { low: 0, high: 60 };

const UP_TO_HALF: Range = Range { low: 0, high: 50 };

const SURCHARGE: Range = Range { low: 25, high: 35 };

const LOSS: Range = Range { low: 50, high: 200 };

pub const ANY_WH: Range = Range {
    low: 0,
    high: 4_000_000_000,
};

const WATER_LITRES: Range = Range {
    low: 0,
    high: 20_000_000,
};

const ANY_STATUS: Range = Range { low: 0, high: 4 };

const IMPULSES: Range = Range {
    low: 0,
    high: 50_000,
};

const METERED_WH: Range = Range {
    low: 0,
    high: 25_000_000,
};

const ANY_CLASS: Range = Range { low: 0, high: 2 };

pub const LOCATION_FACTOR: Range = Range {
    low: 1,
    high: 1_000,
};

pub const HEATED_AREA: Range = Range {
    low: 1,
    high: 10_000,
};

pub const RISER_SURFACE: Range = Range {
    low: 0,
    high: 10_000,
};

pub const HEAT_LOAD: Range = Range {
    low: 0,
    high: 100_000,
};

const UNIT_LITRES: Range = Range {
    low: 0,
    high: 1_000_000,
};

const HOUSEHOLD: Range = Range { low: 0, high: 50 };

// A row's fields after the id, in layout order, each with its fixed range.
pub const ROW_FIELDS: [(Field, Range); 10] = [
    (Field::Status, ANY_STATUS),
    (Field::WaterClass, ANY_CLASS),
    (Field::LocationFactor, LOCATION_FACTOR),
    (Field::HeatedArea, HEATED_AREA),
    (Field::RiserSurface, RISER_SURFACE),
    (Field::HeatLoad, HEAT_LOAD),
    (Field::Reading, METERED_WH),
    (Field::Litres, UNIT_LITRES),
    (Field::Persons, HOUSEHOLD),
    (Field::Reserved, ZERO),
];

// By model, 1 to 5; entry 0 is no model.
pub const BASE_PERCENT: [Range; 6] = [ZERO, ZERO, ZERO, BASE_BY_AREA, BASE_BY_SURFACE, ZERO];

pub const COMMON_HEAT_PERCENT: [Range; 6] = [ZERO, ZERO, ZERO, UP_TO_HALF, UP_TO_HALF, UP_TO_HALF];

pub const UNMETERED_FACTOR: [Range; 6] = [ZERO, ZERO, ZERO, SURCHARGE, SURCHARGE, SURCHARGE];

pub const STATUS: [Range; 6] = [ZERO, ZERO, ZERO, ANY_STATUS, ANY_STATUS, ANY_STATUS];

pub const READING: [Range; 6] = [ZERO, ZERO, ZERO, IMPULSES, IMPULSES, METERED_WH];

// By hot-water source, 0 to 3.
pub const COMMON_WATER_PERCENT: [Range; 4] = [ZERO, UP_TO_HALF, UP_TO_HALF, UP_TO_HALF];

pub const LOSS_FACTOR: [Range; 4] = [ZERO, ZERO, LOSS, ZERO];

pub const FIRST_WATER_READING: [Range; 4] = [ZERO, ANY_WH, WATER_LITRES, ANY_WH];

pub const OTHER_WATER_READING: [Range; 4] = [ZERO, ZERO, ZERO, ANY_WH];

pub const WATER_CLASS: [Range; 4] = [ZERO, ANY_CLASS, ANY_CLASS, ANY_CLASS];

// By water class, 0 to 2.
pub const LITRES: [Range; 3] = [ZERO, UNIT_LITRES, ZERO];

pub const PERSONS: [Range; 3] = [ZERO, HOUSEHOLD, HOUSEHOLD];
