// The model of a call, and what it divides an amount by.
ghost use Rattle.std.specs.Prelude.{◌≡◌, length};
ghost use Rattle.sheet.specs.Layout.{sheet_of};
ghost use Rattle.charges.specs.Charges.{charge_weights};
ghost use Rattle.charges.specs.Inner.Models.{model_code, field_by, DecodesModel};

use sheet::rows::Field;
use sheet::{Refusal, Sheet};

// 1S and 2S.
#[derive(Clone, Copy)]
pub(crate) enum ChargeModel {
    ByLoad,
    ByArea,
}

impl TryFrom<u32> for ChargeModel {
    type Error = Refusal;

    ghost try_from_gives = { DecodesModel };

    // 4: no other model.
    fn try_from(code: u32) -> Result<ChargeModel, Refusal> {
        match code {
            1 => Ok(ChargeModel::ByLoad),
            2 => Ok(ChargeModel::ByArea),
            _ => Err(Refusal::HeaderField(0)),
        }
    }
}

// q or p.
fn field_by(model: ChargeModel) -> Field
    ensures { result ≡ field_by model }
{
    match model {
        ChargeModel::ByLoad => Field::HeatLoad,
        ChargeModel::ByArea => Field::HeatedArea,
    }
}

// Writes each unit's weight.
pub(crate) fn gather(sheet: Sheet<'_>, model: ChargeModel, weights: &mut [u64])
    requires { length weights.old ≡ (sheet_of sheet.bytes.now).unit_count }
    ensures { weights.new ≡ charge_weights (model_code model) (sheet_of sheet.entry.bytes.now) }
{
    let field = field_by(model);
    for (i, weight) in weights.iter_mut().enumerate() {
        *weight = u64::from(sheet.row(i).field(field));
    }
}
