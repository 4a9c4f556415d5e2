// Why a group is refused.
ghost use Rattle.std.specs.Prelude.{◌≡◌};

use sheet::Refusal;

// The refusal, and the place from 0 of the building whose own sheet is refused, else 0.
#[derive(Clone, Copy)]
pub struct GroupRefusal {
    pub refusal: Refusal,
    pub building: u32,
}

// The group's own.
impl From<Refusal> for GroupRefusal {
    ghost from_gives = { λ r e. e ≡ record { refusal = r; building = 0 } };

    fn from(refusal: Refusal) -> GroupRefusal {
        GroupRefusal {
            refusal,
            building: 0,
        }
    }
}

impl GroupRefusal {
    ghost use Rattle.sheet.specs.Refusals.{number_of};
    ghost use Rattle.group.specs.Answer.{place_in};

    pub fn number(self) -> u32
        ensures { result ≡ number_of self.refusal }
    {
        self.refusal.number()
    }

    // Raised by 160 × the building's.
    pub fn place(self) -> u64
        ensures { result ≡ place_in self }
    {
        u64::from(self.refusal.place()) + 160 * u64::from(self.building)
    }
}
