//! The refusals of strategies.
ghost use Rattle.std.specs.Prelude.{◌≡◌};
ghost use Rattle.strategies.specs.Answer.{refusal_of};

use refusals::refusal::Refusal;

/// Why a strategy refuses. It has no other refusal, so it cannot answer in the name of another layer.
#[derive(Clone, Copy)]
pub enum Declined {
    /// A setting is outside its limits or not a number.
    BadSetting,
    /// Level 0 has two runs or more.
    ManyRuns,
    /// The table at this place of the sheet is hidden.
    HiddenTable(usize),
}

impl From<Declined> for Refusal {
    ghost from_gives = { λ d r. r ≡ refusal_of d };

    fn from(declined: Declined) -> Refusal {
        match declined {
            Declined::BadSetting => Refusal::BadSetting,
            Declined::ManyRuns => Refusal::ManyRuns,
            Declined::HiddenTable(place) => Refusal::HiddenTable(place),
        }
    }
}
