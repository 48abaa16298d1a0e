// The refusals of documents 01 and 02. Their numbers stand here and in specs/Numbers.antt, and nowhere else.
#![tactic(auto)]

ghost use Rattle.std.specs.Prelude.{◌≡◌};
ghost use Rattle.refusal.specs.Numbers.{refusal_number};

use std::fmt;

#[derive(Clone, Copy, PartialEq, Eq, Debug)]
pub enum Refusal {
    // From the input.
    NoCoordinates,
    OddCoordinates,
    TooManyObservations,
    TooManyPredictors,
    PredictorLength,
    ResponseLength,
    TooFewObservations,
    ResponseNotFinite,
    CoordinateNotFinite,
    PredictorNotFinite,
    UnusableDistance,
    NoDistanceRange,
    OutputTooShort,
    TrustOutOfRange,
    // Met while solving.
    Singular,
    InverseNotFinite,
    CoefficientNotFinite,
    DeviationNotFinite,
    WeightSumNotPositive,
    // Of the byte calls.
    UnknownNumber,
    // From the state, of a turn.
    UnfitRecord,
    AlreadyEnded,
    LengthsDiffer,
}

impl Refusal {
    // The C interface has numbers. A match, and no discriminants with `as u32`: equal ones would not compile, and must-fail edits give
    // two refusals one number.
    pub fn number(self) -> u32
        ensures { result ≡ refusal_number self }
    {
        match self {
            Refusal::NoCoordinates => 1,
            Refusal::OddCoordinates => 2,
            Refusal::TooManyObservations => 3,
            Refusal::TooManyPredictors => 4,
            Refusal::PredictorLength => 5,
            Refusal::ResponseLength => 6,
            Refusal::TooFewObservations => 7,
            Refusal::ResponseNotFinite => 8,
            Refusal::CoordinateNotFinite => 9,
            Refusal::PredictorNotFinite => 10,
            Refusal::UnusableDistance => 11,
            Refusal::NoDistanceRange => 12,
            Refusal::OutputTooShort => 13,
            Refusal::Singular => 14,
            Refusal::InverseNotFinite => 15,
            Refusal::CoefficientNotFinite => 16,
            Refusal::DeviationNotFinite => 17,
            Refusal::UnknownNumber => 18,
            Refusal::UnfitRecord => 19,
            Refusal::AlreadyEnded => 20,
            Refusal::LengthsDiffer => 21,
            Refusal::TrustOutOfRange => 26,
            Refusal::WeightSumNotPositive => 27,
        }
    }
}

// The same number, as a conversion: `u32::from`.
impl From<Refusal> for u32 {
    ghost from_gives = { λ refusal number. number ≡ refusal_number refusal };

    fn from(refusal: Refusal) -> u32 {
        refusal.number()
    }
}

// What is wrong, in short.
impl fmt::Display for Refusal {
    fn fmt<W: fmt::Write>(&self, f: &mut fmt::Formatter<W>) -> fmt::Result {
        f.write_str(match self {
            Refusal::NoCoordinates => "no coordinates",
            Refusal::OddCoordinates => "odd coordinate count",
            Refusal::TooManyObservations => "more than 512 pantries",
            Refusal::TooManyPredictors => "more than 7 predictors",
            Refusal::PredictorLength => "predictor length is not n × p",
            Refusal::ResponseLength => "response length is not n, or number of trusts is not n",
            Refusal::TooFewObservations => "fewer than p + 1 pantries",
            Refusal::ResponseNotFinite => "a response is not finite",
            Refusal::CoordinateNotFinite => "a coordinate is not finite",
            Refusal::PredictorNotFinite => "a predictor is not finite",
            Refusal::UnusableDistance => "unsearched distance not finite, or not above zero",
            Refusal::NoDistanceRange => "no distance to search between",
            Refusal::OutputTooShort => "output too short",
            Refusal::TrustOutOfRange => "a trust is not in 0..1",
            Refusal::Singular => "singular",
            Refusal::InverseNotFinite => "inverse not finite",
            Refusal::CoefficientNotFinite => "coefficient not finite",
            Refusal::DeviationNotFinite => "root of mean square not finite",
            Refusal::WeightSumNotPositive => "weight sum not above zero",
            Refusal::UnknownNumber => "unknown kernel or kind number",
            Refusal::UnfitRecord => "record unfit",
            Refusal::AlreadyEnded => "already ended",
            Refusal::LengthsDiffer => "lengths are not the record's",
        })
    }
}

#[cfg(test)]
mod tests {
    use super::*;
    use std::test::Fail;

    #[test]
    fn says_what_is_wrong(rt: HostRuntime) -> Result<(), Fail> {
        let text = format!(in rt.alloc(); "{}", Refusal::OddCoordinates)?;
        assert_eq!(rt; text.as_str(), "odd coordinate count");
        Ok(())
    }
}
