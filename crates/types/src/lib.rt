// The chain's small enums, in the order of trcf/types.rs, and the refusals: document 01's eight, then document 02's.
#![tactic(auto)]

ghost use Rattle.std.specs.Prelude.{◌≡◌};
ghost use Rattle.types.specs.Refusals as Refusals;
ghost use Rattle.types.specs.Codes as Codes;

// How the forest's input was transformed.
#[derive(Clone, Copy, PartialEq, Eq)]
pub enum TransformMethod {
    NONE,
    WEIGHTED,
    DIFFERENCE,
    SUBTRACT_MA,
    NORMALIZE,
    NORMALIZE_DIFFERENCE,
}

// What a score is: an expected inverse height, or a distance.
#[derive(Clone, Copy, PartialEq, Eq)]
pub enum ScoringStrategy {
    EXPECTED_INVERSE_HEIGHT,
    DISTANCE,
}

// Why a reading with an opening grade above 0 was not raised.
#[derive(Clone, Copy, PartialEq, Eq)]
pub enum CorrectionMode {
    NONE,
    NOISE,
    MULTI_MODE,
    ANOMALY_IN_SHINGLE,
    CONDITIONAL_FORECAST,
    FORECAST,
    DATA_DRIFT,
}

// Why a call was refused. `number` gives the documents' number.
#[derive(Clone, Copy, PartialEq, Eq)]
pub enum Refusal {
    Discount,
    Range,
    Length,
    NotFinite,
    ValuesSeen,
    Count,
    Horizon,
    Blocks,
    Row,
    Field,
    Drawer,
    Full,
    Pool,
}

// What a call hands back that takes a state by value: how it ended, and the state, which a refusal leaves as it came. No `Result`: the state is handed back in both cases, as
// document 01 asks ("state in, state out").
#[derive(Clone, Copy)]
pub struct Updated<S> {
    pub answer: Result<(), Refusal>,
    pub state: S,
}

impl Refusal {
    pub fn number(self) -> u8
        ensures { result ≡ Refusals.number self }
    {
        match self {
            Refusal::Discount => 1,
            Refusal::Range => 2,
            Refusal::Length => 3,
            Refusal::NotFinite => 4,
            Refusal::ValuesSeen => 5,
            Refusal::Count => 6,
            Refusal::Horizon => 7,
            Refusal::Blocks => 8,
            Refusal::Row => 9,
            Refusal::Field => 10,
            Refusal::Drawer => 11,
            Refusal::Full => 12,
            Refusal::Pool => 13,
        }
    }

    // A reading whose sizes or lengths do not fit: 2 for the sizes comes before 3 for the lengths.
    pub fn of_misfit(sizes_fit: bool) -> Refusal
        ensures { result ≡ Refusals.of_misfit sizes_fit }
    {
        if sizes_fit {
            return Refusal::Length;
        }
        Refusal::Range
    }

    // A faulty row of an export: 9 for its shape comes before 10 for a field.
    pub fn of_faulty_row(misshapen: bool) -> Refusal
        ensures { result ≡ Refusals.of_faulty_row misshapen }
    {
        if misshapen {
            return Refusal::Row;
        }
        Refusal::Field
    }

    // The answer to a reading that fits: the smallest of 4, 5 and 6 whose test fails.
    pub fn of_fitting(finite: bool, seen_ok: bool, counts_ok: bool) -> Result<(), Refusal>
        ensures { result ≡ Refusals.of_fitting finite seen_ok counts_ok }
    {
        if !finite {
            return Err(Refusal::NotFinite);
        }
        if !seen_ok {
            return Err(Refusal::ValuesSeen);
        }
        if !counts_ok {
            return Err(Refusal::Count);
        }
        Ok(())
    }
}

// 0 for a call that was carried out, else its refusal's number.
pub fn answered(answer: Result<(), Refusal>) -> u8
    ensures { result ≡ Refusals.answered answer }
{
    if let Err(why) = answer {
        return why.number();
    }
    0
}

impl From<TransformMethod> for u8 {
    ghost from_gives = { λ method code. code ≡ Codes.method_code method };

    fn from(method: TransformMethod) -> u8 {
        match method {
            TransformMethod::NONE => 0,
            TransformMethod::WEIGHTED => 1,
            TransformMethod::DIFFERENCE => 2,
            TransformMethod::SUBTRACT_MA => 3,
            TransformMethod::NORMALIZE => 4,
            TransformMethod::NORMALIZE_DIFFERENCE => 5,
        }
    }
}

// Refusal 2 is of a code of no method.
impl TryFrom<u8> for TransformMethod {
    type Error = Refusal;

    ghost try_from_gives = { λ code method. method ≡ Codes.method_of code };

    fn try_from(code: u8) -> Result<TransformMethod, Refusal> {
        match code {
            0 => Ok(TransformMethod::NONE),
            1 => Ok(TransformMethod::WEIGHTED),
            2 => Ok(TransformMethod::DIFFERENCE),
            3 => Ok(TransformMethod::SUBTRACT_MA),
            4 => Ok(TransformMethod::NORMALIZE),
            5 => Ok(TransformMethod::NORMALIZE_DIFFERENCE),
            _ => Err(Refusal::Range),
        }
    }
}

impl TransformMethod {
    pub fn is_none(self) -> bool
        ensures { result ≡ Codes.is_none self }
    {
        self == TransformMethod::NONE
    }

    pub fn is_differenced(self) -> bool
        ensures { result ≡ Codes.is_differenced self }
    {
        matches!(
            self,
            TransformMethod::DIFFERENCE | TransformMethod::NORMALIZE_DIFFERENCE
        )
    }
}

impl From<ScoringStrategy> for u8 {
    ghost from_gives = { λ strategy code. code ≡ Codes.strategy_code strategy };

    fn from(strategy: ScoringStrategy) -> u8 {
        match strategy {
            ScoringStrategy::EXPECTED_INVERSE_HEIGHT => 0,
            ScoringStrategy::DISTANCE => 1,
        }
    }
}

impl TryFrom<u8> for ScoringStrategy {
    type Error = Refusal;

    ghost try_from_gives = { λ code strategy. strategy ≡ Codes.strategy_of code };

    fn try_from(code: u8) -> Result<ScoringStrategy, Refusal> {
        match code {
            0 => Ok(ScoringStrategy::EXPECTED_INVERSE_HEIGHT),
            1 => Ok(ScoringStrategy::DISTANCE),
            _ => Err(Refusal::Range),
        }
    }
}

impl ScoringStrategy {
    pub fn is_height(self) -> bool
        ensures { result ≡ Codes.is_height self }
    {
        self == ScoringStrategy::EXPECTED_INVERSE_HEIGHT
    }
}

impl From<CorrectionMode> for u8 {
    ghost from_gives = { λ mode code. code ≡ Codes.mode_code mode };

    fn from(mode: CorrectionMode) -> u8 {
        match mode {
            CorrectionMode::NONE => 0,
            CorrectionMode::NOISE => 1,
            CorrectionMode::MULTI_MODE => 2,
            CorrectionMode::ANOMALY_IN_SHINGLE => 3,
            CorrectionMode::CONDITIONAL_FORECAST => 4,
            CorrectionMode::FORECAST => 5,
            CorrectionMode::DATA_DRIFT => 6,
        }
    }
}

impl TryFrom<u8> for CorrectionMode {
    type Error = Refusal;

    ghost try_from_gives = { λ code mode. mode ≡ Codes.mode_of code };

    fn try_from(code: u8) -> Result<CorrectionMode, Refusal> {
        match code {
            0 => Ok(CorrectionMode::NONE),
            1 => Ok(CorrectionMode::NOISE),
            2 => Ok(CorrectionMode::MULTI_MODE),
            3 => Ok(CorrectionMode::ANOMALY_IN_SHINGLE),
            4 => Ok(CorrectionMode::CONDITIONAL_FORECAST),
            5 => Ok(CorrectionMode::FORECAST),
            6 => Ok(CorrectionMode::DATA_DRIFT),
            _ => Err(Refusal::Range),
        }
    }
}
