// The scores of the training load (document 02, A6): a linear congruential generator of 64 bits, of whose state the top 24 are a score from 0 to below 1.
#![tactic(auto)]

ghost use Rattle.std.specs.Prelude.{◌≡◌, ◌*◌, ◌%◌, ◌^◌};
ghost use Rattle.training_scores.specs.Recurrence as Recurrence;
ghost use Rattle.training_scores.specs.Exact.{ExactScores};

const HALF: u64 = 0x1_0000_0000;

const MULTIPLIER: u64 = 6364136223846793005;

const INCREMENT: u64 = 1442695040888963407;

// A state and its score.
#[derive(Clone, Copy)]
pub struct Stepped {
    pub state: u64,
    pub score: f32,
}

// a * b modulo 2^64, by halves of 32 bits: the product of the two high ones is a multiple of 2^64.
pub fn wrapping_mul_u64(a: u64, b: u64) -> u64
    ensures { result ≡ (a * b) % 2 ^ 64 }
{
    let low = (a % HALF) * (b % HALF);
    let crossed = std::num::wrapping_add_u64((a / HALF) * (b % HALF), (a % HALF) * (b / HALF));
    std::num::wrapping_add_u64(low, (crossed % HALF) * HALF)
}

// The state behind a state.
fn next(state: u64) -> u64
    ensures { result ≡ Recurrence.next state }
{
    std::num::wrapping_add_u64(wrapping_mul_u64(state, MULTIPLIER), INCREMENT)
}

// The top 24 bits over 2^24, a fraction that an `f32` holds exactly.
fn score(state: u64) -> f32
    ensures { result ≡ Recurrence.score state }
{
    let top = state / 0x100_0000_0000;
    std::num::nearest_u32_to_f32(top as u32) / 16777216.0
}

// The next state, and its score.
pub fn step(state: u64) -> Stepped
    ensures { result ≡ Recurrence.stepped state }
{
    let after = next(state);
    Stepped {
        state: after,
        score: score(after),
    }
}

// Nothing is rounded off a score. Nothing calls it: the check asks for its proof.
fn scores_are_exact()
    ensures { ExactScores }
{}
