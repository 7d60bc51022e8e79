// util.rs as far as the decision chain uses it.
#![tactic(auto)]

ghost use Rattle.std.specs.Prelude.{◌≡◌};
ghost use Rattle.util.specs.Util as Util;

#[tactic(auto, unfolding(crate::specs::Util::maxf32))]
pub fn maxf32(a: f32, b: f32) -> f32
    ensures { result ≡ Util.maxf32 a b }
{
    if a < b { b } else { a }
}

#[tactic(auto, unfolding(crate::specs::Util::minf32))]
pub fn minf32(a: f32, b: f32) -> f32
    ensures { result ≡ Util.minf32 a b }
{
    if a < b { a } else { b }
}

#[tactic(auto, unfolding(crate::specs::Util::absf32))]
pub fn absf32(a: f32) -> f32
    ensures { result ≡ Util.absf32 a }
{
    if a < 0.0 { -a } else { a }
}
