// predictorcorrector.rs: the uncertainty box around a point, and what lies within it.
#![tactic(auto)]

ghost use Rattle.std.specs.Prelude.{◌≡◌, ◌+◌, ◌-◌, ◌%◌, ◌<◌, ◌≤◌, if◌then◌else◌};
ghost use Rattle.uncertainty_box.specs.Box as Box;
ghost use Rattle.uncertainty_box.specs.Pass as Pass;
ghost use Rattle.uncertainty_box.specs.Settled.{BoxDecided, BoxSettled, PassDecided, PassSettled};

// Whether the scaled coordinate of p is strictly beyond an edge around that of q.
#[tactic(auto, unfolding(crate::specs::Box::outside))]
fn outside(edge: f32, scale: f32, p: f32, q: f32) -> bool
    ensures { result ≡ Box.outside edge scale p q }
{
    let a = scale * p;
    let b = scale * q;
    if a < b - edge {
        return true;
    }
    a > b + edge
}

// Whether no slice is too short for the box.
#[tactic(auto, unfolding(crate::specs::Box::box_fits))]
fn box_fits(edges: usize, start: usize, scales: usize, points: usize, others: usize) -> bool
    ensures { result ≡ Box.box_fits edges start scales points others }
{
    if scales < edges {
        return false;
    }
    if points.saturating_sub(start) < edges {
        return false;
    }
    edges <= others.saturating_sub(start)
}

// Whether a point is within a box, and how many of the box's coordinates were read to say so.
#[derive(Clone, Copy)]
pub struct Within {
    pub within: bool,
    pub read: usize,
}

// Whether the other point's box has the point within it. The first coordinate outside settles it, and no further one is read.
// No, and none read, where a slice is too short for the box.
#[tactic(auto, using(crate::proofs::Laws::box_fits_holds), unfolding(crate::specs::Scan::some, crate::specs::Box::outside_at))]
pub fn within_unertainty_box(
    uncertainty_box: &[f32],
    start_position: usize,
    scale: &[f32],
    point: &[f32],
    other_point: &[f32],
) -> Within
    ensures { (result.within ≡ Box.within_unertainty_box uncertainty_box.now start_position scale.now point.now other_point.now)
        × (result.read ≡ Box.coordinates_read uncertainty_box.now start_position scale.now point.now other_point.now) }
{
    let all = uncertainty_box.len();
    if !box_fits(
        all,
        start_position,
        scale.len(),
        point.len(),
        other_point.len(),
    ) {
        return Within {
            within: false,
            read: 0,
        };
    }
    for y in 0..all {
        let at = start_position + y;
        if outside(uncertainty_box[y], scale[y], point[at], other_point[at]) {
            return Within {
                within: false,
                read: scan::places_read(y, all),
            };
        }
    }
    Within {
        within: true,
        read: all,
    }
}

// What one row adds to the variation.
#[tactic(auto, unfolding(crate::specs::Box::path_step))]
fn path_step(differenced: bool, here: f32, next: f32) -> f32
    ensures { result ≡ Box.path_step differenced here next }
{
    if differenced {
        return util::absf32(here);
    }
    util::absf32(here - next)
}

#[tactic(auto, unfolding(crate::specs::Box::path_mean))]
fn path_mean(variation: f32, observation: u32) -> f32
    ensures { result ≡ Box.path_mean variation observation }
{
    if observation == 0 {
        return 0.0;
    }
    variation / std::num::nearest_u32_to_f32(observation)
}

// The mean variation of one coordinate from a row on; 0 of no two rows, of base 0 and of a point over 65,536 long.
pub fn calculate_path_deviation(
    point: &[f32],
    start_position: usize,
    index: usize,
    base_dimension: usize,
    differenced: bool,
) -> f32
    ensures { result ≡ Box.path_deviation
        point.now start_position index base_dimension differenced }
{
    if base_dimension == 0 {
        return 0.0;
    }
    if point.len() > 65536 {
        return 0.0;
    }
    let left = point.len().saturating_sub(start_position);
    if left <= index {
        return 0.0;
    }
    let mut here = start_position + index;
    let mut variation = 0.0f32;
    let mut observation = 0u32;
    while base_dimension < point.len() - here {
        let next = here + base_dimension;
        variation += path_step(differenced, point[here], point[next]);
        here = next;
        observation += 1;
    }
    path_mean(variation, observation)
}

// An edge of the box.
#[tactic(auto, unfolding(crate::specs::Box::edge_of))]
fn edge(scale: f32, path_gap: f32, shift: f32, deviation: f32) -> f32
    ensures { result ≡ Box.edge_of scale path_gap shift deviation }
{
    let shift_amount = 1e-3 * scale * util::absf32(shift);
    let noise_gap = 1.0 * deviation;
    util::maxf32(scale * path_gap, noise_gap) + shift_amount
}

// The box around a point, an edge for each element of out, which is left alone where scale, shift or deviations are fewer.
#[tactic(auto, unfolding(crate::specs::Box::uncertainty_box, crate::specs::Scan::listed))]
pub fn construct_uncertainty_box(
    point: &[f32],
    start_position: usize,
    scale: &[f32],
    shift: &[f32],
    difference_deviations: &[f32],
    differenced: bool,
    out: &mut [f32],
)
    ensures { out.new ≡ Box.uncertainty_box
        point.now start_position scale.now shift.now
        difference_deviations.now differenced out.old }
{
    let base_dimension = out.len();
    if scale.len() < base_dimension {
        return;
    }
    if shift.len() < base_dimension {
        return;
    }
    if difference_deviations.len() < base_dimension {
        return;
    }
    for y in 0..base_dimension {
        let path_gap = calculate_path_deviation(
            point,
            start_position,
            y,
            base_dimension,
            differenced,
        );
        out[y] = edge(scale[y], path_gap, shift[y], difference_deviations[y]);
    }
}

// One more where the answer is yes.
fn bump(weight: u32, yes: bool) -> u32
    requires { weight ≤ 65536 }
    ensures { result ≡ (if yes then weight + 1 else weight) }
{
    if yes {
        return weight + 1;
    }
    weight
}

// weight >= 0.1 * total
#[tactic(auto, unfolding(crate::specs::Box::supported))]
fn supported(weight: u32, total: u32) -> bool
    ensures { result ≡ Box.supported weight total }
{
    std::num::nearest_u32_to_f32(weight) >= 0.1 * std::num::nearest_u32_to_f32(total)
}

// Whether enough of the neighbours have the point within their box. No where they are no whole points.
#[tactic(auto, using(crate::proofs::Scans::count_le), unfolding(crate::specs::Box::explained_by_conditional_field, crate::specs::Box::whole_points, crate::specs::Scan::count))]
pub fn explained_by_conditional_field(
    uncertainty_box: &[f32],
    point: &[f32],
    start_position: usize,
    scale: &[f32],
    neighbours: &[f32],
    dimension: usize,
) -> bool
    ensures { result ≡ Box.explained_by_conditional_field
        uncertainty_box.now point.now start_position
        scale.now neighbours.now dimension }
{
    if dimension == 0 {
        return false;
    }
    let total = neighbours.len() / dimension;
    if total > 65536 {
        return false;
    }
    if total * dimension != neighbours.len() {
        return false;
    }
    let mut weight = 0u32;
    for k in 0..total {
        let at = k * dimension;
        let other = &neighbours[at..at + dimension];
        let held = within_unertainty_box(uncertainty_box, start_position, scale, point, other);
        weight = bump(weight, held.within);
    }
    supported(weight, total as u32)
}

// Whether a coordinate is over its precision line.
#[tactic(auto, unfolding(crate::specs::Pass::over_line))]
fn over_line(coordinate: f32, scale: f32, shift: f32) -> bool
    ensures { result ≡ Pass.over_line coordinate scale shift }
{
    util::absf32(coordinate) * scale > 1e-3 * (1.0 + util::absf32(shift))
}

// Whether the base is not 0 and no slice is too short for it.
#[tactic(auto, unfolding(crate::specs::Pass::passable))]
fn passable(base: usize, scales: usize, shifts: usize, deviations: usize, points: usize) -> bool
    ensures { result ≡ Pass.passable base scales shifts deviations points }
{
    if base == 0 {
        return false;
    }
    if scales < base {
        return false;
    }
    if shifts < base {
        return false;
    }
    if deviations < base {
        return false;
    }
    base <= points
}

// The place in the row of the coordinate that follows one at place y.
fn next_in_row(y: usize, base: usize) -> usize
    requires { y < base }
    ensures { (result < base) × (result ≡ (y + 1) % base) }
{
    if y + 1 < base { y + 1 } else { 0 }
}

// The factor of the noise pass, and how many coordinates were read to find it.
#[derive(Clone, Copy)]
pub struct Passed {
    pub factor: f32,
    pub read: usize,
}

// 1 where a coordinate is over its precision line, else 0. The first one over it settles it, and no further one is read; the deviations change nothing.
// 0, and none read, where the base is 0 or a slice is too short for it.
#[tactic(auto, using(crate::proofs::Laws::passable_holds), unfolding(crate::specs::Scan::some))]
pub fn centered_transform_pass(
    base_dimension: usize,
    scale: &[f32],
    shift: &[f32],
    difference_deviations: &[f32],
    point: &[f32],
) -> Passed
    ensures { (result.factor ≡ Pass.centered_transform_pass base_dimension scale.now shift.now difference_deviations.now point.now)
        × (result.read ≡ Pass.coordinates_read base_dimension scale.now shift.now difference_deviations.now point.now) }
{
    let all = point.len();
    if !passable(
        base_dimension,
        scale.len(),
        shift.len(),
        difference_deviations.len(),
        all,
    ) {
        return Passed {
            factor: 0.0,
            read: 0,
        };
    }
    let mut y = 0usize;
    for i in 0..all {
        if over_line(point[i], scale[y], shift[y]) {
            return Passed {
                factor: 1.0,
                read: scan::places_read(i, all),
            };
        }
        y = next_in_row(y, base_dimension);
    }
    Passed {
        factor: 0.0,
        read: all,
    }
}

// These do nothing: they hold the theorems to their statements.
fn pass_settled()
    ensures { PassSettled × PassDecided }
{}

fn box_settled()
    ensures { BoxSettled × BoxDecided }
{}
