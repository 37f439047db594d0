// A phase that was asked to end: every change due is made.
#![tactic(auto)]

ghost use Rattle.std.specs.Prelude.{◌≡◌};
ghost use Rattle.phase.specs.Ending.{after_walk, walk_over, clearance_over, green_over, after_green, after_yellow, phase_over, over_or_stays, settle_phase};

use phase::{Light, Settled, Walker};
use sheet::Phase;

#[tactic(auto, unfolding(units::specs::Numbers::pick, phase::specs::Ending::after_walk))]
fn after_walk(p: Phase, walker: Walker) -> Walker
    ensures { result ≡ after_walk p walker }
{
    match walker {
        Walker::Walk(k) if u64::from(p.walk) <= k => Walker::Clearance(0),
        _ => walker,
    }
}

#[tactic(auto, unfolding(phase::specs::Ending::walk_over))]
fn walk_over(walker: Walker) -> bool
    ensures { result ≡ walk_over walker }
{
    matches!(walker, Walker::Clearance(_))
}

#[tactic(auto, unfolding(phase::specs::Ending::clearance_over))]
fn clearance_over(p: Phase, walker: Walker) -> bool
    ensures { result ≡ clearance_over p walker }
{
    matches!(walker, Walker::Clearance(k) if u64::from(p.clearance) <= k)
}

#[tactic(auto, unfolding(units::specs::Numbers::pick, phase::specs::Ending::green_over))]
fn green_over(p: Phase, walker: Walker, spent: u64) -> bool
    ensures { result ≡ green_over p walker spent }
{
    intervals::green_time(p) <= spent
        && walk_over(walker)
        && (p.mode != 1 || clearance_over(p, walker))
}

#[tactic(auto, unfolding(units::specs::Numbers::pick, phase::specs::Ending::after_green))]
fn after_green(p: Phase, walker: Walker, light: Light) -> Light
    ensures { result ≡ after_green p walker light }
{
    match light {
        Light::Green(k) if green_over(p, walker, k) => Light::Yellow(0),
        _ => light,
    }
}

#[tactic(auto, unfolding(units::specs::Numbers::pick, phase::specs::Ending::after_yellow))]
fn after_yellow(p: Phase, light: Light) -> Light
    ensures { result ≡ after_yellow p light }
{
    match light {
        Light::Yellow(k) if u64::from(p.yellow) <= k => Light::Red(0),
        _ => light,
    }
}

#[tactic(auto, unfolding(units::specs::Numbers::pick, phase::specs::Ending::phase_over))]
fn phase_over(p: Phase, light: Light, walker: Walker) -> bool
    ensures { result ≡ phase_over p light walker }
{
    matches!(light, Light::Red(k) if u64::from(p.red) <= k) && clearance_over(p, walker)
}

#[tactic(auto, unfolding(units::specs::Numbers::pick, phase::specs::Ending::over_or_stays))]
fn over_or_stays(p: Phase, light: Light, walker: Walker) -> Settled
    ensures { result ≡ over_or_stays p light walker }
{
    if phase_over(p, light, walker) {
        None
    } else {
        Some((light, walker))
    }
}

// Every change due, in the order of flow.
pub fn settle_phase(p: Phase, light: Light, walker: Walker) -> Settled
    ensures { result ≡ settle_phase p light walker }
{
    let w = after_walk(p, walker);
    let g = after_green(p, w, light);
    let y = after_yellow(p, g);
    over_or_stays(p, y, w)
}
