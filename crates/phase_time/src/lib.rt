// How long one phase keeps its vehicles, or its pedestrians.
#![tactic(auto)]

ghost use Rattle.std.specs.Prelude.{◌≡◌};
ghost use Rattle.transfer.specs.Transfer.{vehicle_time, pedestrian_time, time_of};

use sheet::Phase;
use transfer::Users;
use units::Tenths;

fn vehicle_time(phase: Phase) -> Tenths
    ensures { result ≡ vehicle_time phase }
{
    Tenths(
        u64::from(phase.green)
            + u64::from(phase.other)
            + u64::from(phase.yellow)
            + u64::from(phase.red),
    )
}

#[tactic(auto, unfolding(transfer::specs::Transfer::pedestrian_time, units::specs::Numbers::pick))]
fn pedestrian_time(phase: Phase) -> Tenths
    ensures { result ≡ pedestrian_time phase }
{
    let own = u64::from(phase.walk) + u64::from(phase.clearance);
    Tenths(match phase.mode {
        0 => 0,
        1 => own + u64::from(phase.yellow) + u64::from(phase.red),
        _ => own,
    })
}

// How long a phase keeps its vehicles, or its pedestrians, once it is asked to end.
#[tactic(auto, unfolding(transfer::specs::Transfer::time_of))]
pub fn time(of: Users, phase: Phase) -> Tenths
    ensures { result ≡ time_of of phase }
{
    match of {
        Users::Vehicles => vehicle_time(phase),
        Users::Pedestrians => pedestrian_time(phase),
    }
}
