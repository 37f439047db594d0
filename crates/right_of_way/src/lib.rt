// The right-of-way transfer, lines 4 to 16: the phase that keeps vehicles longest, the one that keeps pedestrians longest, and the larger time.
#![tactic(auto)]

ghost use Rattle.std.specs.Prelude.{◌≡◌};
ghost use Rattle.transfer.specs.Transfer.{worse_of, worst_of, line16, track_fits};

use phase_time::time;
use sheet::Phase;
use transfer::Users;
use units::Tenths;

#[tactic(auto, unfolding(transfer::specs::Transfer::worse_of, units::specs::Numbers::pick))]
fn worse(of: Users, p: Phase, q: Phase) -> Phase
    ensures { result ≡ worse_of of p q }
{
    if time(of, p).0 < time(of, q).0 { q } else { p }
}

// The phase with the largest time, on a tie the first; the zero phase where no time is above 0.
#[tactic(auto, unfolding(transfer::specs::Transfer::worst_from))]
pub fn worst(of: Users, phases: &[Phase]) -> Phase
    ensures { result ≡ worst_of of phases.now }
{
    phases
        .iter()
        .fold(zeros::zero_phase(), |p, q| worse(of, p, *q))
}

// The larger of lines 9 and 15.
pub fn line16(phases: &[Phase]) -> Tenths
    ensures { result ≡ line16 phases.now }
{
    let l09 = time(Users::Vehicles, worst(Users::Vehicles, phases));
    let l15 = time(Users::Pedestrians, worst(Users::Pedestrians, phases));
    Tenths(u64::max(l09.0, l15.0))
}

// Whether the track's yellow and red together are not above line 16.
pub fn track_fits(phases: &[Phase], yellow: u32, red: u32) -> bool
    ensures { result ≡ track_fits phases.now yellow red }
{
    u64::from(yellow) + u64::from(red) <= line16(phases).0
}
