// What a unit shows, as values: the stage, the phase and its walker.
#![tactic(auto)]

ghost use Rattle.std.specs.Prelude.{◌≡◌, ◌↔◌, IsTrue, Some};
ghost use Rattle.shown.specs.Shown.{plain, placed, lit_in, walker_of, phase_shows, shown_of, same_shown, same_named, aspect_name, on_foot_name};

use phase::{Light, Walker};
use sheet::{Phase, Sheet};
use stage::{Place, Stage};
use std::fmt;

// The stages as they are shown: the track's green, yellow and red, those of a phase, those of track clearance, dwell's all red, and those of a phase in
// dwell.
#[derive(Clone, Copy, PartialEq, Eq)]
pub enum Aspect {
    TrackGreen,
    TrackYellow,
    TrackRed,
    PhaseGreen,
    PhaseYellow,
    PhaseRed,
    ClearanceGreen,
    ClearanceYellow,
    ClearanceRed,
    Dwell,
    DwellGreen,
    DwellYellow,
    DwellRed,
}

impl fmt::Display for Aspect {
    ghost output = { λ a. Some (aspect_name a) };

    #[tactic(auto, unfolding(crate::specs::Shown::aspect_name))]
    fn fmt<W: fmt::Write>(&self, f: &mut fmt::Formatter<W>) -> fmt::Result {
        match self {
            Aspect::TrackGreen => write!(f, "track-green"),
            Aspect::TrackYellow => write!(f, "track-yellow"),
            Aspect::TrackRed => write!(f, "track-red"),
            Aspect::PhaseGreen => write!(f, "phase-green"),
            Aspect::PhaseYellow => write!(f, "phase-yellow"),
            Aspect::PhaseRed => write!(f, "phase-red"),
            Aspect::ClearanceGreen => write!(f, "clearance-green"),
            Aspect::ClearanceYellow => write!(f, "clearance-yellow"),
            Aspect::ClearanceRed => write!(f, "clearance-red"),
            Aspect::Dwell => write!(f, "dwell"),
            Aspect::DwellGreen => write!(f, "dwell-green"),
            Aspect::DwellYellow => write!(f, "dwell-yellow"),
            Aspect::DwellRed => write!(f, "dwell-red"),
        }
    }
}

// A phase's walker as it is shown. `Option` has no names to print.
#[derive(Clone, Copy, PartialEq, Eq)]
pub enum OnFoot {
    Nobody,
    Walk,
    Clearance,
}

impl fmt::Display for OnFoot {
    ghost output = { λ w. Some (on_foot_name w) };

    #[tactic(auto, unfolding(crate::specs::Shown::on_foot_name))]
    fn fmt<W: fmt::Write>(&self, f: &mut fmt::Formatter<W>) -> fmt::Result {
        match self {
            OnFoot::Nobody => write!(f, "-"),
            OnFoot::Walk => write!(f, "walk"),
            OnFoot::Clearance => write!(f, "clearance"),
        }
    }
}

// The phase is 0 for none.
#[derive(Clone, Copy, PartialEq, Eq)]
pub struct Shown<S, W> {
    pub stage: S,
    pub phase: u32,
    pub walker: W,
}

// What the bench shows.
pub type Named = Shown<Aspect, OnFoot>;

// A stage without a phase.
fn plain(stage: Aspect) -> Named
    ensures { result ≡ plain stage }
{
    Shown {
        stage,
        phase: 0,
        walker: OnFoot::Nobody,
    }
}

// The track's yellow and red are also those that follow track clearance green.
#[tactic(auto, unfolding(crate::specs::Shown::placed))]
fn placed(place: Place, normal: Aspect, train: Aspect) -> Named
    ensures { result ≡ placed normal train place }
{
    match place {
        Place::Normal => plain(normal),
        Place::Train => plain(train),
    }
}

// A phase's lights are shown by other names in dwell.
#[tactic(auto, unfolding(crate::specs::Shown::lit_in, crate::specs::Shown::lit))]
fn lit_in(place: Place, light: Light) -> Aspect
    ensures { result ≡ lit_in light place }
{
    match (place, light) {
        (Place::Normal, Light::Green(_)) => Aspect::PhaseGreen,
        (Place::Normal, Light::Yellow(_)) => Aspect::PhaseYellow,
        (Place::Normal, Light::Red(_)) => Aspect::PhaseRed,
        (Place::Train, Light::Green(_)) => Aspect::DwellGreen,
        (Place::Train, Light::Yellow(_)) => Aspect::DwellYellow,
        (Place::Train, Light::Red(_)) => Aspect::DwellRed,
    }
}

// Nobody in mode 0, and once the clearance is over.
#[tactic(auto, unfolding(units::specs::Numbers::pick, crate::specs::Shown::walker_of, crate::specs::Shown::on_foot))]
fn walker_of(p: Phase, walker: Walker) -> OnFoot
    ensures { result ≡ walker_of p walker }
{
    if p.mode == 0 {
        return OnFoot::Nobody;
    }
    match walker {
        Walker::Walk(_) => OnFoot::Walk,
        Walker::Clearance(spent) if spent < u64::from(p.clearance) => OnFoot::Clearance,
        Walker::Clearance(_) => OnFoot::Nobody,
    }
}

fn phase_shows(sheet: Sheet, place: Place, phase: u32, light: Light, walker: Walker) -> Named
    ensures { result ≡ phase_shows sheet place phase light walker }
{
    Shown {
        stage: lit_in(place, light),
        phase,
        walker: walker_of(lookup::phase_of(sheet, phase), walker),
    }
}

// What a unit with this sheet shows in this stage.
#[tactic(auto, unfolding(crate::specs::Shown::shown_of))]
pub fn of(sheet: Sheet, stage: Stage) -> Named
    ensures { result ≡ shown_of sheet stage }
{
    match stage {
        Stage::TrackGreen => plain(Aspect::TrackGreen),
        Stage::TrackYellow { place, .. } => placed(
            place,
            Aspect::TrackYellow,
            Aspect::ClearanceYellow,
        ),
        Stage::TrackRed { place, .. } => placed(place, Aspect::TrackRed, Aspect::ClearanceRed),
        Stage::Open {
            place,
            phase,
            green,
            walk,
        } => phase_shows(sheet, place, phase, Light::Green(green), Walker::Walk(walk)),
        Stage::Ending {
            place,
            phase,
            light,
            walker,
            ..
        } => phase_shows(sheet, place, phase, light, walker),
        Stage::ClearanceGreen { .. } => plain(Aspect::ClearanceGreen),
        Stage::AllRed => plain(Aspect::Dwell),
    }
}

// Nothing that is shown differs, whatever names or numbers stand for stages and walkers.
#[tactic(auto, unfolding(crate::specs::Shown::same_shown, units::specs::Numbers::both, units::specs::Numbers::pick))]
pub fn same<S: Copy + PartialEq, W: Copy + PartialEq>(a: Shown<S, W>, b: Shown<S, W>) -> bool
    ensures { result ≡ same_shown S.eq W.eq a b }
{
    a == b
}

// The bench's names are the same where they are one.
#[tactic(auto, unfolding(crate::specs::Shown::same_shown, units::specs::Numbers::both, units::specs::Numbers::pick))]
pub fn unchanged(was: Named, is: Named) -> bool
    ensures { IsTrue result ↔ same_named was is }
{
    same(was, is)
}
