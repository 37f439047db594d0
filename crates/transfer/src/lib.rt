// The right-of-way transfer, lines 4 to 16: whose time a phase is looked at for; in specs/ the paper's rules of it and what is promised, in proofs/ the laws. The functions stand in `right_of_way`.
#![tactic(auto)]

// Whose time a phase is looked at for.
#[derive(Clone, Copy)]
pub enum Users {
    Vehicles,
    Pedestrians,
}
