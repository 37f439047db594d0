// A phase that was asked to end: its light and its walker. In specs/ the paper's rules of them, in proofs/ the laws. The functions stand in `intervals`,
// `times`, `fitness` and `ending`.
#![tactic(auto)]

// What the vehicles see, with the ticks spent in it.
#[derive(Clone, Copy)]
pub enum Light {
    Green(u64),
    Yellow(u64),
    Red(u64),
}

// What the pedestrians see; clearance also once it is over.
#[derive(Clone, Copy)]
pub enum Walker {
    Walk(u64),
    Clearance(u64),
}

// What the phase comes to once every change due is made: its light and its walker, or nothing, where it is over.
pub type Settled = Option<(Light, Walker)>;
