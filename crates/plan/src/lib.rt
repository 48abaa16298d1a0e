// What an accepted job is to do, and which inputs are accepted: a final fit at once, or a search first.
#![tactic(auto)]

mod planning; // what the options ask for, and the whole

pub use planning::{accept, plan_options};
use setup::GwrBandwidth;

// What an accepted job does: it fits at a bandwidth, or seeks one from lo to hi first, two numbers, as 000's `golden_section_min`
// takes them: a struct of the two would be made here and taken apart there.
#[derive(Clone, Copy)]
pub enum Plan {
    Settled(GwrBandwidth),
    Sought(f64, f64),
}
