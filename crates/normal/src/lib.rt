// The weighted normal equations of a local fit, and the matrix that 000's `invert_matrix` starts with.
#![tactic(auto)]

mod augmented;
mod design;
mod equations;

pub use augmented::augmented_matrix;
pub use design::{design_row, predictors_of};
pub use equations::{Equations, equations_of};
