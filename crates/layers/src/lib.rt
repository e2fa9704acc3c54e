// Layers: what each makes of the store below it.
#![tactic(auto)]

mod floor;
mod layer;
mod layered;
mod leakage;
mod told;

pub use floor::Floor;
pub use layer::Layer;
pub use layered::Layered;
pub use leakage::Leakage;
pub use told::told_is_one;
