//! Bounds the steps that a condition takes.
#![tactic(auto)]

mod bounding;
mod budget;
mod charges;
mod empty;
mod joining;
mod known;
mod least;
mod made;
mod measure;
mod measured;
mod measuring;
mod same;
mod scope;
mod size;
mod variables;
mod visits;
mod wider;

pub use bounding::bound;
pub use budget::{Budget, MOST_STEPS, MOST_VISITS, USUAL_STEPS, USUAL_VISITS};
