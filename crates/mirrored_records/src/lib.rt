//! A site's history that is kept twice.
//!
//! `Mirror` is a `Keeper` of two: an append goes to both, and succeeds if both did it. The first error shuts it. `open`
//! makes one of two copies that were read: it takes the longer and adds to the shorter what it lacks.
//!
//! Guaranteed of whichever of the two survives (`Survivor`, which no code asks), while that one is trusted: after a crash
//! an open of it reads each entry whose append succeeded. Nothing is assumed of the other: it may lie or be lost.
//! `laws::copies_agree` says that of two copies one begins with all of the other.
//!
//! A copy more is another `Mirror`, of a `Mirror` and a store. What is known after a crash stands in
//! `specs/Survives.antt`.
#![tactic(auto)]

mod both;
pub mod laws;
mod mirror;
mod opening;
mod same;

pub use mirror::{Mirror, Survivor};
pub use opening::{MirrorFault, open};
