//! Sizes as a picture: a bar for each, in SVG.
#![tactic(auto)]

pub mod bars;
mod laws;
pub mod svg;
