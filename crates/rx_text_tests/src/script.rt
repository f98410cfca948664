//! Runs of scenarios.

mod sights;
mod steps;
mod stock;
mod want;
