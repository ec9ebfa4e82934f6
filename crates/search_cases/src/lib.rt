//! Searches of levels and of a small graph, with what they say. The crate is there for its tests.
#![tactic(auto)]

#[cfg(test)]
mod call_cases;
mod graph;
#[cfg(test)]
mod graph_cases;
#[cfg(test)]
mod level_cases;
#[cfg(test)]
mod said;
