//! A test of engines through their public calls, of a property that no contract states: an engine can be used after
//! memory ran out.
#![tactic(auto)]

#[cfg(test)]
mod again;
