//! Tests of the calls of `wk_list`, `wk_session`, `wk_draft` and `wk_edit`: each once, and what no contract says of them. What commands
//! list, report and write for this and that input is data: `tests/cases`.
//!
//! A test asks one question of plain functions that look: each `?` and each assertion in it would be proved too.
#![tactic(auto)]

#[cfg(test)]
mod choices;
#[cfg(test)]
mod chopped;
#[cfg(test)]
mod drafts;
#[cfg(test)]
mod job;
#[cfg(test)]
mod outputs;
#[cfg(test)]
mod script;
#[cfg(test)]
mod sessions;
#[cfg(test)]
mod step;
#[cfg(test)]
mod texts;
#[cfg(test)]
mod walks;
