//! Tests of verdicts: bodies typed through the calls of `wk_typing`, and modules and bodies judged through those of `wk_check`
//! and `wk_judging`; and where faults lie, through those of `wk_place`.
#![tactic(auto)]

#[cfg(test)]
mod answers;
#[cfg(test)]
mod bodies;
#[cfg(test)]
mod constants;
#[cfg(test)]
mod deep;
#[cfg(test)]
mod extended;
#[cfg(test)]
mod judged;
#[cfg(test)]
mod kept;
#[cfg(test)]
mod locals;
#[cfg(test)]
mod order;
#[cfg(test)]
mod places;
#[cfg(test)]
mod references;
#[cfg(test)]
mod sections;
#[cfg(test)]
mod spelled;
#[cfg(test)]
mod streaming;
#[cfg(test)]
mod validators;
