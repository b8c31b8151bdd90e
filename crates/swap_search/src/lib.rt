// All orders of a small log gone through by swaps, and whether one holds the pattern; with patterns drawn by number, and lists of event numbers held to the rule.
// Used by test programs only.
#![tactic(auto)]

pub mod counts;
pub mod lists;
pub mod orders;
pub mod patterns;
pub mod samples;
pub mod truth;
pub mod words;
