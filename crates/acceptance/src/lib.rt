//! Cases of whole runs, from words and bytes to text, over stores and sinks in memory.
#![tactic(auto)]

#[cfg(test)]
mod blocks;
#[cfg(test)]
mod case;
#[cfg(test)]
mod components;
#[cfg(test)]
mod contraction;
#[cfg(test)]
mod costs;
#[cfg(test)]
mod driving;
#[cfg(test)]
mod estimates;
#[cfg(test)]
mod failures;
#[cfg(test)]
mod flows;
#[cfg(test)]
mod paths;
#[cfg(test)]
mod points;
#[cfg(test)]
mod refusals;
#[cfg(test)]
mod restrictions;
#[cfg(test)]
mod several;
#[cfg(test)]
mod tables;
#[cfg(test)]
mod words;
