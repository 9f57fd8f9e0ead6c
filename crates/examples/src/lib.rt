#![tactic(auto)]
//! Worked examples, refusals and their precedence, executed over every kind of memory and every order.

#[cfg(test)]
mod driving;
#[cfg(test)]
mod everywhere;
#[cfg(test)]
mod refusals;
#[cfg(test)]
mod runs;
#[cfg(test)]
mod wearing;
