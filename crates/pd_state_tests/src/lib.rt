//! The tests of `pd_state`: scripts of requests with the replies that a cluster gives to them.
#![tactic(auto)]

#[cfg(test)]
mod check_tests;
#[cfg(test)]
mod ctl_tests;
#[cfg(test)]
mod scripts;
#[cfg(test)]
mod tests;
