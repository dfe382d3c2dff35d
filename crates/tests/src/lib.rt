// Tests of the reader and of a session's calls: texts, and what comes of them.
#![tactic(auto)]

#[cfg(test)]
mod helpers;
#[cfg(test)]
mod judging;
#[cfg(test)]
mod limits;
#[cfg(test)]
mod lists;
#[cfg(test)]
mod pairings;
#[cfg(test)]
mod printed;
#[cfg(test)]
mod refusals;
#[cfg(test)]
mod stored;
