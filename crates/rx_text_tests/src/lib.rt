//! What no clause says of what reads and writes texts: streams that fail, memory that is refused, resources that are
//! handed in used, the greatest number of steps, a live book that goes on beyond its limit, and the statuses and lines of
//! `rxbook`. Worked scenarios, dumps, mistakes and a session of a live book stand in examples/stored.
#![tactic(auto)]

#[cfg(test)]
mod calls;
#[cfg(test)]
mod device;
#[cfg(test)]
mod live;
#[cfg(test)]
mod same;
#[cfg(test)]
mod scarce;
#[cfg(test)]
mod script;
#[cfg(test)]
mod streams;
