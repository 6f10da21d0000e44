//! Tests of what data can't say: values that may be sent to other threads, threads that meet and move frames at once; the bay over
//! files whose calls are interrupted; and gates whose workers come one after the other.
#![tactic(auto)]

#[cfg(test)]
mod circling;
#[cfg(test)]
mod crew;
#[cfg(test)]
mod gates;
#[cfg(test)]
mod going;
#[cfg(test)]
mod handing;
#[cfg(test)]
mod interrupted;
#[cfg(test)]
mod moving;
#[cfg(test)]
mod sendable;
#[cfg(test)]
mod setting;
#[cfg(test)]
mod tasks;
