//! Examples of the libraries: memory, descriptors, captures, pcapng files, sockets and their layouts, a run, a forwarder of one's own,
//! a run's report, and a journal. Each is a function that prints what it shows.
#![tactic(auto)]

mod captures;
mod descriptors;
mod forwarder;
mod interfaces;
mod journals;
mod layouts;
mod memory;
mod reports;
mod runs;
mod sockets;

use anyhow::Result;

fn main(rt: HostRuntime) -> Result<()> {
    let alloc = rt.alloc();
    memory::fill_a_frame(&rt, alloc)?;
    descriptors::gather_a_packet(&rt, alloc)?;
    captures::write_and_read(&rt, alloc)?;
    captures::write_in_gaps(&rt, alloc)?;
    interfaces::make_packets(&rt, alloc)?;
    interfaces::write_and_read(&rt, alloc)?;
    sockets::from_socket_to_traffic(&rt, alloc)?;
    layouts::configure(&rt, alloc)?;
    runs::forward_a_packet(&rt, alloc)?;
    runs::bounce_every_third(&rt, alloc)?;
    forwarder::forward_by_hand(&rt, alloc, true)?;
    forwarder::forward_by_hand(&rt, alloc, false)?;
    reports::report_a_run(&rt, alloc)?;
    reports::report_the_largest(&rt, alloc)?;
    journals::audit_a_journal(&rt, alloc)
}
