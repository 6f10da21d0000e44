//! Where a packet goes: its queue, class and cell, the most bytes that it may have, and the numbers of those who move
//! it. Machines, engines and what splits inputs take these numbers from here; contracts and laws have them by
//! `specs/Steering`.
ghost use Rattle.std.specs.Prelude.{◌≡◌, ◌+◌, ◌*◌, ◌^◌, ◌<◌, ◌≤◌, length, sum};
ghost use Rattle.xsk_umem.specs.Geometry.{payload_of};
ghost use Rattle.xsk_model.specs.Steering.{packet_queue as queue_of_packet, packet_class as class_of_packet, packet_cell as cell_of_packet, packet_limit as limit_of_packet, paired_port as port_paired, driver_on as driver_of_queue, socket_on as socket_of_class, port_on as port_of_side, queue_on as queue_of_app};
ghost use Rattle.xsk_model.specs.Config.{IsLawful, IsRegular, classes_of, pool_of};
ghost use Rattle.xsk_model.specs.Homes.{home_pair as home_of_frame};
ghost use Rattle.xsk_model.specs.Limits.{most_fragments, ethernet_header};
ghost use Rattle.xsk_model.specs.Marks.{apps_of};
ghost use Rattle.xsk_model.specs.Rings.{application_on as application_of_queue};

use crate::Config;

/// The bytes of a packet that choose its queue: both addresses of an Ethernet header.
pub const QUEUE_BYTES: usize = 12;

/// The bytes of a packet that choose its class: an Ethernet header, the least that a packet has.
pub const CLASS_BYTES: usize = 14;

/// The most frames of a packet (CONFIG_MAX_SKB_FRAGS and one).
pub const MOST_FRAGMENTS: u32 = 18;

/// The queue of a packet: the sum of its first 12 bytes (of all, where it has fewer) modulo the number of queues.
pub fn packet_queue(packet: &[u8], queues: u32) -> u32
    requires { 0 < queues }
    ensures { result ≡ queue_of_packet queues packet.now }
{
    sum_of(&packet[..packet.len().min(QUEUE_BYTES)]) % queues
}

/// The class of a packet: the sum of its first 14 bytes (of all, where it has fewer) modulo the number of classes.
pub fn packet_class(packet: &[u8], classes: u32) -> u32
    requires { 0 < classes }
    ensures value { result ≡ class_of_packet classes packet.now }
    ensures below { result < classes }
{
    sum_of(&packet[..packet.len().min(CLASS_BYTES)]) % classes
}

/// The index of the cell to which a packet is redirected on a queue: that of its class, behind those of the queues
/// before it.
pub fn packet_cell(packet: &[u8], queue: u32, classes: u32) -> u32
    requires some { 0 < classes }
    requires fits { queue * classes + classes < 2 ^ 32 }
    ensures { result ≡ cell_of_packet classes queue packet.now }
{
    queue * classes + packet_class(packet, classes)
}

/// The most bytes of a packet: those of 18 frames, or without XDP_USE_SG those of one.
pub fn packet_limit(config: &Config) -> u32
    ensures value { result ≡ limit_of_packet config.now }
    ensures few { result ≤ most_fragments * payload_of config.now.geometry }
    ensures small { payload_of config.now.geometry ≤ 4096 }
{
    let payload = config.geometry().payload();
    if config.sg() {
        MOST_FRAGMENTS * payload
    } else {
        payload
    }
}

/// The port to which the packets of a port go.
pub fn paired_port(port: u32) -> u32
    ensures { result ≡ port_paired port }
{
    if port % 2 == 0 { port + 1 } else { port - 1 }
}

/// The driver of a port's queue in a regular configuration, where pairs are numbered port by port. Both must exist.
pub fn driver_on(config: &Config, port: u32, queue: u32) -> u32
    requires port { port < config.now.ports }
    requires queue { queue < config.now.queues }
    ensures value { result ≡ driver_of_queue config.now port queue }
    ensures few { result < 16 }
{
    // For the proof: it is a configuration (IsConfig).
    let _ports = config.ports();
    port * config.queues() + queue
}

/// The socket of a class of a port's queue in a regular configuration, where sockets are numbered pair by pair. All
/// three must exist.
pub fn socket_on(config: &Config, port: u32, queue: u32, class: u32) -> u32
    requires port { port < config.now.ports }
    requires queue { queue < config.now.queues }
    requires class { class < classes_of config.now }
    ensures { result ≡ socket_of_class config.now port queue class }
{
    let classes = config.sockets().len() as u32 / config.pairs().len() as u32;
    driver_on(config, port, queue) * classes + class
}

/// The number of applications: one for each queue of two paired ports.
pub fn applications(config: &Config) -> u32
    ensures value { result ≡ apps_of config.now }
    ensures few { result ≤ 8 }
{
    (config.ports() / 2) * config.queues()
}

/// The application of a port's queue, which it has with the paired port's. Both must exist.
pub fn application_on(config: &Config, port: u32, queue: u32) -> u32
    requires port { port < config.now.ports }
    requires queue { queue < config.now.queues }
    ensures value { result ≡ application_of_queue config.now port queue }
    ensures exists { result < apps_of config.now }
{
    // For the proof: it is a configuration (IsConfig).
    let _ports = config.ports();
    (port / 2) * config.queues() + queue
}

/// The port on a side, 0 or 1, of an application, which must exist.
pub fn port_on(config: &Config, app: u32, side: u32) -> u32
    requires app { app < apps_of config.now }
    requires side { side < 2 }
    ensures value { result ≡ port_of_side config.now app side }
    ensures exists { result < config.now.ports }
{
    // For the proof: it is a configuration (IsConfig).
    let _ports = config.ports();
    2 * (app / config.queues()) + side
}

/// The queue of an application.
pub fn queue_on(config: &Config, app: u32) -> u32
    ensures value { result ≡ queue_of_app config.now app }
    ensures exists { result < config.now.queues }
{
    app % config.queues()
}

/// The pair in whose pool a frame is at home. The configuration must be lawful.
pub fn home_pair(config: &Config, frame: u32) -> u32
    requires { IsLawful config.now }
    ensures { result ≡ home_of_frame config.now frame }
{
    frame / config.pool()
}

fn sum_of(bytes: &[u8]) -> u32
    requires { length bytes.now ≤ ethernet_header }
    ensures { result ≡ sum bytes.now }
{
    let mut sum = 0;
    for byte in bytes {
        sum += u32::from(*byte);
    }
    sum
}
