//! The laws of captures, each the contract of a function that does nothing.
ghost use Rattle.xsk_pcap.specs.Laws.{OneReading, OneRefusal, RefusedIsNoCapture, WrittenReadsBack};

/// Bytes are a capture of one list of packets at most.
pub fn one_reading()
    ensures { OneReading }
{}

/// Bytes are refused for one reason at most, and what is refused is no capture.
pub fn one_refusal()
    ensures one { OneRefusal }
    ensures no_capture { RefusedIsNoCapture }
{}

/// What is written reads back as all packets of the lists, in order.
pub fn written_reads_back()
    ensures { WrittenReadsBack }
{}
