//! The laws of files, each the contract of a function that does nothing.
ghost use Rattle.xsk_pcapng.specs.Laws.{OneReading, OneRefusal, ReadFits, RefusedIsNoFile, WrittenReadsBack};

/// For one number of ports, bytes are a file of one choice of lists at most.
pub fn one_reading()
    ensures { OneReading }
{}

/// Bytes are refused for one reason at most, and what is refused is no file.
pub fn one_refusal()
    ensures one { OneRefusal }
    ensures no_file { RefusedIsNoFile }
{}

/// What is written reads back as the lists, one for each port.
pub fn written_reads_back()
    ensures { WrittenReadsBack }
{}

/// What is read has a list for each port, and no packet of more bytes than may be written.
pub fn read_fits()
    ensures { ReadFits }
{}
