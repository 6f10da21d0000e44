//! What the exports answer, by the numbers of `c/include/xsk_c.h`.
ghost use Rattle.std.specs.Prelude.{◌≡◌, List};
ghost use Rattle.xsk_umem.specs.declared.batch.Item.{Item};
ghost use Rattle.xsk_model.specs.Asks.{joined_reply};
ghost use Rattle.xsk_c.specs.Answers.{condition_number, fault_number, capture_number, reply_number, told_in};

use xsk_legal::Illegal;
use xsk_model::Answer;
use xsk_pcap::BadCapture;
use xsk_socket::Unlawful;

pub(crate) const DONE: u32 = 0;

pub(crate) const NOT_LIVE: u32 = 1;

pub(crate) const LIVE: u32 = 2;

pub(crate) const NO_MEMORY: u32 = 3;

pub(crate) const NO_SUCH: u32 = 4;

pub(crate) const SHORT: u32 = 5;

pub(crate) const FULL: u32 = 6;

pub(crate) const EMPTY: u32 = 7;

pub(crate) const COUNT: u32 = 19;

pub(crate) const BAD_CAPTURES: u32 = 35;

/// The number of the first condition of a legal call that fails.
pub(crate) fn number_of_condition(why: Illegal) -> u32
    ensures { result ≡ condition_number why }
{
    match why {
        Illegal::NoCaller => 16,
        Illegal::Unknown => 17,
        Illegal::NotItsOwn => 18,
        Illegal::Count => 19,
        Illegal::Places => 20,
        Illegal::Items => 21,
        Illegal::Frames => 22,
        Illegal::Packets => 23,
        Illegal::Ended => 24,
        Illegal::NotNow => 25,
    }
}

/// The number of why a layout is refused.
pub(crate) fn number_of_fault(why: Unlawful) -> u32
    ensures { result ≡ fault_number why }
{
    match why {
        Unlawful::Ports(_) => 32,
        Unlawful::Queues(_) => 33,
        Unlawful::Sockets(_) => 34,
        Unlawful::Files(_) => BAD_CAPTURES,
        Unlawful::Chunk(_) => 36,
        Unlawful::Headroom(_) => 37,
        Unlawful::Frames(_) => 38,
        Unlawful::Rx(_) => 39,
        Unlawful::Tx(_) => 40,
        Unlawful::Fill(_) => 41,
        Unlawful::Comp(_) => 42,
        Unlawful::Pool(_) => 43,
        Unlawful::Empty(_) => 44,
        Unlawful::Close(_) => 45,
        Unlawful::Hands(_) => 46,
    }
}

/// The number of why a capture is refused.
pub(crate) fn number_of_capture(why: BadCapture) -> u32
    ensures { result ≡ capture_number why }
{
    match why {
        BadCapture::ShortHeader => 48,
        BadCapture::BadMagic => 49,
        BadCapture::BadVersion => 50,
        BadCapture::BadLink => 51,
        BadCapture::Truncated { at: _ } => 52,
        BadCapture::RecordTooLong { at: _ } => 53,
        BadCapture::OutOfMemory => NO_MEMORY,
    }
}

/// The number of a reply: a ring was full, or empty, or else it is done.
pub(crate) fn number_of_answer(answer: Answer) -> u32
    ensures { (items : List Item) → result ≡ reply_number (joined_reply answer items) }
{
    match answer {
        Answer::Full(_) => FULL,
        Answer::Empty => EMPTY,
        Answer::Granted | Answer::Submitted | Answer::Items | Answer::Released | Answer::Old(_) =>
            DONE,
    }
}

/// How many places are free, or what a mark was, where a reply tells that, and else what stood there.
pub(crate) fn number_in(answer: Answer, before: u64) -> u64
    ensures { (items : List Item) → result ≡ told_in before (joined_reply answer items) }
{
    match answer {
        Answer::Full(free) => u64::from(free),
        Answer::Old(value) => value,
        Answer::Granted | Answer::Submitted | Answer::Items | Answer::Empty | Answer::Released =>
            before,
    }
}
