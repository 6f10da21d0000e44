//! What comes of a call, in words.
use crate::told::Told;
use xsk_legal::Illegal;
use xsk_model::{Call, Reply};
use xsk_umem::Batch;

/// What comes of a call: its reply, or the call itself where it isn't legal, and why it isn't where that was asked.
#[derive(Drop)]
pub(crate) enum Asked {
    Made(Reply),
    Refused(Call, Option<Illegal>),
}

pub(crate) fn is_made(asked: &Asked) -> bool {
    match asked {
        Asked::Made(_) => true,
        Asked::Refused(..) => false,
    }
}

/// Tells what came of a call: a reply in the words of a journal's line, or that it isn't legal.
pub(crate) fn tell(asked: &Asked, told: &mut Told) {
    match asked {
        Asked::Made(reply) => tell_reply(reply, told),
        Asked::Refused(_, why) => tell_refusal(why, told),
    }
}

fn tell_refusal(why: &Option<Illegal>, told: &mut Told) {
    told.say("not legal");
    if let Some(why) = why {
        told.say(": ");
        told.message(why);
    }
}

fn tell_reply(reply: &Reply, told: &mut Told) {
    match reply {
        Reply::Granted => told.say("granted"),
        Reply::Full(free) => tell_full(*free, told),
        Reply::Submitted => told.say("submitted"),
        Reply::Items(items) => tell_items(items, told),
        Reply::Empty => told.say("empty"),
        Reply::Released => told.say("released"),
        Reply::Old(old) => told.long(*old),
    }
}

fn tell_full(free: u32, told: &mut Told) {
    told.say("full ");
    told.number(free);
}

fn tell_items(items: &Batch, told: &mut Told) {
    told.say("items");
    for item in items {
        told.say(" ");
        told.long(item.desc.addr);
        told.say(":");
        told.number(item.desc.len);
        told.say(":");
        told.number(item.desc.options);
    }
}
