//! Setups of sockets, call by call. A refusal is told by its name.
//!
//! `umem LEN CHUNK HEADROOM`, `device PORTS QUEUES`, `socket`, `ring SOCKET KIND SIZE`, `bind SOCKET PORT QUEUE FLAGS [SHARED]`,
//! `seal`, `flags`, and the questions about the configuration that was sealed.
use crate::case::Case;
use crate::configs;
use crate::line::{Fault, Line, number_in};
use crate::told::Told;
use std::alloc::Global;
use xsk_model::Config;
use xsk_socket::{
    RingKind, SealRefused, Setup, SetupError, XDP_COPY, XDP_SHARED_UMEM, XDP_USE_NEED_WAKEUP,
    XDP_USE_SG, XDP_ZEROCOPY,
};
use xsk_umem::{Geometry, Umem};

#[derive(Drop)]
pub struct Setups {
    alloc: Global,
    geometry: Option<Geometry>,
    setup: Option<Setup>,
    config: Option<Config>,
}

impl Setups {
    pub fn new(alloc: Global) -> Setups {
        Setups {
            alloc,
            geometry: None,
            setup: None,
            config: None,
        }
    }

    fn register(&mut self, line: &mut Line<'_>, told: &mut Told) -> Result<(), Fault> {
        let (len, chunk, headroom) = line.umem()?;
        match Umem::register(self.alloc, len, chunk, headroom) {
            Ok((geometry, frames)) => {
                self.geometry = Some(geometry);
                told.number(frames.len());
                told.say(" frames");
            }
            Err(error) => told.name(&error),
        }
        Ok(())
    }

    fn begin(&mut self, line: &mut Line<'_>, told: &mut Told) -> Result<(), Fault> {
        let Some(geometry) = self.geometry else {
            return Err(Fault::BadLine);
        };
        let (ports, queues) = line.two()?;
        self.setup = Some(over(self.alloc, geometry, ports, queues)?);
        told.say("ok");
        Ok(())
    }

    fn seal(&mut self, told: &mut Told) -> Result<(), Fault> {
        let Some(setup) = self.setup.take() else {
            return Err(Fault::BadLine);
        };
        match setup.seal() {
            Ok(config) => {
                self.config = Some(config);
                told.say("ok");
            }
            Err(SealRefused { error, setup }) => {
                self.setup = Some(setup);
                told.name(&error);
            }
        }
        Ok(())
    }

    fn ask(&mut self, word: &str, line: &mut Line<'_>, told: &mut Told) -> Result<(), Fault> {
        if let Some(config) = &self.config {
            return configs::answer(config, word, line, told);
        }
        match &mut self.setup {
            Some(setup) => call(setup, word, line, told),
            None => Err(Fault::BadLine),
        }
    }
}

impl Case for Setups {
    fn answer(&mut self, word: &str, line: &mut Line<'_>, told: &mut Told) -> Result<(), Fault> {
        match word {
            "umem" => self.register(line, told),
            "device" => self.begin(line, told),
            "seal" => self.seal(told),
            "flags" => tell_flags(told),
            _ => self.ask(word, line, told),
        }
    }
}

/// A setup over a device of 2 or 4 ports with 1, 2 or 4 queues.
fn over(alloc: Global, geometry: Geometry, ports: u32, queues: u32) -> Result<Setup, Fault> {
    if ports != 2 && ports != 4 {
        return Err(Fault::NotLegal);
    }
    if queues != 1 && queues != 2 && queues != 4 {
        return Err(Fault::NotLegal);
    }
    Ok(Setup::new(alloc, geometry, ports, queues))
}

fn call(setup: &mut Setup, word: &str, line: &mut Line<'_>, told: &mut Told) -> Result<(), Fault> {
    match word {
        "socket" => add_socket(setup, told),
        "ring" => add_ring(setup, line, told),
        "bind" => bind(setup, line, told),
        _ => Err(Fault::BadLine),
    }
}

fn add_socket(setup: &mut Setup, told: &mut Told) -> Result<(), Fault> {
    match setup.socket() {
        Ok(number) => {
            told.say("socket ");
            told.number(number);
        }
        Err(error) => told.name(&error),
    }
    Ok(())
}

fn add_ring(setup: &mut Setup, line: &mut Line<'_>, told: &mut Told) -> Result<(), Fault> {
    let socket = line.number()?;
    let kind = kind_of(line.word()?)?;
    tell(setup.ring(socket, kind, line.number()?), told);
    Ok(())
}

fn bind(setup: &mut Setup, line: &mut Line<'_>, told: &mut Told) -> Result<(), Fault> {
    let (socket, port) = line.two()?;
    let (queue, flags) = line.two()?;
    let shared = match line.next() {
        Some(word) => Some(number_in(word)?),
        None => None,
    };
    tell(setup.bind(socket, port, queue, flags, shared), told);
    Ok(())
}

fn kind_of(word: &str) -> Result<RingKind, Fault> {
    match word {
        "rx" => Ok(RingKind::Rx),
        "tx" => Ok(RingKind::Tx),
        "fill" => Ok(RingKind::Fill),
        "comp" => Ok(RingKind::Comp),
        _ => Err(Fault::BadLine),
    }
}

fn tell(outcome: Result<(), SetupError>, told: &mut Told) {
    match outcome {
        Ok(()) => told.say("ok"),
        Err(error) => told.name(&error),
    }
}

/// The bind flags by their names.
fn tell_flags(told: &mut Told) -> Result<(), Fault> {
    tell_flag("shared ", XDP_SHARED_UMEM, told);
    tell_flag(", copy ", XDP_COPY, told);
    tell_flag(", zerocopy ", XDP_ZEROCOPY, told);
    tell_flag(", wakeup ", XDP_USE_NEED_WAKEUP, told);
    tell_flag(", sg ", XDP_USE_SG, told);
    Ok(())
}

fn tell_flag(name: &str, flag: u32, told: &mut Told) {
    told.say(name);
    told.number(flag);
}
