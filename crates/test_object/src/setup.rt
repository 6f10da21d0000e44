//! Setups: what the lines of one say, and the configuration with its frames where these are one.
ghost use Rattle.std.specs.Prelude.{◌≡◌, IfOk};
ghost use Rattle.xsk_model.specs.Config.{IsLawful};
ghost use Rattle.xsk_model.specs.Opening.{AreFrames};

use crate::line::{Fault, Line, long_in, number_in, says};
use std::alloc::Global;
use xsk_model::{Config, PairInfo, SocketInfo, are_parts};
use xsk_umem::{Frames, Geometry, Umem};

/// What the lines of a setup say.
#[derive(Drop)]
struct Setup {
    frames: u32,
    chunk: u32,
    headroom: u32,
    ports: u32,
    queues: u32,
    pairs: Vec<PairInfo>,
    sockets: Vec<SocketInfo>,
    cells: Vec<Vec<u64>>,
    sg: bool,
    wakeup: bool,
    closing: Option<u32>,
}

impl Setup {
    fn new(alloc: Global) -> Setup {
        Setup {
            frames: 0,
            chunk: 0,
            headroom: 0,
            ports: 0,
            queues: 0,
            pairs: Vec::new(alloc),
            sockets: Vec::new(alloc),
            cells: Vec::new(alloc),
            sg: false,
            wakeup: false,
            closing: None,
        }
    }

    /// Takes a line in.
    fn take(&mut self, alloc: Global, text: &str) -> Result<(), Fault> {
        let mut line = Line::new(text);
        let word = line.word()?;
        self.set(alloc, word, &mut line)?;
        match line.next() {
            Some(_) => Err(Fault::BadLine),
            None => Ok(()),
        }
    }

    fn set(&mut self, alloc: Global, word: &str, line: &mut Line<'_>) -> Result<(), Fault> {
        match word {
            "umem" => self.set_umem(line),
            "device" => self.set_device(line),
            "pair" => self.add_pair(line),
            "socket" => self.add_socket(line),
            "cells" => self.add_cells(alloc, line),
            _ => self.set_flag(word, line),
        }
    }

    fn set_umem(&mut self, line: &mut Line<'_>) -> Result<(), Fault> {
        let frames = line.number()?;
        let (chunk, headroom) = line.two()?;
        self.frames = frames;
        self.chunk = chunk;
        self.headroom = headroom;
        Ok(())
    }

    fn set_device(&mut self, line: &mut Line<'_>) -> Result<(), Fault> {
        let (ports, queues) = line.two()?;
        self.ports = ports;
        self.queues = queues;
        Ok(())
    }

    fn add_pair(&mut self, line: &mut Line<'_>) -> Result<(), Fault> {
        let (port, queue) = line.two()?;
        let (fill, comp) = line.two()?;
        self.pairs.push(PairInfo {
            port,
            queue,
            fill,
            comp,
        })?;
        Ok(())
    }

    fn add_socket(&mut self, line: &mut Line<'_>) -> Result<(), Fault> {
        let (port, queue) = line.two()?;
        let rx = size(line.word()?)?;
        let tx = size(line.word()?)?;
        self.sockets.push(SocketInfo {
            port,
            queue,
            rx,
            tx,
        })?;
        Ok(())
    }

    fn add_cells(&mut self, alloc: Global, line: &mut Line<'_>) -> Result<(), Fault> {
        let mut cells = Vec::new(alloc);
        push_all(&mut cells, line)?;
        self.cells.push(cells)?;
        Ok(())
    }

    fn set_flag(&mut self, word: &str, line: &mut Line<'_>) -> Result<(), Fault> {
        match word {
            "sg" => self.sg = true,
            "wakeup" => self.wakeup = true,
            "closing" => self.closing = Some(line.number()?),
            _ => return Err(Fault::BadLine),
        }
        Ok(())
    }
}

/// Puts the numbers that are left behind others.
fn push_all(numbers: &mut Vec<u64>, line: &mut Line<'_>) -> Result<(), Fault> {
    for _ in 0..u64::MAX {
        let Some(word) = line.next() else {
            break;
        };
        numbers.push(long_in(word)?)?;
    }
    Ok(())
}

/// The size of a ring, or `-` where there is none.
fn size(word: &str) -> Result<Option<u32>, Fault> {
    if word == "-" {
        return Ok(None);
    }
    Ok(Some(number_in(word)?))
}

/// Sets the socket to close, if there is one with both rings.
fn close(config: &mut Config, socket: u32) -> bool
    ensures { config.new.geometry ≡ config.old.geometry }
{
    let Some(info) = config.sockets().get(socket as usize) else {
        return false;
    };
    if info.rx.is_none() || info.tx.is_none() {
        return false;
    }
    config.set_closing(socket);
    true
}

impl Setup {
    /// The configuration, if it is one.
    fn config(self, geometry: Geometry) -> Result<Config, Fault>
        ensures { IfOk result (λ config. config.geometry ≡ geometry) }
    {
        let Setup {
            ports,
            queues,
            pairs,
            sockets,
            cells,
            sg,
            wakeup,
            closing,
            ..
        } = self;
        if !are_parts(
            ports,
            queues,
            sockets.as_slice(),
            pairs.as_slice(),
            cells.as_slice(),
        ) {
            return Err(Fault::NotLegal);
        }
        let mut config = Config::of_parts(
            geometry, ports, queues, sockets, pairs, cells, sg, wakeup,
        );
        if let Some(socket) = closing {
            if !close(&mut config, socket) {
                return Err(Fault::NotLegal);
            }
        }
        Ok(config)
    }

    /// The configuration with these frames, if it is lawful.
    fn lawful(self, geometry: Geometry, frames: Frames) -> Result<(Config, Frames), Fault>
        requires { AreFrames geometry frames.items }
        ensures lawful { IfOk result (λ made. IsLawful made.0) }
        ensures frames { IfOk result (λ made. AreFrames made.0.geometry made.1.items) }
    {
        let config = self.config(geometry)?;
        if !config.lawful() {
            return Err(Fault::NotLegal);
        }
        Ok((config, frames))
    }

    /// The configuration with its frames, if it is lawful.
    fn make(self, alloc: Global) -> Result<(Config, Frames), Fault>
        ensures lawful { IfOk result (λ made. IsLawful made.0) }
        ensures frames { IfOk result (λ made. AreFrames made.0.geometry made.1.items) }
    {
        let len = u64::from(self.frames) * u64::from(self.chunk);
        match Umem::register(alloc, len, self.chunk, self.headroom) {
            Ok((geometry, frames)) => self.lawful(geometry, frames),
            Err(_) => Err(Fault::NotLegal),
        }
    }
}

/// Takes lines in.
fn take_all(setup: &mut Setup, alloc: Global, lines: &str) -> Result<(), Fault> {
    for line in lines.split("\n") {
        if says(line) {
            setup.take(alloc, line)?;
        }
    }
    Ok(())
}

/// The configuration with its frames that the lines of a setup say.
pub(crate) fn read_setup(alloc: Global, lines: &str) -> Result<(Config, Frames), Fault>
    ensures lawful { IfOk result (λ made. IsLawful made.0) }
    ensures frames { IfOk result (λ made. AreFrames made.0.geometry made.1.items) }
{
    let mut setup = Setup::new(alloc);
    take_all(&mut setup, alloc, lines)?;
    setup.make(alloc)
}
