//! Questions about a configuration: its numbers, its sockets, pairs and cells, and where its words stand.
//!
//! `numbers`, `sockets`, `pairs`, `cells PORT`, `cell PORT INDEX`, `base KIND NUMBER`, `mark KIND NUMBER`, `count`.
use crate::line::{Fault, Line};
use crate::told::Told;
use crate::words::{Place, place_of};
use xsk_model::placement::{has_mark, has_ring};
use xsk_model::{Config, Mark, Ring};
use xsk_table::{entry_words, mark_word, marks_base, ring_base, word_count};

pub fn answer(
    config: &Config,
    word: &str,
    line: &mut Line<'_>,
    told: &mut Told,
) -> Result<(), Fault> {
    match word {
        "numbers" => tell_numbers(config, told),
        "sockets" => tell_sockets(config, told),
        "pairs" => tell_pairs(config, told),
        "cells" => tell_cells(config, line, told),
        "cell" => tell_cell(config, line, told),
        "base" => tell_base(config, line, told),
        "mark" => tell_mark(config, line, told),
        "count" => tell_count(config, told),
        _ => Err(Fault::BadLine),
    }
}

fn tell_numbers(config: &Config, told: &mut Told) -> Result<(), Fault> {
    told.number(config.ports());
    told.say(" ports, ");
    told.number(config.queues());
    told.say(" queues, ");
    told.count(config.sockets().len());
    told.say(" sockets, ");
    told.count(config.pairs().len());
    told.say(" pairs, ");
    tell_sizes(config, told);
    tell_options(config, told);
    Ok(())
}

fn tell_sizes(config: &Config, told: &mut Told) {
    told.number(config.geometry().frames());
    told.say(" frames, pool ");
    told.number(config.pool());
    told.say(", ");
    told.number(config.callers());
    told.say(" callers, batch ");
    told.number(config.batch());
}

fn tell_options(config: &Config, told: &mut Told) {
    if config.lawful() {
        told.say(", lawful");
    }
    if config.regular() {
        told.say(", regular");
    }
    if config.sg() {
        told.say(", sg");
    }
    if config.wakeup() {
        told.say(", wakeup");
    }
    if let Some(socket) = config.closing() {
        told.say(", closing ");
        told.number(socket);
    }
}

/// Each socket's port and queue, and the sizes of its RX and TX.
fn tell_sockets(config: &Config, told: &mut Told) -> Result<(), Fault> {
    told.count(config.sockets().len());
    told.say(" sockets");
    for socket in config.sockets() {
        tell_place(socket.port, socket.queue, told);
        told.say(" rx ");
        tell_size(socket.rx, told);
        told.say(" tx ");
        tell_size(socket.tx, told);
    }
    Ok(())
}

fn tell_place(port: u32, queue: u32, told: &mut Told) {
    told.say("; ");
    told.number(port);
    told.say(".");
    told.number(queue);
}

fn tell_size(size: Option<u32>, told: &mut Told) {
    match size {
        Some(size) => told.number(size),
        None => told.say("none"),
    }
}

/// Each pair's port and queue, and the sizes of its FILL and COMPLETION.
fn tell_pairs(config: &Config, told: &mut Told) -> Result<(), Fault> {
    told.count(config.pairs().len());
    told.say(" pairs");
    for pair in config.pairs() {
        tell_place(pair.port, pair.queue, told);
        told.say(" fill ");
        told.number(pair.fill);
        told.say(" comp ");
        told.number(pair.comp);
    }
    Ok(())
}

/// The numbers in all cells of a port.
fn tell_cells(config: &Config, line: &mut Line<'_>, told: &mut Told) -> Result<(), Fault> {
    let port = line.number()?;
    if port >= config.ports() {
        return Err(Fault::NotLegal);
    }
    let count = config.cells(port);
    told.number(count);
    told.say(" cells:");
    for index in 0..count {
        told.say(" ");
        told.long(config.cell(port, index));
    }
    Ok(())
}

fn tell_cell(config: &Config, line: &mut Line<'_>, told: &mut Told) -> Result<(), Fault> {
    let (port, index) = line.two()?;
    if port >= config.ports() || index >= config.cells(port) {
        return Err(Fault::NotLegal);
    }
    told.long(config.cell(port, index));
    Ok(())
}

fn ring_in(line: &mut Line<'_>) -> Result<Ring, Fault> {
    let word = line.word()?;
    match place_of(word, line.number()?)? {
        Place::Ring(ring) => Ok(ring),
        Place::Mark(_) => Err(Fault::BadLine),
    }
}

fn mark_in(line: &mut Line<'_>) -> Result<Mark, Fault> {
    let word = line.word()?;
    let number = line.number()?;
    if word == "cell" {
        return Ok(Mark::Cell(number, line.number()?));
    }
    match place_of(word, number)? {
        Place::Ring(_) => Err(Fault::BadLine),
        Place::Mark(mark) => Ok(mark),
    }
}

/// Where a ring's words begin, and how many words its entries have.
fn tell_base(config: &Config, line: &mut Line<'_>, told: &mut Told) -> Result<(), Fault> {
    let ring = ring_in(line)?;
    if !has_ring(config, ring) {
        return Err(Fault::NotLegal);
    }
    told.count(ring_base(config, ring));
    told.say(", entries of ");
    told.count(entry_words(ring));
    Ok(())
}

fn tell_mark(config: &Config, line: &mut Line<'_>, told: &mut Told) -> Result<(), Fault> {
    let mark = mark_in(line)?;
    if !has_mark(config, mark) {
        return Err(Fault::NotLegal);
    }
    told.count(mark_word(config, mark));
    Ok(())
}

/// How many words the rings have, and how many all have.
fn tell_count(config: &Config, told: &mut Told) -> Result<(), Fault> {
    told.count(marks_base(config));
    told.say(" of rings, ");
    told.count(word_count(config));
    told.say(" in all");
    Ok(())
}
