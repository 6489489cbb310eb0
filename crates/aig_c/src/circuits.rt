//! Circuits: conversion, facts and names; cut, unrolled and strengthened circuits.
ghost use Rattle.std.specs.Prelude.{Some};
ghost use Rattle.aig_command.specs.Command.{OfFile};
ghost use Rattle.aig_commands.specs.Certified.{OfCertified};
ghost use Rattle.aig_commands.specs.Cut.{WritesCut};
ghost use Rattle.aig_commands.specs.Info.{ListsFacts};
ghost use Rattle.aig_commands.specs.Names.{ListsNames};
ghost use Rattle.aig_commands.specs.Toaig.{Converts};
ghost use Rattle.aig_commands.specs.Unroll.{Unrolls};
ghost use Rattle.aig_commands.specs.declared.certified.Purpose.TheVariants as purposes;
ghost use Rattle.aig_c.specs.Answers.{Returns, format_of};

use crate::answer::{NO_MEMORY, answer, format, refuse, writer};
use aig_base::MemReader;
use aig_commands::certified::Certified;
use aig_commands::cut::cut;
use aig_commands::info::{info, info_names};
use aig_commands::strengthen::strengthen;
use aig_commands::{convert, unroll_bytes};
use std::alloc::Global;

/// Converts a circuit file to text, or to the binary format.
#[unsafe(no_mangle)]
pub extern "C" fn aig_toaig(
    alloc: Global,
    circuit: &[u8],
    binary: bool,
    room: &mut [u8],
    written: &mut usize,
) -> u8
    ensures returns { Returns (OfFile circuit.now (Converts (format_of binary)))
        result room.old room.new written.old written.new }
{
    let Ok(mut out) = writer(alloc, room) else {
        return NO_MEMORY;
    };
    match convert(alloc, circuit, format(binary), &mut out) {
        Ok(()) => answer(out.bytes(), room, written),
        Err(fault) => refuse(alloc, fault, out.bytes(), room, written),
    }
}

/// Writes facts about a circuit file, one per line.
#[unsafe(no_mangle)]
pub extern "C" fn aig_info(
    alloc: Global,
    circuit: &[u8],
    room: &mut [u8],
    written: &mut usize,
) -> u8
    ensures returns { Returns (OfFile circuit.now (ListsFacts (Some circuit.now)))
        result room.old room.new written.old written.new }
{
    let Ok(mut out) = writer(alloc, room) else {
        return NO_MEMORY;
    };
    let mut reader = MemReader::new(circuit);
    match info(alloc, &mut reader, &mut out) {
        Ok(()) => answer(out.bytes(), room, written),
        Err(fault) => refuse(alloc, fault, out.bytes(), room, written),
    }
}

/// Writes one line per entry of a circuit, with its literal and its name.
#[unsafe(no_mangle)]
pub extern "C" fn aig_names(
    alloc: Global,
    circuit: &[u8],
    room: &mut [u8],
    written: &mut usize,
) -> u8
    ensures returns { Returns (OfFile circuit.now ListsNames) result room.old room.new written.old written.new }
{
    let Ok(mut out) = writer(alloc, room) else {
        return NO_MEMORY;
    };
    let mut reader = MemReader::new(circuit);
    match info_names(alloc, &mut reader, &mut out) {
        Ok(()) => answer(out.bytes(), room, written),
        Err(fault) => refuse(alloc, fault, out.bytes(), room, written),
    }
}

/// Cuts from a circuit the parts that a text names, as text or in the binary format.
#[unsafe(no_mangle)]
pub extern "C" fn aig_cut(
    alloc: Global,
    circuit: &[u8],
    cuts: &[u8],
    binary: bool,
    room: &mut [u8],
    written: &mut usize,
) -> u8
    ensures returns { Returns (OfFile circuit.now (WritesCut cuts.now (format_of binary)))
        result room.old room.new written.old written.new }
{
    let Ok(mut out) = writer(alloc, room) else {
        return NO_MEMORY;
    };
    let mut reader = MemReader::new(circuit);
    match cut(alloc, &mut reader, cuts, format(binary), &mut out) {
        Ok(()) => answer(out.bytes(), room, written),
        Err(fault) => refuse(alloc, fault, out.bytes(), room, written),
    }
}

/// Unrolls a circuit for some frames, as text or in the binary format.
#[unsafe(no_mangle)]
pub extern "C" fn aig_unroll(
    alloc: Global,
    circuit: &[u8],
    frames: u32,
    binary: bool,
    room: &mut [u8],
    written: &mut usize,
) -> u8
    ensures returns { Returns (OfFile circuit.now (Unrolls frames (format_of binary)))
        result room.old room.new written.old written.new }
{
    let Ok(mut out) = writer(alloc, room) else {
        return NO_MEMORY;
    };
    match unroll_bytes(alloc, circuit, frames, format(binary), &mut out) {
        Ok(()) => answer(out.bytes(), room, written),
        Err(fault) => refuse(alloc, fault, out.bytes(), room, written),
    }
}

/// Strengthens a circuit by a certificate for a bad state property, as text or in the binary format.
#[unsafe(no_mangle)]
pub extern "C" fn aig_strengthen(
    alloc: Global,
    circuit: &[u8],
    certificate: &[u8],
    property: u32,
    binary: bool,
    room: &mut [u8],
    written: &mut usize,
) -> u8
    ensures returns { Returns (OfCertified purposes.Circuit circuit.now property certificate.now
        (Converts (format_of binary))) result room.old room.new written.old written.new }
{
    let Ok(mut out) = writer(alloc, room) else {
        return NO_MEMORY;
    };
    let certified = Certified {
        circuit,
        property,
        certificate,
    };
    match strengthen(alloc, certified, format(binary), &mut out) {
        Ok(()) => answer(out.bytes(), room, written),
        Err(fault) => refuse(alloc, fault, out.bytes(), room, written),
    }
}
