//! The lines of a certificate, read once.
ghost use Rattle.std.specs.Prelude.{◌≡◌, ◌+◌, ◌<◌, ◌≤◌, ◌^◌, [], length, None, IfOk, OnOk};
ghost use Rattle.imp_slots.specs.Fits.{IsChecked};
ghost use Rattle.imp_check.specs.Programs.{check_fault};
ghost use Rattle.imp_check.specs.Slots.{routines_of};
ghost use Rattle.serve_script.specs.Lines.{all_lines, last_line};
ghost use Rattle.cert_lines.specs.Lines as plain;
ghost use Rattle.cert_reading.specs.Table.{AreChains};
ghost use Rattle.cert_reading.specs.Reading.{GoesOn, IsAdded, IsRead, IsReading};

use crate::chain_sets::ChainSets;
use crate::entry::entry_of;
use crate::written::{Written, loop_key};
use base_values::Memory;
use cert_meaning::Portable;
use imp_table::Checked;
use std::alloc::Global;

/// What reading the lines comes to.
#[derive(Drop)]
pub enum Lines<S> {
    /// The states that are written.
    Read(Written<S>),
    /// The first bad line, counted from 1.
    Bad(usize),
}

/// Adds the entry of a line, and tells whether it could: it is not bad, and no earlier line has its loop and call
/// sites.
fn add_line<D: Portable>(
    alloc: Global,
    dom: &D,
    prog: &Checked,
    chains: &ChainSets,
    line: &[u8],
    written: &mut Written<D::State>,
) -> Result<bool, Memory>
    requires chains { AreChains (routines_of prog.now) chains.now.sets }
    ensures added { IfOk result (IsAdded (D.port dom.now)
        (routines_of prog.now) line.now written.old written.new) }
{
    let Some(entry) = entry_of(alloc, dom, prog, chains, line)? else {
        return Ok(false);
    };
    let key = loop_key(alloc, entry.at, entry.sites.as_slice())?;
    if written.get(&key).is_some() {
        return Ok(false);
    }
    written.insert(key, entry.state)?;
    Ok(true)
}

/// What reading one byte more comes to.
#[derive(Drop)]
pub(crate) enum Next {
    /// It goes on.
    More,
    /// The line that ended is bad.
    Bad,
}

/// Goes on by one byte: LF ends the pending line, which is read; any other byte goes on with it.
fn read_byte<D: Portable>(
    alloc: Global,
    dom: &D,
    prog: &Checked,
    chains: &ChainSets,
    byte: u8,
    line: &mut Vec<u8>,
    count: &mut usize,
    written: &mut Written<D::State>,
) -> Result<Next, Memory>
    requires chains { AreChains (routines_of prog.now) chains.now.sets }
    requires room { count.old + 1 < 2 ^ 64 }
    ensures counted { OnOk result (count.new ≤ count.old + 1) }
    ensures goes { IfOk result (GoesOn (D.port dom.now) (routines_of prog.now) byte written.old
        count.old line.old.items written.new count.new line.new.items) }
{
    if byte == b'\n' {
        if add_line(alloc, dom, prog, chains, line.as_slice(), written)? {
            line.clear();
            *count += 1;
            Ok(Next::More)
        } else {
            Ok(Next::Bad)
        }
    } else {
        line.push(byte)?;
        Ok(Next::More)
    }
}

/// Reads what is after the last LF, if it has a byte.
fn read_rest<D: Portable>(
    alloc: Global,
    dom: &D,
    prog: &Checked,
    chains: &ChainSets,
    line: &[u8],
    count: usize,
    written: Written<D::State>,
) -> Result<Lines<D::State>, Memory>
    requires chains { AreChains (routines_of prog.now) chains.now.sets }
    ensures is { IfOk result (λ r. (all : plain.Entries D.State) →
        IsReading (D.port dom.now) (routines_of prog.now) written count
        (last_line line.now) all → IsRead all r) }
{
    let mut all = written;
    match line {
        [] => Ok(Lines::Read(all)),
        _ => {
            if add_line(alloc, dom, prog, chains, line, &mut all)? {
                Ok(Lines::Read(all))
            } else {
                Ok(Lines::Bad(count))
            }
        }
    }
}

/// Reads the lines of a certificate, which has fewer than 2^64 bytes, in their order, up to the first bad one.
fn read_lines<D: Portable>(
    alloc: Global,
    dom: &D,
    prog: &Checked,
    chains: &ChainSets,
    cert: &[u8],
) -> Result<Lines<D::State>, Memory>
    requires chains { AreChains (routines_of prog.now) chains.now.sets }
    ensures is { IfOk result (IsRead (plain.entries (D.port dom.now) (routines_of prog.now) 1 []
        (all_lines cert.now))) }
    ensures short { length cert.now < 2 ^ 64 }
{
    let mut written = Written::new(alloc);
    let mut line: Vec<u8> = Vec::new(alloc);
    let mut count = 1;
    for byte in cert {
        match read_byte(
            alloc,
            dom,
            prog,
            chains,
            *byte,
            &mut line,
            &mut count,
            &mut written,
        )? {
            Next::More => {}
            Next::Bad => return Ok(Lines::Bad(count)),
        }
    }
    read_rest(alloc, dom, prog, chains, line.as_slice(), count, written)
}

/// Reads the lines of a certificate of a program, in their order, up to the first bad one. The program has no fault, and the
/// certificate fewer than 2^64 bytes. It takes the time of finding the chains of the program, and time linear in the
/// certificate, beside what the domain takes for its texts. Its only error is out of memory.
pub fn read_certificate<D: Portable>(
    alloc: Global,
    dom: &D,
    prog: &Checked,
    cert: &[u8],
) -> Result<Lines<D::State>, Memory>
    ensures is { IfOk result (IsRead (plain.entries (D.port dom.now) (routines_of prog.now) 1 []
        (all_lines cert.now))) }
    ensures faultless { check_fault prog.now ≡ None }
    ensures fit { IsChecked (routines_of prog.now) }
    ensures short { IfOk result (λ _. length cert.now < 2 ^ 64) }
{
    let chains = ChainSets::new(alloc, &prog.view())?;
    read_lines(alloc, dom, prog, &chains, cert)
}
