//! Writing a piece whole.
ghost use Rattle.std.specs.Prelude.{◌≤◌, OnOk, OnErr};
ghost use Rattle.io_edge.specs.Outside.{Rose};
ghost use Rattle.serve_script.specs.Answering.{Writes, WritesPrefix};

use io_edge::{Failed, Sink};

/// Writes the whole piece, in as many calls as the sink needs.
///
/// Fails only where a call failed or took nothing; then a prefix of the piece is written.
pub fn write_all<O: Sink>(out: &mut O, piece: &[u8]) -> Result<(), Failed>
    ensures written { OnOk result (Writes piece.now (O.told out.old) (O.told out.new)) }
    ensures prefix { OnErr result (WritesPrefix piece.now (O.told out.old) (O.told out.new)) }
    ensures failed { OnErr result (Rose (O.faults out.old) (O.faults out.new)) }
    ensures never_falls { O.faults out.old ≤ O.faults out.new }
{
    let mut at = 0;
    while at < piece.len() {
        match out.write(&piece[at..]) {
            Ok(count) if count > 0 => at += count,
            _ => return Err(Failed),
        }
    }
    Ok(())
}
