//! A run of the server.
ghost use Rattle.std.specs.Prelude.{◌≡◌, ◌<◌};

use base_counter::Steps;
use daig_server::serve;
use io_edge::{Files, MemSink, MemSource};
use std::alloc::Global;
use std::marker::Brand;
use std::sync::ledger::{Blank, Ledger};

/// The most bytes of a file.
pub(crate) const MOST: usize = 1_048_576;

/// The status of a run that counts nothing.
fn status<F: Files, L: Ledger>(
    alloc: Global,
    words: &[String],
    files: &mut F,
    script: &mut MemSource,
    out: &mut MemSink,
    blank: Blank,
) -> u8
    requires name { blank.name ≡ L.name }
    requires parts { blank.parts ≡ L.parts }
    requires some { 0 < blank.parts }
{
    let mut steps = Steps::<L>::new(blank);
    serve(alloc, words, files, script, out, &mut steps)
}

/// The status of a run over these files.
pub(crate) fn status_of<F: Files>(
    alloc: Global,
    words: &[String],
    files: &mut F,
    script: &mut MemSource,
    out: &mut MemSink,
) -> u8 {
    status::<F, Brand>(alloc, words, files, script, out, Blank::new(1))
}
