//! The text of a state.
ghost use Rattle.std.specs.Prelude.{◌≡◌, ◌++◌, IfOk, OnOk};
ghost use Rattle.std.specs.Option.{option_copied};
ghost use Rattle.cert_words.specs.Words.{words_text, more_text};
ghost use Rattle.dbm_core.specs.Half.{entry, nodes};
ghost use Rattle.dom_octagon_words.specs.Words.{state_in, table_told, state_words};

use base_values::{Memory, Text};
use cert_words::{put_more, put_word};
use dbm_core::Matrix;
use std::alloc::Global;

/// All entries, row by row, each with a space before.
#[tactic(auto, using(crate::proofs::Below::place_within, crate::proofs::Texts::some_row, crate::proofs::Texts::few_places, crate::proofs::Texts::place_step))]
fn put_entries(text: &mut Text, m: &Matrix) -> Result<(), Memory>
    ensures added { OnOk result (text.new ≡ text.old ++ more_text
        (table_told (nodes m.now) (entry m.now))) }
{
    let nodes = 2 * m.kinds().len();
    for place in 0..nodes * nodes {
        put_more(text, m.get(place / nodes, place % nodes))?;
    }
    Ok(())
}

/// The text of the state with this matrix, of Empty where there is none. It fails when memory runs out
/// alone.
pub fn put(alloc: Global, matrix: Option<&Matrix>) -> Result<Text, Memory>
    ensures exact { IfOk result (λ text. text ≡ words_text
        (state_words (state_in (option_copied matrix.entry)))) }
{
    let mut text = Text::new(alloc);
    match matrix {
        None => put_word(&mut text, Some(0))?,
        Some(m) => {
            put_word(&mut text, Some(1))?;
            put_entries(&mut text, m)?;
        }
    }
    Ok(text)
}
