//! Changes of a table, put in place.
ghost use Rattle.std.specs.Prelude.{ℕ, ◌≡◌, ◌∷◌, [], MatchOption, Option};
ghost use Rattle.imp_table.specs.Changes.{overlay, AreFalling};
ghost use Rattle.imp_table.specs.Pages.{entry_at, lengths, HasPlace, HavePlaces};
ghost use Rattle.imp_check.specs.declared.entry.Entry.{Entry};

use crate::change::Put;
use crate::page::Page;
use crate::pages::exchange_at;

/// Exchanges what stands at these numbers of a table.
#[tactic(auto, using(imp_check::proofs::TableLemmas::take_at))]
pub(crate) fn put_all(pages: &mut Vec<Page>, puts: &mut [Put])
    requires there { HavePlaces (lengths pages.old.items) puts.old }
    ensures is { (m : ℕ) → entry_at pages.new.items m ≡
        overlay puts.old (entry_at pages.old.items) m }
    ensures places { lengths pages.new.items ≡ lengths pages.old.items }
    ensures back { (m : ℕ) → overlay puts.new (entry_at pages.new.items) m ≡
        entry_at pages.old.items m }
    ensures back_there { HavePlaces (lengths pages.old.items) puts.new }
{
    put_in(pages.as_mut_slice(), puts);
}

/// Exchanges what stands at a number.
fn put_one(pages: &mut [Page], put: &mut Put)
    requires there { HasPlace (lengths pages.old) put.old.number }
    ensures is { (m : ℕ) → entry_at pages.new m ≡ overlay (put.old ∷ []) (entry_at pages.old) m }
    ensures number { put.new.number ≡ put.old.number }
    ensures entry { put.new.entry ≡ entry_at pages.old put.old.number }
    ensures places { lengths pages.new ≡ lengths pages.old }
{
    exchange_at(pages, put.number as usize, &mut put.entry);
}

/// Exchanges what stands at these numbers.
fn put_in(pages: &mut [Page], puts: &mut [Put])
    requires there { HavePlaces (lengths pages.old) puts.old }
    ensures is { (m : ℕ) → entry_at pages.new m ≡ overlay puts.old (entry_at pages.old) m }
    ensures places { lengths pages.new ≡ lengths pages.old }
    ensures back { (m : ℕ) → overlay puts.new (entry_at pages.new) m ≡ entry_at pages.old m }
    ensures back_there { HavePlaces (lengths pages.old) puts.new }
{
    for i in 0..puts.len() {
        put_one(pages, &mut puts[i]);
    }
}

/// What comes at a number by a change, or `None` where the change has no such number. It takes time logarithmic in the
/// change.
#[tactic(auto, using(crate::proofs::FallingLemmas::overlay_at, crate::proofs::FallingLemmas::overlay_gone, crate::proofs::FallingLemmas::greater_more, crate::proofs::FallingLemmas::less_more))]
#[inline]
pub(crate) fn put_of(puts: &[Put], number: u32) -> Option<&Put>
    requires falling { AreFalling puts.now }
    ensures is { MatchOption result ((at : ℕ → Option Entry) →
        overlay puts.now at number ≡ at number) (λ put. (at : ℕ → Option Entry) →
        overlay puts.now at number ≡ put.now.entry) }
{
    let mut low = 0;
    let mut high = puts.len();
    while low < high {
        let middle = low + (high - low) / 2;
        let put = &puts[middle];
        if put.number == number {
            return Some(put);
        }
        if number < put.number {
            low = middle + 1;
        } else {
            high = middle;
        }
    }
    None
}
