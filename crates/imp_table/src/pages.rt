//! Pages of a table.
ghost use Rattle.std.specs.Prelude.{ℕ, ◌≡◌, ◌<◌, ◌≤◌, ◌/◌, ◌%◌, ◌==◌, ◌↔◌, true, cond, length, IfOk, OnOk};
ghost use Rattle.std.specs.Option.{option_copied};
ghost use Rattle.std.specs.List.{All};
ghost use Rattle.imp_check.specs.Tables.{entry_in};
ghost use Rattle.imp_table.specs.Pages.{entry_at, lengths, HasPlace, IsNeeded};
ghost use Rattle.imp_table.specs.declared.change.Put.{Put};

use crate::change::Put;
use crate::page::{PAGE, Page};
use base_values::Memory;
use imp_check::{Entry, TableSlot};
use std::alloc::Global;

/// What stands at a number.
#[inline]
pub(crate) fn entry_at(pages: &[Page], number: usize) -> Option<&Entry>
    ensures is { option_copied result ≡ entry_at pages.now number }
{
    match pages.get(number / PAGE) {
        Some(page) => page.entry(number % PAGE),
        None => None,
    }
}

/// Whether there is a place for a number.
fn has_place(pages: &[Page], number: usize) -> bool
    ensures is { (result ≡ true) ↔ HasPlace (lengths pages.now) number }
{
    match pages.get(number / PAGE) {
        Some(page) => number % PAGE < page.len(),
        None => false,
    }
}

/// Exchanges what stands at a number.
pub(crate) fn exchange_at(pages: &mut [Page], number: usize, entry: &mut TableSlot)
    requires there { HasPlace (lengths pages.old) number }
    ensures is { (m : ℕ) → entry_at pages.new m ≡
        cond (number == m) entry.old (entry_at pages.old m) }
    ensures taken { entry.new ≡ entry_at pages.old number }
    ensures places { lengths pages.new ≡ lengths pages.old }
{
    pages[number / PAGE].exchange(number % PAGE, entry);
}

/// Takes away what stands at a number.
#[tactic(auto, using(imp_check::proofs::TableLemmas::take_at))]
pub(crate) fn take_at(pages: &mut Vec<Page>, number: usize) -> TableSlot
    ensures is { result ≡ entry_at pages.old.items number }
    ensures others { (m : ℕ) → m < number →
        entry_at pages.new.items m ≡ entry_at pages.old.items m }
{
    let mut entry = TableSlot::free();
    if has_place(pages.as_slice(), number) {
        exchange_at(pages.as_mut_slice(), number, &mut entry);
    }
    entry
}

/// Adds pages without places until there are so many.
#[tactic(auto, using(crate::proofs::PageLemmas::entry_more, crate::proofs::PageLemmas::place_more))]
fn add_pages(alloc: Global, pages: &mut Vec<Page>, count: usize) -> Result<(), Memory>
    ensures count { OnOk result (count ≤ length pages.new.items) }
    ensures kept { (n : ℕ) → entry_at pages.new.items n ≡ entry_at pages.old.items n }
    ensures no_less { (n : ℕ) → HasPlace (lengths pages.old.items) n →
        HasPlace (lengths pages.new.items) n }
{
    while pages.len() < count {
        pages.push(Page::none(alloc))?;
    }
    Ok(())
}

/// Makes the places of a page.
fn make_page(pages: &mut [Page], page: usize) -> Result<(), Memory>
    requires there { page < length pages.old }
    ensures place { OnOk result ((n : ℕ) → n / 64 ≡ page → HasPlace (lengths pages.new) n) }
    ensures kept { (n : ℕ) → entry_at pages.new n ≡ entry_at pages.old n }
    ensures no_less { (n : ℕ) → HasPlace (lengths pages.old) n → HasPlace (lengths pages.new) n }
{
    pages[page].make_places()
}

/// Makes the place of a number, where nothing stands, with the others of its page. When memory runs out the pages keep the
/// places that they have.
fn make_place(alloc: Global, pages: &mut Vec<Page>, number: usize) -> Result<(), Memory>
    ensures place { OnOk result (HasPlace (lengths pages.new.items) number) }
    ensures kept { (n : ℕ) → entry_at pages.new.items n ≡ entry_at pages.old.items n }
    ensures no_less { (n : ℕ) → HasPlace (lengths pages.old.items) n →
        HasPlace (lengths pages.new.items) n }
{
    let page = number / PAGE;
    add_pages(alloc, pages, page + 1)?;
    make_page(pages.as_mut_slice(), page)
}

/// Makes the places of these numbers.
pub(crate) fn make_places(alloc: Global, pages: &mut Vec<Page>, puts: &[Put]) -> Result<(), Memory>
    ensures places { OnOk result
        (All (λ (p : Put). HasPlace (lengths pages.new.items) p.number) puts.now) }
    ensures kept { (n : ℕ) → entry_at pages.new.items n ≡ entry_at pages.old.items n }
    ensures no_less { (n : ℕ) → HasPlace (lengths pages.old.items) n →
        HasPlace (lengths pages.new.items) n }
{
    for put in puts {
        make_place(alloc, pages, put.number as usize)?;
    }
    Ok(())
}

/// Puts an entry at a number, for which it makes the place.
fn put_at(
    alloc: Global,
    pages: &mut Vec<Page>,
    number: usize,
    mut entry: TableSlot,
) -> Result<(), Memory>
    ensures is { OnOk result ((m : ℕ) → entry_at pages.new.items m ≡
        cond (number == m) entry (entry_at pages.old.items m)) }
{
    make_place(alloc, pages, number)?;
    exchange_at(pages.as_mut_slice(), number, &mut entry);
    Ok(())
}

/// These places in pages. The pages where nothing stands have no places.
pub(crate) fn pages_of(alloc: Global, mut places: Vec<TableSlot>) -> Result<Vec<Page>, Memory>
    ensures are { IfOk result (λ pages. (n : ℕ) → entry_at pages.items n ≡
        entry_in places.items n) }
{
    let mut pages = Vec::new(alloc);
    while let Some(entry) = places.pop() {
        if entry.entry().is_some() {
            put_at(alloc, &mut pages, places.len(), entry)?;
        }
    }
    Ok(pages)
}

/// Takes the places of a page away, where nothing stands on it and it is not needed. It answers whether the page is left.
fn drop_page(alloc: Global, pages: &mut [Page], page: usize, is_needed: bool) -> bool
    requires there { page < length pages.old }
    ensures kept { (n : ℕ) → entry_at pages.new n ≡ entry_at pages.old n }
    ensures others { (n : ℕ) → (n / 64 ≡ page → is_needed ≡ true) →
        HasPlace (lengths pages.old) n → HasPlace (lengths pages.new) n }
{
    if is_needed || !pages[page].is_free() {
        return true;
    }
    pages[page] = Page::none(alloc);
    false
}

/// Takes away the places of the pages that are not needed and where nothing stands, and answers how many pages are left.
#[tactic(auto, using(imp_check::proofs::TableLemmas::take_at))]
pub(crate) fn drop_pages(alloc: Global, pages: &mut Vec<Page>, needed: &[bool]) -> usize
    ensures kept { (n : ℕ) → entry_at pages.new.items n ≡ entry_at pages.old.items n }
    ensures needed { (n : ℕ) → IsNeeded needed.now n → HasPlace (lengths pages.old.items) n →
        HasPlace (lengths pages.new.items) n }
{
    drop_in(alloc, pages.as_mut_slice(), needed)
}

/// Takes away the places of these pages, where they are not needed and nothing stands there.
fn drop_in(alloc: Global, pages: &mut [Page], needed: &[bool]) -> usize
    ensures kept { (n : ℕ) → entry_at pages.new n ≡ entry_at pages.old n }
    ensures needed { (n : ℕ) → IsNeeded needed.now n → HasPlace (lengths pages.old) n →
        HasPlace (lengths pages.new) n }
{
    let mut left: usize = 0;
    for page in 0..pages.len() {
        let is_needed = is_flagged(needed, page);
        if drop_page(alloc, pages, page, is_needed) {
            left = left.saturating_add(1);
        }
    }
    left
}

/// Whether a page is needed.
fn is_flagged(needed: &[bool], page: usize) -> bool
    ensures is { (n : ℕ) → n / 64 ≡ page → IsNeeded needed.now n → result ≡ true }
{
    match needed.get(page) {
        Some(flag) => *flag,
        None => false,
    }
}
