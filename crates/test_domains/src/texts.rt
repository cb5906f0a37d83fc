//! States as texts, read back, refused and compared.
use base_values::{Items, Text};
use cert_meaning::Portable;
use dom_interval::Interval;
use dom_listseg::ListSeg;
use dom_octagon::Octagon;
use imp_slots::{Layout, NumericSlot};
use std::alloc::Global;
use std::process::Abort;
use std::test::Fail;

/// A number named `i`, and one named `a`, which is an array.
const NUMBERS: [(&str, bool); 2] = [("i", false), ("a", true)];

/// The first of the numbers, or both.
fn numbers(alloc: Global, count: usize) -> Result<[Layout; 1], Fail> {
    let mut numbers = Items::new(alloc);
    for (name, is_array) in NUMBERS.iter().take(count) {
        let name = Text::from_slice(alloc, name.as_bytes())?;
        numbers.push(NumericSlot::new(name, *is_array))?;
    }
    Ok([Layout::new(alloc, numbers, Items::new(alloc))?])
}

/// The link `p`.
fn link(alloc: Global) -> Result<[Layout; 1], Fail> {
    let mut links = Items::new(alloc);
    links.push(Text::from_slice(alloc, b"p")?)?;
    Ok([Layout::new(alloc, Items::new(alloc), links)?])
}

/// Whether a text is taken, and put again as it was.
fn comes_back<D: Portable>(
    alloc: Global,
    dom: &D,
    layouts: &[Layout],
    text: &str,
) -> Result<bool, Fail> {
    match dom.take(alloc, layouts, text.as_bytes())? {
        None => Ok(false),
        Some(s) => Ok(dom.put(alloc, &s)?.as_slice() == text.as_bytes()),
    }
}

/// Whether the left text is taken and that of a state below the right one's.
fn is_below<D: Portable>(
    alloc: Global,
    dom: &D,
    layouts: &[Layout],
    left: &str,
    right: &str,
) -> Result<bool, Fail> {
    match (
        dom.take(alloc, layouts, left.as_bytes())?,
        dom.take(alloc, layouts, right.as_bytes())?,
    ) {
        (Some(l), Some(r)) => Ok(dom.leq(alloc, &l, &r)?),
        (_, _) => Ok(false),
    }
}

/// Asserts that each text is taken, and put again as it was.
fn expect_back<D: Portable>(
    rt: &impl Abort,
    alloc: Global,
    dom: &D,
    layouts: &[Layout],
    texts: &[&str],
) -> Result<(), Fail> {
    for text in texts {
        assert!(rt; comes_back(alloc, dom, layouts, text)?, "{text}");
    }
    Ok(())
}

/// Asserts that no text is taken.
fn expect_refused<D: Portable>(
    rt: &impl Abort,
    alloc: Global,
    dom: &D,
    layouts: &[Layout],
    texts: &[&str],
) -> Result<(), Fail> {
    for text in texts {
        let taken = dom.take(alloc, layouts, text.as_bytes())?;
        assert!(rt; taken.is_none(), "{text}");
    }
    Ok(())
}

/// Asserts of each two texts whether the left one's state is below the right one's.
fn expect_order<D: Portable>(
    rt: &impl Abort,
    alloc: Global,
    dom: &D,
    layouts: &[Layout],
    pairs: &[(&str, &str, bool)],
) -> Result<(), Fail> {
    for (left, right, below) in pairs {
        let found = is_below(alloc, dom, layouts, left, right)?;
        assert!(rt; found == *below, "{left} and {right}");
    }
    Ok(())
}

#[test]
fn intervals_come_back(rt: HostRuntime) -> Result<(), Fail> {
    let layouts = numbers(rt.alloc(), 2)?;
    let texts = ["0", "1 -5 7 0 1000000"];
    expect_back(&rt, rt.alloc(), &Interval, &layouts, &texts)
}

#[test]
fn intervals_are_refused(rt: HostRuntime) -> Result<(), Fail> {
    let layouts = numbers(rt.alloc(), 2)?;
    let texts = [
        "",
        "2",
        "-0",
        "0 ",
        "1 -5 7",
        "1 7 -5 0 0",
        "1 0 0 0 1000001",
        "1 n 0 0 0",
    ];
    expect_refused(&rt, rt.alloc(), &Interval, &layouts, &texts)
}

#[test]
fn intervals_are_ordered(rt: HostRuntime) -> Result<(), Fail> {
    let layouts = numbers(rt.alloc(), 1)?;
    let pairs = [
        ("1 0 5", "1 -1 5", true),
        ("0", "1 0 5", true),
        ("1 -1 5", "1 0 5", false),
    ];
    expect_order(&rt, rt.alloc(), &Interval, &layouts, &pairs)
}

#[test]
fn octagons_come_back(rt: HostRuntime) -> Result<(), Fail> {
    let layouts = numbers(rt.alloc(), 1)?;
    let texts = [
        "0",
        "1 0 n 10 0",
        "1 0 -18446744073709551616 18446744073709551615 0",
    ];
    expect_back(&rt, rt.alloc(), &Octagon, &layouts, &texts)?;
    let layouts = numbers(rt.alloc(), 2)?;
    let texts = ["1 0 n 3 n n 0 n n n n 0 n n 3 n 0"];
    expect_back(&rt, rt.alloc(), &Octagon, &layouts, &texts)
}

#[test]
fn octagons_are_refused(rt: HostRuntime) -> Result<(), Fail> {
    let layouts = numbers(rt.alloc(), 1)?;
    let texts = [
        "1",
        "1 0 n 10",
        "1 0 n 10 1",
        "1 n n 10 n",
        "1 0 n 18446744073709551616 0",
    ];
    expect_refused(&rt, rt.alloc(), &Octagon, &layouts, &texts)?;
    let layouts = numbers(rt.alloc(), 2)?;
    let texts = ["1 0 n 3 n n 0 n n n n 0 n n 4 n 0"];
    expect_refused(&rt, rt.alloc(), &Octagon, &layouts, &texts)
}

/// The left state is closed: bounds that no number keeps make it Empty.
#[test]
fn octagons_are_ordered(rt: HostRuntime) -> Result<(), Fail> {
    let layouts = numbers(rt.alloc(), 1)?;
    let pairs = [
        ("1 0 n 10 0", "1 0 n 12 0", true),
        ("1 0 -12 10 0", "0", true),
        ("1 0 n 12 0", "1 0 n 10 0", false),
    ];
    expect_order(&rt, rt.alloc(), &Octagon, &layouts, &pairs)
}

#[test]
fn segments_come_back(rt: HostRuntime) -> Result<(), Fail> {
    let layouts = link(rt.alloc())?;
    let texts = ["0", "2", "1 1 0 0", "1 1 1 1 1 0", "1 2 0 0 1 1 0 1"];
    expect_back(&rt, rt.alloc(), &ListSeg, &layouts, &texts)
}

/// No graph, a node that no slot reaches, a node that is no anchor, graphs that do not rise.
#[test]
fn segments_are_refused(rt: HostRuntime) -> Result<(), Fail> {
    let layouts = link(rt.alloc())?;
    let texts = [
        "1 0",
        "1 1 0 1 0 0",
        "1 1 1 2 0 2 0 0",
        "1 2 1 1 0 0 0 0",
        "1 2 0 0 0 0",
        "1 1 1 0",
    ];
    expect_refused(&rt, rt.alloc(), &ListSeg, &layouts, &texts)
}

#[test]
fn segments_are_ordered(rt: HostRuntime) -> Result<(), Fail> {
    let layouts = link(rt.alloc())?;
    let pairs = [
        ("1 1 0 0", "1 2 0 0 1 1 0 0", true),
        ("2", "2", true),
        ("1 1 1 1 0 0", "1 1 0 0", false),
        ("2", "1 1 0 0", false),
    ];
    expect_order(&rt, rt.alloc(), &ListSeg, &layouts, &pairs)
}
