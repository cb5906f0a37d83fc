//! Edits make the table of names anew where many have no cell, which changes no answer.
use crate::failing::Failing;
use crate::scripts::{Line, Setup, told};
use std::alloc::Global;
use std::test::Fail;

/// Three loops, one inside the other.
const NESTED: Setup<'static> = Setup {
    text: "proc main() { var i: int; var j: int; var k: int; i = 0;
        while (i < 10) { j = 0; while (j < 10) { k = 0; while (k < 10) { k = k + 1; }
        j = j + 1; } i = i + 1; } }",
    budget: 100,
    thresholds: true,
    memo: 1,
};

/// The same, with room for so many results that no table of names is made anew.
const ROOMY: Setup<'static> = Setup {
    memo: 65_536,
    ..NESTED
};

/// Edits of the statement inside all loops, of which each makes new names, with a ticket that stays open and a question.
fn edits(alloc: Global) -> Result<Vec<Line<'static>>, Fail> {
    let mut script = Vec::new(alloc);
    script.push(Line::Ask(2))?;
    for edit in 0..200 {
        let text = if edit % 2 == 0 {
            "k = k + 3;"
        } else {
            "k = k + 1;"
        };
        let stmt = if edit == 0 { 7 } else { 9 + edit };
        script.push(Line::Replace(stmt, text))?;
        script.push(Line::Step(1, 7))?;
        script.push(Line::Before(9))?;
        script.push(Line::Step(1, 0))?;
    }
    script.push(Line::Twice(2))?;
    Ok(script)
}

#[test]
fn new_names_change_no_answer(rt: HostRuntime) -> Result<(), Fail> {
    let script = edits(rt.alloc())?;
    let found = told(rt.alloc(), Failing::at(0), NESTED, script.as_slice())?;
    let expected = told(rt.alloc(), Failing::at(0), ROOMY, script.as_slice())?;
    assert_eq!(rt; found.as_str(), expected.as_str());
    Ok(())
}
