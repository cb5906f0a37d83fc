//! What stands after memory ran out.
use crate::failing::Failing;
use crate::scripts::{Line, Setup, told};
use std::test::Fail;

/// Counts to ten, widened at once and without thresholds.
const PLAIN: Setup<'static> = Setup {
    text: "proc main() { var i: int; var n: int; n = 10; i = 0; while (i < n) { i = i + 1; } }",
    budget: 100,
    thresholds: false,
    memo: 1024,
};

#[test]
fn query_fills_the_rest(rt: HostRuntime) -> Result<(), Fail> {
    for number in 1..12 {
        let found = told(rt.alloc(), Failing::at(number), PLAIN, &[Line::Twice(3)])?;
        assert_eq!(rt;
            found.as_str(),
            "Memory 0; i=[10,max] n=[10,10] 11; ",
            "{number}"
        );
    }
    let found = told(rt.alloc(), Failing::at(13), PLAIN, &[Line::Twice(3)])?;
    assert_eq!(rt;
        found.as_str(),
        "i=[10,max] n=[10,10] 11; i=[10,max] n=[10,10] 11; "
    );
    Ok(())
}

#[test]
fn ticket_stays_open(rt: HostRuntime) -> Result<(), Fail> {
    let script = [Line::Ask(3), Line::Step(1, 100), Line::Step(1, 100)];
    for number in 1..12 {
        let found = told(rt.alloc(), Failing::at(number), PLAIN, &script)?;
        assert_eq!(rt;
            found.as_str(),
            "ticket 1; Memory; i=[10,max] n=[10,10]; ",
            "{number}"
        );
    }
    Ok(())
}

/// Counts to ten, and checks that.
const CHECKED: Setup<'static> = Setup {
    text: "proc main() { var i: int; i = 0; while (i < 10) { i = i + 1; } assert i == 10; }",
    ..PLAIN
};

#[test]
fn report_stays_open(rt: HostRuntime) -> Result<(), Fail> {
    let script = [
        Line::Report,
        Line::Step(1, 2),
        Line::Step(1, 100),
        Line::Step(1, 100),
    ];
    for number in 3..10 {
        let found = told(rt.alloc(), Failing::at(number), CHECKED, &script)?;
        assert_eq!(rt;
            found.as_str(),
            "ticket 1; pending 2; Memory; report 1; ",
            "{number}"
        );
    }
    Ok(())
}

/// Counts to ten, with room for one result of an operation, and for one found last.
const FORGETFUL: Setup<'static> = Setup { memo: 1, ..PLAIN };

#[test]
fn kept_answers_take_no_operation(rt: HostRuntime) -> Result<(), Fail> {
    let script = [Line::After(3), Line::Before(4), Line::After(3)];
    let found = told(rt.alloc(), Failing::after(10), FORGETFUL, &script)?;
    assert_eq!(rt;
        found.as_str(),
        "i=[10,max] n=[10,10]; i=[0,9] n=[10,10]; i=[10,max] n=[10,10]; "
    );
    Ok(())
}

#[test]
fn edit_leaves_few_operations(rt: HostRuntime) -> Result<(), Fail> {
    let script = [
        Line::After(3),
        Line::Before(4),
        Line::Replace(4, "i = i + 2;"),
        Line::After(3),
    ];
    let found = told(rt.alloc(), Failing::after(16), FORGETFUL, &script)?;
    assert_eq!(rt;
        found.as_str(),
        "i=[10,max] n=[10,10]; i=[0,9] n=[10,10]; next 6; i=[10,max] n=[10,10]; "
    );
    Ok(())
}
