ghost use Rattle.std.specs.Prelude.{◌≡◌, [], ◌∷◌, ◌++◌, IfOk, OnOk, map};
ghost use Rattle.serde_json.specs.View.{view};
ghost use Rattle.json_lines.specs.JsonLines.{IsLineOf};
ghost use Rattle.dsedge_json.specs.Objects.{headroom_data, headroom_lines_in, meter_tests, test_data, tests_at, tests_of};
ghost use Rattle.dsedge_texts.specs.Headed.{headroom_text};

use ds_checker::{Accepted, Headroom, Utilization};
use ds_domain::Name;
use dsedge_texts::name_text;
use json_lines::{figure, line_of};
use serde_json::{Value, json};
use std::alloc::{AllocError, Global};

/// The line of the object of what is taken and what there is at each meter of a table.
#[tactic(auto, using(crate::proofs::ObjectLaws::headroom_plain, crate::proofs::ObjectLaws::headroom_shallow, crate::proofs::ObjectLaws::headroom_says))]
pub fn headroom_line(alloc: Global, accepted: &Accepted) -> Result<Vec<u8>, AllocError>
    ensures object { IfOk result (λ text. IsLineOf (headroom_data accepted.now) text.items) }
    // The lines are made of the object.
    ensures says { headroom_lines_in (headroom_data accepted.now) ≡ headroom_text accepted.now }
{
    let value = headroom_value(alloc, accepted)?;
    line_of(alloc, &value)
}

/// The object of what is taken and what there is at each meter of a table.
fn headroom_value(alloc: Global, accepted: &Accepted) -> Result<Value, AllocError>
    ensures { IfOk result (λ value. view value ≡ headroom_data accepted.now) }
{
    let tests = tests_of(alloc, accepted)?;
    json!(in alloc; {"answer": "headroom", "tests": tests})
}

/// The objects of the tests of a table.
fn tests_of(alloc: Global, accepted: &Accepted) -> Result<Vec<Value>, AllocError>
    ensures { IfOk result (λ tests. map view tests.items ≡ tests_of accepted.now) }
{
    let mut tests = Vec::new(alloc);
    for (meter, _) in accepted.domain().meters().iter() {
        push_tests_at(alloc, &mut tests, accepted, *meter)?;
    }
    Ok(tests)
}

/// Appends the objects of the tests at the meter of a name; nothing where there is none.
fn push_tests_at(
    alloc: Global,
    tests: &mut Vec<Value>,
    accepted: &Accepted,
    meter: Name,
) -> Result<(), AllocError>
    ensures { OnOk result (map view tests.new.items ≡ map view tests.old.items ++ tests_at accepted.now meter) }
{
    match accepted.headroom(meter) {
        Some(headroom) => push_meter_tests(alloc, tests, meter, headroom),
        None => Ok(()),
    }
}

/// Appends the objects of the tests at a meter.
fn push_meter_tests(
    alloc: Global,
    tests: &mut Vec<Value>,
    meter: Name,
    headroom: Headroom,
) -> Result<(), AllocError>
    ensures { OnOk result (map view tests.new.items ≡ map view tests.old.items ++ meter_tests meter headroom) }
{
    let meter = name_text(&meter);
    push_test(alloc, tests, meter, "GreenRate", headroom.green_rate)?;
    push_test(alloc, tests, meter, "GreenBurst", headroom.green_burst)?;
    push_test(alloc, tests, meter, "AllRate", headroom.all_rate)?;
    push_test(alloc, tests, meter, "AllBurst", headroom.all_burst)?;
    Ok(())
}

/// Appends the object of a test at a meter.
fn push_test(
    alloc: Global,
    tests: &mut Vec<Value>,
    meter: &str,
    kind: &str,
    utilization: Utilization,
) -> Result<(), AllocError>
    ensures { OnOk result (map view tests.new.items
        ≡ map view tests.old.items ++ test_data meter.now kind.now utilization ∷ []) }
{
    let test = test_value(alloc, meter, kind, utilization)?;
    Ok(tests.push(test)?)
}

/// The object of a test at a meter.
fn test_value(
    alloc: Global,
    meter: &str,
    kind: &str,
    utilization: Utilization,
) -> Result<Value, AllocError>
    ensures { IfOk result (λ value. view value ≡ test_data meter.now kind.now utilization) }
{
    let taken = figure(alloc, utilization.taken)?;
    let available = figure(alloc, utilization.available)?;
    json!(in alloc; {
        "meter": meter,
        "kind": kind,
        "taken": taken,
        "available": available
    })
}
