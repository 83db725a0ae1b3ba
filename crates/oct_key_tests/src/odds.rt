//! Events at and beyond the bounds, classes at the threshold, and fields at fault.
ghost use Rattle.std.specs.Prelude.{IsTrue};
ghost use Rattle.oct_odds.specs.Odds.{odds_of};
ghost use Rattle.oct_odds.specs.Update.{IsSmallEvent, IsWithin};

use oct_odds::{BadModel, Class, Event, OddsField, OddsModel};
use std::process::Abort;

/// The value after an event that comes again and again, which must be these values in turn.
fn repeat(
    rt: &impl Abort,
    model: &OddsModel,
    event: Event,
    start: Option<i32>,
    wanted: &[i32],
) -> Option<i32>
    requires event { IsSmallEvent event }
    requires within { IsWithin (odds_of model.now) start }
    ensures { IsWithin (odds_of model.now) result }
{
    let mut value = start;
    for want in wanted {
        value = model.apply(event, value);
        assert_eq!(rt; value, Some(*want));
    }
    value
}

#[test]
fn clamps_each_sum_at_once(rt: HostRuntime) {
    let model = OddsModel::default();
    let hit = Event::Add(model.hit);
    let miss = Event::Add(model.miss);

    let high = repeat(&rt, &model, hit, None, &[850, 1700, 2550, 3400, 3500, 3500]);
    repeat(&rt, &model, miss, high, &[3100, 2700]);

    let low = repeat(
        &rt,
        &model,
        miss,
        None,
        &[-400, -800, -1200, -1600, -2000, -2000],
    );
    repeat(&rt, &model, hit, low, &[-1150, -300, 550]);
}

/// Events, values before them, and the values afterwards.
const APPLIED: &[(Event, Option<i32>, Option<i32>)] = &[
    (Event::Add(0), None, Some(0)),
    (Event::Add(-9000), Some(3500), Some(-2000)),
    (Event::Add(1_000_000), Some(3500), Some(3500)),
    (Event::Set(9000), None, Some(3500)),
    (Event::Set(-9000), Some(3500), Some(-2000)),
    (Event::Set(7), Some(3500), Some(7)),
    (Event::Forget, Some(3500), None),
    (Event::Forget, None, None),
    (Event::Likely, Some(0), Some(3500)),
    (Event::Likely, Some(-1), Some(-2000)),
    (Event::Likely, None, None),
];

/// Whether the number in an event, if any, has a magnitude of at most a million.
fn is_small(event: Event) -> bool
    ensures { IsTrue result → IsSmallEvent event }
{
    match event {
        Event::Add(change) => change >= -1_000_000 && change <= 1_000_000,
        Event::Set(value) => value >= -1_000_000 && value <= 1_000_000,
        Event::Forget | Event::Likely => true,
    }
}

/// Whether a known value lies within the bounds of a model.
fn is_within(model: &OddsModel, value: Option<i32>) -> bool
    ensures { IsTrue result → IsWithin (odds_of model.now) value }
{
    match value {
        Some(value) => value >= model.min && value <= model.max,
        None => true,
    }
}

/// Expects the value after an event.
fn expect_applied(
    rt: &impl Abort,
    model: &OddsModel,
    event: Event,
    value: Option<i32>,
    want: Option<i32>,
) {
    assert!(rt; is_small(event) && is_within(model, value));
    assert_eq!(rt; model.apply(event, value), want);
}

/// Expects the value after each event of a table.
fn expect_all_applied(
    rt: &impl Abort,
    model: &OddsModel,
    cases: &[(Event, Option<i32>, Option<i32>)],
) {
    for (event, value, want) in cases {
        expect_applied(rt, model, *event, *value, *want);
    }
}

#[test]
fn applies_each_event(rt: HostRuntime) {
    expect_all_applied(&rt, &OddsModel::default(), APPLIED);
}

/// Values, and what they count as.
const CLASSES: &[(Option<i32>, Class)] = &[
    (None, Class::Unknown),
    (Some(-2000), Class::Free),
    (Some(-1150), Class::Free),
    (Some(-300), Class::Free),
    (Some(-1), Class::Free),
    (Some(0), Class::Occupied),
    (Some(550), Class::Occupied),
    (Some(3500), Class::Occupied),
];

/// Expects what a value counts as.
fn expect_class(rt: &impl Abort, model: &OddsModel, value: Option<i32>, want: Class) {
    assert_eq!(rt; model.class(value), want);
}

/// Expects what each value of a table counts as.
fn expect_classes(rt: &impl Abort, model: &OddsModel, cases: &[(Option<i32>, Class)]) {
    for (value, want) in cases {
        expect_class(rt, model, *value, *want);
    }
}

#[test]
fn compares_with_the_threshold(rt: HostRuntime) {
    expect_classes(&rt, &OddsModel::default(), CLASSES);
}

/// The numbers hit, miss, min, max and thr, and the first field at fault, if any.
const FIELDS: &[(i32, i32, i32, i32, i32, Option<OddsField>)] = &[
    (850, -400, -2000, 3500, 0, None),
    (1, -1, 0, 1, 1, None),
    (1, -1, -1, 0, 0, None),
    (
        1_000_000, -1_000_000, -1_000_000, 1_000_000, 1_000_000, None,
    ),
    (0, -400, -2000, 3500, 0, Some(OddsField::Hit)),
    (1_000_001, -400, -2000, 3500, 0, Some(OddsField::Hit)),
    (i32::MIN, 0, 1, -1, 5, Some(OddsField::Hit)),
    (850, 0, -2000, 3500, 0, Some(OddsField::Miss)),
    (850, -1_000_001, 1, 3500, 0, Some(OddsField::Miss)),
    (850, i32::MIN, -2000, 3500, 0, Some(OddsField::Miss)),
    (850, -400, 1, 3500, 2, Some(OddsField::Min)),
    (850, -400, -1_000_001, -1, 0, Some(OddsField::Min)),
    (850, -400, -2000, -1, 0, Some(OddsField::Max)),
    (850, -400, -2000, 1_000_001, 2_000_000, Some(OddsField::Max)),
    (850, -400, -2000, 3500, -2000, Some(OddsField::Thr)),
    (850, -400, -2000, 3500, 3501, Some(OddsField::Thr)),
    (850, -400, 0, 0, 0, Some(OddsField::Thr)),
    (850, -400, -2000, 3500, i32::MAX, Some(OddsField::Thr)),
];

/// Expects the first field at fault of the numbers hit, miss, min, max and thr.
fn expect_field(rt: &impl Abort, numbers: (i32, i32, i32, i32, i32), want: Option<OddsField>) {
    let (hit, miss, min, max, thr) = numbers;
    let found = match OddsModel::new(hit, miss, min, max, thr) {
        Ok(_) => None,
        Err(e) => Some(e.which),
    };
    assert_eq!(rt; found, want);
}

/// Expects the first field at fault of each row of a table.
fn expect_fields(rt: &impl Abort, cases: &[(i32, i32, i32, i32, i32, Option<OddsField>)]) {
    for (hit, miss, min, max, thr, want) in cases {
        expect_field(rt, (*hit, *miss, *min, *max, *thr), *want);
    }
}

#[test]
fn names_the_first_field_at_fault(rt: HostRuntime) {
    expect_fields(&rt, FIELDS);
}

#[test]
fn prints_the_field_at_fault(rt: HostRuntime) {
    let fault = BadModel {
        which: OddsField::Thr,
    };
    let text = format!(in rt.alloc(); "{fault}").unwrap_or(String::new(rt.alloc()));
    assert_eq!(rt;
        text.as_str(),
        "the field Thr of the log-odds model is out of range"
    );
}
