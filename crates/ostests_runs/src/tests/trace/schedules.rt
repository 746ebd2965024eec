//! Schedules, and their texts.

use super::marks::{ONE, ZERO};
use osbase::{Choice, CoreId, Turn};
use ostrace::schedule_text;
use std::test::Fail;

const TEN: CoreId = CoreId { number: 10 };

const FIFTEEN: CoreId = CoreId { number: 15 };

// Turns of cores whose numbers have one digit or two.
const SCHEDULES: [(&[Turn], &str); 5] = [
    (&[], r#""""#),
    (&[(ZERO, Choice::Own)], r#""0o""#),
    (
        &[
            (ZERO, Choice::Own),
            (ONE, Choice::Look),
            (ZERO, Choice::Serve(ONE)),
        ],
        r#""0o 1l 0s1""#,
    ),
    (&[(ONE, Choice::Look), (ONE, Choice::Look)], r#""1l 1l""#),
    (
        &[
            (FIFTEEN, Choice::Serve(TEN)),
            (TEN, Choice::Own),
            (ONE, Choice::Serve(FIFTEEN)),
        ],
        r#""15s10 10o 1s15""#,
    ),
];

#[test]
fn a_schedule_has_a_word_for_each_turn(rt: HostRuntime) -> Result<(), Fail> {
    for (turns, text) in SCHEDULES {
        assert_eq!(rt; schedule_text(rt.alloc(), turns)?.as_str(), text);
    }
    Ok(())
}
