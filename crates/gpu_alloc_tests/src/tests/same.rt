//! Comparisons with a message. Tests call these, since the words of a failed comparison are slow to prove.

ghost use Rattle.std.specs.Prelude.{◌≡◌, ◌<◌, IsTrue};

use std::fmt::Debug;
use std::process::Abort;

/// The actual value must be the expected one.
pub(super) fn same<T: PartialEq + Debug>(rt: &impl Abort, what: &str, came: &T, wanted: &T) {
    assert_eq!(rt; *came, *wanted, "{what}");
}

/// The same in a row or a step, whose number or name is in the message.
pub(super) fn same_at<T: PartialEq + Debug>(
    rt: &impl Abort,
    what: &str,
    at: &impl Debug,
    came: &T,
    wanted: &T,
) {
    assert_eq!(rt; *came, *wanted, "{what} {at:?}");
}

/// The condition must hold, and proofs of what comes after may use it. If not, the message says what is wrong.
pub(super) fn holds(rt: &impl Abort, is_so: bool, wrong: &str)
    ensures { IsTrue is_so }
{
    assert!(rt; is_so, "{wrong}");
}

/// A number must be below another. If not, the message says what is wrong.
pub(super) fn below(rt: &impl Abort, number: usize, bound: usize, wrong: &str)
    ensures { number < bound }
{
    assert!(rt; number < bound, "{wrong}");
}

/// This must not be reached.
pub(super) fn never<T>(rt: &impl Abort, what: &str) -> T {
    panic!(rt; "{what}")
}

/// The same with a value, which is in the message.
pub(super) fn never_with<T>(rt: &impl Abort, what: &str, came: &impl Debug) -> T {
    panic!(rt; "{what} {came:?}")
}
