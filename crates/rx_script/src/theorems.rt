//! What is proved of courses as definitions.

ghost use Rattle.rx_script.specs.Course.{EachHasOneCourse, CanonicalCoursesArePossible};
ghost use Rattle.rx_script.specs.Report.{AreReportedAlike};

/// A scenario with a stock has just one canonical course: the one that has no limit of events, in
/// which what is forced comes in one order, and which drains by rising number. Wherever the limit
/// leaves it room it is a course of the scenario.
pub fn each_scenario_has_one_canonical_course()
    ensures one { EachHasOneCourse }
    ensures possible { CanonicalCoursesArePossible }
{}

/// Two courses of a scenario with a stock, of which neither was cut short by a full history, are
/// reported the same, whatever the order of what was forced and drained in each.
pub fn courses_are_reported_alike()
    ensures { AreReportedAlike }
{}
