//! A book of boxes with resources of two kinds.

use super::probe::{Back, Given, Probe, Totals, counts, untouched, used};
use super::same::same;
use rx_book::{At, Key};
use rx_event::Refusal;
use rx_resource::{Resource, Sample, Tracker};
use std::alloc::Global;
use std::test::Fail;

// What came of three resources, of which the first two go in and the third comes back.
#[derive(Drop)]
struct Course {
    answers: [Result<u64, Refusal>; 5],
    totals: Totals,
    given: [Option<Given>; 3],
    back: Option<Back>,
}

// Opens a root with a resource and holds another there, uses both, removes the first and unsubscribes. The key of
// the root, and what the calls answered.
fn used_in<R: Resource>(
    book: &mut Probe<R>,
    first: R,
    second: R,
) -> Result<(Key, [Result<u64, Refusal>; 5]), Back> {
    let opened = book.open_using(At::Root, first)?;
    let held = book.hold(opened.key, second)?;
    let answers = [
        book.apply(held, 5),
        book.apply(opened.res, 3),
        book.apply(held, 3),
        book.remove(opened.res),
        book.dispose(opened.key),
    ];
    Ok((opened.key, answers))
}

// Does so with two in a new book, and takes both; the third is handed in too late.
fn course_of<R: Resource>(alloc: Global, first: R, second: R, third: R) -> Result<Course, Back> {
    let mut book = Probe::new(alloc, 100);
    let (root, answers) = used_in(&mut book, first, second)?;
    let given = [book.take(), book.take(), book.take()];
    let back = book.hold(root, third).err();
    Ok(Course {
        answers,
        totals: book.totals(),
        given,
        back,
    })
}

// That course with boxes of two kinds.
fn course_of_boxes(alloc: Global, tracker: &Tracker) -> Result<Course, Fail> {
    let first: Box<dyn Resource> = Box::new(alloc, tracker.resource(5, None)?)?;
    let second: Box<dyn Resource> = Box::new(alloc, Sample::faulty(6, 2))?;
    let third: Box<dyn Resource> = Box::new(alloc, Sample::new(7))?;
    Ok(course_of(alloc, first, second, third)?)
}

// The two that went in come out in either order.
#[test]
fn boxes_of_two_kinds_stand_in_one_book(rt: HostRuntime) -> Result<(), Fail> {
    let tracker = Tracker::new(rt.alloc())?;
    let course = course_of_boxes(rt.alloc(), &tracker)?;
    let faulty = Given {
        fault: Some(2),
        ..used(2, 6, 2)
    };
    let (one, other) = (Some(used(1, 5, 1)), Some(faulty));
    let given = course.given;
    assert!(rt; given == [one, other, None] || given == [other, one, None]);
    same(
        &rt,
        (course.answers, course.totals, course.back),
        (
            [Ok(5), Ok(3), Ok(6), Ok(6), Ok(7)],
            counts(10, 0, [2, 0, 0, 2]),
            Some(untouched(Refusal::Gone, 7)),
        ),
    );
    same(&rt, (tracker.heard(), tracker.released()), (3, 1));
    Ok(())
}
