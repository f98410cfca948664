//! What a resource answers, in boxes of two kinds, and that a release takes no memory. That a resource is
//! released in another thread is tested with threads at a desk.

ghost use Rattle.std.specs.Prelude.{◌≡◌, ◌+◌, ◌<◌, ◌^◌};
ghost use Rattle.rx_resource.specs.declared.Life.{Life};

use crate::same::same;
use rx_resource::{Handed, Life, Released, Resource, Sample, Tracker};
use rx_scarce::Scarce;
use std::test::Fail;

// What a caller sees of a resource that it used and handed back.
#[derive(Drop)]
struct Course<R> {
    answered: u64,
    tag: u64,
    uses: u64,
    released: Released<R>,
}

// Applies a resource to a word and hands it back, whatever kind it is.
fn use_and_release<R: Resource>(number: u64, resource: R, word: u64) -> Course<R>
    requires live { R.life_of resource ≡ Life.Live }
    requires countable { R.uses_of resource + 1 < 2 ^ 64 }
    ensures number { result.released.number ≡ number }
    ensures tag { result.tag ≡ R.tag_of resource }
    ensures released_tag { result.released.tag ≡ R.tag_of resource }
    ensures uses { result.uses ≡ R.uses_of resource + 1 }
    ensures spent_tag { R.tag_of result.released.spent ≡ R.tag_of resource }
    ensures spent_released { R.life_of result.released.spent ≡ Life.Released }
{
    let mut used = resource;
    let answered = used.apply(word);
    let handed = Handed::new(number, used);
    let tag = handed.tag();
    let uses = handed.uses();
    let released = handed.release();
    Course {
        answered,
        tag,
        uses,
        released,
    }
}

// A course as what can be compared: the answer, the tag and the uses, the number and the tag of what was
// released, and the tag, the uses and the life that are left of it, and its fault.
fn told<R: Resource>(course: &Course<R>) -> ([u64; 7], Option<u32>, Life) {
    let released = &course.released;
    let numbers = [
        course.answered,
        course.tag,
        course.uses,
        released.number,
        released.tag,
        released.spent.tag(),
        released.spent.uses(),
    ];
    (numbers, released.fault, released.spent.life())
}

// A tracked resource answers the word itself, and a sample the exclusive or of its words.
#[test]
fn boxes_of_two_kinds_are_resources(rt: HostRuntime) -> Result<(), Fail> {
    let tracked = Tracker::new(rt.alloc())?.resource(3, Some(2))?;
    let first: Box<dyn Resource> = Box::new(rt.alloc(), tracked)?;
    let mut sample = Sample::new(5);
    same(&rt, sample.apply(10), 10);
    let second: Box<dyn Resource> = Box::new(rt.alloc(), sample)?;
    let _scarce = Scarce::new(rt.alloc())?;
    assert!(rt; Box::new(rt.alloc(), Sample::new(6)).is_err());
    same(
        &rt,
        told(&use_and_release(7, first, 12)),
        ([12, 3, 1, 7, 3, 3, 1], Some(2), Life::Released),
    );
    same(
        &rt,
        told(&use_and_release(8, second, 12)),
        ([6, 5, 2, 8, 5, 5, 2], None, Life::Released),
    );
    Ok(())
}
