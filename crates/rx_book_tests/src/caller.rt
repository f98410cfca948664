//! A caller of the book that is proved: which words it needs, and what it can promise in its turn.

ghost use Rattle.std.specs.Prelude.{◌≡◌, IfOk, IfErr, IfSome, OnErr};
ghost use Rattle.rx_resource.specs.declared.Life.{Life};
ghost use Rattle.rx_book.specs.declared.answer.At.{At};
ghost use Rattle.rx_book.specs.Requests.{using_request};
ghost use Rattle.rx_book.specs.Answers.{IsGivenBack};

use super::probe::Probe;
use super::same::same;
use rx_book::{At, Book, Refused};
use rx_resource::{Released, Resource, Sample};

// Subscribes with a resource and unsubscribes at once, which nothing can refuse; then takes one of
// the resources that wait and releases it. What is refused comes back as it was.
fn use_once<R: Resource>(book: &mut Book<R>, resource: R) -> Result<Option<Released<R>>, Refused<R>>
    ensures released { IfOk result (λ taken. IfSome taken (λ left. R.life_of left.spent ≡ Life.Released)) }
    ensures refused { IfErr result (IsGivenBack book.old (using_request R.Resource book.old At.Root resource) resource) }
    ensures kept { OnErr result (book.new ≡ book.old) }
{
    let opened = book.open_using(At::Root, resource)?;
    book.promise();
    match book.dispose(opened.key) {
        Ok(_) => {}
        Err(_) => unreachable!(),
    }
    let taken = match book.take() {
        Some(handed) => Some(handed.release()),
        None => None,
    };
    Ok(taken)
}

// The number, the tag and the fault of the resource that was used.
fn used_up(book: &mut Book<Sample>) -> Option<(u64, u64, Option<u32>)> {
    match use_once(book, Sample::new(7)) {
        Ok(Some(left)) => Some((left.number, left.tag, left.fault)),
        _ => None,
    }
}

#[test]
fn a_resource_is_used_for_one_subscription(rt: HostRuntime) {
    let mut probe = Probe::new(rt.alloc(), 1000);
    same(&rt, used_up(&mut probe.book), Some((1, 7, None)));
}
