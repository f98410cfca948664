//! A dump that just fits, one that does not, and one that a checkpoint cut.

use super::bench::{
    Bench, COMPLETE, LEAF, NEXT, OPEN, PASS, ROOT, SOURCE, Step, USING, nothing_told,
};
use crate::{CellarHandle, cellar_dump, cellar_finish, cellar_new};
use std::alloc::AllocError;

// A subscription with a resource, from its beginning to its end.
static WHOLE: [Step; 4] = [
    (USING, ROOT, PASS, 0, 9),
    (OPEN, SOURCE, LEAF, 1, 0),
    (NEXT, 0, 0, 3, 5),
    (COMPLETE, 0, 0, 3, 0),
];

// The tag is there, and of the item no value.
const DUMP: &str =
    "[[\"open\",\"root\",\"pass\"],[\"accept\",0,9],[\"open\",\"source\",0,\"leaf\"],\
        [\"item\",2,0],[\"end\",2,\"completed\"],[\"end\",0,\"completed\"],[\"take\",1]]\n";

// The status of a dump with so much room, and the length that is told.
fn dumped(bench: &mut Bench, room: usize) -> Result<(u8, u64, bool), AllocError> {
    let mut buffer = vec![in bench.alloc; 7u8; room]?;
    let mut told = 9;
    let status = cellar_dump(
        bench.alloc,
        &mut bench.handle,
        buffer.as_mut_slice(),
        &mut told,
    );
    Ok((status, told, buffer.as_slice() == DUMP.as_bytes()))
}

#[test]
fn a_dump_is_written_where_it_just_fits(rt: HostRuntime) {
    let mut bench = Bench::new(rt.alloc());
    bench.begin(0);
    let mut told = nothing_told();
    let stuck = bench.run(&WHOLE, &mut told);
    let length = DUMP.len();
    let fits = dumped(&mut bench, length);
    let is_small = dumped(&mut bench, length.saturating_sub(1));
    let is_empty = dumped(&mut bench, 0);
    bench.close();
    assert_eq!(rt; stuck, Ok(None));
    assert_eq!(rt; fits, Ok((0, length as u64, true)));
    assert_eq!(rt;
        (is_small, is_empty),
        (Ok((7, length as u64, false)), Ok((7, length as u64, false)))
    );
}

#[test]
fn a_dump_behind_a_checkpoint_is_cut(rt: HostRuntime) {
    let mut bench = Bench::new(rt.alloc());
    bench.begin(8);
    let mut told = nothing_told();
    let opened = bench.step((OPEN, ROOT, LEAF, 0, 1));
    let mut stuck = Ok(None);
    for _ in 0..20 {
        if stuck == Ok(None) {
            stuck = bench.run(&[(NEXT, 0, 0, 1, 5)], &mut told);
        }
    }
    let cut = dumped(&mut bench, 4);
    let is_over = bench.finish(&mut told);
    bench.close();
    assert_eq!(rt; (opened, stuck), (Ok(0), Ok(None)));
    assert_eq!(rt; (cut, is_over), (Ok((8, 0, false)), Ok(true)));
}

#[test]
fn a_handle_keeps_one_engine_at_a_time(rt: HostRuntime) {
    let mut bench = Bench::new(rt.alloc());
    let nothing_kept = bench.step((OPEN, ROOT, LEAF, 0, 1));
    let begun = [bench.begin(0), bench.begin(0)];
    let opened = bench.step((OPEN, ROOT, LEAF, 0, 1));
    let untaken = cellar_finish(bench.alloc, &mut bench.handle);
    let mut told = nothing_told();
    let is_over = bench.finish(&mut told);
    let mut empty = CellarHandle::empty();
    let other = cellar_new(bench.alloc, &mut empty, 0);
    let ended = cellar_finish(bench.alloc, &mut empty);
    if let Some(loose) = empty.into_loose(bench.alloc) {
        drop(loose.into_box());
    }
    bench.close();
    assert_eq!(rt; (nothing_kept, begun, opened), (Ok(1), [0, 3], Ok(0)));
    assert_eq!(rt; (untaken, is_over, other, ended), (6, Ok(true), 0, 0));
}
