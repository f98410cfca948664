//! The closings of the last accepted command, in parts.

ghost use Rattle.std.specs.Prelude.{◌≡◌, ◌-◌, min, drop, length};
ghost use Rattle.rx_cellar.specs.Cellars.{filled};

use rx_engine::Engine;

/// Writes the closings from one on to the front of the words: how many.
#[cold]
#[inline(never)]
pub(crate) fn fill_closings(engine: &Engine, from: usize, words: &mut [u64]) -> usize
    ensures count { result ≡ min (length words.old) (length engine.now.wishes.closings - from) }
    ensures words { words.new ≡ filled (drop from engine.now.wishes.closings) words.old }
{
    let mut count = 0;
    for n in from..engine.closing_count() {
        if count == words.len() {
            return count;
        }
        if let Some(word) = engine.nth_closing(n) {
            words[count] = word;
        }
        count += 1;
    }
    count
}

/// Writes the closings to the front of the words: mostly there are none, or there is one.
#[inline(always)]
pub(crate) fn fill_few_closings(engine: &Engine, words: &mut [u64; 8])
    ensures { words.new ≡ filled engine.now.wishes.closings words.old }
{
    let Some(word) = engine.nth_closing(0) else {
        return;
    };
    if engine.closing_count() == 1 {
        words[0] = word;
    } else {
        let _count = fill_closings(engine, 0, words);
    }
}
