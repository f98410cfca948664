//! Texts that are made of fixed words and of numbers.

ghost use Rattle.std.specs.Prelude.{◌≡◌, ◌++◌, string_bytes, OnOk, flat_map, take};
ghost use Rattle.rx_svg.specs.Parts.{piece_text, most_shown, rest_text};

use std::alloc::AllocError;

/// A piece of a text.
#[derive(Clone, Copy)]
pub enum Piece {
    /// Fixed words.
    Words(&'static str),
    /// A number.
    Number(u64),
    /// A number with its sign.
    Signed(i64),
}

fn push_piece(text: &mut String, piece: Piece) -> Result<(), AllocError>
    ensures { OnOk result (string_bytes text.new ≡ string_bytes text.old ++ piece_text piece) }
{
    match piece {
        Piece::Words(words) => text.push_str(words),
        Piece::Number(n) => write!(text, "{n}"),
        Piece::Signed(n) => write!(text, "{n}"),
    }
}

/// Puts the pieces behind the text, one after the other.
pub fn push_pieces(text: &mut String, pieces: &[Piece]) -> Result<(), AllocError>
    ensures { OnOk result (string_bytes text.new ≡ string_bytes text.old ++ flat_map piece_text pieces.now) }
{
    for piece in pieces {
        push_piece(text, *piece)?;
    }
    Ok(())
}

/// Puts pieces behind a text. Words stand as they are, a number in brackets, one with its sign in
/// parentheses.
macro_rules! put {
    (@piece [$number:expr]) => { $crate::pieces::Piece::Number($number) };
    (@piece ($number:expr)) => { $crate::pieces::Piece::Signed($number) };
    (@piece $words:expr) => { $crate::pieces::Piece::Words($words) };
    ($text:expr; $($piece:tt)*) => {
        $crate::pieces::push_pieces($text, &[$(put!(@piece $piece)),*])
    };
}

pub(crate) use put;

/// How many numbers of a list stand in a picture, and how many bytes of a name.
pub const MOST_SHOWN: usize = 200;

/// The first of these, as many as stand in a picture.
#[tactic(auto, using(crate::proofs::ShownFronts::front_whole))]
pub fn front<T>(items: &[T]) -> &[T]
    ensures { result.now ≡ take most_shown items.now }
{
    if items.len() <= MOST_SHOWN {
        return items;
    }
    items.split_at(MOST_SHOWN).0
}

/// How many more there are, if there are more.
#[tactic(auto, unfolding(crate::specs::Parts::rest_text, crate::specs::Parts::text_of))]
pub fn push_rest(text: &mut String, n: usize) -> Result<(), AllocError>
    ensures { OnOk result (string_bytes text.new ≡ string_bytes text.old ++ rest_text n) }
{
    if n == 0 {
        return Ok(());
    }
    put!(text; " and " [n as u64] " more")
}
