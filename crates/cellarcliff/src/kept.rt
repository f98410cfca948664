//! What a handle keeps.

ghost use Rattle.std.specs.Prelude.{◌≡◌, IfOk};
ghost use Rattle.rx_live.specs.Live.{session};
ghost use Rattle.cellarcliff.specs.LiveCalls.{IsSent, IsAnswerRead, IsEnded};
ghost use Rattle.cellarcliff.specs.Stages.{handle_stage, left, opened, unread_length};

use crate::handing::fits;
use crate::live_status::{ANSWER_WAITS, DONE, NOTHING_WAITS, OUT_OF_MEMORY, TOO_SMALL};
use rx_live::Live;
use std::alloc::{AllocError, Global};

/// Whether the last answer of a book is still to be handed out.
#[derive(Clone, Copy)]
pub enum Unread {
    Nothing,
    /// That to a line.
    Answer,
    /// That to the end: the book was ended.
    Last,
}

/// A live book, and what of its answers waits.
#[derive(Drop)]
pub struct Kept {
    live: Live,
    unread: Unread,
}

impl Kept {
    /// A book of which nothing waits.
    pub fn new(live: Live) -> Kept
        ensures { handle_stage result ≡ opened (session live) }
    {
        Kept {
            live,
            unread: Unread::Nothing,
        }
    }

    // The length of the answer that waits.
    fn length(&self) -> Option<usize>
        ensures { result ≡ unread_length self.now }
    {
        match self.unread {
            Unread::Nothing => None,
            Unread::Answer => Some(self.live.answer().len()),
            Unread::Last => Some(self.live.answer().len()),
        }
    }

    /// Sends a line, unless an answer waits.
    pub fn send(&mut self, line: &[u8], buffer: &mut [u8], told: &mut usize) -> u8
        ensures { IsSent (handle_stage self.old) (handle_stage self.new) line.now buffer.old buffer.new told.new result }
    {
        *told = 0;
        if let Some(length) = self.length() {
            *told = length;
            return ANSWER_WAITS;
        }
        match self.live.send(line) {
            Ok(()) => {
                if fits(self.live.answer().as_bytes(), buffer, told) {
                    return DONE;
                }
                self.unread = Unread::Answer;
                TOO_SMALL
            }
            Err(_) => OUT_OF_MEMORY,
        }
    }

    /// Hands out the answer that waits. Says too whether it was the last one.
    pub fn read(&mut self, buffer: &mut [u8], told: &mut usize) -> (u8, bool)
        ensures { IsAnswerRead (handle_stage self.old) (left result.1 self.new) buffer.old buffer.new told.new result.0 }
    {
        *told = 0;
        match self.unread {
            Unread::Nothing => (NOTHING_WAITS, false),
            Unread::Answer => {
                if !fits(self.live.answer().as_bytes(), buffer, told) {
                    return (TOO_SMALL, false);
                }
                self.unread = Unread::Nothing;
                (DONE, false)
            }
            Unread::Last => {
                if fits(self.live.answer().as_bytes(), buffer, told) {
                    (DONE, true)
                } else {
                    (TOO_SMALL, false)
                }
            }
        }
    }

    /// Ends the book, unless an answer waits. Says too whether the last answer was handed out.
    pub fn end(&mut self, buffer: &mut [u8], told: &mut usize) -> (u8, bool)
        ensures { IsEnded (handle_stage self.old) (left result.1 self.new) buffer.old buffer.new told.new result.0 }
    {
        *told = 0;
        if let Some(length) = self.length() {
            *told = length;
            return (ANSWER_WAITS, false);
        }
        match self.live.end() {
            Ok(()) => {
                if fits(self.live.answer().as_bytes(), buffer, told) {
                    return (DONE, true);
                }
                self.unread = Unread::Last;
                (TOO_SMALL, false)
            }
            Err(_) => (OUT_OF_MEMORY, false),
        }
    }
}

/// A book of which nothing waits, in a box. Err where memory is refused for that; the book is dropped then.
pub fn boxed(alloc: Global, live: Live) -> Result<Box<Kept>, AllocError>
    ensures { IfOk result (λ b. handle_stage b.value ≡ opened (session live)) }
{
    let kept = Box::new(alloc, Kept::new(live))?;
    Ok(kept)
}
