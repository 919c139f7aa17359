//! A line, word for word.
ghost use Rattle.std.specs.Prelude.{◌≡◌, ◌<◌, ◌≤◌, ◌==◌, ◌∷◌, length, [], Some, OnOk, IfOk, IfErr, position};
ghost use Rattle.co_schedule.specs.Words.{space, words_of, words_left, spaced};
ghost use Rattle.co_schedule.specs.Places.{missing, too_long, first_fault, nothing, kind_at};

use crate::fault::{LineKind, Mistake};
use std::marker::Model;

/// The words of a line that were not read yet. A contract sees the list of them.
#[derive(Drop)]
pub struct Words<'a> {
    rest: Option<&'a [u8]>,
}

impl<'a> Model for Words<'a> {
    ghost use Rattle.std.specs.Prelude.{List, ℕ};
    ghost use Rattle.co_schedule.specs.Words.{words_left};

    ghost Value = { List (List ℕ) };

    ghost view = { λ w. words_left w.rest };
}

fn space_in(line: &[u8]) -> Option<usize>
    ensures { result ≡ position (λ byte. byte == space) line.now }
{
    line.iter().position(|byte| *byte == b' ')
}

fn cut(line: &[u8]) -> (&[u8], Option<&[u8]>)
    ensures { words_of line.now ≡ result.0.now ∷ words_left result.1 }
{
    match space_in(line) {
        Some(at) => (&line[..at], Some(&line[at + 1..])),
        None => (line, None),
    }
}

/// A word, and the count of bytes from its start to the end of the line.
#[derive(Clone, Copy)]
pub struct Piece<'a> {
    pub word: &'a [u8],
    pub left: usize,
}

impl<'a> Words<'a> {
    /// The words of the line.
    pub fn of(line: &'a [u8]) -> Words<'a>
        ensures { result ≡ words_of line.now }
    {
        Words { rest: Some(line) }
    }

    /// Takes the next word. The mistake says that a word is missing.
    pub fn take(&mut self) -> Result<Piece<'a>, Mistake>
        ensures found { IfOk result (λ piece. (self.old ≡ piece.word.now ∷ self.new) × (piece.left ≡ length (spaced self.old))) }
        ensures none { IfErr result (λ mistake. (self.old ≡ []) × (mistake ≡ missing)) }
    {
        match self.rest {
            None => Err(Mistake {
                kind: LineKind::Word,
                left: 0,
            }),
            Some(rest) => {
                let (word, behind) = cut(rest);
                self.rest = behind;
                Ok(Piece {
                    word,
                    left: rest.len(),
                })
            }
        }
    }

    /// Tests that what is left has at most so many bytes.
    pub fn within(&self, most: usize) -> Result<(), Mistake>
        ensures found { OnOk result (length (spaced self.now) ≤ most) }
        ensures fault { IfErr result (λ mistake. (most < length (spaced self.now)) × (mistake ≡ too_long self.now)) }
    {
        match self.rest {
            Some(rest) if rest.len() > most => Err(Mistake {
                kind: LineKind::Word,
                left: rest.len(),
            }),
            _ => Ok(()),
        }
    }

    /// Tests that nothing is left.
    pub fn end(&self) -> Result<(), Mistake>
        ensures found { OnOk result (self.now ≡ []) }
        ensures fault { IfErr result (λ mistake. first_fault nothing self.now ≡ Some mistake) }
    {
        match self.rest {
            None => Ok(()),
            Some(rest) => Err(Mistake {
                kind: LineKind::Extra,
                left: rest.len(),
            }),
        }
    }
}

impl<'a> Piece<'a> {
    /// The mistake that this word is none of those that may stand here.
    pub fn wrong(&self, kind: LineKind) -> Mistake
        ensures { result ≡ record { kind = kind_at kind self.now.word.now; left = self.now.left } }
    {
        let kind = if self.word.is_empty() {
            LineKind::Word
        } else {
            kind
        };
        Mistake {
            kind,
            left: self.left,
        }
    }
}
