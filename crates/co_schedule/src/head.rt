//! The first line of a schedule.
ghost use Rattle.std.specs.Prelude.{◌≡◌, ◌<◌, ◌≤◌, ◌+◌, ◌-◌, ◌++◌, ◌↔◌, ◌⊎◌, [], ◌∷◌, length, map, codes, decimal, is_some, Ok, Err, Some, None, IfOk, IfErr, IfSome, OnOk, IsErrOf, option_map};
ghost use Rattle.co_schedule.specs.Limits.{longest_line};
ghost use Rattle.co_schedule.specs.Words.{Word, words_of};
ghost use Rattle.co_schedule.specs.Spelling.{kind_word, head_words, head_text};
ghost use Rattle.co_schedule.specs.Places.{step, one_of, is_in, first_fault, ◌▸◌};
ghost use Rattle.co_schedule.specs.Grammar.{all_kinds, kind_named, coords_places, kinds_places, head_places};
ghost use Rattle.co_schedule.specs.Faults.{IsFirstFault};
ghost use Rattle.co_schedule.specs.Heads.{kinds_text, kind_or_coords_word};
ghost use Rattle.co_base.specs.declared.head.Head.{Head};
ghost use Rattle.co_base.specs.Limits.{most_coordinators, most_members};

use crate::fault::{LineFault, LineKind, Mistake, ReadFault};
use crate::words::Words;
use crate::writing::{LONGEST_LINE, kind_text};
use co_base::{Head, Kind, Kinds, MOST_COORDINATORS, MOST_MEMBERS};
use std::alloc::Global;

const KINDS: [Kind; 3] = [Kind::Lock, Kind::Occ, Kind::Mv];

fn find_kind(word: &[u8]) -> Option<Kind>
    ensures { result ≡ kind_named word.now }
{
    KINDS.iter().copied().find(|kind| kind_text(*kind) == word)
}

fn kind_of(word: &[u8]) -> Option<Kind>
    ensures found { IfSome result (λ kind. (word.now ≡ kind_word kind) × (kind_named (kind_word kind) ≡ Some kind)) }
    ensures test { is_some result ≡ is_in (one_of (map kind_word all_kinds)) word.now }
{
    find_kind(word)
}

#[tactic(auto, unfolding(crate::specs::Places::step))]
impl<'a> Words<'a> {
    /// Reads this word.
    pub fn fixed(&mut self, word: &[u8]) -> Result<(), Mistake>
        ensures found { OnOk result (self.old ≡ word.now ∷ self.new) }
        ensures taken { OnOk result (step (one_of (word.now ∷ [])) self.old ≡ Ok (word.now, self.new)) }
        ensures fault { IfErr result (λ mistake. step (one_of (word.now ∷ [])) self.old ≡ Err mistake) }
    {
        let piece = self.take()?;
        if word == piece.word {
            Ok(())
        } else {
            Err(piece.wrong(LineKind::Word))
        }
    }

    fn kind(&mut self) -> Result<Kind, Mistake>
        ensures found { IfOk result (λ kind. self.old ≡ kind_word kind ∷ self.new) }
        ensures taken { IfOk result (λ kind. step (one_of (map kind_word all_kinds)) self.old ≡ Ok (kind_word kind, self.new)) }
        ensures fault { IfErr result (λ mistake. step (one_of (map kind_word all_kinds)) self.old ≡ Err mistake) }
    {
        let piece = self.take()?;
        match kind_of(piece.word) {
            Some(kind) => Ok(kind),
            None => Err(piece.wrong(LineKind::Word)),
        }
    }

    // No kind stands for the word `coords`.
    fn kind_or_coords(&mut self) -> Result<Option<Kind>, Mistake>
        ensures found { IfOk result (λ kind. self.old ≡ kind_or_coords_word kind ∷ self.new) }
        ensures taken { IfOk result (λ kind. step (one_of (codes "coords" ∷ map kind_word all_kinds)) self.old ≡ Ok (kind_or_coords_word kind, self.new)) }
        ensures fault { IfErr result (λ mistake. step (one_of (codes "coords" ∷ map kind_word all_kinds)) self.old ≡ Err mistake) }
    {
        let piece = self.take()?;
        if b"coords".as_slice() == piece.word {
            return Ok(None);
        }
        match kind_of(piece.word) {
            Some(kind) => Ok(Some(kind)),
            None => Err(piece.wrong(LineKind::Word)),
        }
    }
}

fn coords_of(words: &mut Words<'_>) -> Result<u8, Mistake>
    ensures found { IfOk result (λ coords. (1 ≤ coords) × (coords ≤ most_coordinators) × (words.old ≡ decimal coords ∷ [])) }
    ensures fault { IfErr result (λ mistake. first_fault coords_places words.old ≡ Some mistake) }
{
    let coords = words.number(1, MOST_COORDINATORS as u32)?;
    words.end()?;
    Ok(coords as u8)
}

fn head_of(words: &mut Words<'_>, kinds: Kinds) -> Result<Head, Mistake>
    requires { (1 ≤ length kinds) × (length kinds ≤ most_members) }
    ensures found { IfOk result (λ head. kinds_text kinds (codes "coords" ∷ words.old) ≡ kinds_text head.kinds (codes "coords" ∷ decimal head.coords ∷ [])) }
    ensures fault { IfErr result (λ mistake. first_fault coords_places words.old ≡ Some mistake) }
{
    let coords = coords_of(words)?;
    Ok(Head { kinds, coords })
}

fn more_kinds(words: &mut Words<'_>, mut kinds: Kinds, more: u8) -> Result<Head, ReadFault>
    requires { (1 ≤ length kinds) × (length kinds + more ≤ most_members) }
    ensures found { IfOk result (λ head. kinds_text kinds words.old ≡ kinds_text head.kinds (codes "coords" ∷ decimal head.coords ∷ [])) }
    ensures fault { IfErr result (IsFirstFault (kinds_places more) words.old) }
{
    if more == 0 {
        words.fixed(b"coords")?;
        return Ok(head_of(words, kinds)?);
    }
    match words.kind_or_coords()? {
        None => Ok(head_of(words, kinds)?),
        Some(kind) => {
            kinds.push(kind)?;
            more_kinds(words, kinds, more - 1)
        }
    }
}

/// Reads a head behind its first word.
pub fn read_head_kinds(alloc: Global, words: &mut Words<'_>) -> Result<Head, ReadFault>
    ensures found { IfOk result (λ head. codes "members" ∷ words.old ≡ head_words head) }
    ensures fault { IfErr result (IsFirstFault (one_of (map kind_word all_kinds) ▸ kinds_places (most_members - 1)) words.old) }
{
    let mut kinds = Kinds::new(alloc);
    kinds.push(words.kind()?)?;
    more_kinds(words, kinds, MOST_MEMBERS - 1)
}

fn read_head_words(alloc: Global, words: &mut Words<'_>) -> Result<Head, ReadFault>
    ensures found { IfOk result (λ head. words.old ≡ head_words head) }
    ensures fault { IfErr result (IsFirstFault head_places words.old) }
{
    words.fixed(b"members")?;
    read_head_kinds(alloc, words)
}

/// Reads the first line of a schedule, without its newline.
///
/// `Long` comes exactly where the line has more than 8,192 bytes, and `Head` exactly where it has
/// not and is the line of no head.
pub fn read_head(alloc: Global, line: &[u8]) -> Result<Head, LineFault>
    ensures found { IfOk result (λ head. line.now ≡ head_text head) }
    ensures only { IsErrOf result LineFault.Head → (head : Head) → line.now ≡ head_text head → ⊥ }
    ensures long { IsErrOf result LineFault.Long ↔ (longest_line < length line.now) }
    ensures faults { IfErr result (λ fault. (fault ≡ LineFault.Long) ⊎ ((fault ≡ LineFault.Head) ⊎ (fault ≡ LineFault.Memory))) }
{
    if line.len() > LONGEST_LINE {
        return Err(LineFault::Long);
    }
    let mut words = Words::of(line);
    match read_head_words(alloc, &mut words) {
        Ok(head) => Ok(head),
        Err(ReadFault::Mistake(_)) => Err(LineFault::Head),
        Err(ReadFault::Memory) => Err(LineFault::Memory),
    }
}
