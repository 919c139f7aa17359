//! Where a transcript stands between two of its lines.
ghost use Rattle.std.specs.Prelude.{◌≡◌, false};
ghost use Rattle.co_picture.specs.Shape.{next, told_at, in_group, is_whole, number_at};

use co_message::{Item, ItemKind};

/// Where a transcript stands between two of its lines.
#[derive(Clone, Copy)]
pub enum Stand {
    /// Before the first line.
    AtFront,
    /// In a group of lines of this number.
    InGroup {
        /// The number.
        number: u32,
        /// Whether something was sent.
        sending: bool,
    },
    /// Behind a whole group of this number.
    Behind {
        /// The number.
        number: u32,
    },
}

/// At the front of a group.
fn group(number: u32) -> Stand
    ensures { result ≡ Stand.InGroup number false }
{
    Stand::InGroup {
        number,
        sending: false,
    }
}

/// Where a transcript stands behind one more line of a group.
fn in_group(number: u32, sending: bool, what: &ItemKind) -> Option<Stand>
    ensures { result ≡ in_group number sending what.now }
{
    match what {
        ItemKind::Log(_) if !sending => Some(group(number)),
        ItemKind::Sent(_) => Some(Stand::InGroup {
            number,
            sending: true,
        }),
        ItemKind::Answered(_) => Some(Stand::Behind { number }),
        _ => None,
    }
}

impl Stand {
    /// Whether the last group is whole.
    pub(crate) fn is_whole(&self) -> bool
        ensures { result ≡ is_whole self.now }
    {
        matches!(self, Stand::Behind { number: _ })
    }

    /// The number that the next line has.
    fn number(&self) -> u64
        ensures { result ≡ number_at self.now }
    {
        match self {
            Stand::AtFront => 1,
            Stand::InGroup { number, sending: _ } => u64::from(*number),
            Stand::Behind { number } => u64::from(*number) + 1,
        }
    }

    /// Where it stands behind this item, whose number is right, unless that breaks the shape.
    fn told(self, item: &Item) -> Option<Stand>
        ensures { result ≡ told_at item.now.number self item.now.what }
    {
        let number = item.number;
        match self {
            Stand::AtFront => match &item.what {
                ItemKind::Head(_) => Some(group(number)),
                _ => None,
            },
            Stand::InGroup { number: _, sending } => in_group(number, sending, &item.what),
            Stand::Behind { number: _ } => match &item.what {
                ItemKind::Event(_) => Some(group(number)),
                _ => None,
            },
        }
    }

    /// Where it stands behind this item, unless that breaks the shape.
    pub(crate) fn next(self, item: &Item) -> Option<Stand>
        ensures { result ≡ next self item.now }
    {
        if u64::from(item.number) == self.number() {
            self.told(item)
        } else {
            None
        }
    }
}
