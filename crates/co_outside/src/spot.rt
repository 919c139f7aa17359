//! The places of log files.
use std::fmt;

/// A log file: the one of this part of the log of this node.
///
/// `node` is the node's byte: 1 to 16 for a member, 129 to 136 for a coordinator. `part` is 0 for
/// part `a` and 1 for part `b`. It is shown as the file's name, such as `m1.a` or `c2.b`.
#[derive(Clone, Copy, Debug, PartialEq, Eq)]
pub struct Spot {
    /// The byte of the node.
    pub node: u8,
    /// The part of its log.
    pub part: u8,
}

impl Spot {
    /// The spot that a failed `enter` is counted on: `m1.a`.
    pub const FIRST: Spot = Spot { node: 1, part: 0 };
}

impl fmt::Display for Spot {
    ghost use Rattle.std.specs.Prelude.{Some};
    ghost use Rattle.co_outside.specs.Spots.{spot_name};

    ghost output = { λ s. Some (spot_name s) };

    fn fmt<W: fmt::Write>(&self, f: &mut fmt::Formatter<W>) -> fmt::Result {
        let part = if self.part == 0 { "a" } else { "b" };
        if self.node < 0x80 {
            let number = self.node;
            write!(f, "m{number}.{part}")
        } else {
            let number = self.node - 0x80;
            write!(f, "c{number}.{part}")
        }
    }
}
