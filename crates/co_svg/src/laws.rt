//! What the text of every picture promises.
ghost use Rattle.co_svg.specs.Svg.{Picture, svg_text};
ghost use Rattle.co_svg.specs.WellFormed.{IsDocument};

/// The text of a picture is well formed, whatever its texts say: one element, whose tags close in order, with names, distinct attributes
/// and values in quotes; letters of markup are written by their names.
pub fn pictures_are_well_formed()
    ensures { (p : Picture) → IsDocument (svg_text p) }
{}
