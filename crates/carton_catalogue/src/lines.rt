ghost use Rattle.std.specs.Prelude.{◌≡◌, map};
ghost use Rattle.carton_lines.specs.Lines.{Gives};
ghost use Rattle.carton_catalogue.specs.CatalogueLines.{keyword_in, numbered, worded, line_in};

use crate::boxes::{row, single, stroke};
use crate::guides::guide_of;
use carton_base::{Cuboid, Guide, Listed};
use carton_lines::{Fault, Numeral, numbers, words};
use std::alloc::Global;

/// The first word of a line of a catalogue.
#[derive(Clone, Copy)]
pub enum Keyword {
    Stroke,
    Body,
    Row,
    Guide,
}

/// A line of a catalogue between the first and the last, by itself: the stroke, bodies, or a guide.
#[derive(Debug, Drop, PartialEq)]
pub enum CatalogueLine {
    Stroke([i32; 3]),
    Bodies(Listed<Cuboid>),
    Guide(Guide),
}

#[tactic(auto, unfolding(crate::specs::CatalogueLines::keyword_in))]
fn keyword_of(word: &[u8]) -> Option<Keyword>
    ensures { result ≡ keyword_in word.now }
{
    if word == b"stroke".as_slice() {
        Some(Keyword::Stroke)
    } else if word == b"body".as_slice() {
        Some(Keyword::Body)
    } else if word == b"row".as_slice() {
        Some(Keyword::Row)
    } else if word == b"guide".as_slice() {
        Some(Keyword::Guide)
    } else {
        None
    }
}

#[tactic(auto, unfolding(crate::specs::CatalogueLines::numbered))]
fn numbered_line(
    alloc: Global,
    keyword: Keyword,
    numbers: &[Numeral<'_>],
) -> Result<CatalogueLine, Fault>
    ensures { Gives (λ l. l) result (numbered keyword numbers.now) }
{
    match keyword {
        Keyword::Stroke => Ok(CatalogueLine::Stroke(stroke(alloc, numbers)?)),
        Keyword::Body => Ok(CatalogueLine::Bodies(single(alloc, numbers)?)),
        Keyword::Row => Ok(CatalogueLine::Bodies(row(alloc, numbers)?)),
        Keyword::Guide => Ok(CatalogueLine::Guide(guide_of(alloc, numbers)?)),
    }
}

#[tactic(auto, unfolding(crate::specs::CatalogueLines::worded))]
fn worded_line(alloc: Global, words: &[&[u8]]) -> Result<CatalogueLine, Fault>
    ensures { Gives (λ l. l) result (worded (map (λ w. w.now) words.now)) }
{
    let [word, words @ ..] = words else {
        return Err(Fault::BadLine);
    };
    let keyword = keyword_of(word).ok_or(Fault::BadLine)?;
    let numbers = numbers(alloc, words)?;
    numbered_line(alloc, keyword, &numbers)
}

/// A line of a catalogue between the first and the last.
///
/// # Errors
///
/// `BadLine` where the line has no form of the text, then `Range` where one of its numbers is outside its
/// range, or there are more bodies or probes than there may be; or `Memory`.
#[tactic(auto, unfolding(crate::specs::CatalogueLines::line_in))]
pub fn catalogue_line(alloc: Global, line: &[u8]) -> Result<CatalogueLine, Fault>
    ensures { Gives (λ l. l) result (line_in line.now) }
{
    let words = words(alloc, line)?;
    worded_line(alloc, &words)
}
