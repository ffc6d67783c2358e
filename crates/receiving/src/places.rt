//! Places in a document by line and column.
ghost use Rattle.receiving.specs.Places.{IsPlaceIn, column_of, line_of, place_in_trees as place_in, place_of_document, place_of_lexing as place_with, place_of_parsing as place_among};
ghost use Rattle.shapes.specs.View.{fault_of};
ghost use Rattle.std.specs.Prelude.{◌≡◌, ◌+◌, ◌<◌, ◌≤◌, List, length, ℕ};

use fs_lexer::LexFault;
use fs_parser::ParseFault;
use profile::DocumentFault;
use shapes::Fault;

/// A place in a text: how many bytes stand before it, and its line and its column, both counted from 1.
#[derive(Clone, Copy, Debug, PartialEq, Eq)]
pub(crate) struct Place {
    pub at: usize,
    pub line: usize,
    pub column: usize,
}

/// The place before the first byte.
pub(crate) fn first_place() -> Place
    ensures place { (bytes : List ℕ) → IsPlaceIn bytes result }
    ensures at { result.at ≡ 0 }
{
    Place {
        at: 0,
        line: 1,
        column: 1,
    }
}

/// The place behind the next byte.
fn next_place(bytes: &[u8], place: Place) -> Place
    requires known { IsPlaceIn bytes.now place }
    requires within { place.at < length bytes.now }
    ensures place { IsPlaceIn bytes.now result }
    ensures at { result.at ≡ place.at + 1 }
{
    if bytes[place.at] == b'\n' {
        Place {
            at: place.at + 1,
            line: place.line + 1,
            column: 1,
        }
    } else {
        Place {
            at: place.at + 1,
            line: place.line,
            column: place.column + 1,
        }
    }
}

/// The known place, or the first one, where the known one stands behind the end.
fn place_before(known: Place, end: usize) -> Place
    ensures place { (bytes : List ℕ) → IsPlaceIn bytes known → IsPlaceIn bytes result }
    ensures within { result.at ≤ end }
{
    if known.at <= end {
        known
    } else {
        first_place()
    }
}

/// The place of the text before which so many bytes stand, or all. It goes on from one that is known, where that stands before it.
pub(crate) fn place_at(bytes: &[u8], known: Place, at: usize) -> Place
    requires { IsPlaceIn bytes.now known }
    ensures place { IsPlaceIn bytes.now result }
    ensures line { result.line ≡ line_of bytes.now at }
    ensures column { result.column ≡ column_of bytes.now at }
{
    let end = at.min(bytes.len());
    let mut place = place_before(known, end);
    while place.at < end {
        place = next_place(bytes, place);
    }
    place
}

fn place_of_lexing(fault: &LexFault) -> Option<usize>
    ensures { result ≡ place_with fault.now }
{
    match fault {
        LexFault::BadByte { at }
        | LexFault::OpenString { at }
        | LexFault::OpenIri { at }
        | LexFault::WordsTouch { at } => Some(*at),
        LexFault::Memory => None,
    }
}

fn place_of_parsing(fault: &ParseFault) -> Option<usize>
    ensures { result ≡ place_among fault.now }
{
    match fault {
        ParseFault::Unexpected { at }
        | ParseFault::UnexpectedEnd { at }
        | ParseFault::UnknownPrefix { at }
        | ParseFault::PrefixTwice { at }
        | ParseFault::StandardPrefixChanged { at }
        | ParseFault::TooDeep { at } => Some(*at),
        ParseFault::Memory => None,
    }
}

/// The place of a fault of the whole document, where it has one.
pub(crate) fn place_of(fault: &DocumentFault) -> Option<usize>
    ensures { result ≡ place_of_document fault.now }
{
    match fault {
        DocumentFault::NotUtf8 { at } => Some(*at),
        DocumentFault::Lex(fault) => place_of_lexing(fault),
        DocumentFault::Parse(fault) => place_of_parsing(fault),
        DocumentFault::TooLarge
        | DocumentFault::Io
        | DocumentFault::Faults(_)
        | DocumentFault::TooManyNames
        | DocumentFault::Memory => None,
    }
}

/// The place of a fault of a document's trees.
pub(crate) fn place_in_trees(fault: &Fault) -> usize
    ensures { result ≡ place_in (fault_of fault.now) }
{
    match fault {
        Fault::RefusedConstruct { at, .. }
        | Fault::UnknownKeyword { at, .. }
        | Fault::WrongShape { at }
        | Fault::RepeatedOperand { at }
        | Fault::ReservedName { at }
        | Fault::Anonymous { at }
        | Fault::UnknownName { at } => *at,
    }
}
